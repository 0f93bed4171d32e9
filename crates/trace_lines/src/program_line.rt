// The first line of a trace: the program.
ghost use Rattle.std.specs.Prelude.{◌≡◌, ◌++◌, map, codes, OnOk};
ghost use Rattle.std.specs.List.{flat_map};
ghost use Rattle.json.specs.Token.{string};
ghost use Rattle.lang_ast.specs.SyntaxView.{head_view, stmt_view, stmts_view, function_view, functions_view};
ghost use Rattle.lang_ast.specs.Programs.{functions_of};
ghost use Rattle.lang_forms.specs.Words.{policy_word};
ghost use Rattle.trace_lines.specs.TraceLines.{member, array};
ghost use Rattle.trace_lines.specs.ProgramLine.{state_members, state_tokens, site_tokens, head_tokens, stmt_tokens, stmts_tokens, parameters_tokens, function_members, function_tokens, program_tokens};

use crate::tokens::{begin_array, put_bytes, put_count, put_member, put_text, put_word};
use json::Writer;
use lang_ast::{Function, Head, Parameter, State, Statement};
use lang_checks::Checked;
use rt_values::{NoMemory, Word};
use snap_policy::BuiltIn;

// Returns the keyword of a policy.
fn word_of_policy(policy: BuiltIn) -> &'static str
    ensures { result.now ≡ policy_word policy }
{
    match policy {
        BuiltIn::Structural => "Structural",
        BuiltIn::Never => "Never",
        BuiltIn::Counter => "Counter",
        BuiltIn::Largest => "Largest",
        BuiltIn::Append => "Append",
    }
}

// Appends the members of a state.
fn put_state_members(line: &mut Writer, state: &State) -> Result<(), NoMemory>
    ensures tokens { OnOk result (line.new.tokens ≡ line.old.tokens ++ state_members state.now) }
    ensures before { OnOk result (line.new.before ≡ line.old.before) }
{
    put_text(line, "name", state.name.text.bytes())?;
    put_text(line, "type", state.ty.word())?;
    put_word(line, "policy", word_of_policy(state.policy))?;
    put_member(line, "initial", &state.initial)?;
    put_count(line, "at", state.at as u64)
}

// Appends a state.
fn put_state(line: &mut Writer, state: &State) -> Result<(), NoMemory>
    ensures tokens { OnOk result (line.new.tokens ≡ line.old.tokens ++ state_tokens state.now) }
    ensures before { OnOk result (line.new.before ≡ line.old.before) }
{
    line.begin_object()?;
    put_state_members(line, state)?;
    line.end_object()?;
    Ok(())
}

// Appends the states.
fn put_states(line: &mut Writer, states: &[State]) -> Result<(), NoMemory>
    ensures tokens { OnOk result (line.new.tokens
        ≡ line.old.tokens ++ member (codes "states") (array (flat_map state_tokens states.now))) }
    ensures before { OnOk result (line.new.before ≡ line.old.before) }
{
    begin_array(line, "states")?;
    let mut rest = states;
    while let Some((state, more)) = rest.split_first() {
        put_state(line, state)?;
        rest = more;
    }
    line.end_array()?;
    Ok(())
}

// Appends the site and the offset of a statement.
fn put_site(line: &mut Writer, site: u32, at: usize) -> Result<(), NoMemory>
    ensures tokens { OnOk result (line.new.tokens ≡ line.old.tokens ++ site_tokens site at) }
    ensures before { OnOk result (line.new.before ≡ line.old.before) }
{
    line.begin_array()?;
    line.u64(site as u64)?;
    line.u64(at as u64)?;
    line.end_array()?;
    Ok(())
}

// Appends the site and the offset of a statement with this head if it makes a group.
fn put_head(line: &mut Writer, site: u32, at: usize, head: &Head) -> Result<(), NoMemory>
    ensures tokens { OnOk result (line.new.tokens ≡ line.old.tokens ++ head_tokens site at (head_view head.now)) }
    ensures before { OnOk result (line.new.before ≡ line.old.before) }
{
    match head {
        Head::For { .. } => Ok(()),
        Head::Let { .. } => Ok(()),
        _ => put_site(line, site, at),
    }
}

// Appends the site and the offset of a statement and of the statements inside it.
#[cycle(sites)]
fn put_stmt(line: &mut Writer, statement: &Statement) -> Result<(), NoMemory>
    ensures tokens { OnOk result (line.new.tokens ≡ line.old.tokens ++ stmt_tokens (stmt_view statement.now)) }
    ensures before { OnOk result (line.new.before ≡ line.old.before) }
{
    match statement {
        Statement::Call { at, site, .. } => Ok(put_site(line, *site, *at)?),
        Statement::If {
            then_branch,
            else_branch,
            ..
        } => Ok(put_branches(line, then_branch, else_branch)?),
        Statement::Block {
            at,
            site,
            head,
            body,
        } => Ok(put_block(line, *site, *at, head, body)?),
    }
}

// Appends the site and the offset of a statement with this head, and those of the statements of its body.
#[cycle(sites)]
fn put_block(
    line: &mut Writer,
    site: u32,
    at: usize,
    head: &Head,
    body: &[Statement],
) -> Result<(), NoMemory>
    ensures tokens { OnOk result (line.new.tokens ≡ line.old.tokens
        ++ (head_tokens site at (head_view head.now) ++ stmts_tokens (stmts_view body.now))) }
    ensures before { OnOk result (line.new.before ≡ line.old.before) }
{
    put_head(line, site, at, head)?;
    put_stmts(line, body)
}

// Appends the sites and the offsets of the statements of two lists.
#[cycle(sites)]
fn put_branches(
    line: &mut Writer,
    first: &[Statement],
    second: &[Statement],
) -> Result<(), NoMemory>
    ensures tokens { OnOk result (line.new.tokens ≡ line.old.tokens
        ++ (stmts_tokens (stmts_view first.now) ++ stmts_tokens (stmts_view second.now))) }
    ensures before { OnOk result (line.new.before ≡ line.old.before) }
{
    put_stmts(line, first)?;
    put_stmts(line, second)
}

// Appends the sites and the offsets of statements and of the statements inside them.
#[cycle(sites)]
fn put_stmts(line: &mut Writer, statements: &[Statement]) -> Result<(), NoMemory>
    ensures tokens { OnOk result (line.new.tokens
        ≡ line.old.tokens ++ stmts_tokens (stmts_view statements.now)) }
    ensures before { OnOk result (line.new.before ≡ line.old.before) }
{
    for statement in statements {
        put_stmt(line, statement)?;
    }
    Ok(())
}

// Appends the names of parameters.
fn put_parameters(line: &mut Writer, parameters: &[Parameter]) -> Result<(), NoMemory>
    ensures tokens { OnOk result (line.new.tokens
        ≡ line.old.tokens ++ member (codes "parameters") (parameters_tokens parameters.now)) }
    ensures before { OnOk result (line.new.before ≡ line.old.before) }
{
    begin_array(line, "parameters")?;
    let mut rest = parameters;
    while let Some((parameter, more)) = rest.split_first() {
        put_bytes(line, parameter.name.text.bytes())?;
        rest = more;
    }
    line.end_array()?;
    Ok(())
}

// Appends the sites of the body of a function.
fn put_sites(line: &mut Writer, body: &[Statement]) -> Result<(), NoMemory>
    ensures tokens { OnOk result (line.new.tokens
        ≡ line.old.tokens ++ member (codes "sites") (array (stmts_tokens (stmts_view body.now)))) }
    ensures before { OnOk result (line.new.before ≡ line.old.before) }
{
    begin_array(line, "sites")?;
    put_stmts(line, body)?;
    line.end_array()?;
    Ok(())
}

// Appends the members of a function.
fn put_function_members(line: &mut Writer, function: &Function) -> Result<(), NoMemory>
    ensures tokens { OnOk result (line.new.tokens
        ≡ line.old.tokens ++ function_members (function_view function.now)) }
    ensures before { OnOk result (line.new.before ≡ line.old.before) }
{
    put_text(line, "name", function.name.text.bytes())?;
    put_count(line, "at", function.at as u64)?;
    put_parameters(line, &function.parameters)?;
    put_sites(line, &function.body)
}

// Appends a function.
fn put_function(line: &mut Writer, function: &Function) -> Result<(), NoMemory>
    ensures tokens { OnOk result (line.new.tokens
        ≡ line.old.tokens ++ function_tokens (function_view function.now)) }
    ensures before { OnOk result (line.new.before ≡ line.old.before) }
{
    line.begin_object()?;
    put_function_members(line, function)?;
    line.end_object()?;
    Ok(())
}

// Appends the functions.
fn put_functions(line: &mut Writer, functions: &[Function]) -> Result<(), NoMemory>
    ensures tokens { OnOk result (line.new.tokens ≡ line.old.tokens ++ member (codes "functions")
        (array (flat_map function_tokens (functions_view functions.now)))) }
    ensures before { OnOk result (line.new.before ≡ line.old.before) }
{
    begin_array(line, "functions")?;
    let mut rest = functions;
    while let Some((function, more)) = rest.split_first() {
        put_function(line, function)?;
        rest = more;
    }
    line.end_array()?;
    Ok(())
}

// Appends the names of actors.
fn put_actors(line: &mut Writer, actors: &[Word]) -> Result<(), NoMemory>
    ensures tokens { OnOk result (line.new.tokens
        ≡ line.old.tokens ++ member (codes "actors") (array (map string actors.now))) }
    ensures before { OnOk result (line.new.before ≡ line.old.before) }
{
    begin_array(line, "actors")?;
    let mut rest = actors;
    while let Some((actor, more)) = rest.split_first() {
        put_bytes(line, actor.bytes())?;
        rest = more;
    }
    line.end_array()?;
    Ok(())
}

/// Appends the first line of a trace, without LF: the program, the names of the actors of its script, and its source
/// text. Fails if memory runs out, or if a name or the source text is not UTF-8. A source text that was parsed is UTF-8.
pub fn put_program(
    line: &mut Writer,
    program: &Checked,
    actors: &[Word],
    source: &[u8],
) -> Result<(), NoMemory>
    ensures tokens { OnOk result (line.new.tokens ≡ line.old.tokens
        ++ program_tokens program.now.states.items (functions_of program.now) actors.now source.now) }
    ensures before { OnOk result (line.new.before ≡ line.old.before) }
{
    line.begin_object()?;
    put_count(line, "trace", 1)?;
    put_states(line, program.states())?;
    put_functions(line, program.functions())?;
    put_actors(line, actors)?;
    put_text(line, "source", source)?;
    line.end_object()?;
    Ok(())
}
