// Writes a program as trees.
ghost use Rattle.std.specs.Prelude.{◌≡◌, [], codes, IfOk, OnOk, None};
ghost use Rattle.sexp_text.specs.Forest.{Forest, atom, list, empty, joined_trees};
ghost use Rattle.sexp_text.specs.View.{forest_view};
ghost use Rattle.lang_ast.specs.SyntaxView.{expr_view, exprs_view, nameds_view, head_view, stmt_view, stmts_view, function_view, functions_view};
ghost use Rattle.lang_ast.specs.Programs.{program_view};
ghost use Rattle.lang_forms.specs.Sketch.{Sketch, nothing, group, unplaced_sketch};
ghost use Rattle.lang_write.specs.Appends.{AppendsForms, StartsForm, bound_start, block_sketch, call_sketch};
ghost use Rattle.lang_forms.specs.Words.{version_word};
ghost use Rattle.lang_forms.specs.Forms.{expr_forms, head_forms, stmt_forms, stmts_forms, parameters_forms, state_forms, states_forms, function_forms, functions_forms, text_forms};

use crate::write_expressions::{
    list_with_word, put_binding, put_expr, put_exprs, put_list, put_literal, put_named, put_word,
    word_of_policy,
};
use lang_ast::{Expression, Function, Head, Ident, Parameter, Program, State, Statement, Version};
use rt_values::NoMemory;
use sexp_text::Tree;
use std::alloc::Global;

// Appends the form of a statement.
#[tactic(auto, using(lang_ast::proofs::Views::views, crate::proofs::Written::written))]
#[cycle(statements)]
fn put_stmt(alloc: Global, statement: &Statement, out: &mut Vec<Tree>) -> Result<(), NoMemory>
    ensures { OnOk result (AppendsForms out.old.items out.new.items
        (λ g. stmt_forms (stmt_view statement.now) g)) }
{
    match statement {
        Statement::Call {
            name,
            arguments,
            ..
        } => Ok(put_call(alloc, name, arguments, out)?),
        Statement::If {
            condition,
            then_branch,
            else_branch,
            ..
        } => Ok(put_if(alloc, condition, then_branch, else_branch, out)?),
        Statement::Block { head, body, .. } => Ok(put_block(alloc, head, body, out)?),
    }
}

// Returns the form of a `for` or a `let` before its body: `word`, a name and an expression.
#[tactic(auto, using(crate::proofs::Written::written))]
fn start_bound(
    alloc: Global,
    word: &[u8],
    name: &Ident,
    value: &Expression,
) -> Result<Vec<Tree>, NoMemory>
    ensures { IfOk result (λ trees. StartsForm trees.items (bound_start word.now name.now (expr_view value.now))) }
{
    let mut inner = list_with_word(alloc, word)?;
    put_binding(alloc, name, value, &mut inner)?;
    Ok(inner)
}

// Returns the form of a statement with a body before its body.
#[tactic(auto, using(crate::proofs::Written::written))]
fn start_head(alloc: Global, head: &Head) -> Result<Vec<Tree>, NoMemory>
    ensures { IfOk result (λ trees. StartsForm trees.items (head_forms (head_view head.now))) }
{
    match head {
        Head::Node { kind, attributes } => {
            let mut inner = list_with_word(alloc, b"node")?;
            put_named(alloc, kind, attributes, &mut inner)?;
            Ok(inner)
        }
        Head::Key { key } => {
            let mut inner = list_with_word(alloc, b"key")?;
            put_expr(alloc, key, &mut inner)?;
            Ok(inner)
        }
        Head::For { name, list } => Ok(start_bound(alloc, b"for", name, list)?),
        Head::Let { name, value } => Ok(start_bound(alloc, b"let", name, value)?),
        Head::Remember { name, keys, value } => {
            let mut inner = list_with_word(alloc, b"remember")?;
            put_named(alloc, name, keys, &mut inner)?;
            put_expr(alloc, value, &mut inner)?;
            Ok(inner)
        }
    }
}

// Appends the form that starts with the trees `start` and ends with statements.
#[tactic(auto, using(crate::proofs::Written::written))]
#[cycle(statements)]
fn put_body(
    alloc: Global,
    start: Vec<Tree>,
    body: &[Statement],
    out: &mut Vec<Tree>,
) -> Result<(), NoMemory>
    ensures { OnOk result (forest_view out.new.items
        ≡ joined_trees (forest_view out.old.items)
        (list 0 (joined_trees (forest_view start.items) (unplaced_sketch (stmts_forms (stmts_view body.now)))) empty)) }
{
    let mut inner = start;
    put_stmts(alloc, body, &mut inner)?;
    put_list(inner, out)
}

// Appends the form of a statement with a head and a body.
#[cycle(statements)]
fn put_block(
    alloc: Global,
    head: &Head,
    body: &[Statement],
    out: &mut Vec<Tree>,
) -> Result<(), NoMemory>
    ensures { OnOk result (AppendsForms out.old.items out.new.items
        (block_sketch (head_view head.now) (stmts_view body.now))) }
{
    let start = start_head(alloc, head)?;
    Ok(put_body(alloc, start, body, out)?)
}

// Appends the form of a call.
#[tactic(auto, using(crate::proofs::Written::written))]
fn put_call(
    alloc: Global,
    name: &Ident,
    arguments: &[Expression],
    out: &mut Vec<Tree>,
) -> Result<(), NoMemory>
    ensures { OnOk result (AppendsForms out.old.items out.new.items
        (call_sketch name.now (exprs_view arguments.now))) }
{
    let mut inner = list_with_word(alloc, b"call")?;
    put_word(alloc, name.text.bytes(), &mut inner)?;
    put_exprs(alloc, arguments, &mut inner)?;
    Ok(put_list(inner, out)?)
}

// Appends the form of an if.
#[cycle(statements)]
fn put_if(
    alloc: Global,
    condition: &Expression,
    first: &[Statement],
    second: &[Statement],
    out: &mut Vec<Tree>,
) -> Result<(), NoMemory>
    ensures { OnOk result ((g : Sketch) →
        joined_trees (forest_view out.new.items) (unplaced_sketch g)
        ≡ joined_trees (forest_view out.old.items)
        (list 0 (atom 0 (codes "if")
        (unplaced_sketch (expr_forms (expr_view condition.now)
        (group None (stmts_forms (stmts_view first.now))
        (group None (stmts_forms (stmts_view second.now)) nothing))))) (unplaced_sketch g))) }
{
    let mut inner = list_with_word(alloc, b"if")?;
    put_expr(alloc, condition, &mut inner)?;
    put_branches(alloc, first, second, &mut inner)?;
    Ok(put_list(inner, out)?)
}

// Appends two lists of statements.
#[tactic(auto, using(crate::proofs::Written::written))]
#[cycle(statements)]
fn put_branches(
    alloc: Global,
    first: &[Statement],
    second: &[Statement],
    out: &mut Vec<Tree>,
) -> Result<(), NoMemory>
    ensures { OnOk result (forest_view out.new.items
        ≡ joined_trees (forest_view out.old.items)
        (unplaced_sketch (group None (stmts_forms (stmts_view first.now))
        (group None (stmts_forms (stmts_view second.now)) nothing)))) }
{
    put_body(alloc, Vec::new(alloc), first, out)?;
    put_body(alloc, Vec::new(alloc), second, out)
}

// Appends the forms of statements.
#[tactic(auto, using(crate::proofs::Written::stmts_step))]
#[cycle(statements)]
fn put_stmts(alloc: Global, statements: &[Statement], out: &mut Vec<Tree>) -> Result<(), NoMemory>
    ensures { OnOk result (forest_view out.new.items
        ≡ joined_trees (forest_view out.old.items)
        (unplaced_sketch (stmts_forms (stmts_view statements.now)))) }
{
    for statement in statements {
        put_stmt(alloc, statement, out)?;
    }
    Ok(())
}

// Appends parameters, each in its own list.
#[tactic(auto, using(crate::proofs::Written::written))]
fn put_parameters(
    alloc: Global,
    parameters: &[Parameter],
    out: &mut Vec<Tree>,
) -> Result<(), NoMemory>
    ensures { OnOk result (forest_view out.new.items
        ≡ joined_trees (forest_view out.old.items) (unplaced_sketch (parameters_forms parameters.now))) }
{
    let mut rest = parameters;
    while let Some((parameter, more)) = rest.split_first() {
        let mut inner = Vec::new(alloc);
        put_word(alloc, parameter.name.text.bytes(), &mut inner)?;
        put_word(alloc, parameter.ty.word(), &mut inner)?;
        put_list(inner, out)?;
        rest = more;
    }
    Ok(())
}

// Appends the form of a state.
#[tactic(auto, using(crate::proofs::Written::written))]
fn put_state(alloc: Global, state: &State, out: &mut Vec<Tree>) -> Result<(), NoMemory>
    ensures { OnOk result ((g : Sketch) →
        joined_trees (forest_view out.new.items) (unplaced_sketch g)
        ≡ joined_trees (forest_view out.old.items) (unplaced_sketch (state_forms state.now g))) }
{
    let mut inner = list_with_word(alloc, b"state")?;
    put_word(alloc, state.name.text.bytes(), &mut inner)?;
    put_word(alloc, state.ty.word(), &mut inner)?;
    put_word(alloc, word_of_policy(state.policy), &mut inner)?;
    put_literal(alloc, &state.initial, &mut inner)?;
    put_list(inner, out)
}

// Appends the forms of states.
fn put_states(alloc: Global, states: &[State], out: &mut Vec<Tree>) -> Result<(), NoMemory>
    ensures { OnOk result ((g : Sketch) →
        joined_trees (forest_view out.new.items) (unplaced_sketch g)
        ≡ joined_trees (forest_view out.old.items) (unplaced_sketch (states_forms states.now g))) }
{
    let mut rest = states;
    while let Some((state, more)) = rest.split_first() {
        put_state(alloc, state, out)?;
        rest = more;
    }
    Ok(())
}

// Appends the form of a function.
#[tactic(auto, using(crate::proofs::Written::written))]
fn put_function(alloc: Global, function: &Function, out: &mut Vec<Tree>) -> Result<(), NoMemory>
    ensures { OnOk result ((g : Sketch) →
        joined_trees (forest_view out.new.items) (unplaced_sketch g)
        ≡ joined_trees (forest_view out.old.items)
        (unplaced_sketch (function_forms (function_view function.now) g))) }
{
    let mut inner = list_with_word(alloc, b"fun")?;
    put_word(alloc, function.name.text.bytes(), &mut inner)?;
    let mut parameters = Vec::new(alloc);
    put_parameters(alloc, &function.parameters, &mut parameters)?;
    put_list(parameters, &mut inner)?;
    put_stmts(alloc, &function.body, &mut inner)?;
    put_list(inner, out)
}

// Appends the forms of functions.
fn put_functions(alloc: Global, functions: &[Function], out: &mut Vec<Tree>) -> Result<(), NoMemory>
    ensures { OnOk result ((g : Sketch) →
        joined_trees (forest_view out.new.items) (unplaced_sketch g)
        ≡ joined_trees (forest_view out.old.items)
        (unplaced_sketch (functions_forms (functions_view functions.now) g))) }
{
    let mut rest = functions;
    while let Some((function, more)) = rest.split_first() {
        put_function(alloc, function, out)?;
        rest = more;
    }
    Ok(())
}

// Returns the word of a version in the header.
fn word_of_version(version: Version) -> &'static [u8]
    ensures { result.now ≡ version_word version }
{
    match version {
        Version::One => b"1",
    }
}

/// Returns the trees of a program, all at offset 0: the header, the states and the functions.
///
/// They are the trees that the program was parsed from, except for offsets and for the script. A rule of this project.
/// Fails if memory runs out.
#[tactic(auto, using(crate::proofs::Written::written))]
pub fn forms_of(alloc: Global, program: &Program) -> Result<Vec<Tree>, NoMemory>
    ensures { IfOk result (λ trees. forest_view trees.items
        ≡ unplaced_sketch (text_forms
        (record { program = program_view program.now; script = [] }))) }
{
    let mut header = list_with_word(alloc, b"compose")?;
    put_word(alloc, word_of_version(program.version), &mut header)?;
    let mut forms = Vec::new(alloc);
    put_list(header, &mut forms)?;
    put_states(alloc, &program.states, &mut forms)?;
    put_functions(alloc, &program.functions, &mut forms)?;
    Ok(forms)
}
