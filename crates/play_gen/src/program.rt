// The program, part by part. The offset of each part is 0.
ghost use Rattle.std.specs.Prelude.{◌≡◌, ◌≤◌, ◌++◌, ℕ, [], ◌∷◌, IfOk, OnOk, codes};
ghost use Rattle.lang_ast.specs.SyntaxView.{expr_view, exprs_view, nameds_view, head_view, stmt_view, stmts_view, function_view, functions_view};
ghost use Rattle.lang_ast.specs.Terms.{Node, Remember, Call, Block, exprs};
ghost use Rattle.lang_ast.specs.Programs.{program_view};
ghost use Rattle.play_gen.specs.GeneratedProgram.{ident, state, variable, state_value, product, named_value, first_items, generated_states, row_node, row_cell, row_function, keyed_row, all_rows, total_node, page_node, function, generated_functions, generated_program};

use lang_ast::{
    Expression, Function, Head, Ident, Named, Operator, Parameter, Program, Source, State,
    Statement, Version,
};
use rt_values::{IntList, NoMemory, ObjectNo, Ty, Value, Word};
use snap_policy::BuiltIn;
use std::alloc::Global;

/// Returns the identifier with these letters.
pub fn ident(alloc: Global, name: &[u8]) -> Result<Ident, NoMemory>
    ensures { IfOk result (λ n. n ≡ ident name.now) }
{
    Ok(Ident {
        at: 0,
        text: Word::of(alloc, name)?,
    })
}

// Appends a state.
fn add_state(
    alloc: Global,
    states: &mut Vec<State>,
    name: &[u8],
    ty: Ty,
    policy: BuiltIn,
    initial: Value,
) -> Result<(), NoMemory>
    ensures { OnOk result (states.new.items ≡ states.old.items ++ state name.now ty policy initial ∷ []) }
{
    let name = ident(alloc, name)?;
    states.push(State {
        at: 0,
        name,
        ty,
        policy,
        initial,
    })?;
    Ok(())
}

/// Returns the items at the start. A rule of this project.
pub fn first_items(alloc: Global, size: u32) -> Result<IntList, NoMemory>
    ensures { IfOk result (λ l. l ≡ first_items size) }
{
    IntList::range(alloc, 0, size as i64)
}

// Returns the states.
fn generated_states(alloc: Global, size: u32) -> Result<Vec<State>, NoMemory>
    ensures { IfOk result (λ v. v.items ≡ generated_states size) }
{
    let items = Value::Ints(first_items(alloc, size)?);
    let mut states = Vec::new(alloc);
    add_state(
        alloc,
        &mut states,
        b"items",
        Ty::Ints,
        BuiltIn::Structural,
        items,
    )?;
    add_state(
        alloc,
        &mut states,
        b"total",
        Ty::Int,
        BuiltIn::Counter,
        Value::Int(0),
    )?;
    add_state(
        alloc,
        &mut states,
        b"best",
        Ty::Int,
        BuiltIn::Largest,
        Value::Int(0),
    )?;
    add_state(
        alloc,
        &mut states,
        b"scale",
        Ty::Int,
        BuiltIn::Structural,
        Value::Int(1),
    )?;
    Ok(states)
}

// Returns the variable with this name.
#[tactic(auto, using(lang_ast::proofs::Views::views))]
fn variable(alloc: Global, name: &[u8]) -> Result<Expression, NoMemory>
    ensures { IfOk result (λ e. expr_view e ≡ variable name.now) }
{
    Ok(Expression::Variable {
        name: ident(alloc, name)?,
    })
}

// Returns the `get` of the state with this name and number.
#[tactic(auto, using(lang_ast::proofs::Views::views))]
fn state_value(alloc: Global, name: &[u8], number: ObjectNo) -> Result<Expression, NoMemory>
    ensures { IfOk result (λ e. expr_view e ≡ state_value name.now number) }
{
    let name = ident(alloc, name)?;
    Ok(Expression::Get {
        at: 0,
        name,
        source: Source::State(number),
    })
}

// Returns the product of two expressions.
#[tactic(auto, using(lang_ast::proofs::Views::views))]
fn product(alloc: Global, a: Expression, b: Expression) -> Result<Expression, NoMemory>
    ensures { IfOk result (λ e. expr_view e ≡ product (expr_view a) (expr_view b)) }
{
    let operands = vec![in alloc; a, b]?;
    Ok(Expression::Apply {
        at: 0,
        operator: Operator::Multiply,
        operands,
    })
}

// Appends an expression with a name.
#[tactic(auto, using(crate::proofs::Parts::appended))]
fn add_named(
    alloc: Global,
    list: &mut Vec<Named>,
    name: &[u8],
    value: Expression,
) -> Result<(), NoMemory>
    ensures { OnOk result (nameds_view list.new.items
        ≡ nameds_view list.old.items ++ named_value name.now (expr_view value) ∷ []) }
{
    let name = ident(alloc, name)?;
    list.push(Named { name, value })?;
    Ok(())
}

// Appends the variable `of` with a name.
fn add_variable(
    alloc: Global,
    list: &mut Vec<Named>,
    name: &[u8],
    of: &[u8],
) -> Result<(), NoMemory>
    ensures { OnOk result (nameds_view list.new.items
        ≡ nameds_view list.old.items ++ named_value name.now (variable of.now) ∷ []) }
{
    let value = variable(alloc, of)?;
    add_named(alloc, list, name, value)
}

// Appends the `get` of the state `of`, which has this number, with a name.
fn add_state_value(
    alloc: Global,
    list: &mut Vec<Named>,
    name: &[u8],
    of: &[u8],
    number: ObjectNo,
) -> Result<(), NoMemory>
    ensures { OnOk result (nameds_view list.new.items
        ≡ nameds_view list.old.items ++ named_value name.now (state_value of.now number) ∷ []) }
{
    let value = state_value(alloc, of, number)?;
    add_named(alloc, list, name, value)
}

// Returns the block with this head.
#[tactic(auto, using(lang_ast::proofs::Views::views))]
fn block(site: u32, head: Head, body: Vec<Statement>) -> Statement
    ensures { stmt_view result ≡ Block 0 site (head_view head) (stmts_view body.items) }
{
    Statement::Block {
        at: 0,
        site,
        head,
        body,
    }
}

// Returns the node of this kind.
fn node(
    alloc: Global,
    site: u32,
    kind: &[u8],
    attributes: Vec<Named>,
    body: Vec<Statement>,
) -> Result<Statement, NoMemory>
    ensures { IfOk result (λ s. stmt_view s ≡
        Block 0 site (Node (ident kind.now) (nameds_view attributes.items)) (stmts_view body.items)) }
{
    let kind = ident(alloc, kind)?;
    Ok(block(site, Head::Node { kind, attributes }, body))
}

// Returns the call of the function with this name and number.
#[tactic(auto, using(lang_ast::proofs::Views::views))]
fn call(
    alloc: Global,
    site: u32,
    name: &[u8],
    function: usize,
    arguments: Vec<Expression>,
) -> Result<Statement, NoMemory>
    ensures { IfOk result (λ s. stmt_view s ≡ Call 0 site (ident name.now) function (exprs_view arguments.items)) }
{
    let name = ident(alloc, name)?;
    Ok(Statement::Call {
        at: 0,
        site,
        name,
        function,
        arguments,
    })
}

// Returns the body that has only `statement`.
fn body_of(alloc: Global, statement: Statement) -> Result<Vec<Statement>, NoMemory>
    ensures { IfOk result (λ v. v.items ≡ statement ∷ []) }
{
    Ok(vec![in alloc; statement]?)
}

// Returns the item of a row times the state `scale`.
fn scaled_item(alloc: Global) -> Result<Expression, NoMemory>
    ensures { IfOk result (λ e. expr_view e ≡ product (variable (codes "i")) (state_value (codes "scale") 3)) }
{
    let item = variable(alloc, b"i")?;
    let scale = state_value(alloc, b"scale", 3)?;
    product(alloc, item, scale)
}

// Appends the attribute `scaled` of the node of a row.
fn add_scaled(alloc: Global, attributes: &mut Vec<Named>) -> Result<(), NoMemory>
    ensures { let scaled = product (variable (codes "i")) (state_value (codes "scale") 3) in
        OnOk result (nameds_view attributes.new.items
        ≡ nameds_view attributes.old.items ++ named_value (codes "scaled") scaled ∷ []) }
{
    let value = scaled_item(alloc)?;
    add_named(alloc, attributes, b"scaled", value)
}

// Returns the square of a variable.
fn square_of(alloc: Global, name: &[u8]) -> Result<Expression, NoMemory>
    ensures { IfOk result (λ e. expr_view e ≡ product (variable name.now) (variable name.now)) }
{
    let left = variable(alloc, name)?;
    let right = variable(alloc, name)?;
    product(alloc, left, right)
}

// Returns the attributes of the node of a row.
fn row_attributes(alloc: Global) -> Result<Vec<Named>, NoMemory>
    ensures { IfOk result (λ v. nameds_view v.items ≡
        named_value (codes "item") (variable (codes "i"))
        ∷ named_value (codes "square") (variable (codes "sq"))
        ∷ named_value (codes "scaled") (product (variable (codes "i")) (state_value (codes "scale") 3))
        ∷ []) }
{
    let mut attributes = Vec::new(alloc);
    add_variable(alloc, &mut attributes, b"item", b"i")?;
    add_variable(alloc, &mut attributes, b"square", b"sq")?;
    add_scaled(alloc, &mut attributes)?;
    Ok(attributes)
}

// Returns the node of a row.
fn row_node(alloc: Global) -> Result<Statement, NoMemory>
    ensures { IfOk result (λ s. stmt_view s ≡ row_node) }
{
    let attributes = row_attributes(alloc)?;
    node(alloc, 2, b"Row", attributes, Vec::new(alloc))
}

// Returns the `remember` with this name.
fn remember(
    alloc: Global,
    site: u32,
    name: &[u8],
    keys: Vec<Named>,
    value: Expression,
    body: Vec<Statement>,
) -> Result<Statement, NoMemory>
    ensures { IfOk result (λ s. stmt_view s ≡
        Block 0 site (Remember (ident name.now) (nameds_view keys.items) (expr_view value)) (stmts_view body.items)) }
{
    let name = ident(alloc, name)?;
    Ok(block(site, Head::Remember { name, keys, value }, body))
}

// Returns the keys of the `remember` of a row.
fn row_keys(alloc: Global) -> Result<Vec<Named>, NoMemory>
    ensures { IfOk result (λ v. nameds_view v.items ≡ named_value (codes "n") (variable (codes "i")) ∷ []) }
{
    let mut keys = Vec::new(alloc);
    add_variable(alloc, &mut keys, b"n", b"i")?;
    Ok(keys)
}

// Returns the `remember` of a row.
fn row_cell(alloc: Global) -> Result<Statement, NoMemory>
    ensures { IfOk result (λ s. stmt_view s ≡ row_cell) }
{
    let body = body_of(alloc, row_node(alloc)?)?;
    let keys = row_keys(alloc)?;
    let value = square_of(alloc, b"n")?;
    remember(alloc, 1, b"sq", keys, value, body)
}

// Returns a function without parameters.
fn function(alloc: Global, name: &[u8], statement: Statement) -> Result<Function, NoMemory>
    ensures { IfOk result (λ f. function_view f ≡ function name.now [] (stmt_view statement ∷ [])) }
{
    let body = body_of(alloc, statement)?;
    let name = ident(alloc, name)?;
    Ok(Function {
        at: 0,
        name,
        parameters: Vec::new(alloc),
        body,
    })
}

// Returns the function `row`.
fn row_function(alloc: Global) -> Result<Function, NoMemory>
    ensures { IfOk result (λ f. function_view f ≡ row_function) }
{
    let name = ident(alloc, b"row")?;
    let parameter = Parameter {
        name: ident(alloc, b"i")?,
        ty: Ty::Int,
    };
    let parameters = vec![in alloc; parameter]?;
    let body = body_of(alloc, row_cell(alloc)?)?;
    Ok(Function {
        at: 0,
        name,
        parameters,
        body,
    })
}

// Returns the call of `row`.
#[tactic(auto, using(lang_ast::proofs::Views::views))]
fn row_call(alloc: Global) -> Result<Statement, NoMemory>
    ensures { IfOk result (λ s. stmt_view s ≡
        Call 0 5 (ident (codes "row")) 0 (exprs (variable (codes "i") ∷ []))) }
{
    let argument = variable(alloc, b"i")?;
    let arguments = vec![in alloc; argument]?;
    call(alloc, 5, b"row", 0, arguments)
}

// Returns the call of `row` under its key.
fn keyed_row(alloc: Global) -> Result<Statement, NoMemory>
    ensures { IfOk result (λ s. stmt_view s ≡ keyed_row) }
{
    let body = body_of(alloc, row_call(alloc)?)?;
    let key = variable(alloc, b"i")?;
    Ok(block(4, Head::Key { key }, body))
}

// Returns the statement of the function `list`.
fn all_rows(alloc: Global) -> Result<Statement, NoMemory>
    ensures { IfOk result (λ s. stmt_view s ≡ all_rows) }
{
    let body = body_of(alloc, keyed_row(alloc)?)?;
    let list = state_value(alloc, b"items", 0)?;
    let name = ident(alloc, b"i")?;
    Ok(block(3, Head::For { name, list }, body))
}

// Returns the node `Total`.
fn total_node(alloc: Global) -> Result<Statement, NoMemory>
    ensures { IfOk result (λ s. stmt_view s ≡ total_node) }
{
    let mut attributes = Vec::new(alloc);
    add_state_value(alloc, &mut attributes, b"value", b"total", 1)?;
    add_state_value(alloc, &mut attributes, b"best", b"best", 2)?;
    node(alloc, 7, b"Total", attributes, Vec::new(alloc))
}

// Returns the node `Page`.
fn page_node(alloc: Global) -> Result<Statement, NoMemory>
    ensures { IfOk result (λ s. stmt_view s ≡ page_node) }
{
    let mut body = body_of(alloc, total_node(alloc)?)?;
    body.push(call(alloc, 8, b"list", 1, Vec::new(alloc))?)?;
    node(alloc, 6, b"Page", Vec::new(alloc), body)
}

// Returns the function `list`.
fn list_function(alloc: Global) -> Result<Function, NoMemory>
    ensures { IfOk result (λ f. function_view f ≡ function (codes "list") [] (all_rows ∷ [])) }
{
    let statement = all_rows(alloc)?;
    function(alloc, b"list", statement)
}

// Returns the function `root`.
fn root_function(alloc: Global) -> Result<Function, NoMemory>
    ensures { IfOk result (λ f. function_view f ≡ function (codes "root") [] (page_node ∷ [])) }
{
    let statement = page_node(alloc)?;
    function(alloc, b"root", statement)
}

// Returns the functions.
fn generated_functions(alloc: Global) -> Result<Vec<Function>, NoMemory>
    ensures { IfOk result (λ v. functions_view v.items ≡ generated_functions) }
{
    let row = row_function(alloc)?;
    let list = list_function(alloc)?;
    let root = root_function(alloc)?;
    Ok(vec![in alloc; row, list, root]?)
}

/// Returns the program. A rule of this project.
pub fn generated_program(alloc: Global, size: u32) -> Result<Program, NoMemory>
    ensures { IfOk result (λ p. program_view p ≡ generated_program size) }
{
    let states = generated_states(alloc, size)?;
    let functions = generated_functions(alloc)?;
    Ok(Program {
        header: 0,
        version: Version::One,
        states,
        functions,
    })
}
