// The parts of a program that are too many, too long or nested too deep.
ghost use Rattle.std.specs.Prelude.{◌≡◌, ◌+◌, ◌++◌, nat_lt, map, length};
ghost use Rattle.lang_ast.specs.SyntaxView.{expr_view, exprs_view, nameds_view, head_view, stmt_view, stmts_view, function_view, functions_view};
ghost use Rattle.lang_ast.specs.declared.syntax.Function.{Function as function_data};
ghost use Rattle.lang_limits.specs.LeastOffset.{least_offset_from};
ghost use Rattle.lang_ast.specs.Sizes.{most_parts, nesting, deepest, expr_sizes, exprs_sizes, named_sizes, head_sizes, stmt_sizes, stmts_sizes, function_sizes, functions_sizes, first_excess, state_offset, oversized_parts, offset_if};

use crate::least::note_excess;
use crate::lengths::{measure_lengths, measure_name, measure_parameter_names, measure_state_names};
use lang_ast::{Expression, Function, Head, Named, State, Statement};

/// The most states of a program, and the most functions. A rule of this project.
pub const MOST_FORMS: usize = 256;

// The most parameters of a function, attributes of a node and keys of a remember, and the most nested blocks.
const MOST_PARTS: usize = 16;

// The most nested expressions.
const MOST_NESTING: usize = 64;

// Returns whether an expression nests deeper than `most`.
#[tactic(auto, using(crate::proofs::Parts::parts))]
#[cycle(nestings)]
fn is_deeper(most: usize, e: &Expression) -> bool
    ensures { result ≡ nat_lt most (nesting (expr_view e.now)) }
{
    match e {
        Expression::Literal { .. } => most < 1,
        Expression::Variable { .. } => most < 1,
        Expression::Get { .. } => most < 1,
        Expression::Apply { operands, .. } => most < 1 || has_deeper(most - 1, operands),
    }
}

// Returns whether one of the expressions nests deeper than `most`.
#[tactic(auto, using(crate::proofs::Parts::deepest_step))]
#[cycle(nestings)]
fn has_deeper(most: usize, es: &[Expression]) -> bool
    ensures { result ≡ nat_lt most (deepest (exprs_view es.now)) }
{
    for e in es {
        if is_deeper(most, e) {
            return true;
        }
    }
    false
}

// Updates `least` with the offset of an outermost expression if it nests too deep, and with those of what is too long
// in it.
#[tactic(auto, using(crate::proofs::Parts::parts))]
fn measure_expression(e: &Expression, least: Option<usize>) -> Option<usize>
    ensures { result ≡ least_offset_from least (expr_sizes (expr_view e.now)) }
{
    measure_lengths(
        e,
        note_excess(is_deeper(MOST_NESTING, e), e.offset(), least),
    )
}

// Updates `least` with the oversized parts of expressions.
#[tactic(auto, using(crate::proofs::Parts::exprs_step))]
fn measure_expressions(es: &[Expression], least: Option<usize>) -> Option<usize>
    ensures { result ≡ least_offset_from least (exprs_sizes (exprs_view es.now)) }
{
    let mut least = least;
    for e in es {
        least = measure_expression(e, least);
    }
    least
}

// Updates `least` with the oversized parts of named expressions.
#[tactic(auto, using(crate::proofs::Parts::named_step))]
fn measure_values(all: &[Named], least: Option<usize>) -> Option<usize>
    ensures { result ≡ least_offset_from least (named_sizes (nameds_view all.now)) }
{
    let mut least = least;
    for named in all {
        least = measure_expression(&named.value, measure_name(&named.name, least));
    }
    least
}

// Updates `least` with the offset of the statement at `at` if it has too many named expressions, and with the oversized
// parts of those.
#[tactic(auto, using(crate::proofs::Parts::parts))]
fn measure_list(at: usize, all: &[Named], least: Option<usize>) -> Option<usize>
    ensures { result ≡ least_offset_from
        (least_offset_from least (offset_if (nat_lt most_parts (length all.now)) at))
        (named_sizes (nameds_view all.now)) }
{
    measure_values(all, note_excess(all.len() > MOST_PARTS, at, least))
}

// Updates `least` with the oversized parts of the head of the statement at `at`.
#[tactic(auto, using(crate::proofs::Parts::parts, crate::proofs::Parts::keyed_sizes))]
fn measure_head(at: usize, head: &Head, least: Option<usize>) -> Option<usize>
    ensures { result ≡ least_offset_from least (head_sizes at (head_view head.now)) }
{
    match head {
        Head::Node { kind, attributes } => measure_list(at, attributes, measure_name(kind, least)),
        Head::Key { key } => measure_expression(key, least),
        Head::For { name, list } => measure_expression(list, measure_name(name, least)),
        Head::Let { name, value } => measure_expression(value, measure_name(name, least)),
        Head::Remember { name, keys, value } => {
            let least = measure_list(at, keys, measure_name(name, least));
            measure_expression(value, least)
        }
    }
}

// Updates `least` with the oversized parts of a statement in `depth` blocks.
#[tactic(auto, using(crate::proofs::Parts::parts))]
#[cycle(blocks)]
fn measure_statement(depth: usize, s: &Statement, least: Option<usize>) -> Option<usize>
    ensures { result ≡ least_offset_from least (stmt_sizes depth (stmt_view s.now)) }
{
    match s {
        Statement::Call {
            at,
            name,
            arguments,
            ..
        } => {
            let least = note_excess(depth > MOST_PARTS, *at, measure_name(name, least));
            measure_expressions(arguments, least)
        }
        Statement::If {
            at,
            condition,
            then_branch,
            else_branch,
            ..
        } => {
            let least = note_excess(depth > MOST_PARTS, *at, least);
            let least = measure_expression(condition, least);
            measure_body(depth, else_branch, measure_body(depth, then_branch, least))
        }
        Statement::Block { at, head, body, .. } => {
            let least = note_excess(depth > MOST_PARTS, *at, least);
            measure_body(depth, body, measure_head(*at, head, least))
        }
    }
}

// Updates `least` with the oversized parts of the body of a statement in `depth` blocks. All bodies that are nested too
// deep count as the first of them.
#[tactic(auto, using(crate::proofs::Parts::too_deep))]
#[cycle(blocks)]
fn measure_body(depth: usize, body: &[Statement], least: Option<usize>) -> Option<usize>
    ensures { result ≡ least_offset_from least (stmts_sizes (depth + 1) (stmts_view body.now)) }
{
    measure_statements(depth.min(MOST_PARTS) + 1, body, least)
}

// Updates `least` with the oversized parts of statements in `depth` blocks.
#[tactic(auto, using(crate::proofs::Parts::stmts_step))]
#[cycle(blocks)]
fn measure_statements(depth: usize, body: &[Statement], least: Option<usize>) -> Option<usize>
    ensures { result ≡ least_offset_from least (stmts_sizes depth (stmts_view body.now)) }
{
    let mut least = least;
    for s in body {
        least = measure_statement(depth, s, least);
    }
    least
}

// Updates `least` with the oversized parts of a function.
#[tactic(auto, using(crate::proofs::Parts::parts))]
fn measure_function(function: &Function, least: Option<usize>) -> Option<usize>
    ensures { result ≡ least_offset_from least (function_sizes (function_view function.now)) }
{
    let least = measure_name(&function.name, least);
    let least = measure_parameter_names(&function.parameters, least);
    let least = note_excess(function.parameters.len() > MOST_PARTS, function.at, least);
    measure_statements(1, &function.body, least)
}

// Updates `least` with the oversized parts of functions.
#[tactic(auto, using(crate::proofs::Parts::functions_step))]
fn measure_functions(all: &[Function], least: Option<usize>) -> Option<usize>
    ensures { result ≡ least_offset_from least (functions_sizes (functions_view all.now)) }
{
    let mut least = least;
    for one in all {
        least = measure_function(one, least);
    }
    least
}

// Updates `least` with the offset of the first state over the limit.
#[tactic(auto, using(crate::proofs::Parts::state_at))]
fn note_too_many_states(states: &[State], least: Option<usize>) -> Option<usize>
    ensures { result ≡ least_offset_from least (first_excess (map state_offset states.now)) }
{
    match states.get(MOST_FORMS) {
        Some(state) => note_excess(true, state.at, least),
        None => least,
    }
}

// Updates `least` with the offset of the first function over the limit.
#[tactic(auto, using(crate::proofs::Parts::function_at))]
fn note_too_many_functions(functions: &[Function], least: Option<usize>) -> Option<usize>
    ensures { result ≡ least_offset_from least
        (first_excess (map (λ (f : function_data). f.at) functions.now)) }
{
    match functions.get(MOST_FORMS) {
        Some(function) => note_excess(true, function.at, least),
        None => least,
    }
}

/// Returns the least of `least` and the offsets of the oversized parts of a program with these states and functions.
///
/// Those are too many states, functions, parameters, attributes or keys, names that are too long, lists of too many
/// numbers, and expressions or statements that nest too deep. A rule of this project.
#[tactic(auto, using(crate::proofs::Parts::parts, crate::proofs::Parts::function_offsets))]
pub fn size_limit(states: &[State], all: &[Function], least: Option<usize>) -> Option<usize>
    ensures { result ≡ least_offset_from least (oversized_parts states.now (functions_view all.now)) }
{
    let least = note_too_many_states(states, least);
    let least = note_too_many_functions(all, least);
    measure_functions(all, measure_state_names(states, least))
}
