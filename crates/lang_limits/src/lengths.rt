// Names that are too long, and lists of too many numbers.
ghost use Rattle.std.specs.Prelude.{◌≡◌, length};
ghost use Rattle.lang_ast.specs.SyntaxView.{expr_view, exprs_view};
ghost use Rattle.lang_ast.specs.Sizes.{name_sizes, is_long_list, expr_lengths, exprs_lengths, parameters_sizes, states_sizes};
ghost use Rattle.lang_limits.specs.LeastOffset.{least_offset_from};

use crate::least::note_excess;
use lang_ast::{Expression, Ident, Operator, Parameter, State};
use rt_values::IntList;

/// The most bytes of a name. A rule of this project.
pub const MOST_NAME_BYTES: usize = 64;

// Updates `least` with the offset of a name if it is too long.
pub fn measure_name(name: &Ident, least: Option<usize>) -> Option<usize>
    ensures { result ≡ least_offset_from least (name_sizes name.now) }
{
    note_excess(name.text.bytes().len() > MOST_NAME_BYTES, name.at, least)
}

// Returns whether an operator makes a list of too many numbers.
fn is_long_list(operator: Operator, operands: &[Expression]) -> bool
    ensures { result ≡ is_long_list operator (length operands.now) }
{
    match operator {
        Operator::Ints => operands.len() > IntList::MOST_ITEMS,
        _ => false,
    }
}

// Updates `least` with the offsets of what is too long in an expression.
#[tactic(auto, using(crate::proofs::Parts::parts, crate::proofs::Parts::operands_counted))]
#[cycle(lengths)]
pub fn measure_lengths(e: &Expression, least: Option<usize>) -> Option<usize>
    ensures { result ≡ least_offset_from least (expr_lengths (expr_view e.now)) }
{
    match e {
        Expression::Literal { .. } => least,
        Expression::Variable { name: n } => measure_name(n, least),
        Expression::Get { name: n, .. } => measure_name(n, least),
        Expression::Apply {
            at,
            operator,
            operands,
        } => measure_all_lengths(
            operands,
            note_excess(is_long_list(*operator, operands), *at, least),
        ),
    }
}

// Updates `least` with the offsets of what is too long in expressions.
#[tactic(auto, using(crate::proofs::Parts::lengths_step))]
#[cycle(lengths)]
fn measure_all_lengths(es: &[Expression], least: Option<usize>) -> Option<usize>
    ensures { result ≡ least_offset_from least (exprs_lengths (exprs_view es.now)) }
{
    let mut least = least;
    for e in es {
        least = measure_lengths(e, least);
    }
    least
}

// Updates `least` with the offsets of the names of parameters that are too long.
#[tactic(auto, using(crate::proofs::Parts::parameters_step))]
pub fn measure_parameter_names(all: &[Parameter], least: Option<usize>) -> Option<usize>
    ensures { result ≡ least_offset_from least (parameters_sizes all.now) }
{
    let mut least = least;
    for parameter in all {
        least = measure_name(&parameter.name, least);
    }
    least
}

// Updates `least` with the offsets of the names of states that are too long.
#[tactic(auto, using(crate::proofs::Parts::states_step))]
pub fn measure_state_names(all: &[State], least: Option<usize>) -> Option<usize>
    ensures { result ≡ least_offset_from least (states_sizes all.now) }
{
    let mut least = least;
    for state in all {
        least = measure_name(&state.name, least);
    }
    least
}
