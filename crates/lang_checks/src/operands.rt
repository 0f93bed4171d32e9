// The types of operands and of results.
ghost use Rattle.std.specs.Prelude.{◌≡◌};
ghost use Rattle.lang_checks.specs.Operands.{same_types, all_ints, is_pair, is_choice, is_plain, accepts_types, second_type, result_type};

use lang_ast::Operator;
use rt_values::Ty;

/// Returns whether two lists of types are equal.
pub fn same_types(types: &[Ty], others: &[Ty]) -> bool
    ensures { result ≡ same_types types.now others.now }
{
    let mut left = types;
    let mut right = others;
    while let Some((ty, more)) = left.split_first() {
        let Some((other, behind)) = right.split_first() else {
            return false;
        };
        if !ty.same(*other) {
            return false;
        }
        left = more;
        right = behind;
    }
    right.is_empty()
}

fn all_ints(types: &[Ty]) -> bool
    ensures { result ≡ all_ints types.now }
{
    types.iter().all(|ty| ty.same(Ty::Int))
}

// Returns whether the types are two equal ones.
fn is_pair(types: &[Ty]) -> bool
    ensures { result ≡ is_pair types.now }
{
    match types {
        [first, second] => first.same(*second),
        _ => false,
    }
}

// Returns whether the types are a Bool and two equal ones.
fn is_choice(types: &[Ty]) -> bool
    ensures { result ≡ is_choice types.now }
{
    match types.split_first() {
        Some((condition, others)) => condition.same(Ty::Bool) && is_pair(others),
        None => false,
    }
}

// Returns whether the types are one Int or one Bool.
fn is_plain(types: &[Ty]) -> bool
    ensures { result ≡ is_plain types.now }
{
    match types {
        [ty] => ty.same(Ty::Int) || ty.same(Ty::Bool),
        _ => false,
    }
}

fn second_type(types: &[Ty]) -> Ty
    ensures { result ≡ second_type types.now }
{
    match types {
        [_, second, ..] => *second,
        _ => Ty::Int,
    }
}

/// Returns whether an operator takes operands of these types.
pub fn accepts_types(operator: Operator, types: &[Ty]) -> bool
    ensures { result ≡ accepts_types operator types.now }
{
    match operator {
        Operator::Add => same_types(types, &[Ty::Int, Ty::Int]),
        Operator::Subtract => same_types(types, &[Ty::Int, Ty::Int]),
        Operator::Multiply => same_types(types, &[Ty::Int, Ty::Int]),
        Operator::Divide => same_types(types, &[Ty::Int, Ty::Int]),
        Operator::Remainder => same_types(types, &[Ty::Int, Ty::Int]),
        Operator::Equal => is_pair(types),
        Operator::Less => same_types(types, &[Ty::Int, Ty::Int]),
        Operator::Not => same_types(types, &[Ty::Bool]),
        Operator::And => same_types(types, &[Ty::Bool, Ty::Bool]),
        Operator::Or => same_types(types, &[Ty::Bool, Ty::Bool]),
        Operator::Pick => is_choice(types),
        Operator::Join => same_types(types, &[Ty::Text, Ty::Text]),
        Operator::Text => is_plain(types),
        Operator::Ints => all_ints(types),
        Operator::Range => same_types(types, &[Ty::Int, Ty::Int]),
        Operator::Push => same_types(types, &[Ty::Ints, Ty::Int]),
        Operator::Concat => same_types(types, &[Ty::Ints, Ty::Ints]),
        Operator::Length => same_types(types, &[Ty::Ints]),
        Operator::At => same_types(types, &[Ty::Ints, Ty::Int]),
    }
}

/// Returns the type of an operator's result: for a pick that of its second operand, and else the same for all operands.
pub fn result_type(operator: Operator, types: &[Ty]) -> Ty
    ensures { result ≡ result_type operator types.now }
{
    match operator {
        Operator::Add => Ty::Int,
        Operator::Subtract => Ty::Int,
        Operator::Multiply => Ty::Int,
        Operator::Divide => Ty::Int,
        Operator::Remainder => Ty::Int,
        Operator::Equal => Ty::Bool,
        Operator::Less => Ty::Bool,
        Operator::Not => Ty::Bool,
        Operator::And => Ty::Bool,
        Operator::Or => Ty::Bool,
        Operator::Pick => second_type(types),
        Operator::Join => Ty::Text,
        Operator::Text => Ty::Text,
        Operator::Ints => Ty::Ints,
        Operator::Range => Ty::Ints,
        Operator::Push => Ty::Ints,
        Operator::Concat => Ty::Ints,
        Operator::Length => Ty::Int,
        Operator::At => Ty::Int,
    }
}
