// The types of expressions, and their faults.
ghost use Rattle.std.specs.Prelude.{◌≡◌, ℕ, [], ◌∷◌, ◌++◌, IfOk, OnOk};
ghost use Rattle.lang_ast.specs.SyntaxView.{expr_view, exprs_view, named_view, nameds_view};
ghost use Rattle.lang_checks.specs.FaultOrder.{least_fault_from};
ghost use Rattle.lang_checks.specs.Expressions.{or_int, variable_type, type, types_of, variable_faults, get_faults, expr_faults, exprs_faults, values_faults, typed_names};
ghost use Rattle.lang_checks.specs.Scopes.{typed_name, source_type};
ghost use Rattle.lang_checks.specs.Views.{expression_scope_view};

use crate::environment::TypeEnv;
use crate::faults::{CheckKind, ProgramFault, fault_unless};
use crate::named_parts::source_type;
use crate::operands::{accepts_types, result_type};
use lang_ast::{Expression, Ident, Named, Source, State};
use rt_values::{NoMemory, Ty};
use std::alloc::Global;

/// What an expression may name: the states, the variables around it, and in the calculation of a remember its keys.
#[derive(Clone, Copy)]
pub struct ExpressionScope<'a> {
    pub states: &'a [State],
    pub scope: &'a TypeEnv,
    pub keys: &'a TypeEnv,
    pub calculating: bool,
}

// Returns the type, or Int for a name without one, which is a fault.
fn or_int(ty: Option<Ty>) -> Ty
    ensures { result ≡ or_int ty }
{
    match ty {
        Some(ty) => ty,
        None => Ty::Int,
    }
}

// Infers the type of a variable, and updates `least` with its faults.
#[tactic(auto, using(crate::proofs::Least::answers))]
fn infer_variable(
    look: &ExpressionScope,
    name: &Ident,
    least: Option<ProgramFault>,
) -> (Ty, Option<ProgramFault>)
    ensures ty { result.0 ≡ variable_type (expression_scope_view look.now) name.now.text }
    ensures least { result.1 ≡ least_fault_from least
        (variable_faults (expression_scope_view look.now) name.now.text name.now.at) }
{
    let key = look.keys.find(name);
    let around = look.scope.find(name);
    let least = fault_unless(
        key.is_some() || around.is_some(),
        CheckKind::Unknown,
        name.at,
        least,
    );
    let least = fault_unless(
        !look.calculating || key.is_some(),
        CheckKind::Remember,
        name.at,
        least,
    );
    match key {
        Some(ty) => (ty, least),
        None => (or_int(around), least),
    }
}

// Infers the type of a `get`, and updates `least` with its faults.
#[tactic(auto, using(crate::proofs::Least::answers))]
fn infer_get(
    look: &ExpressionScope,
    name: &Ident,
    source: Source,
    at: usize,
    least: Option<ProgramFault>,
) -> (Ty, Option<ProgramFault>)
    ensures ty { result.0 ≡ or_int (source_type look.now.states.now name.now.text source) }
    ensures least { result.1 ≡ least_fault_from least
        (get_faults (expression_scope_view look.now) name.now.text source at) }
{
    let ty = source_type(look.states, name, source);
    let least = fault_unless(ty.is_some(), CheckKind::Unknown, at, least);
    let least = fault_unless(!look.calculating, CheckKind::Remember, at, least);
    (or_int(ty), least)
}

/// Infers the type of `e`, and updates `least` with the faults in `e`.
#[tactic(auto, using(lang_ast::proofs::Views::expressions, crate::proofs::Least::answers))]
#[cycle(types)]
pub fn infer_expression(
    alloc: Global,
    look: &ExpressionScope,
    e: &Expression,
    least: Option<ProgramFault>,
) -> Result<(Ty, Option<ProgramFault>), NoMemory>
    ensures ty { IfOk result (λ r. r.0 ≡ type (expression_scope_view look.now) (expr_view e.now)) }
    ensures least { IfOk result (λ r. r.1
        ≡ least_fault_from least (expr_faults (expression_scope_view look.now) (expr_view e.now))) }
{
    match e {
        Expression::Literal { value, .. } => Ok((value.ty(), least)),
        Expression::Variable { name } => Ok(infer_variable(look, name, least)),
        Expression::Get { at, name, source } => Ok(infer_get(look, name, *source, *at, least)),
        Expression::Apply {
            at,
            operator,
            operands,
        } => {
            let (types, least) = infer_expressions(alloc, look, operands, least)?;
            let least = fault_unless(
                accepts_types(*operator, &types),
                CheckKind::Type,
                *at,
                least,
            );
            Ok((result_type(*operator, &types), least))
        }
    }
}

// Appends the type of an expression to `types`, and updates `least` with its faults.
#[tactic(auto)]
#[cycle(types)]
fn add_type(
    alloc: Global,
    look: &ExpressionScope,
    types: &mut Vec<Ty>,
    e: &Expression,
    least: Option<ProgramFault>,
) -> Result<Option<ProgramFault>, NoMemory>
    ensures types { OnOk result (types.new.items ≡ types.old.items
        ++ type (expression_scope_view look.now) (expr_view e.now) ∷ []) }
    ensures least { IfOk result (λ r. r
        ≡ least_fault_from least (expr_faults (expression_scope_view look.now) (expr_view e.now))) }
{
    let (ty, least) = infer_expression(alloc, look, e, least)?;
    types.push(ty)?;
    Ok(least)
}

/// Infers the types of expressions, and updates `least` with their faults.
#[cycle(types)]
pub fn infer_expressions(
    alloc: Global,
    look: &ExpressionScope,
    es: &[Expression],
    least: Option<ProgramFault>,
) -> Result<(Vec<Ty>, Option<ProgramFault>), NoMemory>
    ensures types { IfOk result (λ r. r.0.items
        ≡ types_of (expression_scope_view look.now) (exprs_view es.now)) }
    ensures least { IfOk result (λ r. r.1
        ≡ least_fault_from least (exprs_faults (expression_scope_view look.now) (exprs_view es.now))) }
{
    let mut types = Vec::new(alloc);
    let mut least = least;
    for e in es {
        least = add_type(alloc, look, &mut types, e, least)?;
    }
    Ok((types, least))
}

// Binds a name to the type of its expression, and updates `least` with the faults of that.
fn add_bound(
    alloc: Global,
    look: &ExpressionScope,
    into: &mut TypeEnv,
    named: &Named,
    least: Option<ProgramFault>,
) -> Result<Option<ProgramFault>, NoMemory>
    ensures bounds { OnOk result (into.new ≡ into.old
        ++ typed_name named.now.name (type (expression_scope_view look.now) (named_view named.now).value) ∷ []) }
    ensures least { IfOk result (λ r. r
        ≡ least_fault_from least (expr_faults (expression_scope_view look.now) (named_view named.now).value)) }
{
    let (ty, least) = infer_expression(alloc, look, &named.value, least)?;
    into.push(&named.name, ty)?;
    Ok(least)
}

/// Binds names to the types of their expressions, and updates `least` with the faults of those.
pub fn infer_values(
    alloc: Global,
    look: &ExpressionScope,
    all: &[Named],
    least: Option<ProgramFault>,
) -> Result<(TypeEnv, Option<ProgramFault>), NoMemory>
    ensures bounds { IfOk result (λ r. r.0 ≡ typed_names (expression_scope_view look.now) (nameds_view all.now)) }
    ensures least { IfOk result (λ r. r.1
        ≡ least_fault_from least (values_faults (expression_scope_view look.now) (nameds_view all.now))) }
{
    let mut into = TypeEnv::new(alloc);
    let mut least = least;
    for named in all {
        least = add_bound(alloc, look, &mut into, named, least)?;
    }
    Ok((into, least))
}
