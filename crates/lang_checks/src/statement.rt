// The faults of statements.
ghost use Rattle.std.specs.Prelude.{◌≡◌, ℕ, [], ◌∷◌, ◌++◌, IfOk, OnOk};
ghost use Rattle.rt_values.specs.declared.value.Ty.TheVariants as ty;
ghost use Rattle.lang_ast.specs.Terms.{Call, If, Block};
ghost use Rattle.lang_ast.specs.SyntaxView.{expr_view, exprs_view, nameds_view, head_view, stmt_view, stmts_view};
ghost use Rattle.lang_checks.specs.FaultOrder.{least_fault_from};
ghost use Rattle.lang_checks.specs.Scopes.{typed_name, duplicate_faults, named_function};
ghost use Rattle.lang_checks.specs.Expressions.{typed_names, values_faults};
ghost use Rattle.lang_checks.specs.Operands.{same_types};
ghost use Rattle.lang_checks.specs.Statements.{plain_scope, names, parameter_types, callee_faults, binding_faults, bound_by, head_faults, stmt_faults, stmts_faults};
ghost use Rattle.lang_checks.specs.Views.{expression_scope_view, statement_context_view};

use crate::duplicates::duplicate_faults;
use crate::environment::TypeEnv;
use crate::expression::{ExpressionScope, infer_expression, infer_expressions, infer_values};
use crate::faults::{CheckKind, ProgramFault, fault_unless};
use crate::named_parts::named_function;
use crate::operands::same_types;
use lang_ast::{Expression, Function, Head, Ident, Named, Parameter, State, Statement};
use rt_values::{NoMemory, Ty};
use std::alloc::Global;

/// What a statement may name: the states, the functions, and the number of the function around it.
#[derive(Clone, Copy)]
pub struct StatementContext<'a> {
    pub states: &'a [State],
    pub functions: &'a [Function],
    pub me: usize,
}

// The names that an expression outside calculations may use.
fn plain_scope<'a>(
    states: &'a [State],
    scope: &'a TypeEnv,
    none: &'a TypeEnv,
) -> ExpressionScope<'a>
    requires { none.now ≡ [] }
    ensures { expression_scope_view result ≡ plain_scope states.now scope.now }
{
    ExpressionScope {
        states,
        scope,
        keys: none,
        calculating: false,
    }
}

// Returns whether parameters have these types.
fn accepts_arguments(parameters: &[Parameter], types: &[Ty]) -> bool
    ensures { result ≡ same_types (parameter_types parameters.now) types.now }
{
    let mut left = parameters;
    let mut right = types;
    while let Some((parameter, more)) = left.split_first() {
        let Some((ty, behind)) = right.split_first() else {
            return false;
        };
        if !parameter.ty.same(*ty) {
            return false;
        }
        left = more;
        right = behind;
    }
    right.is_empty()
}

// Updates `least` with the faults of a call whose arguments have these types.
#[tactic(auto, using(crate::proofs::Least::answers))]
fn check_callee(
    around: &StatementContext,
    name: &Ident,
    number: usize,
    at: usize,
    types: &[Ty],
    least: Option<ProgramFault>,
) -> Option<ProgramFault>
    ensures { result ≡ least_fault_from least
        (callee_faults around.now.me at types.now
        (named_function (statement_context_view around.now).functions name.now.text number)) }
{
    match named_function(around.functions, name, number) {
        None => fault_unless(false, CheckKind::Unknown, at, least),
        Some((number, function)) => {
            let least = fault_unless(number < around.me, CheckKind::Order, at, least);
            fault_unless(
                accepts_arguments(&function.parameters, types),
                CheckKind::Type,
                at,
                least,
            )
        }
    }
}

// Updates `least` with the faults of a call and its arguments.
#[tactic(auto, using(crate::proofs::Least::answers))]
fn check_call(
    alloc: Global,
    around: &StatementContext,
    scope: &TypeEnv,
    at: usize,
    name: &Ident,
    number: usize,
    arguments: &[Expression],
    least: Option<ProgramFault>,
) -> Result<Option<ProgramFault>, NoMemory>
    ensures { IfOk result (λ r. r
        ≡ least_fault_from least (stmt_faults (statement_context_view around.now) scope.now
        (Call at 0 name.now number (exprs_view arguments.now)))) }
{
    let none = TypeEnv::new(alloc);
    let look = plain_scope(around.states, scope, &none);
    let (types, least) = infer_expressions(alloc, &look, arguments, least)?;
    Ok(check_callee(around, name, number, at, &types, least))
}

// Binds named expressions to their types, and updates `least` with the faults of those and of duplicate names.
#[tactic(auto, using(crate::proofs::Least::answers, crate::proofs::Numbered::names_of))]
fn check_values(
    alloc: Global,
    look: &ExpressionScope,
    all: &[Named],
    least: Option<ProgramFault>,
) -> Result<(TypeEnv, Option<ProgramFault>), NoMemory>
    ensures bounds { IfOk result (λ r. r.0 ≡ typed_names (expression_scope_view look.now) (nameds_view all.now)) }
    ensures least { IfOk result (λ r. r.1
        ≡ least_fault_from least (duplicate_faults [] (names (nameds_view all.now))
        ++ values_faults (expression_scope_view look.now) (nameds_view all.now))) }
{
    infer_values(alloc, look, all, duplicate_faults(all, least))
}

// Binds `name` to a type, and updates `least` with the fault of a name that is in scope already.
fn bind_name(
    scope: &mut TypeEnv,
    name: &Ident,
    ty: Ty,
    least: Option<ProgramFault>,
) -> Result<Option<ProgramFault>, NoMemory>
    ensures scope { OnOk result (scope.new ≡ scope.old ++ typed_name name.now ty ∷ []) }
    ensures least { IfOk result (λ r. r ≡ least_fault_from least (binding_faults scope.old name.now)) }
{
    let least = fault_unless(
        scope.find(name).is_none(),
        CheckKind::Double,
        name.at,
        least,
    );
    scope.push(name, ty)?;
    Ok(least)
}

// Updates `least` with the faults of the head of the statement at `at`, and binds the name that its body may use.
#[tactic(auto, using(crate::proofs::Least::answers))]
fn check_head(
    alloc: Global,
    around: &StatementContext,
    scope: &mut TypeEnv,
    at: usize,
    head: &Head,
    least: Option<ProgramFault>,
) -> Result<Option<ProgramFault>, NoMemory>
    ensures scope { OnOk result (scope.new
        ≡ scope.old ++ bound_by (statement_context_view around.now) scope.old (head_view head.now)) }
    ensures least { IfOk result (λ r. r
        ≡ least_fault_from least (head_faults (statement_context_view around.now) scope.old at (head_view head.now))) }
{
    let none = TypeEnv::new(alloc);
    let look = plain_scope(around.states, &*scope, &none);
    match head {
        Head::Node { attributes, .. } => {
            let (_, least) = check_values(alloc, &look, attributes, least)?;
            Ok(least)
        }
        Head::Key { key } => {
            let (_, least) = infer_expression(alloc, &look, key, least)?;
            Ok(least)
        }
        Head::For { name, list } => {
            let (ty, least) = infer_expression(alloc, &look, list, least)?;
            let least = fault_unless(ty.same(Ty::Ints), CheckKind::Type, at, least);
            bind_name(scope, name, Ty::Int, least)
        }
        Head::Let { name, value } => {
            let (ty, least) = infer_expression(alloc, &look, value, least)?;
            bind_name(scope, name, ty, least)
        }
        Head::Remember { name, keys, value } => {
            let (keys, least) = check_values(alloc, &look, keys, least)?;
            let within = ExpressionScope {
                states: around.states,
                scope: &*scope,
                keys: &keys,
                calculating: true,
            };
            let (ty, least) = infer_expression(alloc, &within, value, least)?;
            bind_name(scope, name, ty, least)
        }
    }
}

/// Updates `least` with the faults of a statement. `scope` has the variables in scope.
#[tactic(auto, using(lang_ast::proofs::Views::statements, crate::proofs::Least::answers))]
#[cycle(faults)]
pub fn check_statement(
    alloc: Global,
    around: &StatementContext,
    scope: &mut TypeEnv,
    s: &Statement,
    least: Option<ProgramFault>,
) -> Result<Option<ProgramFault>, NoMemory>
    ensures scope { OnOk result (scope.new ≡ scope.old) }
    ensures least { IfOk result (λ r. r
        ≡ least_fault_from least (stmt_faults (statement_context_view around.now) scope.old (stmt_view s.now))) }
{
    match s {
        Statement::Call {
            at,
            name,
            function,
            arguments,
            ..
        } => check_call(alloc, around, scope, *at, name, *function, arguments, least),
        Statement::If {
            at,
            condition,
            then_branch,
            else_branch,
            ..
        } => check_if(
            alloc,
            around,
            scope,
            *at,
            condition,
            then_branch,
            else_branch,
            least,
        ),
        Statement::Block { at, head, body, .. } => {
            check_block(alloc, around, scope, *at, head, body, least)
        }
    }
}

// Updates `least` with the faults of an if, whose condition is a Bool.
#[tactic(auto, using(crate::proofs::Least::answers))]
#[cycle(faults)]
fn check_if(
    alloc: Global,
    around: &StatementContext,
    scope: &mut TypeEnv,
    at: usize,
    condition: &Expression,
    then_branch: &[Statement],
    else_branch: &[Statement],
    least: Option<ProgramFault>,
) -> Result<Option<ProgramFault>, NoMemory>
    ensures scope { OnOk result (scope.new ≡ scope.old) }
    ensures least { IfOk result (λ r. r
        ≡ least_fault_from least (stmt_faults (statement_context_view around.now) scope.old
        (If at 0 (expr_view condition.now) (stmts_view then_branch.now)
        (stmts_view else_branch.now)))) }
{
    let none = TypeEnv::new(alloc);
    let look = plain_scope(around.states, &*scope, &none);
    let (ty, least) = infer_expression(alloc, &look, condition, least)?;
    let least = fault_unless(ty.same(Ty::Bool), CheckKind::Type, at, least);
    let least = check_statements(alloc, around, scope, then_branch, least)?;
    check_statements(alloc, around, scope, else_branch, least)
}

// Updates `least` with the faults of a head and of the body, which may use the name that the head binds.
#[tactic(auto, using(crate::proofs::Least::answers, crate::proofs::Rows::take_first))]
#[cycle(faults)]
fn check_block(
    alloc: Global,
    around: &StatementContext,
    scope: &mut TypeEnv,
    at: usize,
    head: &Head,
    body: &[Statement],
    least: Option<ProgramFault>,
) -> Result<Option<ProgramFault>, NoMemory>
    ensures scope { OnOk result (scope.new ≡ scope.old) }
    ensures least { IfOk result (λ r. r
        ≡ least_fault_from least (stmt_faults (statement_context_view around.now) scope.old
        (Block at 0 (head_view head.now) (stmts_view body.now)))) }
{
    let outer = scope.len();
    let least = check_head(alloc, around, scope, at, head, least)?;
    let least = check_statements(alloc, around, scope, body, least)?;
    scope.truncate(outer);
    Ok(least)
}

/// Updates `least` with the faults of statements in order.
#[tactic(auto, using(crate::proofs::Steps::statements_step))]
#[cycle(faults)]
pub fn check_statements(
    alloc: Global,
    around: &StatementContext,
    scope: &mut TypeEnv,
    body: &[Statement],
    least: Option<ProgramFault>,
) -> Result<Option<ProgramFault>, NoMemory>
    ensures scope { OnOk result (scope.new ≡ scope.old) }
    ensures least { IfOk result (λ r. r
        ≡ least_fault_from least (stmts_faults (statement_context_view around.now) scope.old (stmts_view body.now))) }
{
    let mut least = least;
    for s in body {
        least = check_statement(alloc, around, scope, s, least)?;
    }
    Ok(least)
}
