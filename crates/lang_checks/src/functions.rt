// The check of functions and states, and of a whole program.
ghost use Rattle.std.specs.Prelude.{◌≡◌, IfOk, OnOk, [], ◌∷◌, ◌++◌, map, None};
ghost use Rattle.lang_ast.specs.SyntaxView.{function_view, functions_view};
ghost use Rattle.lang_ast.specs.Programs.{is_root, program_view};
ghost use Rattle.lang_checks.specs.FaultOrder.{least_fault_from, least_fault};
ghost use Rattle.lang_checks.specs.ProgramFaults.{is_well_typed, states_faults, bound_parameters, function_faults, functions_faults, program_faults};

use crate::chains::check_chains;
use crate::duplicates::duplicate_faults;
use crate::environment::TypeEnv;
use crate::faults::{CheckKind, ProgramFault, fault_unless};
use crate::statement::{StatementContext, check_statements};
use lang_ast::{Function, Parameter, Program, State, root_number};
use rt_values::NoMemory;
use snap_policy::Policy;
use std::alloc::Global;

// Returns whether the initial value of a state has its type, and its policy fits the type.
fn is_well_typed(state: &State) -> bool
    ensures { result ≡ is_well_typed state.now }
{
    state.initial.ty().same(state.ty) && state.policy.fits(state.ty)
}

// Updates `least` with the states that are not well typed.
#[tactic(auto, using(crate::proofs::Least::answers))]
fn check_states(states: &[State], least: Option<ProgramFault>) -> Option<ProgramFault>
    ensures { result ≡ least_fault_from least (states_faults states.now) }
{
    let mut least = least;
    let mut rest = states;
    while let Some((state, more)) = rest.split_first() {
        least = fault_unless(is_well_typed(state), CheckKind::Type, state.at, least);
        rest = more;
    }
    least
}

// Binds the parameters of a function as the variables of its body.
fn bind_parameters(alloc: Global, parameters: &[Parameter]) -> Result<TypeEnv, NoMemory>
    ensures { IfOk result (λ scope. scope ≡ bound_parameters parameters.now) }
{
    let mut scope = TypeEnv::new(alloc);
    for parameter in parameters {
        scope.push(&parameter.name, parameter.ty)?;
    }
    Ok(scope)
}

// Updates `least` with the faults of one function.
#[tactic(auto, using(crate::proofs::Least::answers))]
fn check_function(
    alloc: Global,
    around: &StatementContext,
    function: &Function,
    least: Option<ProgramFault>,
) -> Result<Option<ProgramFault>, NoMemory>
    ensures { IfOk result (λ r. r
        ≡ least_fault_from least (function_faults around.now.states.now
        (functions_view around.now.functions.now) around.now.me (function_view function.now))) }
{
    let least = duplicate_faults(&function.parameters, least);
    let callable = !function.name.text.is(b"root") || function.parameters.is_empty();
    let least = fault_unless(callable, CheckKind::Type, function.at, least);
    let mut scope = bind_parameters(alloc, &function.parameters)?;
    check_statements(alloc, around, &mut scope, &function.body, least)
}

// Updates `least` with the faults of all functions.
#[tactic(auto, using(crate::proofs::Steps::functions_step))]
fn check_functions(
    alloc: Global,
    states: &[State],
    functions: &[Function],
    least: Option<ProgramFault>,
) -> Result<Option<ProgramFault>, NoMemory>
    ensures { IfOk result (λ r. r
        ≡ least_fault_from least (functions_faults states.now (functions_view functions.now) 0
        (functions_view functions.now))) }
{
    let mut least = least;
    for (me, function) in functions.iter().enumerate() {
        let around = StatementContext {
            states,
            functions,
            me,
        };
        least = check_function(alloc, &around, function, least)?;
    }
    Ok(least)
}

/// Returns the fault of a program that is reported, if there is one.
#[tactic(auto, using(crate::proofs::Least::answers, crate::proofs::Numbered::functions, crate::proofs::Capped::capped_is))]
pub fn least_fault(alloc: Global, program: &Program) -> Result<Option<ProgramFault>, NoMemory>
    ensures { IfOk result (λ r. r ≡ least_fault (program_faults (program_view program.now))) }
{
    let states = &program.states;
    let functions = &program.functions;
    let least = duplicate_faults(states, None);
    let least = duplicate_faults(functions, least);
    let rooted = root_number(functions) < functions.len();
    let least = fault_unless(rooted, CheckKind::Unknown, program.header, least);
    let least = check_states(states, least);
    let least = check_functions(alloc, states, functions, least)?;
    check_chains(alloc, functions, least)
}
