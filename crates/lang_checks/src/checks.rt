// The check of whole programs.
ghost use Rattle.std.specs.Prelude.{◌≡◌, ◌<◌, [], length, Some, Err, IfOk, IfErr, OnOk};
ghost use Rattle.lang_ast.specs.Programs.{program_view, functions_of, root_number};
ghost use Rattle.lang_checks.specs.declared.faults.ProgramFault.{ProgramFault as fault_data};
ghost use Rattle.lang_checks.specs.FaultOrder.{least_fault};
ghost use Rattle.lang_checks.specs.ProgramFaults.{program_faults};
ghost use Rattle.lang_checks.specs.Numbers.{IsNumberedProgram};
ghost use Rattle.lang_checks.specs.CheckedProgram.{IsChecked};

use crate::faults::ProgramFault;
use crate::functions::least_fault;
use lang_ast::{Function, Program, State, root_number};
use rt_values::NoMemory;
use std::alloc::Global;
use std::marker::Model;
use thiserror::Error;

/// Why a program is refused.
#[derive(Clone, Copy, Debug, PartialEq, Eq, Error)]
pub enum CheckStop {
    /// The fault with the least offset, of the first pass that finds any.
    #[error("the program has a fault at offset {at}", at = .0.at)]
    ProgramFault(ProgramFault),
    /// Memory ran out.
    #[error("out of memory")]
    NoMemory,
}

impl From<NoMemory> for CheckStop {
    ghost use Rattle.std.specs.Prelude.{◌≡◌};
    ghost use Rattle.lang_checks.specs.declared.checks.CheckStop.TheVariants as stop;

    ghost from_gives = { λ _ e. e ≡ stop.NoMemory };

    fn from(_: NoMemory) -> Self {
        CheckStop::NoMemory
    }
}

/// A program without faults, whose statements and calls are numbered in the order of the text. Contracts see it as the
/// program that it is.
#[derive(Drop)]
pub struct Checked {
    program: Program,
}

impl Model for Checked {
    ghost use Rattle.std.specs.Coded.{codes};
    ghost use Rattle.lang_ast.specs.declared.program.Program.{Program};
    ghost use Rattle.lang_ast.specs.contracts.program.Program.{the_row};
    ghost use Rattle.lang_ast.specs.Programs.{program_view};
    ghost use Rattle.lang_checks.specs.CheckedProgram.{IsChecked};

    ghost Value = { Program };

    ghost coded = { Prim.hlevel (codes, the_row.coded) };

    ghost view = { λ c. c.program };

    ghost invariant = { λ c. IsChecked (program_view c.program) };
}

impl Checked {
    /// The offset of the header.
    pub fn header(&self) -> usize
        ensures { result ≡ self.now.header }
    {
        self.program.header
    }

    /// The states: objects 0, 1, .. of the program's world.
    pub fn states(&self) -> &[State]
        ensures states { result.now ≡ self.now.states.items }
        ensures checked { IsChecked (program_view self.now) }
    {
        &self.program.states
    }

    /// The functions, by number. Each calls only functions before it.
    pub fn functions(&self) -> &[Function]
        ensures functions { result.now ≡ self.now.functions.items }
        ensures checked { IsChecked (program_view self.now) }
    {
        &self.program.functions
    }

    /// The number of the function `root`, the content of the composition (`setContent`).
    #[tactic(auto, using(crate::proofs::Fine::root_is_there))]
    pub fn root(&self) -> usize
        ensures root { result ≡ root_number (functions_of self.now) }
        ensures there { result < length self.now.functions.items }
    {
        root_number(&self.program.functions)
    }
}

/// Checks a program, and returns it as one without faults.
///
/// The statements and calls of the program must be numbered as `lang_forms::program` numbers them. Fails with the fault
/// of the first pass that finds any, at the least offset, and if memory runs out. The rules are this project's own; the
/// Compose compiler plugin finds such faults in Kotlin.
#[tactic(auto, using(crate::proofs::Least::no_answer))]
pub fn check(alloc: Global, program: Program) -> Result<Checked, CheckStop>
    requires numbered { IsNumberedProgram (program_view program) }
    ensures same { IfOk result (λ c. c ≡ program) }
    ensures fine { OnOk result (program_faults (program_view program) ≡ []) }
    ensures taken { program_faults (program_view program) ≡ [] →
        IfErr result (λ stop. stop ≡ CheckStop.NoMemory) }
    ensures fault { (f : fault_data) → result ≡ Err (CheckStop.ProgramFault f) →
        least_fault (program_faults (program_view program)) ≡ Some f }
{
    match least_fault(alloc, &program)? {
        Some(fault) => Err(CheckStop::ProgramFault(fault)),
        None => Ok(Checked { program }),
    }
}
