// The lengths of chains of calls.
ghost use Rattle.std.specs.Prelude.{◌≡◌, IfOk, [], max};
ghost use Rattle.lang_ast.specs.SyntaxView.{stmt_view, stmts_view, function_view, functions_view};
ghost use Rattle.lang_checks.specs.FaultOrder.{least_fault_from};
ghost use Rattle.lang_checks.specs.Chains.{longest, longest_in};
ghost use Rattle.lang_checks.specs.CappedChains.{extended_chain, capped_faults};

use crate::faults::{CheckKind, ProgramFault, fault_unless};
use lang_ast::{Function, Statement};
use rt_values::NoMemory;
use std::alloc::Global;

// The most functions of a chain of calls. A rule of this project, so that composing has bounded depth.
const MOST_CHAIN: usize = 32;

// Returns the length of the longest chain that a statement calls. `chains` has the lengths for the functions before its
// own.
#[tactic(auto, using(lang_ast::proofs::Views::statements))]
#[cycle(chains)]
fn longest(chains: &[usize], s: &Statement) -> usize
    ensures { result ≡ longest chains.now (stmt_view s.now) }
{
    match s {
        Statement::Call { function, .. } => match chains.get(*function) {
            Some(chain) => *chain,
            None => 0,
        },
        Statement::If {
            then_branch,
            else_branch,
            ..
        } => longest_in(chains, then_branch).max(longest_in(chains, else_branch)),
        Statement::Block { body, .. } => longest_in(chains, body),
    }
}

#[tactic(auto, using(crate::proofs::Steps::longest_step))]
#[cycle(chains)]
fn longest_in(chains: &[usize], body: &[Statement]) -> usize
    ensures { result ≡ longest_in chains.now (stmts_view body.now) }
{
    let mut most = 0;
    for s in body {
        most = most.max(longest(chains, s));
    }
    most
}

// Returns the chain length plus one, capped at 33: all chains over the limit have the same length.
fn extended_chain(chain: usize) -> usize
    ensures { result ≡ extended_chain chain }
{
    if chain <= MOST_CHAIN {
        chain + 1
    } else {
        MOST_CHAIN + 1
    }
}

/// Updates `least` with the functions whose chains are too long.
#[tactic(auto, using(crate::proofs::Steps::chains_step))]
pub fn check_chains(
    alloc: Global,
    functions: &[Function],
    least: Option<ProgramFault>,
) -> Result<Option<ProgramFault>, NoMemory>
    ensures { IfOk result (λ r. r
        ≡ least_fault_from least (capped_faults [] (functions_view functions.now))) }
{
    let mut least = least;
    let mut chains = Vec::new(alloc);
    for function in functions {
        let chain = extended_chain(longest_in(&chains, &function.body));
        least = fault_unless(chain <= MOST_CHAIN, CheckKind::Order, function.at, least);
        chains.push(chain)?;
    }
    Ok(least)
}
