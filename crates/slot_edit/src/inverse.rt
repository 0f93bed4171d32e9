// The new index of each old group.
ghost use Rattle.std.specs.Prelude.{◌≡◌, ◌≤◌, ◌<◌, ℕ, length, nat_eq, false, None, Some, slice_index_or, IfOk, if◌then◌else◌};
ghost use Rattle.std.specs.Option.{option_eq};
ghost use Rattle.slot_anchors.specs.Anchors.{first_from, AreInverse};

use rt_values::NoMemory;
use std::alloc::Global;

// Records that the new group at index `at` is the old group at index `old`.
fn note(news: &mut [Option<usize>], old: Option<usize>, at: usize)
    ensures len { length news.new ≡ length news.old }
    ensures noted { (i : ℕ) → i < length news.old → slice_index_or news.new i None
        ≡ (if option_eq nat_eq old (Some i) then Some at else slice_index_or news.old i None) }
{
    if let Some(index) = old {
        if index < news.len() {
            news[index] = Some(at);
        }
    }
}

// Returns for each of the first `count` old groups the index of the first new group that it is.
fn invert_below(
    alloc: Global,
    olds: &[Option<usize>],
    count: usize,
) -> Result<Vec<Option<usize>>, NoMemory>
    ensures len { IfOk result (λ news. length news.items ≡ count) }
    ensures news { IfOk result (λ news. (i : ℕ) → i < count →
        slice_index_or news.items i None ≡ first_from 0 i olds.now) }
{
    let mut news = vec![in alloc; None; count]?;
    let mut at = olds.len();
    while 0 < at {
        at -= 1;
        note(&mut news, olds[at], at);
    }
    Ok(news)
}

// Returns a bound that is at least `bound` and exceeds the index `old`.
fn bound_with(bound: usize, old: Option<usize>) -> Result<usize, NoMemory>
    ensures kept { IfOk result (λ n. bound ≤ n) }
    ensures exceeds { IfOk result (λ n. (i : ℕ) → n ≤ i → option_eq nat_eq old (Some i) ≡ false) }
{
    let Some(index) = old else {
        return Ok(bound);
    };
    if index < bound {
        return Ok(bound);
    }
    let Some(next) = index.checked_add(1) else {
        return Err(NoMemory);
    };
    Ok(next)
}

// Returns a bound that exceeds all old indexes.
fn index_bound(olds: &[Option<usize>]) -> Result<usize, NoMemory>
    ensures { IfOk result (λ n. (i : ℕ) → n ≤ i → first_from 0 i olds.now ≡ None) }
{
    let mut bound = 0;
    let mut at = olds.len();
    while 0 < at {
        at -= 1;
        bound = bound_with(bound, olds[at])?;
    }
    Ok(bound)
}

/// Returns for each old group the index of the first new group that it is. `olds` has for each new group its old index.
/// Returns `NoMemory` at the greatest index of a `usize`, which no list of groups reaches.
#[tactic(auto, using(crate::proofs::Inverses::inverse_is))]
pub fn invert(alloc: Global, olds: &[Option<usize>]) -> Result<Vec<Option<usize>>, NoMemory>
    ensures { IfOk result (λ news. AreInverse olds.now news.items) }
{
    let count = index_bound(olds)?;
    let news = invert_below(alloc, olds, count)?;
    Ok(news)
}
