// The calls that are owed in a frame.
ghost use Rattle.std.specs.Prelude.{◌≡◌, ◌≤◌, ◌<◌, ◌-◌, ◌^◌, ℕ, true, false};
ghost use Rattle.std.specs.List.Sorted.{IsNonDecreasing};
ghost use Rattle.rt_values.specs.Maps.{contains};
ghost use Rattle.recompose_scopes.specs.Building.{Splits};

use std::cell::Cell;
use std::marker::Model;

/// The indexes of the groups of the calls that are owed, ascending (the `invalidations` of the composer).
#[derive(Drop)]
pub struct OwedCalls {
    places: Vec<usize>,
    // The index in `places` of the last answer. The next answer is mostly there or at the next index.
    hint: Cell<usize>,
}

impl Model for OwedCalls {
    ghost use Rattle.std.specs.Prelude.{List, ℕ};
    ghost use Rattle.std.specs.List.Sorted.{IsNonDecreasing as Ascends};

    ghost Value = { List ℕ };

    ghost view = { λ o. o.places.items };

    ghost invariant = { λ o. Ascends o.places.items };
}

// Returns whether the first `k` of the ascending `places` are less than `at`, and the others are not. Compares only the
// two beside `k`.
fn splits(places: &[usize], k: usize, at: usize) -> bool
    requires { IsNonDecreasing places.now }
    ensures { result ≡ true → Splits places.now k at }
{
    k <= places.len() && (k == 0 || places[k - 1] < at) && (k == places.len() || at <= places[k])
}

impl OwedCalls {
    // Returns the calls of the groups at the indexes `places`, which may repeat and are in any order.
    pub(crate) fn of(places: Vec<usize>) -> Self
        ensures { (i : ℕ) → contains i result ≡ contains i places.items }
    {
        let mut places = places;
        places.sort_unstable();
        OwedCalls {
            places,
            hint: Cell::new(0),
        }
    }

    // Finds the index of the first of the places that is at least `at`. Tries the last answer and the next index before
    // it searches.
    fn find_split(&self, at: usize) -> usize
        ensures { Splits self.now result at }
    {
        let hint = self.hint.get();
        if splits(&self.places, hint, at) {
            return hint;
        }
        let next = hint.saturating_add(1);
        if splits(&self.places, next, at) {
            return next;
        }
        self.places.partition_point(|place| *place < at)
    }

    /// Returns the least index of an owed call that is at least `at`, or `usize::MAX` if there is none (`firstInRange`
    /// of the invalidations). Takes constant time for ascending `at`, and otherwise the time of a binary search.
    pub fn next_from(&self, at: usize) -> usize
        ensures none { (i : ℕ) → at ≤ i → i < result → contains i self.now ≡ false }
        ensures from { at ≤ result }
        ensures owed { result < 2 ^ 64 - 1 → contains result self.now ≡ true }
    {
        let index = self.find_split(at);
        self.hint.set(index);
        if index < self.places.len() {
            self.places[index]
        } else {
            usize::MAX
        }
    }
}
