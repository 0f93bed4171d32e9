// The objects that an apply settles.
ghost use Rattle.std.specs.Prelude.{◌≡◌, true, IfSome, IfNone};
ghost use Rattle.snap_api.specs.Choices.{is_clash};
ghost use Rattle.snap_world.specs.Choices.{choice_of_settled, lesser};

use rt_values::{ObjectNo, StampedValue};
use snap_api::Choice;
use snap_records::RecordNo;

/// The stamped value that an object has in the parent after an apply, and whether the parent takes it from the
/// snapshot.
#[derive(Drop)]
pub struct Settled {
    pub object: ObjectNo,
    pub entry: StampedValue,
    pub is_changed: bool,
}

/// The records of an object that a snapshot reads for its base, that its parent reads, and that the snapshot reads.
#[derive(Clone, Copy, Debug, PartialEq, Eq)]
pub struct ReadRecords {
    pub previous: RecordNo,
    pub current: RecordNo,
    pub applied: RecordNo,
}

/// Returns the settled object for a verdict, or `None` if the verdict is a conflict.
pub fn settled_of(object: ObjectNo, choice: Choice) -> Option<Settled>
    ensures object { IfSome result (λ s. s.object ≡ object) }
    ensures choice { IfSome result (λ s. choice_of_settled s ≡ choice) }
    ensures none { IfNone result (is_clash choice ≡ true) }
{
    match choice {
        Choice::Changed(entry) => Some(Settled {
            object,
            entry,
            is_changed: true,
        }),
        Choice::Kept(entry) => Some(Settled {
            object,
            entry,
            is_changed: false,
        }),
        Choice::Clash => None,
    }
}

/// Returns the lesser of `x` and `least` if `found`, and else `least`.
pub fn lesser(found: bool, x: ObjectNo, least: Option<ObjectNo>) -> Option<ObjectNo>
    ensures { result ≡ lesser found x least }
{
    if !found {
        return least;
    }
    match least {
        Some(other) if other <= x => least,
        _ => Some(x),
    }
}
