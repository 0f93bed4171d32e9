// The policy trait, and the policies that programs name.
ghost use Rattle.std.specs.Prelude.{◌≡◌, true, IfOk, IsOk, Some};
ghost use Rattle.rt_values.specs.declared.value.Value.{Value as value_data};
ghost use Rattle.rt_values.specs.declared.value.Ty.{Ty as ty_data};
ghost use Rattle.rt_values.specs.Values.{type_of};
ghost use Rattle.snap_policy.specs.Rules.{Rules, KeepsTypes};

use crate::merges::{merge_counters, merge_largest, merge_lists};
use rt_values::{NoMemory, Ty, Value};
use std::alloc::Global;

/// Decides when two values of a state object count as equal, and how two changes of the object are merged
/// (`SnapshotMutationPolicy`).
pub trait Policy: Drop {
    // Which values count as equal, the value of a merge, and the types that the policy fits.
    ghost rules: { Rules Self };

    // The merges of previous, current and applied values that take no memory.
    ghost is_free_merge: { Self → value_data → value_data → value_data → Type 0 };

    /// Checks whether a write of one value over the other changes nothing
    /// (`SnapshotMutationPolicy.equivalent`).
    fn equivalent(&self, a: &Value, b: &Value) -> bool
        ensures { result ≡ rules.equiv self.now a.now b.now };

    /// Merges two changes of `previous`, to `current` and to `applied`, into one value
    /// (`SnapshotMutationPolicy.merge`). Returns None if the changes conflict, and fails only if it runs out
    /// of memory.
    fn merge(
        &self,
        alloc: Global,
        previous: &Value,
        current: &Value,
        applied: &Value,
    ) -> Result<Option<Value>, NoMemory>
        ensures merged { IfOk result (λ m. m ≡ rules.merge self.now previous.now current.now applied.now) }
        ensures free { is_free_merge self.now previous.now current.now applied.now → IsOk result };

    /// Checks whether objects of type `ty` may have the policy. This project's own rule.
    fn fits(&self, ty: Ty) -> bool
        ensures { result ≡ rules.fits self.now ty };

    // A merge of three values of one type that fits gives a value of that type.
    ghost merge_keeps_type: { KeepsTypes rules };
}

/// The policies that programs name.
#[derive(Clone, Copy, Debug, PartialEq, Eq)]
pub enum BuiltIn {
    /// `structuralEqualityPolicy`: fits all types, equal values are equivalent, and changes never merge.
    Structural,
    /// `neverEqualPolicy`: fits all types, no values are equivalent, and changes never merge.
    Never,
    /// Fits Int and adds the changes, wrapping in 64 bits: `current + (applied - previous)`. The
    /// documentation of `SnapshotMutationPolicy` shows this policy for a counter.
    Counter,
    /// Fits Int and merges two numbers into the greater one. This project's own rule.
    Largest,
    /// Fits Ints and merges two lists that both begin with the previous list: the current list, followed by
    /// the items that the applied list added. The changes conflict if the result exceeds the limit of a list.
    /// This project's own rule.
    Append,
}

impl Policy for BuiltIn {
    ghost use Rattle.snap_policy.specs.Table.{table, IsFreeMerge};
    ghost use Rattle.snap_policy.specs.TableLaws.{table_merge_keeps_type};

    ghost rules = { table };

    ghost is_free_merge = { IsFreeMerge };

    ghost merge_keeps_type = { table_merge_keeps_type };

    fn equivalent(&self, a: &Value, b: &Value) -> bool {
        match self {
            BuiltIn::Never => false,
            BuiltIn::Structural | BuiltIn::Counter | BuiltIn::Largest | BuiltIn::Append => {
                a.same(b)
            }
        }
    }

    fn merge(
        &self,
        alloc: Global,
        previous: &Value,
        current: &Value,
        applied: &Value,
    ) -> Result<Option<Value>, NoMemory> {
        match self {
            BuiltIn::Structural | BuiltIn::Never => Ok(None),
            BuiltIn::Counter => Ok(merge_counters(previous, current, applied)),
            BuiltIn::Largest => Ok(merge_largest(current, applied)),
            BuiltIn::Append => merge_lists(alloc, previous, current, applied),
        }
    }

    fn fits(&self, ty: Ty) -> bool {
        match self {
            BuiltIn::Structural | BuiltIn::Never => true,
            BuiltIn::Counter | BuiltIn::Largest => matches!(ty, Ty::Int),
            BuiltIn::Append => matches!(ty, Ty::Ints),
        }
    }
}
