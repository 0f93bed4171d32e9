// The groups of a table before its changes. They exist only in proofs.
ghost use Rattle.std.specs.Prelude.{◌≡◌, List};
ghost use base.Fml.{ftrue};
ghost use Rattle.rt_groups.specs.declared.groups.Group.{Group as group_data};

use crate::table::Table;
use std::marker::Model;

// The groups of a table when the value was made. It takes no memory, and only proofs read it.
#[derive(Drop)]
pub(crate) struct GroupsBefore {
    ghost groups: { List group_data },
}

impl Model for GroupsBefore {
    ghost also_owns = { λ _. ftrue };
}

impl GroupsBefore {
    // Returns the groups of `_table`.
    #[inline(always)]
    pub(crate) fn of(_table: &Table) -> GroupsBefore
        ensures { result.groups ≡ _table.now.groups }
    {
        GroupsBefore {}
    }
}
