//! The groups of a composition in preorder, with a reader that opens, skips and closes groups.
//!
//! `Table` is the `SlotTable` of Compose and `Reader` its `SlotReader`. Contracts see the table as the list of its
//! groups in preorder (`specs/TableGroups.antt`), and the reader as the groups that are left and the open groups
//! (`specs/ReaderStates.antt`). The table keeps for each group the number of groups inside it, so a skip takes constant
//! time. The fields of fixed size and the slots are in two gap buffers, and tables that have the same group
//! share its slots. `ChangeListWriter` writes a new frame as changes of a table, as the `ComposerChangeListWriter` of
//! Compose, and `Table::apply` applies the changes. `ReplacedGroups` has the nodes that applied changes replaced, until
//! new nodes need their memory. `ShrunkReads` lends the reads of a table that shrinks before the changes are applied.
//! `slot_edit`, which is for users of the library, replaces all groups of a table at once.
//! Promises: a reader visits exactly the table's groups, counts one step for each group that it opens, and lends their
//! values without a copy. Applied changes give exactly the groups that were written.
#![tactic(auto)]

ghost use Rattle.slot_table.specs.Siblings.{SkippingLeavesTheSiblings};

mod change_forms;
mod changes;
mod groups_before;
mod reader;
mod replaced;
mod runs;
mod shrunk_reads;
mod storage;
mod table;

pub use changes::{ChangeList, ChangeListWriter, Preview, same_reads};
pub use reader::Reader;
pub use replaced::ReplacedGroups;
pub use shrunk_reads::ShrunkReads;
pub use storage::{SharedGroup, TableBuilder};
pub use table::Table;

/// States that skipping a group of a forest leaves its later siblings and what follows them.
#[tactic(auto, using(crate::proofs::Siblings::skipping_leaves_the_siblings))]
pub fn skipping_leaves_the_siblings()
    ensures { SkippingLeavesTheSiblings }
{}
