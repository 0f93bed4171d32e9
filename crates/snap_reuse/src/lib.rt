//! Reuse of records: which records of a chain no reader reads, and a write that overwrites one of them.
//!
//! A reader is a snapshot id with the ids that are invalid for it. The world gives the readers of all live snapshots.
//! `reusable` takes the place of `StateRecord.newOverwritableRecord`'s search (`usedLocked`), with the readers in place
//! of pinned ids: a record may be overwritten where it has id 0 or no reader reads it. This project's own rule.
#![tactic(auto)]

mod readers;
mod reuse;

pub use readers::{Readers, RecordReader};
pub use reuse::{is_read, put, reusable};
