//! Tests of `gap_buffer`, `slot_table`, `slot_anchors`, `slot_edit`, `group_keys`, `read_links`, `recompose_scopes`,
//! `remember_cells` and `run_causes` from outside: calls that the program does not make, and comparisons that only cost
//! time if they fail.
#![tactic(auto)]

#[cfg(test)]
mod causes;
#[cfg(test)]
mod cells;
#[cfg(test)]
mod changes;
#[cfg(test)]
mod edits;
#[cfg(test)]
mod gap_buffers;
#[cfg(test)]
mod keys;
#[cfg(test)]
mod links;
#[cfg(test)]
mod rows;
#[cfg(test)]
mod scopes;
#[cfg(test)]
mod tables;
