//! Tests of `rt_values`, `rt_streams`, `snap_api`, `snap_ids`, `snap_records`, `snap_reuse` and `snap_world` from outside:
//! streams over std, a desk, id sets, readable and reusable records, and `RecordWorld` beside `PlainWorld` on tables of
//! calls and on random calls.
#![tactic(auto)]

#[cfg(test)]
mod call_tables;
#[cfg(test)]
mod chains;
#[cfg(test)]
mod desks;
#[cfg(test)]
mod id_sets;
#[cfg(test)]
mod lists;
#[cfg(test)]
mod random_calls;
#[cfg(test)]
mod reuse;
#[cfg(test)]
mod streams;
