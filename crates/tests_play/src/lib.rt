//! Tests of `lang_write`, `lang_meaning`, `recomposer`, `script_lang`, `play_gen`, `play_run` and `play_core` from outside:
//! calls that the program does not make, an applier and streams that fail, a clock at its end, logs and histories, and actors
//! in turn.
#![tactic(auto)]

#[cfg(test)]
mod clock;
#[cfg(test)]
mod faults;
#[cfg(test)]
mod forms;
#[cfg(test)]
mod generated;
#[cfg(test)]
mod groups;
#[cfg(test)]
mod logs;
#[cfg(test)]
mod map_view;
#[cfg(test)]
mod memory_runs;
#[cfg(test)]
mod programs;
#[cfg(test)]
mod replays;
#[cfg(test)]
mod runs;
#[cfg(test)]
mod short_reads;
#[cfg(test)]
mod turns;
