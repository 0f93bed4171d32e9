//! Tests of `snap_shared` and `recompose_seats` from outside: seats that meet, the gate of a desk, frames through a seat,
//! and real threads.
#![tactic(auto)]

#[cfg(test)]
mod desks;
#[cfg(test)]
mod fixture;
#[cfg(test)]
mod frames;
#[cfg(test)]
mod seats;
#[cfg(test)]
mod threads;
