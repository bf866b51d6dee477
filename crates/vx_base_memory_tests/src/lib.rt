//! Calls of the ground and of views that take memory, each of whose requests `tools/sweep_tests`
//! refuses in turn.
#![tactic(auto)]

#[cfg(test)]
mod bits;
#[cfg(test)]
mod buffers;
#[cfg(test)]
mod scalars;
#[cfg(test)]
mod views;
