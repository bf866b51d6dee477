//! Calls on arrays that take memory, each of whose requests `tools/sweep_tests` refuses in turn.
#![tactic(auto)]

#[cfg(test)]
mod anew;
#[cfg(test)]
mod dictionaries;
#[cfg(test)]
mod every_layout;
#[cfg(test)]
mod list_arrays;
#[cfg(test)]
mod numbers;
#[cfg(test)]
mod packed;
#[cfg(test)]
mod record_arrays;
#[cfg(test)]
mod rows;
#[cfg(test)]
mod samples;
#[cfg(test)]
mod text_arrays;
#[cfg(test)]
mod truths;
#[cfg(test)]
mod typed;
#[cfg(test)]
mod validities;
#[cfg(test)]
mod without;
