//! Tests of equal rows and of the packed form: each with ample memory, on values from outside.
#![tactic(auto)]

#[cfg(test)]
mod layouts;
#[cfg(test)]
mod packed;
#[cfg(test)]
mod rows_equal;
#[cfg(test)]
mod written;
