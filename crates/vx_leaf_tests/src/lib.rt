//! Tests of public calls of typed arrays of truth values, of numbers, of one row, and of
//! dictionaries: each with ample memory, on values from outside.
#![tactic(auto)]

#[cfg(test)]
mod leaves;
