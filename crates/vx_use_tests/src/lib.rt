//! Tests of callers: each with ample memory, on values from outside.
#![tactic(auto)]

#[cfg(test)]
mod uses;
