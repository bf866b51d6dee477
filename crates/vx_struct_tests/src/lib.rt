//! Tests of public calls of records by columns: each with ample memory, on values from outside.
#![tactic(auto)]

#[cfg(test)]
mod structs;
