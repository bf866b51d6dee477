//! Tests of public calls of the tree: each with ample memory, on values from outside.
#![tactic(auto)]

#[cfg(test)]
mod tree;
