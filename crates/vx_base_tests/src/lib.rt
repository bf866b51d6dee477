//! Tests of public calls of the ground and of views: each with ample memory, on values from
//! outside.
#![tactic(auto)]

#[cfg(test)]
mod base;
#[cfg(test)]
mod views;
