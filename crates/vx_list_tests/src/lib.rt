//! Tests of public calls of list views and of lists of one size: each with ample memory, on values
//! from outside.
#![tactic(auto)]

#[cfg(test)]
mod fixed_lists;
#[cfg(test)]
mod lists;
