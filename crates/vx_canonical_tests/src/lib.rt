//! Tests of plain layout and of concatenation: each with ample memory, on values from outside.
#![tactic(auto)]

#[cfg(test)]
mod canonical;
#[cfg(test)]
mod nested;
