//! Tests of public calls of texts and byte lists by views: each with ample memory, on values from
//! outside.
#![tactic(auto)]

#[cfg(test)]
mod texts;
