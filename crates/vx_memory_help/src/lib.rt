//! What the tests of refused memory need: how a test ends, whether arrays and rows are alike, which
//! takes no memory, and a name.
#![tactic(auto)]

mod alike;
mod ended;

pub use crate::alike::{Compare, Deep, Floor, Level, are_alike, deep, have_same_bytes};
pub use crate::ended::{End, judged};
use std::alloc::Global;
use vx_base::{FieldName, VortexError};

/// A name.
pub fn one_name(alloc: Global, name: &str) -> Result<Vec<FieldName>, VortexError> {
    let mut names = Vec::with_capacity(alloc, 1)?;
    names.push(FieldName::try_new(alloc, name)?)?;
    Ok(names)
}
