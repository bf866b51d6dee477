// Operations on validities, in which one row in ten is null.

use crate::data::{Scale, limit_of, numbers_below, some_null};
use crate::fault::Fault;
use crate::made::Made;
use crate::operation::Operation;
use std::alloc::Global;
use vx_base::VortexError;
use vx_tree::{ArrayRef, Validity};

// Validities, and what is done with them.
#[derive(Drop)]
pub(crate) enum ValidityOperation {
    // The rows that are valid in both of two.
    And(Validity, Validity),
    // The rows that are null.
    Not(Validity),
    // Rows that are overwritten at some places.
    Patch(Patch),
}

// So many rows, the places at which they are overwritten, and by what.
#[derive(Drop)]
pub(crate) struct Patch {
    rows: usize,
    validity: Validity,
    indices: ArrayRef,
    patches: Validity,
}

impl ValidityOperation {
    // The validity that an operation makes.
    fn made(&self, alloc: Global) -> Result<Validity, VortexError> {
        match self {
            ValidityOperation::And(left, right) => {
                left.try_clone(alloc)?.and(alloc, right.try_clone(alloc)?)
            }
            ValidityOperation::Not(validity) => validity.not(alloc),
            ValidityOperation::Patch(patch) => patch.made(alloc),
        }
    }
}

impl Patch {
    fn made(&self, alloc: Global) -> Result<Validity, VortexError> {
        let validity = self.validity.try_clone(alloc)?;
        validity.patch(alloc, self.rows, 0, &self.indices, &self.patches)
    }
}

impl Operation for ValidityOperation {
    fn run(&mut self, alloc: Global) -> Result<Made, Fault> {
        Ok(Made::Validity(self.made(alloc)?))
    }
}

// One row in ten, at random places.
fn patch_of(alloc: Global, rows: usize) -> Result<Patch, Fault> {
    Ok(Patch {
        rows,
        validity: some_null(alloc, rows, 3)?,
        indices: numbers_below(alloc, rows / 10, limit_of(rows), 5)?,
        patches: some_null(alloc, rows / 10, 12)?,
    })
}

// An operation on validities.
pub(crate) fn ready(alloc: Global, scale: Scale, name: &str) -> Result<ValidityOperation, Fault> {
    let rows = scale.rows();
    match name {
        "validity_and" => {
            let left = some_null(alloc, rows, 3)?;
            Ok(ValidityOperation::And(left, some_null(alloc, rows, 12)?))
        }
        "validity_not" => Ok(ValidityOperation::Not(some_null(alloc, rows, 3)?)),
        "validity_patch" => Ok(ValidityOperation::Patch(patch_of(alloc, rows)?)),
        _ => Err(Fault::Usage),
    }
}
