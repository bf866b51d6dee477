// The validity among the children of an array.

ghost use Rattle.std.specs.Prelude.{◌≡◌};
ghost use Rattle.vx_base.specs.Refusals.{Gives};
ghost use Rattle.vx_tree.specs.Parts.{valid_of};
ghost use Rattle.vx_tree.specs.Slots.{validity_slot};

use crate::array::{ArrayRef, Validity};
use std::alloc::Global;
use vx_base::{Nullability, Scalar, VortexError};

impl Validity {
    /// The validity as a child of an array of `len` rows: none where no row is null, a constant
    /// false where every row is, else the array, shared. Fails only for want of memory.
    pub fn to_slot(&self, alloc: Global, len: usize) -> Result<Option<ArrayRef>, VortexError>
        ensures { Gives result (λ slot. slot ≡ validity_slot (valid_of self.now) len) }
    {
        match self {
            Validity::NonNullable => Ok(None),
            Validity::AllValid => Ok(None),
            Validity::AllInvalid => {
                let nowhere = Scalar::bool(false, Nullability::NonNullable);
                Ok(Some(ArrayRef::constant(alloc, nowhere, len)?))
            }
            Validity::Array(array) => Ok(Some(array.try_clone(alloc)?)),
        }
    }
}
