// Truth values and numbers as arrays of which no row is null.

ghost use Rattle.std.specs.Prelude.{◌≡◌};
ghost use Rattle.vx_base.specs.Refusals.{Gives};
ghost use Rattle.vx_tree.specs.Tree.{Tree};
ghost use Rattle.vx_tree.specs.Becomes.{array_of_mask};

use crate::array::{ArrayRef, Validity};
use crate::validity::constant_truth;
use std::alloc::Global;
use vx_base::{
    BitBuffer, BitBufferMut, Buffer, BufferMut, Mask, MaskValues, NativePType, VortexError,
};

/// What becomes an array of which no row is null.
pub trait IntoArray: Sized {
    ghost becomes: { Self → Tree → Type 0 };

    /// The array of these rows, none of them null. Fails only for want of memory.
    fn into_array(self, alloc: Global) -> Result<ArrayRef, VortexError>
        ensures { Gives result (becomes self) };
}

impl IntoArray for BitBuffer {
    ghost use Rattle.std.specs.Prelude.{◌≡◌};
    ghost use Rattle.vx_tree.specs.Tree.{bools, non_nullable};

    ghost becomes = { λ b t. t ≡ bools b.offset b.bits non_nullable };

    fn into_array(self, alloc: Global) -> Result<ArrayRef, VortexError> {
        ArrayRef::bools(alloc, self, Validity::NonNullable)
    }
}

impl IntoArray for BitBufferMut {
    ghost use Rattle.std.specs.Prelude.{◌≡◌};
    ghost use Rattle.vx_tree.specs.Tree.{bools, non_nullable};

    ghost becomes = { λ b t. t ≡ bools 0 b non_nullable };

    fn into_array(self, alloc: Global) -> Result<ArrayRef, VortexError> {
        self.freeze()?.into_array(alloc)
    }
}

impl IntoArray for &MaskValues {
    ghost use Rattle.std.specs.Prelude.{◌≡◌};
    ghost use Rattle.vx_tree.specs.Tree.{bools, non_nullable};

    ghost becomes = { λ v t. t ≡ bools 0 v.now non_nullable };

    fn into_array(self, alloc: Global) -> Result<ArrayRef, VortexError> {
        self.bit_buffer(alloc)?.into_array(alloc)
    }
}

/// A mask whose booleans are all alike becomes a constant, which takes no memory a row.
impl IntoArray for Mask {
    ghost use Rattle.std.specs.Prelude.{◌≡◌};
    ghost use Rattle.vx_tree.specs.Becomes.{array_of_mask};

    ghost becomes = { λ m t. t ≡ array_of_mask m };

    fn into_array(self, alloc: Global) -> Result<ArrayRef, VortexError> {
        let array = array_of_mask(alloc, &self);
        drop(self);
        array
    }
}

// The array of these rows: of booleans that are all alike a constant.
fn array_of_mask(alloc: Global, mask: &Mask) -> Result<ArrayRef, VortexError>
    ensures { Gives result (λ t. t ≡ array_of_mask mask.now) }
{
    if mask.all_true() {
        return constant_truth(alloc, true, mask.len());
    }
    match mask.values() {
        Some(values) => values.into_array(alloc),
        None => constant_truth(alloc, false, mask.len()),
    }
}

impl<T: NativePType + Drop> IntoArray for Buffer<T> {
    ghost use Rattle.std.specs.Prelude.{map};
    ghost use Rattle.vx_tree.specs.Becomes.{AreNumbers};

    ghost becomes = { λ b t. AreNumbers T.PTYPE (map T.value b) t };

    fn into_array(self, alloc: Global) -> Result<ArrayRef, VortexError> {
        let bytes = self.into_byte_buffer(alloc)?;
        ArrayRef::primitive(alloc, T::PTYPE, bytes, Validity::NonNullable)
    }
}

impl<T: NativePType + Drop> IntoArray for BufferMut<T> {
    ghost use Rattle.std.specs.Prelude.{map};
    ghost use Rattle.vx_tree.specs.Becomes.{AreNumbers};

    ghost becomes = { λ b t. AreNumbers T.PTYPE (map T.value b) t };

    fn into_array(self, alloc: Global) -> Result<ArrayRef, VortexError> {
        let numbers = self.freeze()?;
        numbers.into_array(alloc)
    }
}
