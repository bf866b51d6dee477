// The numbers of an array as typed buffers.

ghost use Rattle.std.specs.Prelude.{◌≡◌, map, MatchResult};
ghost use Rattle.vx_base.specs.Refusals.{Gives};
ghost use Rattle.vx_leaves.specs.Leaves.{type_in, numbers_in};

use crate::primitive_array::PrimitiveArray;
use std::alloc::Global;
use vx_base::{Buffer, BufferMut, NativePType, VortexError};

impl PrimitiveArray {
    /// The numbers, valid or not. Asks that they are of this type. Fails only for want of memory.
    pub fn to_buffer<T: NativePType + Drop>(&self, alloc: Global) -> Result<Buffer<T>, VortexError>
        requires { type_in self.now ≡ T.PTYPE }
        ensures { Gives result (λ b. map T.value b ≡ numbers_in self.now) }
    {
        Buffer::from_byte_buffer(alloc, self.parts().bytes)
    }

    /// The numbers, valid or not. Asks that they are of this type. Fails only for want of memory.
    pub fn into_buffer<T: NativePType + Drop>(self, alloc: Global) -> Result<Buffer<T>, VortexError>
        requires { type_in self ≡ T.PTYPE }
        ensures { Gives result (λ b. map T.value b ≡ numbers_in self) }
    {
        self.to_buffer(alloc)
    }

    /// The numbers, valid or not, to be written. Asks that they are of this type. Fails only for
    /// want of memory.
    pub fn into_buffer_mut<T: NativePType + Drop>(
        self,
        alloc: Global,
    ) -> Result<BufferMut<T>, VortexError>
        requires { type_in self ≡ T.PTYPE }
        ensures { Gives result (λ b. map T.value b ≡ numbers_in self) }
    {
        BufferMut::from_byte_buffer(alloc, self.parts().bytes)
    }

    /// The numbers, valid or not, in a buffer to be written or in one to be read: either may come.
    /// Asks that they are of this type. Fails only for want of memory.
    pub fn try_into_buffer_mut<T: NativePType + Drop>(
        self,
        alloc: Global,
    ) -> Result<Result<BufferMut<T>, Buffer<T>>, VortexError>
        requires { type_in self ≡ T.PTYPE }
        ensures { Gives result (λ held. MatchResult held
            (λ b. map T.value b ≡ numbers_in self) (λ b. map T.value b ≡ numbers_in self)) }
    {
        Ok(Ok(self.into_buffer_mut(alloc)?))
    }
}
