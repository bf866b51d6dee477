// A list of numbers of one type that grows.

ghost use Rattle.std.specs.Prelude.{◌≡◌, ◌≤◌, ◌<◌, ◌*◌, ◌++◌, ◌∷◌, [], length, map, IfOk, OnErr};
ghost use Rattle.vx_base.specs.Integers.{byte_width, numbers};
ghost use Rattle.vx_base.specs.Refusals.{Gives};
ghost use Rattle.std.specs.Borrow.{sem};

use crate::buffer::{Buffer, numbers_of};
use crate::byte_buffer::ByteBuffer;
use crate::errors::VortexError;
use crate::native::NativePType;
use std::alloc::Global;
use std::marker::Model;

/// Numbers of one type that are pushed one by one.
#[derive(Drop)]
pub struct BufferMut<T> {
    items: Vec<T>,
}

impl<T> Model for BufferMut<T> {
    ghost use Rattle.std.specs.Prelude.{List};

    ghost Value = { List T };

    ghost view = { λ b. b.items.items };
}

impl<T: Drop> BufferMut<T> {
    ghost use Rattle.vx_base.specs.Lends.{lends_items};

    /// No items, with room for `capacity` of them. Fails only for want of memory.
    pub fn with_capacity(alloc: Global, capacity: usize) -> Result<BufferMut<T>, VortexError>
        ensures { Gives result (λ b. b ≡ []) }
    {
        Ok(BufferMut {
            items: Vec::with_capacity(alloc, capacity)?,
        })
    }

    /// How many items there are.
    pub fn len(&self) -> usize
        ensures { result ≡ length self.now }
    {
        self.items.len()
    }

    /// Adds an item at the end. Fails only for want of memory, and then the items are what they
    /// were.
    pub fn push(&mut self, item: T) -> Result<(), VortexError>
        ensures ok { Gives result (λ _. self.new ≡ self.old ++ item ∷ []) }
        ensures err { OnErr result (self.new ≡ self.old) }
    {
        self.items.push(item)?;
        Ok(())
    }

    /// The items, to be read.
    pub fn as_slice(&self) -> &[T]
        ensures { result.now ≡ self.now }
    {
        self.items.as_slice()
    }

    /// The items, to be written.
    pub fn as_mut_slice(&mut self) -> &mut [T]
        ensures* writes_back { sem 𝓛 (lends_items T.row self.entry result) }
        ensures value { result.now ≡ self.old }
    {
        self.items.as_mut_slice()
    }

    /// The items, to be shared, with no copy of them. Fails only for want of memory.
    pub fn freeze(self) -> Result<Buffer<T>, VortexError>
        ensures { Gives result (λ b. b ≡ self) }
    {
        let BufferMut { items } = self;
        let alloc = *items.allocator();
        Buffer::from_vec(alloc, items)
    }
}

impl<T: NativePType> BufferMut<T> {
    /// The numbers that these bytes hold, the least significant byte of each first, copied at once.
    /// Bytes beyond the last whole number are left out. Fails only for want of memory.
    pub fn from_byte_buffer(alloc: Global, bytes: &ByteBuffer) -> Result<BufferMut<T>, VortexError>
        ensures { Gives result (λ b. map T.value b ≡ numbers T.PTYPE bytes.now) }
    {
        let items = numbers_of(alloc, bytes.as_slice())?;
        Ok(BufferMut { items })
    }

    /// The bytes of the numbers, one number after another, the least significant byte of each
    /// first. Fails only for want of memory.
    pub fn into_byte_buffer(self, alloc: Global) -> Result<ByteBuffer, VortexError>
        ensures ok { Gives result (λ b. numbers T.PTYPE b ≡ map T.value self) }
        ensures len { IfOk result (λ b. length b ≡ length self * byte_width T.PTYPE) }
    {
        self.freeze()?.into_byte_buffer(alloc)
    }
}
