// A shared list of numbers of one type.

ghost use Rattle.std.specs.Prelude.{◌≡◌, ◌≤◌, ◌<◌, ◌*◌, ◌/◌, ◌↔◌, [], length, map, slice_get, slice_range, Some, IsTrue, IfOk};
ghost use Rattle.vx_base.specs.Refusals.{Gives};
ghost use Rattle.vx_base.specs.Integers.{byte_width, numbers};

use crate::byte_buffer::ByteBuffer;
use crate::errors::VortexError;
use crate::native::NativePType;
use std::alloc::Global;
use std::marker::Model;
use std::ops::Range;
use std::rc::Rc;

// How many numbers a block has.
const BLOCK: usize = 128;

// The numbers that these bytes hold: memory is had once, and each number is written into it once.
pub(crate) fn numbers_of<T: NativePType>(alloc: Global, bytes: &[u8]) -> Result<Vec<T>, VortexError>
    ensures { Gives result (λ v. map T.value v.items ≡ numbers T.PTYPE bytes.now) }
{
    let width = T::PTYPE.byte_width();
    let places = bytes.chunks_exact(width);
    Ok(places.map(|place| T::get_le(place)).collect(alloc)?)
}

// The bytes of these numbers, one number after another: a block of them is made, and then written
// at once.
fn bytes_of_numbers<T: NativePType>(alloc: Global, items: &[T]) -> Result<Vec<u8>, VortexError>
    ensures ok { Gives result (λ bytes. numbers T.PTYPE bytes.items ≡ map T.value items.now) }
    ensures len { IfOk result (λ bytes. length bytes.items ≡ length items.now * byte_width T.PTYPE) }
{
    let width = T::PTYPE.byte_width();
    let count = items.len();
    let mut bytes = Vec::with_capacity(alloc, count.saturating_mul(width))?;
    let mut block = [0u8; 8 * BLOCK];
    for at in 0..count.div_ceil(BLOCK) {
        let start = at * BLOCK;
        let size = BLOCK.min(count - start);
        let out = &mut block[..size * width];
        put_numbers(&items[start..start + size], out);
        bytes.extend_from_slice(out)?;
    }
    Ok(bytes)
}

// Writes the bytes of these numbers, one number after another.
fn put_numbers<T: NativePType>(items: &[T], out: &mut [u8])
    requires { length out.old ≡ length items.now * byte_width T.PTYPE }
    ensures len { length out.new ≡ length out.old }
    ensures numbers { numbers T.PTYPE out.new ≡ map T.value items.now }
{
    let width = T::PTYPE.byte_width();
    for (i, item) in items.iter().enumerate() {
        item.put_le(&mut out[i * width..i * width + width]);
    }
}

// Lets go what stands before and behind a range of a list.
fn keep_range<T: Copy>(items: &mut Vec<T>, range: Range<usize>)
    requires start_le_end { range.start ≤ range.end }
    requires in_bounds { range.end ≤ length items.old.items }
    ensures { items.new.items ≡ slice_range items.old.items range.start range.end }
{
    let len = range.end - range.start;
    if range.start > 0 {
        items.as_mut_slice().copy_within(range, 0);
    }
    items.truncate(len);
}

/// Numbers of one type that are cut and shared with no copy.
#[derive(Drop)]
pub struct Buffer<T> {
    items: Rc<Vec<T>>,
    start: usize,
    len: usize,
}

impl<T> Model for Buffer<T> {
    ghost use Rattle.std.specs.Prelude.{List, ◌+◌, ◌≤◌, length, slice_range};

    ghost Value = { List T };

    ghost view = { λ b. slice_range b.items.value.items b.start (b.start + b.len) };

    ghost invariant = { λ b. b.start + b.len ≤ length b.items.value.items };
}

impl<T: Drop> Buffer<T> {
    /// A buffer without items. Fails only for want of memory.
    pub fn empty(alloc: Global) -> Result<Buffer<T>, VortexError>
        ensures { Gives result (λ b. b ≡ []) }
    {
        Buffer::from_vec(alloc, Vec::new(alloc))
    }

    /// A buffer of the items of `vec`, with no copy of them. Fails only for want of memory.
    pub fn from_vec(alloc: Global, vec: Vec<T>) -> Result<Buffer<T>, VortexError>
        ensures { Gives result (λ b. b ≡ vec.items) }
    {
        let len = vec.len();
        Ok(Buffer {
            items: Rc::new(alloc, vec)?,
            start: 0,
            len,
        })
    }

    /// How many items there are.
    pub fn len(&self) -> usize
        ensures { result ≡ length self.now }
    {
        self.len
    }

    /// Whether there are no items.
    pub fn is_empty(&self) -> bool
        ensures { IsTrue result ↔ (self.now ≡ []) }
    {
        self.len() == 0
    }

    /// The items, to be read.
    pub fn as_slice(&self) -> &[T]
        ensures { result.now ≡ self.now }
    {
        &self.items.as_slice()[self.start..self.start + self.len]
    }

    /// The items of `range`, shared. Asks that the range starts at or before its end, and ends at
    /// or before the last item. Fails only for want of memory.
    pub fn slice(&self, _alloc: Global, range: Range<usize>) -> Result<Buffer<T>, VortexError>
        requires start_le_end { range.start ≤ range.end }
        requires in_bounds { range.end ≤ length self.now }
        ensures { Gives result (λ b. b ≡ slice_range self.now range.start range.end) }
    {
        Ok(Buffer {
            items: self.items.clone()?,
            start: self.start + range.start,
            len: range.end - range.start,
        })
    }

    /// The same items, shared. Fails only for want of memory.
    pub fn try_clone(&self, _alloc: Global) -> Result<Buffer<T>, VortexError>
        ensures { Gives result (λ b. b ≡ self.now) }
    {
        Ok(Buffer {
            items: self.items.clone()?,
            start: self.start,
            len: self.len,
        })
    }
}

impl<T: Copy> Buffer<T> {
    /// A buffer with a copy of these items. Fails only for want of memory.
    pub fn copy_from(alloc: Global, items: &[T]) -> Result<Buffer<T>, VortexError>
        ensures { Gives result (λ b. b ≡ items.now) }
    {
        let mut copy = Vec::with_capacity(alloc, items.len())?;
        copy.extend_from_slice(items)?;
        Buffer::from_vec(alloc, copy)
    }

    /// The items as a list. They are copied only where another buffer shares them; where none does,
    /// no memory is taken, and items that stand behind others in their list move to its front.
    /// Fails only for want of memory.
    pub fn into_vec(self, alloc: Global) -> Result<Vec<T>, VortexError>
        ensures { Gives result (λ v. v.items ≡ self) }
    {
        let Buffer { items, start, len } = self;
        match Rc::try_unwrap(items) {
            Ok(mut own) => {
                keep_range(&mut own, start..start + len);
                Ok(own)
            }
            Err(shared) => Ok(Vec::from_slice(alloc, &shared.as_slice()[start..start + len])?),
        }
    }

    /// The item at place `i`, counted from 0. Asks that there is one.
    pub fn value(&self, i: usize) -> T
        requires { i < length self.now }
        ensures { slice_get self.now i ≡ Some result }
    {
        self.as_slice()[i]
    }
}

impl<T: NativePType> Buffer<T> {
    /// The numbers that these bytes hold, the least significant byte of each first. Bytes beyond
    /// the last whole number are left out. Fails only for want of memory.
    pub fn from_byte_buffer(alloc: Global, bytes: &ByteBuffer) -> Result<Buffer<T>, VortexError>
        ensures { Gives result (λ b. map T.value b ≡ numbers T.PTYPE bytes.now) }
    {
        let items = numbers_of(alloc, bytes.as_slice())?;
        Buffer::from_vec(alloc, items)
    }

    /// The bytes of the numbers, one number after another, the least significant byte of each
    /// first. Fails only for want of memory.
    pub fn into_byte_buffer(&self, alloc: Global) -> Result<ByteBuffer, VortexError>
        ensures ok { Gives result (λ b. numbers T.PTYPE b ≡ map T.value self.now) }
        ensures len { IfOk result (λ b. length b ≡ length self.now * byte_width T.PTYPE) }
    {
        let bytes = bytes_of_numbers(alloc, self.as_slice())?;
        ByteBuffer::from_vec(alloc, bytes)
    }
}
