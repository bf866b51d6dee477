//! The two forms of a view, taken apart: a value that it holds, or where the value stands.

ghost use Rattle.std.specs.Prelude.{◌≡◌, ◌+◌, ◌<◌, ◌≤◌, slice_range, take};

use crate::view::MAX_INLINED_SIZE;
use std::ops::Range;

/// A view that holds its value.
#[derive(Clone, Copy, Debug, PartialEq, Eq)]
pub struct Inlined {
    /// How many bytes the value has, at most `MAX_INLINED_SIZE`.
    pub size: u32,

    /// The value, and after it zeroes where this crate wrote the view.
    pub bytes: [u8; MAX_INLINED_SIZE],
}

impl Inlined {
    /// The value. Asks that it has at most `MAX_INLINED_SIZE` bytes.
    pub fn value(&self) -> &[u8]
        requires { self.now.size ≤ MAX_INLINED_SIZE }
        ensures { result.now ≡ take self.now.size self.now.bytes }
    {
        &self.bytes[..self.size as usize]
    }
}

/// A view that refers to its value, in a buffer outside.
#[derive(Clone, Copy, Debug)]
pub struct Ref {
    /// How many bytes the value has, more than `MAX_INLINED_SIZE`.
    pub size: u32,

    /// The value's first four bytes.
    pub prefix: [u8; 4],

    /// The number of the buffer in which the value stands.
    pub buffer_index: u32,

    /// Where in that buffer the value begins.
    pub offset: u32,
}

impl Ref {
    /// The value's places in its buffer.
    pub fn as_range(&self) -> Range<usize>
        ensures start { result.start ≡ self.now.offset }
        ensures end { result.end ≡ self.now.offset + self.now.size }
    {
        let start = self.offset as usize;
        start..start + self.size as usize
    }

    /// The same value at another place: in the buffer of this number, from this offset on.
    pub fn with_buffer_and_offset(&self, buffer_index: u32, offset: u32) -> Ref
        ensures { result ≡ record self.now { buffer_index = buffer_index; offset = offset } }
    {
        Ref {
            size: self.size,
            prefix: self.prefix,
            buffer_index,
            offset,
        }
    }
}
