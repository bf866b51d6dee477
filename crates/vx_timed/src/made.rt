// What operations make, and the sum over it.

use crate::checksum::Checksum;
use crate::fault::Fault;
use vx_base::{BitBuffer, BitBufferMut, Buffer, ByteBuffer, Mask};
use vx_lists::ListViewArray;
use vx_tree::{ArrayRef, Validity};
use vx_views::BinaryView;

/// What an operation made.
#[derive(Drop)]
pub enum Made {
    /// An array: its parts and its validity are summed.
    Array(ArrayRef),
    /// Lists: offsets, sizes and elements are summed.
    Lists(ListViewArray),
    /// Texts: their views and their buffers are summed.
    Texts(ArrayRef),
    /// A column: all of its parts are summed, those of its columns too.
    Column(ArrayRef),
    /// A validity: its truth values are summed, where it has some.
    Validity(Validity),
    /// Views and the buffers that they refer to.
    Views(Vec<ByteBuffer>, Buffer<BinaryView>),
    /// Bits.
    Bits(BitBuffer),
    /// Bits that may still be changed.
    Filled(BitBufferMut),
    /// A mask: its true rows are counted.
    Mask(Mask),
    /// One number, which is its own sum.
    Number(u64),
    /// Numbers.
    Numbers(Buffer<u32>),
    /// Positions.
    Positions(Vec<usize>),
    /// Bytes, eight of them in a word.
    Bytes(ByteBuffer),
}

impl Made {
    // The sum over it.
    pub(crate) fn checksum(self) -> Result<u64, Fault> {
        match self {
            Made::Filled(bits) => Ok(Checksum::new().with_bits(&bits.freeze()?).value()),
            made => {
                let sum = made.sum();
                drop(made);
                Ok(sum)
            }
        }
    }

    // The sum over what is not changed any more.
    fn sum(&self) -> u64 {
        let sum = Checksum::new();
        match self {
            Made::Array(array) => sum.with_nullable(array).value(),
            Made::Lists(lists) => sum.with_list_view(lists).value(),
            Made::Texts(array) => sum.with_texts(array).value(),
            Made::Column(array) => sum.with_column(array).value(),
            Made::Validity(validity) => sum.with_validity(validity).value(),
            Made::Views(buffers, views) => sum
                .with_views(views.as_slice())
                .with_buffers(buffers)
                .value(),
            Made::Bits(bits) => sum.with_bits(bits).value(),
            Made::Filled(_) => 0,
            Made::Mask(mask) => mask.true_count() as u64,
            Made::Number(number) => *number,
            Made::Numbers(numbers) => sum.with_numbers(numbers.as_slice()).value(),
            Made::Positions(positions) => sum.with_words(positions).value(),
            Made::Bytes(bytes) => sum.with_bytes(bytes.as_slice()).value(),
        }
    }
}
