// Sums over what operations make, in which the order counts.

use vx_base::{BitBuffer, ByteBuffer, Scalar, ScalarValue};
use vx_lists::ListViewArray;
use vx_tree::{ArrayRef, Layout, Validity};
use vx_views::BinaryView;

// A running sum.
#[derive(Clone, Copy)]
pub(crate) struct Checksum(u64);

impl Checksum {
    pub(crate) fn new() -> Checksum {
        Checksum(0)
    }

    pub(crate) fn value(self) -> u64 {
        self.0
    }

    fn with_word(self, word: u64) -> Checksum {
        Checksum((self.0.rotate_left(5) ^ word).wrapping_mul(0x517cc1b727220a95))
    }

    pub(crate) fn with_words(self, words: &[usize]) -> Checksum {
        let mut sum = self;
        for word in words {
            sum = sum.with_word(*word as u64);
        }
        sum
    }

    pub(crate) fn with_numbers(self, numbers: &[u32]) -> Checksum {
        let mut sum = self;
        for number in numbers {
            sum = sum.with_word(*number as u64);
        }
        sum
    }

    pub(crate) fn with_bytes(self, bytes: &[u8]) -> Checksum {
        let mut sum = self;
        let (words, rest) = bytes.as_chunks::<8>();
        for word in words {
            sum = sum.with_word(u64::from_le_bytes(*word));
        }
        sum.with_rest(rest)
    }

    // Bytes, each as a word.
    fn with_rest(self, bytes: &[u8]) -> Checksum {
        let mut sum = self;
        for byte in bytes {
            sum = sum.with_word(*byte as u64);
        }
        sum
    }

    pub(crate) fn with_bits(self, bits: &BitBuffer) -> Checksum {
        let mut sum = self;
        for i in 0..bits.len() {
            sum = sum.with_word(bits.value(i) as u64);
        }
        sum
    }

    pub(crate) fn with_views(self, views: &[BinaryView]) -> Checksum {
        let mut sum = self;
        for view in views {
            let tail = (view.as_u128() >> 64) as u64;
            sum = sum.with_word(view.head()).with_word(tail);
        }
        sum
    }

    pub(crate) fn with_buffers(self, buffers: &[ByteBuffer]) -> Checksum {
        let mut sum = self;
        for buffer in buffers {
            sum = sum.with_bytes(buffer.as_slice());
        }
        sum
    }

    // The numbers or truth values of an array, of a constant its row and its length; of other
    // layouts the length.
    fn with_array(self, array: &ArrayRef) -> Checksum {
        match array.layout() {
            Layout::Primitive { bytes, .. } => self.with_bytes(bytes.as_slice()),
            Layout::Bool { bits, .. } => self.with_bits(bits),
            Layout::Constant { scalar, len } => self.with_scalar(scalar).with_word(*len as u64),
            _ => self.with_word(array.len() as u64),
        }
    }

    // A row, where it is a number; others are summed as 0.
    fn with_scalar(self, scalar: &Scalar) -> Checksum {
        match scalar.value() {
            Some(ScalarValue::Int(number)) => self.with_word(u64::try_from(*number).unwrap_or(0)),
            _ => self.with_word(0),
        }
    }

    // Offsets and sizes of a list view, and the parts of its elements.
    pub(crate) fn with_list_view(self, lists: &ListViewArray) -> Checksum {
        self.with_array(lists.offsets())
            .with_array(lists.sizes())
            .with_parts(lists.elements())
    }

    // The parts of an array but for its validity, where they are numbers or truth values.
    fn with_parts(self, array: &ArrayRef) -> Checksum {
        match array.layout() {
            Layout::Dict { codes, values, .. } => self.with_array(codes).with_array(values),
            Layout::FixedSizeList { elements, .. } => self.with_array(elements),
            Layout::ListView {
                elements,
                offsets,
                sizes,
                ..
            } => self
                .with_array(offsets)
                .with_array(sizes)
                .with_array(elements),
            Layout::VarBinView { views, .. } => self.with_views(views.as_slice()),
            Layout::Struct { columns, .. } => self.with_arrays(columns),
            _ => self.with_array(array),
        }
    }

    // The views of texts and their buffers; of other layouts nothing.
    pub(crate) fn with_texts(self, array: &ArrayRef) -> Checksum {
        match array.layout() {
            Layout::VarBinView { views, buffers, .. } => {
                self.with_views(views.as_slice()).with_buffers(buffers)
            }
            _ => self,
        }
    }

    // The array of a validity, if it has one.
    pub(crate) fn with_validity(self, validity: &Validity) -> Checksum {
        match validity {
            Validity::Array(array) => self.with_array(array),
            _ => self,
        }
    }

    // The parts of an array and its validity; of a dictionary that of its codes.
    pub(crate) fn with_nullable(self, array: &ArrayRef) -> Checksum {
        let sum = self.with_parts(array);
        match array.layout() {
            Layout::Dict { codes, .. } => sum.with_nulls(codes),
            _ => sum.with_nulls(array),
        }
    }

    // The validity of an array, where it is one of its parts.
    fn with_nulls(self, array: &ArrayRef) -> Checksum {
        match array.layout() {
            Layout::Bool { validity, .. } => self.with_validity(validity),
            Layout::Primitive { validity, .. } => self.with_validity(validity),
            Layout::FixedSizeList { validity, .. } => self.with_validity(validity),
            Layout::ListView { validity, .. } => self.with_validity(validity),
            Layout::VarBinView { validity, .. } => self.with_validity(validity),
            Layout::Struct { validity, .. } => self.with_validity(validity),
            _ => self,
        }
    }

    // All parts of a column: of records those of each of their columns.
    pub(crate) fn with_column(self, array: &ArrayRef) -> Checksum {
        match array.layout() {
            Layout::Struct { columns, .. } => self.with_columns(columns),
            _ => self.with_part(array),
        }
    }

    // All parts of each column that has no columns of its own.
    fn with_columns(self, columns: &[ArrayRef]) -> Checksum {
        let mut sum = self;
        for column in columns {
            sum = sum.with_part(column);
        }
        sum
    }

    // All parts of a column that has no columns of its own.
    fn with_part(self, array: &ArrayRef) -> Checksum {
        match array.layout() {
            Layout::VarBinView { .. } => self.with_texts(array),
            _ => self.with_nullable(array),
        }
    }

    fn with_arrays(self, arrays: &[ArrayRef]) -> Checksum {
        let mut sum = self;
        for array in arrays {
            sum = sum.with_array(array);
        }
        sum
    }
}
