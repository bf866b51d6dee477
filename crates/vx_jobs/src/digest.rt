// Digests of arrays: of their data types, names and parts, down to some depth.

use crate::fault::Fault;
use std::alloc::Global;
use std::ops::Range;
use vx_base::{
    BitBuffer, ByteBuffer, DType, FieldNames, Mask, PType, Scalar, ScalarValue, StructFields,
};
use vx_tree::{ArrayRef, Layout, Validity};
use vx_views::BinaryView;

// A running digest, in which the order counts. What many arrays share is read by parts, another
// one each turn.
#[derive(Clone, Copy)]
pub(crate) struct Digest {
    state: u64,
    turn: usize,
    turns: usize,
}

// A word, mixed with all words before it: no two words give the same after the same others.
fn mixed(state: u64, word: u64) -> u64 {
    (state.rotate_left(5) ^ word).wrapping_mul(0x517cc1b727220a95)
}

// Four digests side by side, so that no word waits for its neighbour.
#[derive(Clone, Copy)]
struct Lanes {
    first: u64,
    second: u64,
    third: u64,
    fourth: u64,
}

impl Lanes {
    fn new(state: u64) -> Lanes {
        Lanes {
            first: state,
            second: 1,
            third: 2,
            fourth: 3,
        }
    }

    // Four words, each mixed with those at its own place before it.
    fn with(self, first: u64, second: u64, third: u64, fourth: u64) -> Lanes {
        Lanes {
            first: mixed(self.first, first),
            second: mixed(self.second, second),
            third: mixed(self.third, third),
            fourth: mixed(self.fourth, fourth),
        }
    }

    fn joined(self) -> u64 {
        mixed(
            mixed(mixed(self.first, self.second), self.third),
            self.fourth,
        )
    }
}

// The words of bytes.
fn mixed_words(state: u64, fours: &[[[u8; 8]; 4]]) -> u64 {
    let mut lanes = Lanes::new(state);
    for [first, second, third, fourth] in fours {
        lanes = lanes.with(
            u64::from_le_bytes(*first),
            u64::from_le_bytes(*second),
            u64::from_le_bytes(*third),
            u64::from_le_bytes(*fourth),
        );
    }
    lanes.joined()
}

// The last eight bytes of a view.
fn tail_of(view: &BinaryView) -> u64 {
    (view.as_u128() >> 64) as u64
}

// Views by twos.
fn mixed_views(state: u64, pairs: &[[BinaryView; 2]]) -> u64 {
    let mut lanes = Lanes::new(state);
    for [one, other] in pairs {
        lanes = lanes.with(one.head(), tail_of(one), other.head(), tail_of(other));
    }
    lanes.joined()
}

// Runs by twos.
fn mixed_runs(state: u64, pairs: &[[(usize, usize); 2]]) -> u64 {
    let mut lanes = Lanes::new(state);
    for [one, other] in pairs {
        lanes = lanes.with(one.0 as u64, one.1 as u64, other.0 as u64, other.1 as u64);
    }
    lanes.joined()
}

impl Digest {
    // A digest before anything is read, for so many turns.
    pub(crate) fn new(turns: usize) -> Digest {
        Digest {
            state: 0,
            turn: 0,
            turns,
        }
    }

    pub(crate) fn value(self) -> u64 {
        self.state
    }

    // The same digest, when a turn has ended.
    pub(crate) fn next_turn(self) -> Digest {
        Digest {
            state: self.state,
            turn: self.turn.saturating_add(1),
            turns: self.turns,
        }
    }

    // Which part of so many bytes or rows has its turn. The parts of all turns are the whole.
    fn part(self, len: usize) -> Range<usize> {
        let step = (len / self.turns.max(1)).saturating_add(1);
        let start = self.turn.saturating_mul(step).min(len);
        start..start.saturating_add(step).min(len)
    }

    fn with_state(self, state: u64) -> Digest {
        Digest {
            state,
            turn: self.turn,
            turns: self.turns,
        }
    }

    pub(crate) fn with_word(self, word: u64) -> Digest {
        self.with_state(mixed(self.state, word))
    }

    // Bytes: most of them by words.
    pub(crate) fn with_bytes(self, bytes: &[u8]) -> Digest {
        let (words, rest) = bytes.as_chunks::<8>();
        let (fours, last) = words.as_chunks::<4>();
        let digest = self.with_word(bytes.len() as u64);
        let digest = digest.with_state(mixed_words(digest.state, fours));
        digest.with_last(last).with_rest(rest)
    }

    // The words after the fours.
    fn with_last(self, words: &[[u8; 8]]) -> Digest {
        let mut digest = self;
        for word in words {
            digest = digest.with_word(u64::from_le_bytes(*word));
        }
        digest
    }

    // The bytes after the words.
    fn with_rest(self, bytes: &[u8]) -> Digest {
        let mut digest = self;
        for byte in bytes {
            digest = digest.with_word(*byte as u64);
        }
        digest
    }

    // The bits from place `start` up to, but not at, `end`, fewer than eight, as a word.
    fn with_some(self, bits: &BitBuffer, start: usize, end: usize) -> Digest {
        let mut word = 1u64;
        for i in start..end.min(bits.len()) {
            word = word.rotate_left(1) ^ bits.value(i) as u64;
        }
        self.with_word(word)
    }

    // Bits: the whole bytes among them, and those before and after one by one.
    pub(crate) fn with_bits(self, alloc: Global, bits: &BitBuffer) -> Result<Digest, Fault> {
        let (offset, len, bytes) = bits.try_clone(alloc)?.into_inner();
        let before = ((8 - offset) % 8).min(len);
        let after = len - (len - before) % 8;
        let digest = self.with_word(len as u64).with_some(bits, 0, before);
        match bytes
            .as_slice()
            .get(offset.div_ceil(8)..(offset + after) / 8)
        {
            Some(whole) => Ok(digest.with_bytes(whole).with_some(bits, after, len)),
            None if after == before => Ok(digest.with_some(bits, after, len)),
            None => Err(Fault::Usage),
        }
    }

    pub(crate) fn with_views(self, views: &[BinaryView]) -> Digest {
        let (pairs, last) = views.as_chunks::<2>();
        let digest = self.with_word(views.len() as u64);
        let digest = digest.with_state(mixed_views(digest.state, pairs));
        match last.first() {
            Some(view) => digest.with_word(view.head()).with_word(tail_of(view)),
            None => digest,
        }
    }

    pub(crate) fn with_mask(self, mask: &Mask) -> Digest {
        let (pairs, last) = mask.runs().as_chunks::<2>();
        let digest = self
            .with_word(mask.len() as u64)
            .with_word(mask.true_count() as u64);
        let digest = digest.with_state(mixed_runs(digest.state, pairs));
        match last.first() {
            Some(run) => digest.with_word(run.0 as u64).with_word(run.1 as u64),
            None => digest,
        }
    }

    // All bytes of buffers.
    pub(crate) fn with_buffers(self, buffers: &[ByteBuffer]) -> Digest {
        let mut digest = self.with_word(buffers.len() as u64);
        for buffer in buffers {
            digest = digest.with_bytes(buffer.as_slice());
        }
        digest
    }

    // The lengths of buffers, and the part of each that has its turn.
    fn with_parts(self, buffers: &[ByteBuffer]) -> Digest {
        let mut digest = self.with_word(buffers.len() as u64);
        for buffer in buffers {
            let part = buffer.as_slice().get(digest.part(buffer.len()));
            digest = digest.with_word(buffer.len() as u64);
            digest = digest.with_bytes(part.unwrap_or(&[]));
        }
        digest
    }

    fn with_ptype(self, ptype: PType) -> Digest {
        self.with_word(ptype.byte_width() as u64)
            .with_word(ptype.is_unsigned_int() as u64)
    }

    fn with_names(self, names: &FieldNames) -> Digest {
        let mut digest = self.with_word(names.len() as u64);
        for i in 0..names.len() {
            digest = digest.with_bytes(names.get(i).as_str().as_bytes());
        }
        digest
    }

    // A data type, without the names and data types in it.
    fn with_kind(self, dtype: &DType) -> Digest {
        let digest = self.with_word(dtype.is_nullable() as u64);
        match dtype {
            DType::Bool(_) => digest.with_word(1),
            DType::Primitive(ptype, _) => digest.with_word(2).with_ptype(*ptype),
            DType::Utf8(_) => digest.with_word(3),
            DType::Binary(_) => digest.with_word(4),
            DType::List(_, _) => digest.with_word(5),
            DType::FixedSizeList(_, size, _) => digest.with_word(6).with_word(*size as u64),
            DType::Struct(_, _) => digest.with_word(7),
        }
    }

    // A row, where it is a truth value, a number or bytes.
    fn with_scalar(self, scalar: &Scalar) -> Digest {
        match scalar.value() {
            Some(ScalarValue::Bool(value)) => self.with_word(*value as u64),
            Some(ScalarValue::Int(number)) => self.with_bytes(&number.to_le_bytes()),
            Some(ScalarValue::Bytes(bytes)) => self.with_bytes(bytes.as_slice()),
            Some(ScalarValue::Text(bytes)) => self.with_bytes(bytes.as_slice()),
            Some(_) => self.with_word(2),
            None => self.with_word(3),
        }
    }
}

// Makes digests down to some depth: of what lies deeper, only the kind and the length count.
pub(crate) trait Digests {
    // A data type, with the names and data types in it.
    fn with_dtype(&self, digest: Digest, dtype: &DType) -> Digest;

    // The parts of an array. Of what it may share with many others, the buffers of texts and the
    // elements of few lists, only the part counts that has its turn.
    fn with_array(&self, alloc: Global, digest: Digest, array: &ArrayRef) -> Result<Digest, Fault>;

    // All buffers of the texts in an array.
    fn with_texts(&self, digest: Digest, array: &ArrayRef) -> Digest;
}

// The floor, below which nothing is looked at.
#[derive(Clone, Copy)]
pub(crate) struct Floor;

impl Digests for Floor {
    fn with_dtype(&self, digest: Digest, dtype: &DType) -> Digest {
        digest.with_kind(dtype)
    }

    fn with_array(
        &self,
        _alloc: Global,
        digest: Digest,
        array: &ArrayRef,
    ) -> Result<Digest, Fault> {
        Ok(
            digest
                .with_kind(array.dtype())
                .with_word(array.len() as u64),
        )
    }

    fn with_texts(&self, digest: Digest, _array: &ArrayRef) -> Digest {
        digest
    }
}

// A level, and what lies below it.
#[derive(Clone, Copy)]
pub(crate) struct Level<D> {
    below: D,
}

// As deep as the arrays of the jobs are.
pub(crate) type Deep = Level<Level<Level<Level<Level<Level<Floor>>>>>>;

fn above<D>(below: D) -> Level<D> {
    Level { below }
}

fn deep() -> Deep {
    above(above(above(above(above(above(Floor))))))
}

impl<D: Digests> Level<D> {
    fn with_validity(
        &self,
        alloc: Global,
        digest: Digest,
        validity: &Validity,
    ) -> Result<Digest, Fault> {
        match validity {
            Validity::NonNullable => Ok(digest.with_word(0)),
            Validity::AllValid => Ok(digest.with_word(1)),
            Validity::AllInvalid => Ok(digest.with_word(2)),
            Validity::Array(array) => self.below.with_array(alloc, digest, array),
        }
    }

    fn with_arrays(
        &self,
        alloc: Global,
        digest: Digest,
        arrays: &[ArrayRef],
    ) -> Result<Digest, Fault> {
        let mut digest = digest;
        for array in arrays {
            digest = self.below.with_array(alloc, digest, array)?;
        }
        Ok(digest)
    }

    // The elements of so many lists: those that many more lists share by parts.
    fn with_elements(
        &self,
        alloc: Global,
        digest: Digest,
        elements: &ArrayRef,
        lists: usize,
    ) -> Result<Digest, Fault> {
        let digest = digest.with_word(elements.len() as u64);
        if elements.len() / 16 <= lists {
            return self.below.with_array(alloc, digest, elements);
        }
        let part = elements.slice(alloc, digest.part(elements.len()))?;
        self.below.with_array(alloc, digest, &part)
    }

    // The parts of a list view.
    fn with_lists(&self, alloc: Global, digest: Digest, array: &ArrayRef) -> Result<Digest, Fault> {
        let Layout::ListView {
            elements,
            offsets,
            sizes,
            validity,
            flag,
        } = array.layout()
        else {
            return Err(Fault::Usage);
        };
        let digest = digest.with_word(*flag as u64);
        let digest = self.below.with_array(alloc, digest, offsets)?;
        let digest = self.below.with_array(alloc, digest, sizes)?;
        let digest = self.with_elements(alloc, digest, elements, offsets.len())?;
        self.with_validity(alloc, digest, validity)
    }

    // The parts of lists of a fixed size.
    fn with_fixed_lists(
        &self,
        alloc: Global,
        digest: Digest,
        array: &ArrayRef,
    ) -> Result<Digest, Fault> {
        let Layout::FixedSizeList {
            elements,
            size,
            validity,
            len,
        } = array.layout()
        else {
            return Err(Fault::Usage);
        };
        let digest = digest.with_word(*size as u64).with_word(*len as u64);
        let digest = self.below.with_array(alloc, digest, elements)?;
        self.with_validity(alloc, digest, validity)
    }

    // The parts of records.
    fn with_records(
        &self,
        alloc: Global,
        digest: Digest,
        array: &ArrayRef,
    ) -> Result<Digest, Fault> {
        let Layout::Struct {
            names,
            columns,
            validity,
            len,
        } = array.layout()
        else {
            return Err(Fault::Usage);
        };
        let digest = digest.with_names(names).with_word(*len as u64);
        let digest = self.with_arrays(alloc, digest, columns)?;
        self.with_validity(alloc, digest, validity)
    }

    // The parts of numbers.
    fn with_numbers(
        &self,
        alloc: Global,
        digest: Digest,
        array: &ArrayRef,
    ) -> Result<Digest, Fault> {
        let Layout::Primitive {
            ptype,
            bytes,
            validity,
        } = array.layout()
        else {
            return Err(Fault::Usage);
        };
        let digest = digest.with_ptype(*ptype).with_bytes(bytes.as_slice());
        self.with_validity(alloc, digest, validity)
    }

    // The parts of texts or byte lists.
    fn with_values(
        &self,
        alloc: Global,
        digest: Digest,
        array: &ArrayRef,
    ) -> Result<Digest, Fault> {
        let Layout::VarBinView {
            views,
            buffers,
            validity,
            ..
        } = array.layout()
        else {
            return Err(Fault::Usage);
        };
        let digest = digest.with_views(views.as_slice()).with_parts(buffers);
        self.with_validity(alloc, digest, validity)
    }

    // The names and data types of fields.
    fn with_fields(&self, digest: Digest, fields: &StructFields) -> Digest {
        let mut digest = digest.with_names(fields.names());
        for dtype in fields.fields() {
            digest = self.below.with_dtype(digest, dtype);
        }
        digest
    }
}

impl<D: Digests> Digests for Level<D> {
    fn with_dtype(&self, digest: Digest, dtype: &DType) -> Digest {
        let digest = digest.with_kind(dtype);
        match dtype {
            DType::Bool(_) | DType::Primitive(_, _) | DType::Utf8(_) | DType::Binary(_) => digest,
            DType::List(items, _) => self.below.with_dtype(digest, items),
            DType::FixedSizeList(items, _, _) => self.below.with_dtype(digest, items),
            DType::Struct(fields, _) => self.with_fields(digest, fields),
        }
    }

    fn with_array(&self, alloc: Global, digest: Digest, array: &ArrayRef) -> Result<Digest, Fault> {
        let below = &self.below;
        let digest = digest.with_kind(array.dtype());
        match array.layout() {
            Layout::Bool { bits, validity } => {
                let digest = digest.with_word(1).with_bits(alloc, bits)?;
                self.with_validity(alloc, digest, validity)
            }
            Layout::Primitive { .. } => self.with_numbers(alloc, digest.with_word(2), array),
            Layout::Constant { scalar, len } => {
                let digest = digest.with_word(3).with_scalar(scalar);
                Ok(digest.with_word(*len as u64))
            }
            Layout::Dict {
                codes,
                values,
                flag,
            } => {
                let digest = digest.with_word(4).with_word(*flag as u64);
                below.with_array(alloc, below.with_array(alloc, digest, codes)?, values)
            }
            Layout::FixedSizeList { .. } => {
                self.with_fixed_lists(alloc, digest.with_word(5), array)
            }
            Layout::ListView { .. } => self.with_lists(alloc, digest.with_word(6), array),
            Layout::VarBinView { .. } => self.with_values(alloc, digest.with_word(7), array),
            Layout::Struct { .. } => self.with_records(alloc, digest.with_word(8), array),
        }
    }

    fn with_texts(&self, digest: Digest, array: &ArrayRef) -> Digest {
        let below = &self.below;
        match array.layout() {
            Layout::VarBinView { buffers, .. } => digest.with_buffers(buffers),
            Layout::Dict { values, .. } => below.with_texts(digest, values),
            Layout::FixedSizeList { elements, .. } => below.with_texts(digest, elements),
            Layout::ListView { elements, .. } => below.with_texts(digest, elements),
            Layout::Struct { columns, .. } => {
                let mut digest = digest;
                for column in columns {
                    digest = below.with_texts(digest, column);
                }
                digest
            }
            Layout::Bool { .. } | Layout::Primitive { .. } | Layout::Constant { .. } => digest,
        }
    }
}

// The digest of an array, after others.
pub(crate) fn with_array(alloc: Global, digest: Digest, array: &ArrayRef) -> Result<Digest, Fault> {
    let digest = deep().with_dtype(digest, array.dtype());
    deep().with_array(alloc, digest, array)
}

// The digest of all buffers of the texts in an array, after others.
pub(crate) fn with_texts(digest: Digest, array: &ArrayRef) -> Digest {
    deep().with_texts(digest, array)
}
