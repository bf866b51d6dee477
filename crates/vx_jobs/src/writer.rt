// A writer makes columns of values that come one by one.

use crate::columns::some_null;
use crate::digest::{Digest, with_array, with_texts};
use crate::fault::Fault;
use crate::random::Random;
use crate::scale::Scale;
use crate::texts::{Lengths, Letters, NAMES, Script};
use std::alloc::Global;
use std::ops::Range;
use vx_base::{ByteBuffer, DType, Nullability, PType};
use vx_leaves::{BoolArray, PrimitiveArray};
use vx_text::VarBinViewArray;
use vx_tree::{ArrayRef, TypedArray};
use vx_views::{MAX_BUFFER_LEN, build_views};

// Words of up to 30 letters.
const WORDS: Lengths = Lengths { least: 3, more: 28 };

// Values of 12 and of 13 bytes.
const EDGE: Lengths = Lengths { least: 12, more: 2 };

// What is written.
#[derive(Drop)]
struct Values<'a> {
    short: Vec<&'a str>,
    words: Vec<Option<&'a str>>,
    edge: Vec<Option<&'a [u8]>>,
    mixed: Vec<Option<&'a [u8]>>,
    lengths: Vec<u32>,
    numbers: Vec<u32>,
    amounts: Vec<Option<u32>>,
    heap: ByteBuffer,
}

// So many texts.
fn texts<'a>(
    alloc: Global,
    random: &mut Random,
    letters: &'a Letters,
    count: usize,
    lengths: Lengths,
) -> Result<Vec<&'a str>, Fault> {
    let mut texts = Vec::with_capacity(alloc, count)?;
    for _ in 0..count {
        let length = lengths.any(random);
        texts.push(letters.text(random, length))?;
    }
    Ok(texts)
}

// The same values, of which one in eight is missing.
fn some_missing<T: Copy>(
    alloc: Global,
    random: &mut Random,
    values: &[T],
) -> Result<Vec<Option<T>>, Fault> {
    let mut some = Vec::with_capacity(alloc, values.len())?;
    for value in values {
        let is_there = random.below(8) != 0;
        some.push(is_there.then_some(*value))?;
    }
    Ok(some)
}

// The bytes of texts, of which one in eight is missing.
fn bytes_of<'a>(
    alloc: Global,
    random: &mut Random,
    texts: &[&'a str],
) -> Result<Vec<Option<&'a [u8]>>, Fault> {
    let mut some = Vec::with_capacity(alloc, texts.len())?;
    for text in texts {
        let is_there = random.below(8) != 0;
        some.push(is_there.then_some(text.as_bytes()))?;
    }
    Ok(some)
}

impl<'a> Values<'a> {
    // So many of each.
    fn new(
        alloc: Global,
        random: &mut Random,
        rows: usize,
        ascii: &'a Letters,
        mixed: &'a Letters,
    ) -> Result<Values<'a>, Fault> {
        let words = texts(alloc, random, ascii, rows, WORDS)?;
        let edge = texts(alloc, random, ascii, rows, EDGE)?;
        let others = texts(alloc, random, mixed, rows, NAMES)?;
        let numbers = random.numbers(alloc, rows, 1_000_000)?;
        Ok(Values {
            short: texts(alloc, random, ascii, rows, NAMES)?,
            words: some_missing(alloc, random, &words)?,
            edge: bytes_of(alloc, random, &edge)?,
            mixed: bytes_of(alloc, random, &others)?,
            lengths: random.numbers(alloc, rows, 30)?,
            amounts: some_missing(alloc, random, &numbers)?,
            numbers,
            heap: random.bytes(alloc, rows.saturating_mul(4), u64::MAX)?,
        })
    }

    // The columns of texts of these rows.
    fn texts(&self, alloc: Global, rows: Range<usize>) -> Result<Vec<ArrayRef>, Fault> {
        let (start, end) = (rows.start, rows.end);
        let short = self.short.get(start..end).unwrap_or(&[]).iter().copied();
        let words = self.words.get(start..end).unwrap_or(&[]).iter().copied();
        let edge = self.edge.get(start..end).unwrap_or(&[]).iter().copied();
        let mixed = self.mixed.get(start..end).unwrap_or(&[]).iter().copied();
        let text = DType::Utf8(Nullability::Nullable);
        let mut columns = Vec::with_capacity(alloc, 4)?;
        columns.push(VarBinViewArray::from_iter_str(alloc, short)?.into_array())?;
        columns.push(VarBinViewArray::from_iter_nullable_str(alloc, words)?.into_array())?;
        columns.push(VarBinViewArray::from_iter_nullable_bin(alloc, edge)?.into_array())?;
        columns.push(VarBinViewArray::from_iter(alloc, mixed, text)?.into_array())?;
        Ok(columns)
    }

    // The columns of numbers and truth values of these rows.
    fn numbers(
        &self,
        alloc: Global,
        random: &mut Random,
        rows: Range<usize>,
    ) -> Result<Vec<ArrayRef>, Fault> {
        let (start, end) = (rows.start, rows.end);
        let count = end.saturating_sub(start);
        let numbers = self.numbers.get(start..end).unwrap_or(&[]).iter().copied();
        let amounts = self.amounts.get(start..end).unwrap_or(&[]).iter().copied();
        let flags = self.numbers.get(start..end).unwrap_or(&[]).iter();
        let flags = flags.map(|number| number & 64 != 0);
        let null = some_null(alloc, random, count)?;
        let bytes = random.bytes(alloc, count / 2, u64::MAX)?;
        let spread = PrimitiveArray::from_values_byte_buffer(
            alloc,
            bytes,
            PType::U32,
            null,
            count,
        )?;
        let mut columns = Vec::with_capacity(alloc, 4)?;
        columns.push(PrimitiveArray::from_iter(alloc, numbers)?.into_array())?;
        columns.push(PrimitiveArray::from_option_iter(alloc, amounts)?.into_array())?;
        columns.push(BoolArray::from_iter(alloc, flags)?.into_array())?;
        columns.push(spread.into_array())?;
        Ok(columns)
    }

    // A digest of the views of a heap of values.
    fn with_views(
        &self,
        alloc: Global,
        digest: Digest,
        rows: Range<usize>,
    ) -> Result<Digest, Fault> {
        let lengths = self.lengths.get(rows).unwrap_or(&[]);
        let mut total = 0usize;
        for length in lengths {
            total = total.saturating_add(*length as usize);
        }
        if total > self.heap.len() {
            return Err(Fault::Usage);
        }
        let heap = self.heap.slice(alloc, 0..total)?;
        let (buffers, views) = build_views(alloc, 0, MAX_BUFFER_LEN, heap, lengths)?;
        Ok(digest.with_buffers(&buffers).with_views(views.as_slice()))
    }
}

// A digest of columns, and of the texts in them.
fn with_columns(alloc: Global, digest: Digest, columns: &[ArrayRef]) -> Result<Digest, Fault> {
    let mut digest = digest;
    for column in columns {
        digest = with_texts(with_array(alloc, digest, column)?, column);
    }
    Ok(digest)
}

pub(crate) fn run(alloc: Global, random: &mut Random, scale: Scale) -> Result<Digest, Fault> {
    let count = scale.column;
    let ascii = Letters::new(alloc, random, count, Script::Ascii)?;
    let mixed = Letters::new(alloc, random, count, Script::Mixed)?;
    let values = Values::new(alloc, random, count, &ascii, &mixed)?;
    let mut digest = Digest::new(scale.rounds);
    for _ in 0..scale.rounds {
        let rows = scale.cut(random);
        let (start, end) = (rows.start, rows.end);
        let texts = values.texts(alloc, start..end)?;
        digest = with_columns(alloc, digest, &texts)?;
        let numbers = values.numbers(alloc, random, start..end)?;
        digest = with_columns(alloc, digest, &numbers)?;
        digest = values.with_views(alloc, digest, start..end)?.next_turn();
    }
    Ok(digest)
}
