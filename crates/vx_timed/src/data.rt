// The data that is worked on. `bench/peer` makes the same.

ghost use Rattle.std.specs.Prelude.{◌<◌};

use crate::fault::Fault;
use std::alloc::Global;
use std::rc::Rc;
use vx_base::{
    BitBuffer, Buffer, ByteBuffer, DType, FieldName, FieldNames, Mask, Nullability, PType, Scalar,
    ScalarValue, ScalarValues,
};
use vx_leaves::{BoolArray, ConstantArray, DictArray, PrimitiveArray};
use vx_lists::{FixedSizeListArray, ListViewArray};
use vx_structs::StructArray;
use vx_text::VarBinViewArray;
use vx_tree::{ArrayRef, TypedArray, Validity};
use vx_views::{BinaryView, MAX_BUFFER_LEN, build_views};

/// How much data there is.
#[derive(Clone, Copy)]
pub struct Scale {
    rows: u32,
}

impl Scale {
    /// So many rows.
    pub fn of_rows(rows: u32) -> Scale {
        Scale { rows }
    }

    /// How many rows these are.
    pub fn rows(self) -> usize
        ensures { result < 4294967296 }
    {
        self.rows as usize
    }

    // A quarter of as much.
    pub(crate) fn quarter(self) -> Scale {
        Scale {
            rows: self.rows / 4,
        }
    }
}

// Numbers that look random, the same ones at each start.
#[derive(Drop)]
struct Random {
    state: u64,
}

impl Random {
    fn new(seed: u64) -> Random {
        Random { state: seed }
    }

    // A number below 2^31.
    fn number(&mut self) -> u32
        ensures { result < 2147483648 }
    {
        self.state = self
            .state
            .wrapping_mul(6364136223846793005)
            .wrapping_add(1442695040888963407);
        (self.state >> 33) as u32
    }

    // A number below `limit`, or 0 where that is 0.
    fn below(&mut self, limit: u32) -> u32 {
        self.number() % limit.max(1)
    }
}

/// A limit of random numbers that are places: all of them, or as many as an u32 can tell.
pub fn limit_of(places: usize) -> u32 {
    u32::try_from(places).unwrap_or(u32::MAX)
}

// So many numbers below `limit`.
pub(crate) fn random_numbers(
    alloc: Global,
    count: usize,
    limit: u32,
    seed: u64,
) -> Result<Vec<u32>, Fault> {
    let mut random = Random::new(seed);
    let mut numbers = Vec::with_capacity(alloc, count)?;
    for _ in 0..count {
        numbers.push(random.below(limit))?;
    }
    Ok(numbers)
}

// So many positions below `limit`.
pub(crate) fn random_positions(
    alloc: Global,
    count: usize,
    limit: u32,
) -> Result<Vec<usize>, Fault> {
    let mut positions = Vec::with_capacity(alloc, count)?;
    for number in random_numbers(alloc, count, limit, 5)? {
        positions.push(number as usize)?;
    }
    Ok(positions)
}

// So many truth values, of which one in `limit` is false.
pub(crate) fn random_bools(
    alloc: Global,
    count: usize,
    limit: u32,
    seed: u64,
) -> Result<Vec<bool>, Fault> {
    let mut random = Random::new(seed);
    let mut bools = Vec::with_capacity(alloc, count)?;
    for _ in 0..count {
        bools.push(random.below(limit) != 0)?;
    }
    Ok(bools)
}

pub(crate) fn random_bits(
    alloc: Global,
    count: usize,
    limit: u32,
    seed: u64,
) -> Result<BitBuffer, Fault> {
    let bools = random_bools(alloc, count, limit, seed)?;
    Ok(BitBuffer::from_bools(alloc, &bools)?)
}

// A mask that keeps three of four rows, at random.
pub(crate) fn random_mask(alloc: Global, rows: usize) -> Result<Mask, Fault> {
    Ok(Mask::from_buffer(alloc, random_bits(alloc, rows, 4, 8)?)?)
}

// So many bits in runs of a hundredth of them, of which one run in four is false.
pub(crate) fn bits_in_runs(alloc: Global, count: usize) -> Result<BitBuffer, Fault> {
    let run = (count / 100).max(1);
    let mut bools = Vec::with_capacity(alloc, count)?;
    for i in 0..count {
        bools.push(i / run % 4 != 0)?;
    }
    Ok(BitBuffer::from_bools(alloc, &bools)?)
}

// So many bits, of which those from the first quarter on up to the last are true.
pub(crate) fn bits_in_one_run(alloc: Global, count: usize) -> Result<BitBuffer, Fault> {
    let quarter = count / 4;
    let mut bools = Vec::with_capacity(alloc, count)?;
    for i in 0..count {
        bools.push(quarter <= i && i < count - quarter)?;
    }
    Ok(BitBuffer::from_bools(alloc, &bools)?)
}

// The items, of which one in ten is left out.
pub(crate) fn some_left_out<T: Copy>(alloc: Global, items: &[T]) -> Result<Vec<Option<T>>, Fault> {
    let mut present = Random::new(3);
    let mut left = Vec::with_capacity(alloc, items.len())?;
    for item in items {
        let is_present = present.below(10) != 0;
        left.push(is_present.then_some(*item))?;
    }
    Ok(left)
}

// The multiples of `step`, from 0 on.
pub(crate) fn multiples(alloc: Global, count: usize, step: u32) -> Result<Vec<u32>, Fault> {
    let mut numbers = Vec::with_capacity(alloc, count)?;
    let mut number = 0u32;
    for _ in 0..count {
        numbers.push(number)?;
        number = number.wrapping_add(step);
    }
    Ok(numbers)
}

fn number_array(alloc: Global, numbers: Vec<u32>) -> Result<ArrayRef, Fault> {
    let buffer = Buffer::from_vec(alloc, numbers)?;
    Ok(PrimitiveArray::try_new(alloc, buffer, Validity::NonNullable)?.into_array())
}

/// So many numbers below `limit`, as an array.
pub fn numbers_below(alloc: Global, rows: usize, limit: u32, seed: u64) -> Result<ArrayRef, Fault> {
    number_array(alloc, random_numbers(alloc, rows, limit, seed)?)
}

// So many numbers.
pub(crate) fn numbers(alloc: Global, rows: usize) -> Result<ArrayRef, Fault> {
    numbers_below(alloc, rows, u32::MAX, 6)
}

// The same, in a buffer.
pub(crate) fn number_buffer(alloc: Global, rows: usize) -> Result<Buffer<u32>, Fault> {
    let numbers = random_numbers(alloc, rows, u32::MAX, 6)?;
    Ok(Buffer::from_vec(alloc, numbers)?)
}

// The bytes of the same.
pub(crate) fn number_bytes(alloc: Global, rows: usize) -> Result<ByteBuffer, Fault> {
    Ok(number_buffer(alloc, rows)?.into_byte_buffer(alloc)?)
}

pub(crate) fn bool_array(alloc: Global, bits: BitBuffer) -> Result<ArrayRef, Fault> {
    Ok(BoolArray::try_new(alloc, bits, Validity::NonNullable)?.into_array())
}

/// So many truth values, of which one in `limit` is false, as an array.
pub fn truths(alloc: Global, rows: usize, limit: u32, seed: u64) -> Result<ArrayRef, Fault> {
    bool_array(alloc, random_bits(alloc, rows, limit, seed)?)
}

// A validity of so many rows, of which one in ten is null.
pub(crate) fn some_null(alloc: Global, rows: usize, seed: u64) -> Result<Validity, Fault> {
    Ok(Validity::Array(truths(alloc, rows, 10, seed)?))
}

// The lists of a list view.
#[derive(Clone, Copy)]
pub(crate) struct ListShape {
    // How many elements each list has.
    pub(crate) size: u32,
    // Whether the lists lie one after another; else each lies anywhere.
    pub(crate) in_order: bool,
    // Whether one row in ten is null.
    pub(crate) some_null: bool,
}

// Lists of four elements that lie anywhere, none of them null.
pub(crate) const AT_RANDOM: ListShape = ListShape {
    size: 4,
    in_order: false,
    some_null: false,
};

// A list view over four numbers a row of the scale.
pub(crate) fn list_view(
    alloc: Global,
    scale: Scale,
    shape: ListShape,
) -> Result<ListViewArray, Fault> {
    let count = 4 * scale.rows();
    let elements = numbers_below(alloc, count, u32::MAX, 1)?;
    lists_over(alloc, elements, shape)
}

// Where so many lists begin, over so many elements.
fn offsets_within(
    alloc: Global,
    len: usize,
    rows: usize,
    shape: ListShape,
) -> Result<ArrayRef, Fault> {
    if shape.in_order {
        return number_array(alloc, multiples(alloc, rows, shape.size)?);
    }
    let limit = limit_of(len).saturating_sub(shape.size);
    numbers_below(alloc, rows, limit, 2)
}

// As many lists over elements as could lie in them one after another.
pub(crate) fn lists_over(
    alloc: Global,
    elements: ArrayRef,
    shape: ListShape,
) -> Result<ListViewArray, Fault> {
    let rows = elements.len() / shape.size.max(1) as usize;
    let offsets = offsets_within(alloc, elements.len(), rows, shape)?;
    let sizes = number_array(alloc, vec![in alloc; shape.size; rows]?)?;
    let validity = if shape.some_null {
        some_null(alloc, rows, 3)?
    } else {
        Validity::NonNullable
    };
    Ok(ListViewArray::try_new(alloc, elements, offsets, sizes, validity)?)
}

// Values of bytes, one after another.
#[derive(Drop)]
pub(crate) struct Heap {
    pub(crate) bytes: ByteBuffer,
    pub(crate) lengths: Vec<u32>,
}

// Adds so many values' pairs of bytes: letters, or, in mixed text, at half of them one of Latin-1.
fn push_pairs(
    bytes: &mut Vec<u8>,
    random: &mut Random,
    pairs: u32,
    mixed: bool,
) -> Result<(), Fault> {
    for _ in 0..pairs {
        let number = random.number();
        if mixed && number & 0x1000 == 0 {
            bytes.push(0xC3)?;
            bytes.push(0x80 + (number % 64) as u8)?;
        } else {
            bytes.push(b'a' + (number % 26) as u8)?;
            bytes.push(b'a' + ((number >> 17) % 26) as u8)?;
        }
    }
    Ok(())
}

// Which texts there are.
#[derive(Clone, Copy)]
pub(crate) struct Texts {
    // Whether half of the pairs of bytes are one letter of Latin-1; else all are ASCII.
    pub(crate) mixed: bool,
    // How many bytes one text in 128 has; the others have 8 or 24.
    pub(crate) longest: u32,
}

impl Texts {
    // The bytes of a text, by a random number.
    fn length(self, number: u32) -> u32 {
        if number & 0x7F00 == 0 && self.longest > 24 {
            self.longest
        } else if number & 0x80 == 0 {
            8
        } else {
            24
        }
    }
}

// Texts of 8 or 24 bytes.
pub(crate) fn short_texts(mixed: bool) -> Texts {
    Texts { mixed, longest: 24 }
}

// So many texts.
pub(crate) fn text_heap(alloc: Global, rows: usize, texts: Texts) -> Result<Heap, Fault> {
    let mut random = Random::new(4);
    let mut bytes = Vec::new(alloc);
    let mut lengths = Vec::with_capacity(alloc, rows)?;
    for _ in 0..rows {
        let length = texts.length(random.number());
        lengths.push(length)?;
        push_pairs(&mut bytes, &mut random, length / 2, texts.mixed)?;
    }
    let bytes = ByteBuffer::from_vec(alloc, bytes)?;
    Ok(Heap { bytes, lengths })
}

// Where each value begins, and the end of the last.
pub(crate) fn offsets_of(alloc: Global, lengths: &[u32]) -> Result<Vec<u32>, Fault> {
    let mut offsets = vec![in alloc; 0u32; 1]?;
    let mut end = 0u32;
    for length in lengths {
        end = end.wrapping_add(*length);
        offsets.push(end)?;
    }
    Ok(offsets)
}

// The buffers and the views of texts.
pub(crate) fn text_views(
    alloc: Global,
    rows: usize,
    texts: Texts,
) -> Result<(Vec<ByteBuffer>, Buffer<BinaryView>), Fault> {
    let heap = text_heap(alloc, rows, texts)?;
    Ok(build_views(alloc, 0, MAX_BUFFER_LEN, heap.bytes, &heap.lengths)?)
}

// Texts of 8 or 24 bytes.
pub(crate) fn text_array(alloc: Global, rows: usize) -> Result<ArrayRef, Fault> {
    let (buffers, views) = text_views(alloc, rows, short_texts(false))?;
    let dtype = DType::Utf8(Nullability::NonNullable);
    let none = Validity::NonNullable;
    Ok(VarBinViewArray::try_new(alloc, views, buffers, dtype, none)?.into_array())
}

// Lists of four numbers each.
pub(crate) fn fixed_size_lists(alloc: Global, scale: Scale) -> Result<ArrayRef, Fault> {
    let rows = scale.rows();
    let elements = numbers_below(alloc, 4 * rows, u32::MAX, 1)?;
    let none = Validity::NonNullable;
    Ok(FixedSizeListArray::try_new(alloc, elements, 4, none, rows)?.into_array())
}

// Records of a number and a truth value.
pub(crate) fn records(alloc: Global, rows: usize) -> Result<ArrayRef, Fault> {
    let mut columns = Vec::with_capacity(alloc, 2)?;
    columns.push(numbers(alloc, rows)?)?;
    columns.push(truths(alloc, rows, 2, 7)?)?;
    let names = ["number", "truth"];
    let records = records_under(alloc, &names, columns, rows, Validity::NonNullable)?;
    Ok(records.into_array())
}

// So many codes of a thousand numbers, of which so many first ones are named.
pub(crate) fn dictionary(alloc: Global, rows: usize, named: u32) -> Result<DictArray, Fault> {
    let codes = numbers_below(alloc, rows, named, 9)?;
    let values = numbers(alloc, 1000)?;
    Ok(DictArray::try_new(alloc, codes, values)?)
}

// So many codes of a dictionary of a thousand codes of a hundred numbers.
pub(crate) fn nested_dictionary(alloc: Global, rows: usize) -> Result<ArrayRef, Fault> {
    let codes = numbers_below(alloc, 1000, 100, 11)?;
    let numbers = numbers(alloc, 100)?;
    let values = DictArray::try_new(alloc, codes, numbers)?.into_array();
    let codes = numbers_below(alloc, rows, 1000, 9)?;
    Ok(DictArray::try_new(alloc, codes, values)?.into_array())
}

// A value in so many rows.
fn constant(
    alloc: Global,
    dtype: DType,
    value: ScalarValue,
    rows: usize,
) -> Result<ArrayRef, Fault> {
    let scalar = Scalar::try_new(dtype, Some(value))?;
    Ok(ConstantArray::new(alloc, scalar, rows)?.into_array())
}

// A number in so many rows.
pub(crate) fn constant_number(alloc: Global, number: u32, rows: usize) -> Result<ArrayRef, Fault> {
    let dtype = DType::Primitive(PType::U32, Nullability::NonNullable);
    constant(alloc, dtype, ScalarValue::Int(number as i128), rows)
}

// A text of 24 bytes in so many rows.
pub(crate) fn constant_text(alloc: Global, rows: usize) -> Result<ArrayRef, Fault> {
    let text = ByteBuffer::copy_from(alloc, b"the same text everywhere")?;
    let dtype = DType::Utf8(Nullability::NonNullable);
    constant(alloc, dtype, ScalarValue::Text(text), rows)
}

// A list of a hundred numbers in so many rows.
pub(crate) fn constant_list(alloc: Global, rows: usize) -> Result<ArrayRef, Fault> {
    let mut values = Vec::with_capacity(alloc, 100)?;
    for number in random_numbers(alloc, 100, u32::MAX, 6)? {
        values.push(Some(ScalarValue::Int(number as i128)))?;
    }
    let values = ScalarValues::from_vec(alloc, values)?;
    let items = DType::Primitive(PType::U32, Nullability::NonNullable);
    let dtype = DType::List(Rc::new(alloc, items)?, Nullability::NonNullable);
    constant(alloc, dtype, ScalarValue::List(values), rows)
}

// Lists of four numbers each that lie anywhere, their sizes a constant.
pub(crate) fn lists_of_one_size(alloc: Global, scale: Scale) -> Result<ArrayRef, Fault> {
    let rows = scale.rows();
    let count = 4 * rows;
    let limit = limit_of(count).saturating_sub(4);
    let elements = numbers_below(alloc, count, u32::MAX, 1)?;
    let offsets = numbers_below(alloc, rows, limit, 2)?;
    let sizes = constant_number(alloc, 4, rows)?;
    let validity = Validity::NonNullable;
    Ok(ListViewArray::try_new(alloc, elements, offsets, sizes, validity)?.into_array())
}

// So many numbers below 60000.
pub(crate) fn small_numbers(alloc: Global, rows: usize) -> Result<PrimitiveArray, Fault> {
    let buffer = Buffer::from_vec(alloc, random_numbers(alloc, rows, 60000, 10)?)?;
    Ok(PrimitiveArray::try_new(alloc, buffer, Validity::NonNullable)?)
}

// So many texts, each one of the choices.
pub(crate) fn repeated_texts(
    alloc: Global,
    count: usize,
    choices: &[&'static str],
) -> Result<Vec<&'static str>, Fault> {
    let mut random = Random::new(13);
    let mut texts = Vec::with_capacity(alloc, count)?;
    for _ in 0..count {
        let choice = random.below(4) as usize;
        texts.push(choices.get(choice).copied().unwrap_or(""))?;
    }
    Ok(texts)
}

// Columns of numbers and of truth values, in turns.
pub(crate) fn five_columns(alloc: Global, rows: usize) -> Result<Vec<ArrayRef>, Fault> {
    let numbers = numbers(alloc, rows)?;
    let truths = truths(alloc, rows, 2, 7)?;
    five_by_turns(alloc, &numbers, &truths)
}

// Three times the one array and twice the other, in turns.
fn five_by_turns(alloc: Global, one: &ArrayRef, other: &ArrayRef) -> Result<Vec<ArrayRef>, Fault> {
    let mut columns = Vec::with_capacity(alloc, 5)?;
    for column in [one, other, one, other, one] {
        columns.push(column.try_clone(alloc)?)?;
    }
    Ok(columns)
}

// An array so many times, shared.
pub(crate) fn copies(
    alloc: Global,
    array: &ArrayRef,
    count: usize,
) -> Result<Vec<ArrayRef>, Fault> {
    let mut arrays = Vec::with_capacity(alloc, count)?;
    for _ in 0..count {
        arrays.push(array.try_clone(alloc)?)?;
    }
    Ok(arrays)
}

// Records of these columns under these names.
pub(crate) fn records_under(
    alloc: Global,
    names: &[&str],
    columns: Vec<ArrayRef>,
    rows: usize,
    validity: Validity,
) -> Result<StructArray, Fault> {
    let names = FieldNames::try_new(alloc, names)?;
    let columns = columns.into_iter();
    Ok(StructArray::try_new(alloc, names, columns, rows, validity)?)
}

// A name that ends in the last two digits of a number.
pub(crate) fn column_name(alloc: Global, number: u32) -> Result<FieldName, Fault> {
    let tens = b'0' + (number / 10 % 10) as u8;
    let ones = b'0' + (number % 10) as u8;
    let text = [b'c', b'o', b'l', b'u', b'm', b'n', b'_', tens, ones];
    match std::str::from_utf8(&text) {
        Ok(text) => Ok(FieldName::try_new(alloc, text)?),
        Err(_) => Err(Fault::Usage),
    }
}
