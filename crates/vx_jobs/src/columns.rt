// Columns of numbers, truth values, codes, lists and records.

use crate::fault::Fault;
use crate::random::{Random, Share};
use crate::texts::names;
use std::alloc::Global;
use vx_base::{BitBuffer, Buffer, FieldNames, PType};
use vx_leaves::{BoolArray, DictArray, PrimitiveArray};
use vx_lists::{FixedSizeListArray, ListViewArray};
use vx_structs::StructArray;
use vx_tree::{ArrayRef, TypedArray, Validity};

pub(crate) fn bool_array(alloc: Global, bits: BitBuffer) -> Result<ArrayRef, Fault> {
    Ok(BoolArray::try_new(alloc, bits, Validity::NonNullable)?.into_array())
}

// So many truth values, of which such a share is true.
pub(crate) fn truths(
    alloc: Global,
    random: &mut Random,
    rows: usize,
    share: Share,
) -> Result<ArrayRef, Fault> {
    bool_array(alloc, random.bits(alloc, rows, share)?)
}

// A validity of so many rows, of which one in eight is null.
pub(crate) fn some_null(
    alloc: Global,
    random: &mut Random,
    rows: usize,
) -> Result<Validity, Fault> {
    Ok(Validity::Array(truths(alloc, random, rows, Share::Most)?))
}

// Numbers of all sizes, eight rows at least.
pub(crate) fn numbers(
    alloc: Global,
    random: &mut Random,
    rows: usize,
    ptype: PType,
    validity: Validity,
) -> Result<ArrayRef, Fault> {
    let words = rows.saturating_mul(ptype.byte_width()) / 8;
    let bytes = random.bytes(alloc, words, u64::MAX)?;
    Ok(PrimitiveArray::from_byte_buffer(alloc, bytes, ptype, validity)?.into_array())
}

// Positions or sizes.
pub(crate) fn counts(alloc: Global, counts: Vec<u32>) -> Result<ArrayRef, Fault> {
    let counts = Buffer::from_vec(alloc, counts)?;
    Ok(PrimitiveArray::try_new(alloc, counts, Validity::NonNullable)?.into_array())
}

// So many codes of 1,024 names.
pub(crate) fn codes(alloc: Global, random: &mut Random, rows: usize) -> Result<ArrayRef, Fault> {
    let bytes = random.bytes(alloc, rows / 4, 0x03FF_03FF_03FF_03FF)?;
    let codes = PrimitiveArray::from_byte_buffer(alloc, bytes, PType::U16, Validity::NonNullable)?;
    Ok(codes.into_array())
}

// So many rows, each of which is one of 1,024 names.
pub(crate) fn dictionary(
    alloc: Global,
    random: &mut Random,
    rows: usize,
) -> Result<ArrayRef, Fault> {
    let codes = codes(alloc, random, rows)?;
    Ok(DictArray::try_new(alloc, codes, names(alloc, random, 1024)?)?.into_array())
}

// How lists lie in their elements.
#[derive(Clone, Copy)]
pub(crate) enum Lie {
    // One after another.
    InOrder,
    // Anywhere.
    Anywhere,
}

// Where so many lists start, and how many elements each has, from 0 up to `most`: none starts or
// ends past so many elements.
pub(crate) fn places(
    alloc: Global,
    random: &mut Random,
    rows: usize,
    elements: usize,
    most: usize,
    lie: Lie,
) -> Result<(ArrayRef, ArrayRef), Fault> {
    let sizes = random.numbers(alloc, rows, most.saturating_add(1))?;
    let mut offsets = Vec::with_capacity(alloc, rows)?;
    let mut end = 0u32;
    for size in &sizes {
        let start = match lie {
            Lie::InOrder => end,
            Lie::Anywhere => random.below(elements.saturating_sub(most)) as u32,
        };
        offsets.push(start)?;
        end = start.wrapping_add(*size);
    }
    Ok((counts(alloc, offsets)?, counts(alloc, sizes)?))
}

// So many lists in these elements.
pub(crate) fn lists_in(
    alloc: Global,
    random: &mut Random,
    rows: usize,
    elements: ArrayRef,
    most: usize,
    lie: Lie,
) -> Result<ListViewArray, Fault> {
    let (offsets, sizes) = places(alloc, random, rows, elements.len(), most, lie)?;
    let validity = some_null(alloc, random, rows)?;
    Ok(ListViewArray::try_new(alloc, elements, offsets, sizes, validity)?)
}

// So many lists of up to 20 numbers, one after another.
pub(crate) fn lists_of_numbers(
    alloc: Global,
    random: &mut Random,
    rows: usize,
) -> Result<ListViewArray, Fault> {
    let count = rows.saturating_mul(20);
    let numbers = numbers(alloc, random, count, PType::I32, Validity::NonNullable)?;
    lists_in(alloc, random, rows, numbers, 20, Lie::InOrder)
}

// Records of these columns under these names.
pub(crate) fn records(
    alloc: Global,
    names: &[&str],
    columns: Vec<ArrayRef>,
    rows: usize,
    validity: Validity,
) -> Result<StructArray, Fault> {
    let names = FieldNames::try_new(alloc, names)?;
    let columns = columns.into_iter();
    Ok(StructArray::try_new(alloc, names, columns, rows, validity)?)
}

// Records of two numbers.
pub(crate) fn points(alloc: Global, random: &mut Random, rows: usize) -> Result<ArrayRef, Fault> {
    let mut columns = Vec::new(alloc);
    columns.push(numbers(alloc, random, rows, PType::I32, Validity::NonNullable)?)?;
    columns.push(numbers(alloc, random, rows, PType::I16, Validity::AllValid)?)?;
    let validity = some_null(alloc, random, rows)?;
    Ok(records(alloc, &["x", "y"], columns, rows, validity)?.into_array())
}

// Pairs of numbers.
pub(crate) fn pairs(alloc: Global, random: &mut Random, rows: usize) -> Result<ArrayRef, Fault> {
    let both = rows.saturating_mul(2);
    let numbers = numbers(alloc, random, both, PType::U16, Validity::NonNullable)?;
    let none = Validity::NonNullable;
    Ok(FixedSizeListArray::try_new(alloc, numbers, 2, none, rows)?.into_array())
}

// The names of the columns of a table.
pub(crate) const TABLE: [&str; 8] = [
    "id", "amount", "flag", "name", "city", "tags", "place", "pair",
];

// The columns of a table: numbers, truth values, texts, texts by dictionary, lists, records and
// pairs, some of them null.
pub(crate) fn table_columns(
    alloc: Global,
    random: &mut Random,
    rows: usize,
) -> Result<Vec<ArrayRef>, Fault> {
    let mut columns = Vec::with_capacity(alloc, 8)?;
    columns.push(numbers(alloc, random, rows, PType::I64, Validity::NonNullable)?)?;
    let null = some_null(alloc, random, rows)?;
    columns.push(numbers(alloc, random, rows, PType::I32, null)?)?;
    let null = some_null(alloc, random, rows)?;
    let bits = random.bits(alloc, rows, Share::Half)?;
    columns.push(BoolArray::try_new(alloc, bits, null)?.into_array())?;
    columns.push(names(alloc, random, rows)?)?;
    columns.push(dictionary(alloc, random, rows)?)?;
    columns.push(lists_of_numbers(alloc, random, rows)?.into_array())?;
    columns.push(points(alloc, random, rows)?)?;
    columns.push(pairs(alloc, random, rows)?)?;
    Ok(columns)
}

// A table of so many rows.
pub(crate) fn table(alloc: Global, random: &mut Random, rows: usize) -> Result<StructArray, Fault> {
    let columns = table_columns(alloc, random, rows)?;
    records(alloc, &TABLE, columns, rows, Validity::NonNullable)
}
