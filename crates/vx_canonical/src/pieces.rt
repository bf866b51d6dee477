// Rows whose elements and buffers are counted where they stand: nothing is made plain.

ghost use Rattle.std.specs.Prelude.{◌≡◌, ◌+◌, ◌∷◌, [], IfOk, count_by, length, map};
ghost use Rattle.std.specs.List.{flat_map};
ghost use Rattle.vx_base.specs.Booleans.{count_fault};
ghost use Rattle.vx_base.specs.DTypes.{dtype_meaning};
ghost use Rattle.vx_base.specs.Refusals.{Gives, Tests};
ghost use Rattle.vx_base.specs.ValueRows.{option_row};
ghost use Rattle.vx_tree.specs.Extents.{buffer_count, column_extent, element_count, elements_extent, extent_of, rows_extent};
ghost use Rattle.vx_tree.specs.RowParts.{is_long_row, items_in};
ghost use Rattle.vx_canonical.specs.Counted.{part_extent, piece_extent};

use crate::canonical_nested::{fields_at, items_of, share};
use std::alloc::Global;
use vx_base::{DType, Scalar, ScalarValue, VortexError};
use vx_tree::{ArrayRef, Layout};
use vx_views::BinaryView;

// Rows, by what they have that is counted.
#[derive(Drop)]
pub(crate) enum Piece<'a> {
    // Nothing: booleans, numbers.
    Leaf,
    // Texts or byte lists: so many buffers.
    Views(usize),
    // Lists of these elements.
    Lists(&'a ArrayRef),
    // Lists of one size, of these elements.
    FixedLists(&'a ArrayRef),
    // Records of these columns.
    Records(&'a [ArrayRef]),
    // The rows that values of a data type stand for.
    Values(&'a DType, Vec<Option<ScalarValue>>),
}

// What rows are made of.
#[derive(Clone, Copy)]
pub(crate) enum Part {
    // The elements of lists.
    Elements,
    // The column of records at a place.
    Column(usize),
}

// The rows of an array: of a dictionary its values, of a constant its one row.
#[cycle(piece_of)]
pub(crate) fn piece_of(alloc: Global, array: &ArrayRef) -> Result<Piece<'_>, VortexError>
    ensures { Gives result (λ p. piece_extent p ≡ extent_of array.now) }
{
    match array.layout() {
        Layout::Bool { .. } | Layout::Primitive { .. } => Ok(Piece::Leaf),
        Layout::VarBinView { buffers, .. } => Ok(Piece::Views(buffers.len())),
        Layout::ListView { elements, .. } => Ok(Piece::Lists(elements)),
        Layout::FixedSizeList { elements, .. } => Ok(Piece::FixedLists(elements)),
        Layout::Struct { columns, .. } => Ok(Piece::Records(columns)),
        Layout::Constant { scalar, .. } => piece_of_row(alloc, scalar),
        Layout::Dict { values, .. } => piece_of(alloc, values),
    }
}

// One row.
fn piece_of_row(alloc: Global, scalar: &Scalar) -> Result<Piece<'_>, VortexError>
    ensures { Gives result (λ p. piece_extent p ≡ rows_extent scalar.now.kind (scalar.now.row ∷ [])) }
{
    let values = vec![in alloc; share(alloc, scalar.value())?]?;
    Ok(Piece::Values(scalar.dtype(), values))
}

// How many buffers a piece has.
pub(crate) fn buffer_count(piece: &Piece<'_>) -> usize
    ensures { result ≡ buffer_count (piece_extent piece.now) }
{
    match piece {
        Piece::Views(count) => *count,
        Piece::Values(dtype, values) => buffers_of_values(dtype, values),
        _ => 0,
    }
}

// How many values of texts or byte lists are too long for a view: each has a buffer.
fn buffers_of_values(dtype: &DType, values: &[Option<ScalarValue>]) -> usize
    ensures { result ≡ buffer_count (rows_extent (dtype_meaning dtype.now) (map option_row values.now)) }
{
    match dtype {
        DType::Utf8(_) | DType::Binary(_) => long_count(values),
        DType::Bool(_) | DType::Primitive(_, _) => 0,
        DType::List(_, _) => 0,
        DType::FixedSizeList(_, _, _) => 0,
        DType::Struct(_, _) => 0,
    }
}

// How many values are too long for a view.
fn long_count(values: &[Option<ScalarValue>]) -> usize
    ensures { result ≡ count_by is_long_row (map option_row values.now) }
{
    let mut count = 0;
    for i in 0..values.len() {
        if is_long(&values[i]) {
            count += 1;
        }
    }
    count
}

// Whether a value is a text or a byte list too long for a view.
fn is_long(value: &Option<ScalarValue>) -> bool
    ensures { result ≡ is_long_row (option_row value.now) }
{
    match value {
        Some(ScalarValue::Text(bytes)) => bytes.len() > BinaryView::MAX_INLINED_SIZE,
        Some(ScalarValue::Bytes(bytes)) => bytes.len() > BinaryView::MAX_INLINED_SIZE,
        _ => false,
    }
}

// How many elements a piece has, and so many more. Refuses `Overflow` where they cannot be counted.
pub(crate) fn add_elements(piece: &Piece<'_>, count: usize) -> Result<usize, VortexError>
    ensures count { IfOk result (λ n. n ≡ count + element_count (piece_extent piece.now)) }
    ensures tests { Tests result (count_fault (count + element_count (piece_extent piece.now))) }
{
    match piece {
        Piece::Lists(elements) => checked_sum(count, elements.len()),
        Piece::Values(dtype, values) => add_elements_of_values(dtype, values, count),
        _ => Ok(count),
    }
}

// How many elements values of lists have, and so many more.
fn add_elements_of_values(
    dtype: &DType,
    values: &[Option<ScalarValue>],
    count: usize,
) -> Result<usize, VortexError>
    ensures count { IfOk result (λ n. n ≡ count + element_count (rows_extent (dtype_meaning dtype.now) (map option_row values.now))) }
    ensures tests { Tests result (count_fault (count + element_count (rows_extent (dtype_meaning dtype.now) (map option_row values.now)))) }
{
    match dtype {
        DType::List(_, _) => add_items(values, count),
        DType::Bool(_) | DType::Primitive(_, _) | DType::Utf8(_) | DType::Binary(_) => Ok(count),
        DType::FixedSizeList(_, _, _) => Ok(count),
        DType::Struct(_, _) => Ok(count),
    }
}

// How many rows the lists have, and so many more.
fn add_items(values: &[Option<ScalarValue>], count: usize) -> Result<usize, VortexError>
    ensures count { IfOk result (λ n. n ≡ count + length (flat_map items_in (map option_row values.now))) }
    ensures tests { Tests result (count_fault (count + length (flat_map items_in (map option_row values.now)))) }
{
    let mut total = count;
    for value in values {
        total = checked_sum(total, item_count(value))?;
    }
    Ok(total)
}

// How many rows the list has, none where it is null.
fn item_count(value: &Option<ScalarValue>) -> usize
    ensures { result ≡ length (items_in (option_row value.now)) }
{
    match value {
        Some(ScalarValue::List(rows)) => rows.as_slice().len(),
        _ => 0,
    }
}

// The sum of two counts. Refuses `Overflow` where it cannot be counted.
pub(crate) fn checked_sum(a: usize, b: usize) -> Result<usize, VortexError>
    ensures sum { IfOk result (λ n. n ≡ a + b) }
    ensures tests { Tests result (count_fault (a + b)) }
{
    match a.checked_add(b) {
        Some(sum) => Ok(sum),
        None => Err(VortexError::Overflow),
    }
}

// A part of a piece: nothing where it has none.
pub(crate) fn part_of<'a>(
    alloc: Global,
    piece: &Piece<'a>,
    part: Part,
) -> Result<Piece<'a>, VortexError>
    ensures { Gives result (λ p. piece_extent p ≡ part_extent part (piece_extent piece.now)) }
{
    match part {
        Part::Elements => elements_of(alloc, piece),
        Part::Column(place) => column_of(alloc, piece, place),
    }
}

// The elements of lists.
fn elements_of<'a>(alloc: Global, piece: &Piece<'a>) -> Result<Piece<'a>, VortexError>
    ensures { Gives result (λ p. piece_extent p ≡ elements_extent (piece_extent piece.now)) }
{
    match piece {
        Piece::Lists(elements) => piece_of(alloc, *elements),
        Piece::FixedLists(elements) => piece_of(alloc, *elements),
        Piece::Values(dtype, values) => items_of_lists(alloc, *dtype, values),
        _ => Ok(Piece::Leaf),
    }
}

// The rows of lists, one list after another.
fn items_of_lists<'a>(
    alloc: Global,
    dtype: &'a DType,
    values: &[Option<ScalarValue>],
) -> Result<Piece<'a>, VortexError>
    ensures { Gives result (λ p. piece_extent p
        ≡ elements_extent (rows_extent (dtype_meaning dtype.now) (map option_row values.now))) }
{
    match dtype {
        DType::List(items, _) => Ok(Piece::Values(items, items_of(alloc, values)?)),
        DType::FixedSizeList(items, _, _) => Ok(Piece::Values(items, items_of(alloc, values)?)),
        DType::Bool(_) | DType::Primitive(_, _) | DType::Utf8(_) | DType::Binary(_) => {
            Ok(Piece::Leaf)
        }
        DType::Struct(_, _) => Ok(Piece::Leaf),
    }
}

// The column of records at a place.
fn column_of<'a>(alloc: Global, piece: &Piece<'a>, place: usize) -> Result<Piece<'a>, VortexError>
    ensures { Gives result (λ p. piece_extent p ≡ column_extent place (piece_extent piece.now)) }
{
    match piece {
        Piece::Records(columns) => match columns.get(place) {
            Some(column) => piece_of(alloc, column),
            None => Ok(Piece::Leaf),
        },
        Piece::Values(dtype, values) => fields_of_records(alloc, *dtype, values, place),
        _ => Ok(Piece::Leaf),
    }
}

// The fields of records at a place.
fn fields_of_records<'a>(
    alloc: Global,
    dtype: &'a DType,
    values: &[Option<ScalarValue>],
    place: usize,
) -> Result<Piece<'a>, VortexError>
    ensures { Gives result (λ p. piece_extent p
        ≡ column_extent place (rows_extent (dtype_meaning dtype.now) (map option_row values.now))) }
{
    match dtype {
        DType::Struct(fields, _) => match fields.fields().get(place) {
            Some(field) => Ok(Piece::Values(field, fields_at(alloc, values, place)?)),
            None => Ok(Piece::Leaf),
        },
        DType::Bool(_) | DType::Primitive(_, _) | DType::Utf8(_) | DType::Binary(_) => {
            Ok(Piece::Leaf)
        }
        DType::List(_, _) => Ok(Piece::Leaf),
        DType::FixedSizeList(_, _, _) => Ok(Piece::Leaf),
    }
}
