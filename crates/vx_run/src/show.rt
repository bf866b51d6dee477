// The rows of an array as text.

ghost use Rattle.std.specs.Prelude.{ℕ, true, ◌≡◌, ◌+◌, ◌-◌, ◌*◌, ◌<◌, ◌≤◌, length, slice_index, IfOk};
ghost use Rattle.vx_base.specs.Integers.{numbers};
ghost use Rattle.vx_base.specs.Kinds.{is_integers};
ghost use Rattle.vx_base.specs.Rows.{count_in};
ghost use Rattle.vx_tree.specs.Columns.{AllReach};
ghost use Rattle.vx_tree.specs.Formed.{IsCounts, ValidCovers, column_count};
ghost use Rattle.vx_tree.specs.Layouts.{is_list_view, is_view_array};
ghost use Rattle.vx_tree.specs.Meaning.{tree_len, kind_of, row_at, trees_from};
ghost use Rattle.vx_tree.specs.Parts.{valid_of};
ghost use Rattle.vx_run.specs.Shown.{AreCountsFrom};

use crate::hexadecimal::write_bytes;
use crate::show_scalar::show_value;
use std::alloc::Global;
use vx_base::{
    BitBuffer, Buffer, ByteBuffer, FieldNames, Mask, NativePType, PType, Scalar, VortexError,
    call_native, read_counts, slice_numbers,
};
use vx_tree::{ArrayRef, Layout, Validity};

// Adds all rows of an array to a text, as `[a,b,..]` without spaces.
pub(crate) fn show_array(
    alloc: Global,
    array: &ArrayRef,
    text: &mut String,
) -> Result<(), VortexError> {
    text.push('[')?;
    show_rows(alloc, array, 0, array.len(), text)?;
    text.push(']')?;
    Ok(())
}

// Adds the rows from `start` up to `end`, a comma between them.
#[cycle(show)]
pub(crate) fn show_rows(
    alloc: Global,
    array: &ArrayRef,
    start: usize,
    end: usize,
    text: &mut String,
) -> Result<(), VortexError>
    requires ordered { start ≤ end }
    requires in_bounds { end ≤ tree_len array.now }
{
    match array.layout() {
        Layout::Bool { bits, validity } => {
            let mask = mask_of(alloc, validity, start, end)?;
            show_bits(&bits.slice(alloc, start..end)?, &mask, text)?;
        }
        Layout::Primitive {
            ptype,
            bytes,
            validity,
        } => {
            let mask = mask_of(alloc, validity, start, end)?;
            let bytes = slice_numbers(alloc, bytes, *ptype, start..end)?;
            show_numbers(alloc, *ptype, &bytes, &mask, text)?;
        }
        Layout::Constant { scalar, .. } => show_constant(alloc, scalar, end - start, text)?,
        Layout::Dict { codes, values, .. } => {
            show_dictionary(alloc, codes, values, start, end, text)?;
        }
        Layout::FixedSizeList {
            elements,
            size,
            validity,
            ..
        } => {
            let mask = mask_of(alloc, validity, start, end)?;
            show_fixed_lists(alloc, elements, *size as usize, start, end, &mask, text)?;
        }
        Layout::ListView { .. } => show_list_view(alloc, array, start, end, text)?,
        Layout::Struct {
            names,
            columns,
            validity,
            ..
        } => {
            let mask = mask_of(alloc, validity, start, end)?;
            show_records(alloc, names, columns, start, end, &mask, text)?;
        }
        Layout::VarBinView { .. } => show_values(array, start, end, text)?,
    }
    Ok(())
}

// Adds the lists of a list view from `start` up to `end`.
#[cycle(show)]
fn show_list_view(
    alloc: Global,
    array: &ArrayRef,
    start: usize,
    end: usize,
    text: &mut String,
) -> Result<(), VortexError>
    requires layout { is_list_view array.now ≡ true }
    requires ordered { start ≤ end }
    requires in_bounds { end ≤ tree_len array.now }
{
    let Layout::ListView {
        elements,
        offsets,
        sizes,
        validity,
        ..
    } = array.layout()
    else {
        unreachable!();
    };
    let mask = mask_of(alloc, validity, start, end)?;
    let offsets = counts_of(alloc, offsets, start, end)?;
    let sizes = counts_of(alloc, sizes, start, end)?;
    show_lists(alloc, elements, &offsets, &sizes, &mask, text)
}

// Adds the texts or byte lists from `start` up to `end`.
fn show_values(
    array: &ArrayRef,
    start: usize,
    end: usize,
    text: &mut String,
) -> Result<(), VortexError>
    requires layout { is_view_array array.now ≡ true }
    requires in_bounds { end ≤ tree_len array.now }
{
    for row in start..end {
        separate(row - start, text)?;
        match array.bytes_at(row) {
            Some(value) => write_bytes(value, text)?,
            None => text.push_str("null")?,
        }
    }
    Ok(())
}

// Adds truth values, null where the mask is false.
fn show_bits(bits: &BitBuffer, mask: &Mask, text: &mut String) -> Result<(), VortexError>
    requires { length mask.now ≡ length bits.now.bits }
{
    let mut valid = mask.rows();
    for row in 0..bits.len() {
        separate(row, text)?;
        let word = match (valid.value(row), bits.value(row)) {
            (false, _) => "null",
            (true, false) => "false",
            (true, true) => "true",
        };
        text.push_str(word)?;
    }
    Ok(())
}

// Adds the numbers of a type, null where the mask is false.
fn show_numbers(
    alloc: Global,
    ptype: PType,
    bytes: &ByteBuffer,
    mask: &Mask,
    text: &mut String,
) -> Result<(), VortexError>
    requires { length (numbers ptype bytes.now) ≡ length mask.now }
{
    call_native!(ptype, show_native(alloc, bytes, mask, text))
}

fn show_native<T: NativePType + Drop>(
    alloc: Global,
    bytes: &ByteBuffer,
    mask: &Mask,
    text: &mut String,
) -> Result<(), VortexError>
    requires { length (numbers T.PTYPE bytes.now) ≡ length mask.now }
{
    let numbers = Buffer::<T>::from_byte_buffer(alloc, bytes)?;
    let mut valid = mask.rows();
    for (row, number) in numbers.as_slice().iter().enumerate() {
        separate(row, text)?;
        if valid.value(row) {
            let number = number.as_i128();
            write!(text, "{number}")?;
        } else {
            text.push_str("null")?;
        }
    }
    Ok(())
}

// Adds one row `count` times.
fn show_constant(
    alloc: Global,
    scalar: &Scalar,
    count: usize,
    text: &mut String,
) -> Result<(), VortexError> {
    let mut word = String::new(alloc);
    show_value(scalar.dtype(), scalar.value(), &mut word)?;
    for row in 0..count {
        separate(row, text)?;
        text.push_str(word.as_str())?;
    }
    Ok(())
}

// Adds lists of the elements, null where the mask is false.
#[cycle(show)]
fn show_lists(
    alloc: Global,
    elements: &ArrayRef,
    offsets: &[usize],
    sizes: &[usize],
    mask: &Mask,
    text: &mut String,
) -> Result<(), VortexError>
    requires sizes { length sizes.now ≡ length offsets.now }
    requires mask { length mask.now ≡ length offsets.now }
    requires within { (i : ℕ) → i < length offsets.now →
        slice_index offsets.now i + slice_index sizes.now i ≤ tree_len elements.now }
{
    let len = elements.len();
    let mut valid = mask.rows();
    for row in 0..offsets.len() {
        separate(row, text)?;
        if valid.value(row) {
            let (start, size) = (offsets[row], sizes[row]);
            prove!(start <= len && size <= len - start);
            text.push('[')?;
            show_rows(alloc, elements, start, start + size, text)?;
            text.push(']')?;
        } else {
            text.push_str("null")?;
        }
    }
    Ok(())
}

// Adds the lists from `start` up to `end`, of `size` elements each, null where the mask is false.
#[cycle(show)]
fn show_fixed_lists(
    alloc: Global,
    elements: &ArrayRef,
    size: usize,
    start: usize,
    end: usize,
    mask: &Mask,
    text: &mut String,
) -> Result<(), VortexError>
    requires mask { length mask.now ≡ end - start }
    requires in_bounds { end * size ≤ tree_len elements.now }
{
    let len = elements.len();
    let mut valid = mask.rows();
    for row in start..end {
        separate(row - start, text)?;
        if valid.value(row - start) {
            let (first, last) = list_range(len, size, row);
            text.push('[')?;
            show_rows(alloc, elements, first, last, text)?;
            text.push(']')?;
        } else {
            text.push_str("null")?;
        }
    }
    Ok(())
}

// Where list `row` starts and ends among so many elements, where each list has `size` of them.
fn list_range(len: usize, size: usize, row: usize) -> (usize, usize)
    requires { (row + 1) * size ≤ len }
    ensures ordered { result.0 ≤ result.1 }
    ensures within { result.1 ≤ len }
{
    let start = row * size;
    prove!(start <= len && size <= len - start);
    (start, start + size)
}

// Adds the records from `start` up to `end`, null where the mask is false.
#[cycle(show)]
fn show_records(
    alloc: Global,
    names: &FieldNames,
    columns: &[ArrayRef],
    start: usize,
    end: usize,
    mask: &Mask,
    text: &mut String,
) -> Result<(), VortexError>
    requires named { length names.now ≡ column_count (trees_from columns.now) }
    requires ordered { start ≤ end }
    requires mask { length mask.now ≡ end - start }
    requires in_bounds { AllReach end (trees_from columns.now) }
{
    let mut valid = mask.rows();
    for row in start..end {
        separate(row - start, text)?;
        if valid.value(row - start) {
            text.push('{')?;
            show_record(alloc, names, columns, row, row + 1, text)?;
            text.push('}')?;
        } else {
            text.push_str("null")?;
        }
    }
    Ok(())
}

// Adds the rows of each column from `start` up to `end`, which is one row, after its name and a
// colon.
#[cycle(show)]
fn show_record(
    alloc: Global,
    names: &FieldNames,
    columns: &[ArrayRef],
    start: usize,
    end: usize,
    text: &mut String,
) -> Result<(), VortexError>
    requires named { length names.now ≡ column_count (trees_from columns.now) }
    requires ordered { start ≤ end }
    requires in_bounds { AllReach end (trees_from columns.now) }
{
    for (field, column) in columns.iter().enumerate() {
        separate(field, text)?;
        text.push_str(names.get(field).as_str())?;
        text.push(':')?;
        show_rows(alloc, column, start, end, text)?;
    }
    Ok(())
}

// Adds the values that the codes from `start` up to `end` refer to, null where a code is null.
#[cycle(show)]
fn show_dictionary(
    alloc: Global,
    codes: &ArrayRef,
    values: &ArrayRef,
    start: usize,
    end: usize,
    text: &mut String,
) -> Result<(), VortexError>
    requires ints { is_integers (kind_of codes.now) ≡ true }
    requires in_bounds { end ≤ tree_len codes.now }
{
    let len = values.len();
    for row in start..end {
        separate(row - start, text)?;
        match codes.int_at(row) {
            Some(code) if 0 <= code && code < len as i128 => {
                let code = code as usize;
                show_rows(alloc, values, code, code + 1, text)?;
            }
            _ => text.push_str("null")?,
        }
    }
    Ok(())
}

// Adds the comma before each row but the first.
pub(crate) fn separate(row: usize, text: &mut String) -> Result<(), VortexError> {
    if row > 0 {
        text.push(',')?;
    }
    Ok(())
}

// Whether each row from `start` up to `end` is valid.
#[tactic(auto, using(crate::proofs::Counts::masks))]
fn mask_of(
    alloc: Global,
    validity: &Validity,
    start: usize,
    end: usize,
) -> Result<Mask, VortexError>
    requires ordered { start ≤ end }
    requires in_bounds { ValidCovers (valid_of validity.now) end }
    ensures { IfOk result (λ mask. length mask ≡ end - start) }
{
    let count = end - start;
    match validity {
        Validity::Array(rows) => {
            Validity::Array(rows.slice(alloc, start..end)?).execute_mask(alloc, count)
        }
        validity => validity.execute_mask(alloc, count),
    }
}

// The counts of the rows from `start` up to `end`.
fn counts_of(
    alloc: Global,
    counts: &ArrayRef,
    start: usize,
    end: usize,
) -> Result<Vec<usize>, VortexError>
    requires counts { IsCounts counts.now }
    requires ordered { start ≤ end }
    requires in_bounds { end ≤ tree_len counts.now }
    ensures { IfOk result (λ read. AreCountsFrom counts.now start (end - start) read.items) }
{
    match counts.layout() {
        Layout::Primitive { ptype, bytes, .. } => {
            let bytes = slice_numbers(alloc, bytes, *ptype, start..end)?;
            read_counts(alloc, *ptype, bytes.as_slice())
        }
        _ => counts_by_row(alloc, counts, start, end),
    }
}

// The same in any layout, row by row.
fn counts_by_row(
    alloc: Global,
    counts: &ArrayRef,
    start: usize,
    end: usize,
) -> Result<Vec<usize>, VortexError>
    requires counts { IsCounts counts.now }
    requires ordered { start ≤ end }
    requires in_bounds { end ≤ tree_len counts.now }
    ensures { IfOk result (λ read. AreCountsFrom counts.now start (end - start) read.items) }
{
    let mut read = Vec::with_capacity(alloc, end - start)?;
    for i in 0..end - start {
        read.push(count_at(counts, start + i))?;
    }
    Ok(read)
}

// The count of a row of an array of counts.
fn count_at(counts: &ArrayRef, row: usize) -> usize
    requires counts { IsCounts counts.now }
    requires in_bounds { row < tree_len counts.now }
    ensures { result ≡ count_in (row_at counts.now row) }
{
    match counts.int_at(row) {
        Some(count) => count as usize,
        None => 0,
    }
}
