// Numbers of arrays, one array after another, each written once.

ghost use Rattle.std.specs.Prelude.{◌≡◌, ◌<◌, ◌/◌, true, false, length, IfOk};
ghost use Rattle.std.specs.List.{All};
ghost use Rattle.vx_base.specs.DTypes.{is_nullable};
ghost use Rattle.vx_base.specs.Integers.{byte_width, Holds};
ghost use Rattle.vx_base.specs.Kinds.{integers};
ghost use Rattle.vx_base.specs.Refusals.{Gives};
ghost use Rattle.vx_tree.specs.Tree.{dictionary};
ghost use Rattle.vx_tree.specs.Layouts.{is_primitive};
ghost use Rattle.vx_tree.specs.Meaning.{tree_len, kind_of, row_at};
ghost use Rattle.vx_tree.specs.Formed.{IsDictionary};
ghost use Rattle.vx_canonical.specs.Joined.{joined_len, joined_row, IsJoined};
ghost use Rattle.vx_canonical.specs.JoinedNumbers.{AreOfType, HoldNumbers, ArePicked, AreRepeated, AreAppended};

use crate::canonical::{canonical, canonical_at};
use crate::join::joined_validity;
use std::alloc::Global;
use vx_base::{
    ByteBuffer, Nullability, PType, Selection, VortexError, extend_with_numbers, put_int,
};
use vx_tree::{ArrayRef, Layout};

// The rows of arrays of numbers of one type, one array after another, in plain layout. Asks
// that they have so many rows in all.
pub(crate) fn concat_numbers(
    alloc: Global,
    ptype: PType,
    nullability: Nullability,
    arrays: &[ArrayRef],
    len: usize,
) -> Result<ArrayRef, VortexError>
    requires kind { All (λ t. kind_of t ≡ integers ptype (is_nullable nullability)) arrays.now }
    requires len { len ≡ joined_len arrays.now }
    ensures joined { Gives result (IsJoined (integers ptype (is_nullable nullability)) arrays.now) }
    ensures layout { IfOk result (λ a. is_primitive a ≡ true) }
{
    let validity = joined_validity(alloc, arrays, nullability)?;
    let size = len.saturating_mul(ptype.byte_width());
    let bytes = ByteBuffer::from_vec(alloc, joined_numbers(alloc, ptype, arrays, size)?)?;
    ArrayRef::primitive(alloc, ptype, bytes, validity)
}

// Appends the bytes of a number for each row: that of the row, where it is not null.
fn append_numbers(
    alloc: Global,
    array: &ArrayRef,
    ptype: PType,
    before: Vec<u8>,
) -> Result<Vec<u8>, VortexError>
    requires { AreOfType ptype array.now }
    ensures { Gives result (λ all. AreAppended (HoldNumbers ptype (tree_len array.now) (row_at array.now)) before.items all.items) }
{
    match array.layout() {
        Layout::Primitive { bytes, .. } => {
            let mut all = before;
            all.extend_from_slice(bytes.as_slice())?;
            Ok(all)
        }
        Layout::Constant { scalar, len } => {
            let number = scalar.as_int().unwrap_or(0);
            append_number(ptype, number, *len, before)
        }
        Layout::Dict { codes, values, .. } => append_named(alloc, values, ptype, codes, before),
        _ => unreachable!(),
    }
}

// Appends the bytes of a number for each code: that of the value it names, where that is not null.
fn append_named(
    alloc: Global,
    values: &ArrayRef,
    ptype: PType,
    codes: &ArrayRef,
    before: Vec<u8>,
) -> Result<Vec<u8>, VortexError>
    requires kind { AreOfType ptype values.now }
    requires codes { IsDictionary codes.now values.now false }
    ensures { Gives result (λ all. AreAppended (HoldNumbers ptype (tree_len codes.now) (row_at (dictionary codes.now values.now false)))
        before.items all.items) }
{
    if values.is_empty() {
        return append_number(ptype, 0, codes.len(), before);
    }
    if values.len() > codes.len() {
        return append_few_named(alloc, values, ptype, codes, before);
    }
    let plain = canonical(alloc, values)?;
    plain.known();
    let Layout::Primitive { bytes, .. } = plain.layout() else {
        unreachable!();
    };
    let positions = codes.code_positions(alloc, values.len())?;
    Ok(append_picked(ptype, bytes.as_slice(), &positions.selection(), before)?)
}

// Appends the bytes of a number for each code, and makes no value plain that no code names. Asks
// that there are values.
fn append_few_named(
    alloc: Global,
    values: &ArrayRef,
    ptype: PType,
    codes: &ArrayRef,
    before: Vec<u8>,
) -> Result<Vec<u8>, VortexError>
    requires kind { AreOfType ptype values.now }
    requires codes { IsDictionary codes.now values.now false }
    requires some { 0 < tree_len values.now }
    ensures { Gives result (λ all. AreAppended (HoldNumbers ptype (tree_len codes.now) (row_at (dictionary codes.now values.now false)))
        before.items all.items) }
{
    let positions = codes.code_positions(alloc, values.len())?;
    let picked = canonical_at(alloc, values, &positions.selection())?;
    picked.known();
    let Layout::Primitive { bytes, .. } = picked.layout() else {
        unreachable!();
    };
    let mut all = before;
    all.extend_from_slice(bytes.as_slice())?;
    Ok(all)
}

// The bytes of the numbers of arrays, one array after another.
fn joined_numbers(
    alloc: Global,
    ptype: PType,
    arrays: &[ArrayRef],
    size: usize,
) -> Result<Vec<u8>, VortexError>
    requires { All (AreOfType ptype) arrays.now }
    ensures { Gives result (λ bytes. HoldNumbers ptype (joined_len arrays.now) (joined_row arrays.now) bytes.items) }
{
    let mut joined = Vec::with_capacity(alloc, size)?;
    for array in arrays {
        joined = append_numbers(alloc, array, ptype, joined)?;
    }
    Ok(joined)
}

// Appends a number, `len` times. Asks that the type has it.
fn append_number(
    ptype: PType,
    number: i128,
    len: usize,
    before: Vec<u8>,
) -> Result<Vec<u8>, VortexError>
    requires { Holds ptype number }
    ensures { Gives result (λ all. AreAppended (AreRepeated ptype number len) before.items all.items) }
{
    let mut bytes = [0u8; 8];
    let bytes = &mut bytes[..ptype.byte_width()];
    put_int(number, ptype, bytes);
    Ok(append_picked(ptype, bytes, &Selection::repeated(0, len), before)?)
}

// Appends the numbers that are picked. Asks that each position has a number.
fn append_picked(
    ptype: PType,
    bytes: &[u8],
    selection: &Selection,
    before: Vec<u8>,
) -> Result<Vec<u8>, VortexError>
    requires { All (λ k. k < length bytes.now / byte_width ptype) selection.now }
    ensures { Gives result (λ all. AreAppended (ArePicked ptype bytes.now selection.now) before.items all.items) }
{
    Ok(extend_with_numbers(before, ptype, bytes, selection)?)
}
