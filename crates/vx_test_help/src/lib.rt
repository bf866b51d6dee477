//! What the tests of several crates need: columns from their values, the values of columns, and
//! iterators whose hints promise too much.
#![tactic(auto)]

ghost use Rattle.std.specs.Prelude.{◌≡◌, [], ◌∷◌, length, IfOk};
ghost use Rattle.vx_base.specs.Refusals.{Gives};
ghost use Rattle.vx_tree.specs.Formed.{WellFormed, ValidFits};
ghost use Rattle.vx_tree.specs.Meaning.{tree_len};
ghost use Rattle.vx_tree.specs.Parts.{valid_of};
ghost use Rattle.vx_tree.specs.Tree.{bools, primitive, non_nullable, by_array};

use std::alloc::Global;
use vx_base::{BitBuffer, Buffer, ByteBuffer, DType, FieldNames, NativePType, PType, VortexError};
use vx_tree::{ArrayRef, Layout, Validity};

pub mod rows;
pub mod samples;

/// Numbers, none of them null.
pub fn ints<T: NativePType>(alloc: Global, items: &[T]) -> Result<ArrayRef, VortexError> {
    let bytes = Buffer::copy_from(alloc, items)?.into_byte_buffer(alloc)?;
    ArrayRef::primitive(alloc, T::PTYPE, bytes, Validity::NonNullable)
}

/// Numbers, by their bytes. Asks for bytes of whole numbers, and for a validity of as many rows.
pub fn numbers(
    alloc: Global,
    ptype: PType,
    bytes: &[u8],
    validity: Validity,
) -> Result<ArrayRef, VortexError>
    requires { WellFormed (primitive ptype bytes.now (valid_of validity)) }
    ensures { IfOk result (λ a. a ≡ primitive ptype bytes.now (valid_of validity)) }
{
    let bytes = ByteBuffer::copy_from(alloc, bytes)?;
    ArrayRef::from_parts(
        alloc,
        Layout::Primitive {
            ptype,
            bytes,
            validity,
        },
    )
}

/// Truth values, none of them null.
pub fn bools(alloc: Global, items: &[bool]) -> Result<ArrayRef, VortexError>
    ensures { IfOk result (λ a. a ≡ bools 0 items.now non_nullable) }
{
    let bits = BitBuffer::from_bools(alloc, items)?;
    ArrayRef::bools(alloc, bits, Validity::NonNullable)
}

/// Truth values, of which the second ones, as many, say which are not null.
pub fn some_bools(alloc: Global, items: &[bool], valid: &[bool]) -> Result<ArrayRef, VortexError>
    requires { length valid.now ≡ length items.now }
    ensures { IfOk result (λ a. a ≡ bools 0 items.now (by_array (bools 0 valid.now non_nullable))) }
{
    let bits = BitBuffer::from_bools(alloc, items)?;
    let validity = Validity::Array(bools(alloc, valid)?);
    ArrayRef::from_parts(alloc, Layout::Bool { bits, validity })
}

/// Valid where these are true.
pub fn valid_where(alloc: Global, items: &[bool]) -> Result<Validity, VortexError> {
    Ok(Validity::Array(bools(alloc, items)?))
}

/// Records of two columns. Asks for two names, and for columns and a validity of so many rows.
pub fn columns_of(
    alloc: Global,
    names: &[&str],
    first: ArrayRef,
    second: ArrayRef,
    validity: Validity,
    len: usize,
) -> Result<ArrayRef, VortexError>
    requires named { length names.now ≡ 2 }
    requires first { tree_len first ≡ len }
    requires second { tree_len second ≡ len }
    requires fits { ValidFits (valid_of validity) len }
    ensures { IfOk result (λ a. tree_len a ≡ len) }
{
    let names = FieldNames::try_new(alloc, names)?;
    let mut columns = Vec::with_capacity(alloc, 2)?;
    columns.push(first)?;
    columns.push(second)?;
    ArrayRef::structure(alloc, names, columns, validity, len)
}

/// One column.
pub fn one_column(alloc: Global, column: ArrayRef) -> Result<Vec<ArrayRef>, VortexError>
    ensures { Gives result (λ columns. columns.items ≡ column ∷ []) }
{
    let mut columns = Vec::with_capacity(alloc, 1)?;
    columns.push(column)?;
    Ok(columns)
}

/// Whether an array has these numbers and no null.
pub fn has_numbers(array: &ArrayRef, wanted: &[i128]) -> bool {
    if !array.dtype().is_int() || array.len() != wanted.len() {
        return false;
    }
    for (i, number) in wanted.iter().enumerate() {
        if array.int_at(i) != Some(*number) {
            return false;
        }
    }
    true
}

/// Whether an array has these numbers, null where there is none.
pub fn has_numbers_or_nulls(array: &ArrayRef, wanted: &[Option<i128>]) -> bool {
    if !array.dtype().is_int() || array.len() != wanted.len() {
        return false;
    }
    for (i, number) in wanted.iter().enumerate() {
        if array.int_at(i) != *number {
            return false;
        }
    }
    true
}

/// Whether the numbers of an array are of a type.
pub fn has_type(array: &ArrayRef, ptype: PType) -> bool {
    match array.dtype() {
        DType::Primitive(own, _) => *own == ptype,
        _ => false,
    }
}

/// The items of an iterator, under a hint that they are as many as can be counted.
#[derive(Drop)]
pub struct Boasting<I> {
    /// The iterator.
    pub items: I,
}

impl<I: Iterator> Iterator for Boasting<I> {
    type Item = I::Item;

    ghost use Rattle.std.specs.Prelude.{◌+◌, ◌^◌};
    ghost use Rattle.std.specs.Iterator.{count_map};

    ghost can_next = { λ s. I.can_next s.items };

    ghost next_gives = { λ s item t. I.next_gives s.items item t.items };

    ghost remaining = { λ s. count_map (λ n. 2 ^ 64 + n) (I.remaining s.items) };

    fn next(&mut self) -> Option<I::Item> {
        self.items.next()
    }

    fn size_hint(&self) -> (usize, Option<usize>) {
        (usize::MAX, None)
    }
}
