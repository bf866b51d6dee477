// Rows of whole numbers as positions.

ghost use Rattle.std.specs.Prelude.{◌≡◌, ◌<◌, ◌≤ℤ◌, ◌*◌, ◌-◌, ◌^◌, ℕ, pos, true, length, IfOk, IfSome, slice_index_or};
ghost use Rattle.vx_base.specs.Refusals.{Gives, Refuses, Tests};
ghost use Rattle.vx_base.specs.Integers.{numbers, number_nth};
ghost use Rattle.vx_base.specs.Rows.{whole};
ghost use Rattle.vx_base.specs.Kinds.{is_integers};
ghost use Rattle.vx_tree.specs.Tree.{primitive, non_nullable};
ghost use Rattle.vx_tree.specs.Meaning.{tree_len, kind_of, row_at};
ghost use Rattle.vx_tree.specs.Formed.{IsCode};
ghost use Rattle.vx_tree.specs.Faults.{indices_fault, index_fault};
ghost use Rattle.vx_tree.specs.Named.{HasNumbers, IsRepeated, AreIndices};
ghost use Rattle.vx_tree.specs.Operations.{IsPosition, ArePositions, masked_numbers};

mod checks;
mod masked;
mod rows;

use crate::array::{ArrayRef, Layout, Validity};
use crate::indices::masked::number_indices;
pub use crate::indices::rows::Indices;
use std::alloc::Global;
use vx_base::{Mask, MaskRows, NativePType, PType, VortexError, call_native, int_at};

impl ArrayRef {
    /// The positions below `len` that the rows name, 0 for a null row. Asks integers. Refuses at
    /// the first faulty valid row: `Negative` with the row, or `OutOfBounds` with the position.
    /// What stands in a null row is not looked at.
    pub fn positions(&self, alloc: Global, len: usize) -> Result<Vec<usize>, VortexError>
        requires { is_integers (kind_of self.now) ≡ true }
        ensures ok { IfOk result (λ ps. ArePositions self.now len ps.items) }
        ensures refuses { Refuses result (indices_fault len self.now) }
    {
        let mut positions = vec![in alloc; 0; self.len()]?;
        self.fill_positions(alloc, len, &mut positions)?;
        Ok(positions)
    }

    // The same positions, any of them for a null row, with no list of them where the rows are
    // numbers that lie one after another, or all one.
    pub(crate) fn indices(&self, alloc: Global, len: usize) -> Result<Indices<'_>, VortexError>
        requires { is_integers (kind_of self.now) ≡ true }
        ensures ok { IfOk result (λ ps. AreIndices self.now len ps) }
        ensures refuses { Refuses result (indices_fault len self.now) }
    {
        if self.is_repeated() {
            return self.one_position(len);
        }
        match self.layout() {
            Layout::Primitive {
                ptype,
                bytes,
                validity,
            } => number_indices(alloc, *ptype, bytes.as_slice(), validity, len),
            _ => Ok(Indices::of_positions(self.positions(alloc, len)?)),
        }
    }

    /// The positions that codes of `len` values name, any of them for a null code. Asks that each
    /// code names a value. For the crates above.
    pub fn code_positions(&self, alloc: Global, len: usize) -> Result<Indices<'_>, VortexError>
        requires ints { is_integers (kind_of self.now) ≡ true }
        requires codes { (i : ℕ) → i < tree_len self.now → IsCode len (row_at self.now i) }
        ensures { Gives result (λ ps. AreIndices self.now len ps) }
    {
        match self.plain_numbers() {
            Some((ptype, bytes)) => Ok(Indices::of_numbers(ptype, bytes)),
            None => self.indices(alloc, len),
        }
    }

    // The position that each row names, of rows that are all one: the first alone is read.
    fn one_position(&self, len: usize) -> Result<Indices<'_>, VortexError>
        requires ints { is_integers (kind_of self.now) ≡ true }
        requires repeated { IsRepeated self.now }
        ensures ok { IfOk result (λ ps. AreIndices self.now len ps) }
        ensures tests { Tests result (indices_fault len self.now) }
    {
        let position = self.position(0, len)?;
        Ok(Indices::repeated(position, self.len()))
    }

    // The numbers that the rows are, where they lie one after another and none is null.
    pub(crate) fn plain_numbers(&self) -> Option<(PType, &[u8])>
        ensures { IfSome result (λ n. HasNumbers self.now n.0 n.1.now) }
    {
        let Layout::Primitive {
            ptype,
            bytes,
            validity,
        } = self.layout()
        else {
            return None;
        };
        match validity {
            Validity::NonNullable => Some((*ptype, bytes.as_slice())),
            Validity::AllValid => Some((*ptype, bytes.as_slice())),
            _ => None,
        }
    }

    // Writes the positions that the rows name, 0 where one is null. Numbers that lie one after
    // another are read under the mask of their validity.
    fn fill_positions(
        &self,
        alloc: Global,
        len: usize,
        out: &mut [usize],
    ) -> Result<(), VortexError>
        requires ints { is_integers (kind_of self.now) ≡ true }
        requires room { length out.old ≡ tree_len self.now }
        ensures ok { IfOk result (λ _. ArePositions self.now len out.new) }
        ensures refuses { Refuses result (indices_fault len self.now) }
    {
        match self.layout() {
            Layout::Primitive {
                ptype,
                bytes,
                validity,
            } => {
                let mask = validity.execute_mask(alloc, self.len())?;
                Ok(fill_typed(*ptype, bytes.as_slice(), &mask, len, out)?)
            }
            _ => Ok(self.fill_each(len, out)?),
        }
    }

    // Writes the positions that the rows name, 0 where one is null: in any layout, row by row.
    fn fill_each(&self, len: usize, out: &mut [usize]) -> Result<(), VortexError>
        requires ints { is_integers (kind_of self.now) ≡ true }
        requires room { length out.old ≡ tree_len self.now }
        ensures ok { IfOk result (λ _. ArePositions self.now len out.new) }
        ensures tests { Tests result (indices_fault len self.now) }
    {
        for row in 0..out.len() {
            out[row] = self.position(row, len)?;
        }
        Ok(())
    }

    // The position that a row names, below `len`, 0 where it is null, or its fault.
    fn position(&self, row: usize, len: usize) -> Result<usize, VortexError>
        requires ints { is_integers (kind_of self.now) ≡ true }
        requires in_bounds { row < tree_len self.now }
        ensures ok { IfOk result (IsPosition len (row_at self.now row)) }
        ensures tests { Tests result (index_fault len row (row_at self.now row)) }
    {
        match self.int_at(row) {
            Some(number) => position_of(number, row, len),
            None => Ok(0),
        }
    }
}

// Writes the positions that numbers name, each below `len`, 0 where the mask is false.
fn fill_typed(
    ptype: PType,
    bytes: &[u8],
    mask: &Mask,
    len: usize,
    out: &mut [usize],
) -> Result<(), VortexError>
    requires numbers { length mask.now ≡ length (numbers ptype bytes.now) }
    requires room { length out.old ≡ length mask.now }
    ensures ok { IfOk result (λ _. ArePositions (masked_numbers ptype bytes.now mask.now) len out.new) }
    ensures tests { Tests result (indices_fault len (masked_numbers ptype bytes.now mask.now)) }
{
    call_native!(ptype, fill_numbers(bytes, mask, len, out))
}

// Writes the positions below `len` that numbers of one type name, 0 where the mask is false.
fn fill_numbers<T: NativePType>(
    bytes: &[u8],
    mask: &Mask,
    len: usize,
    out: &mut [usize],
) -> Result<(), VortexError>
    requires numbers { length mask.now ≡ length (numbers T.PTYPE bytes.now) }
    requires room { length out.old ≡ length mask.now }
    ensures ok { IfOk result (λ _. ArePositions (masked_numbers T.PTYPE bytes.now mask.now) len out.new) }
    ensures tests { Tests result (indices_fault len (masked_numbers T.PTYPE bytes.now mask.now)) }
{
    if mask.all_true() {
        fill_plain::<T>(bytes, len, out)
    } else {
        fill_masked::<T>(bytes, mask, len, out)
    }
}

// Writes the positions below `len` that numbers of one type name, of which none is null.
fn fill_plain<T: NativePType>(
    bytes: &[u8],
    len: usize,
    out: &mut [usize],
) -> Result<(), VortexError>
    requires { length out.old ≡ length (numbers T.PTYPE bytes.now) }
    ensures ok { IfOk result (λ _. ArePositions (primitive T.PTYPE bytes.now non_nullable) len out.new) }
    ensures tests { Tests result (indices_fault len (primitive T.PTYPE bytes.now non_nullable)) }
{
    for row in 0..out.len() {
        out[row] = number_position(bytes, T::PTYPE, row, len)?;
    }
    Ok(())
}

// Writes the positions below `len` that numbers of one type name, the mask read for each.
fn fill_masked<T: NativePType>(
    bytes: &[u8],
    mask: &Mask,
    len: usize,
    out: &mut [usize],
) -> Result<(), VortexError>
    requires numbers { length mask.now ≡ length (numbers T.PTYPE bytes.now) }
    requires room { length out.old ≡ length mask.now }
    ensures ok { IfOk result (λ _. ArePositions (masked_numbers T.PTYPE bytes.now mask.now) len out.new) }
    ensures tests { Tests result (indices_fault len (masked_numbers T.PTYPE bytes.now mask.now)) }
{
    let mut valid = mask.rows();
    for row in 0..out.len() {
        out[row] = masked_position(bytes, T::PTYPE, &mut valid, row, len)?;
    }
    Ok(())
}

// The position that a number names, where the mask is true.
#[inline]
fn masked_position(
    bytes: &[u8],
    ptype: PType,
    valid: &mut MaskRows<'_>,
    row: usize,
    len: usize,
) -> Result<usize, VortexError>
    requires numbers { length valid.old ≡ length (numbers ptype bytes.now) }
    requires in_bounds { row < length valid.old }
    ensures ok { IfOk result (IsPosition len (row_at (masked_numbers ptype bytes.now valid.old) row)) }
    ensures tests { Tests result (index_fault len row (row_at (masked_numbers ptype bytes.now valid.old) row)) }
    ensures same { valid.new ≡ valid.old }
{
    if valid.value(row) {
        number_position(bytes, ptype, row, len)
    } else {
        Ok(0)
    }
}

// The position that the number of a row names.
#[inline]
pub(crate) fn number_position(
    bytes: &[u8],
    ptype: PType,
    row: usize,
    len: usize,
) -> Result<usize, VortexError>
    requires { row < length (numbers ptype bytes.now) }
    ensures ok { IfOk result (IsPosition len (whole (number_nth (numbers ptype bytes.now) row))) }
    ensures tests { Tests result (index_fault len row (whole (number_nth (numbers ptype bytes.now) row))) }
{
    position_of(int_at(bytes, ptype, row), row, len)
}

// The position that a number names, below `len`, or its fault.
#[inline]
fn position_of(number: i128, row: usize, len: usize) -> Result<usize, VortexError>
    requires { number ≤ℤ pos (2 ^ 64 - 1) }
    ensures ok { IfOk result (IsPosition len (whole number)) }
    ensures tests { Tests result (index_fault len row (whole number)) }
{
    if number < 0 {
        return Err(VortexError::Negative { row });
    }
    let index = to_position(number);
    if index >= len {
        return Err(VortexError::OutOfBounds { index, len });
    }
    Ok(index)
}

// A number that is not negative, as a position.
pub(crate) fn to_position(number: i128) -> usize
    requires low { pos 0 ≤ℤ number }
    requires high { number ≤ℤ pos (2 ^ 64 - 1) }
    ensures { pos result ≡ number }
{
    number as usize
}
