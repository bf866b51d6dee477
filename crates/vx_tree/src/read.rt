// Rows that are read one at a time, or as bits.

ghost use Rattle.std.specs.Prelude.{◌≡◌, ◌<◌, ◌≤ℤ◌, ◌+◌, ◌^◌, ◌-◌, ◌++◌, pos, true, false, map, replicate, None, length, count_by, IfOk};
ghost use Rattle.std.specs.Prelude.{IfSome, IsSome, IsTrue, is_some, ℕ};
ghost use Rattle.std.specs.List.{range_with_len};
ghost use Rattle.vx_base.specs.Refusals.{Gives, Refuses};
ghost use Rattle.vx_base.specs.Integers.{Holds};
ghost use Rattle.vx_base.specs.Rows.{is_present, truth_of, number_in};
ghost use Rattle.vx_base.specs.Kinds.{booleans, is_integers, is_plain_integers, integer_type};
ghost use Rattle.vx_tree.specs.Layouts.{first_bit, is_bools, is_primitive};
ghost use Rattle.vx_tree.specs.Meaning.{tree_len, kind_of, row_at};
ghost use Rattle.vx_tree.specs.Parts.{valid_of};
ghost use Rattle.vx_tree.specs.Faults.{position_fault};
ghost use Rattle.vx_tree.specs.Named.{IsRepeated};
ghost use Rattle.vx_tree.specs.Plain.{IsPlain};
ghost use Rattle.vx_tree.specs.Operations.{IsValidityOf};

use crate::array::{ArrayRef, Layout, Validity};
use crate::layouts::constant::scalar_validity;
use std::alloc::Global;
use vx_base::{BitBuffer, BitBufferMut, Mask, VortexError, int_at};

// How many bits a word has.
const WORD: usize = 64;

#[tactic(auto, using(crate::specs::Formed::valid_reads))]
impl ArrayRef {
    /// Whether row `i` is not null. Refuses `OutOfBounds` where `i` is not below the length.
    pub fn is_valid(&self, _alloc: Global, i: usize) -> Result<bool, VortexError>
        ensures valid { IfOk result (λ b. b ≡ is_present (row_at self.now i)) }
        ensures refuses { Refuses result (position_fault (tree_len self.now) i) }
    {
        let len = self.len();
        if i >= len {
            return Err(VortexError::OutOfBounds { index: i, len });
        }
        Ok(self.is_valid_within(i))
    }

    // Whether row `i`, which is below the length, is not null.
    pub(crate) fn is_valid_within(&self, i: usize) -> bool
        requires { i < tree_len self.now }
        ensures { result ≡ is_present (row_at self.now i) }
    {
        match self.layout() {
            Layout::Bool { validity, .. } => validity.is_valid_at(i),
            Layout::Primitive { validity, .. } => validity.is_valid_at(i),
            Layout::Constant { scalar, .. } => scalar.is_valid(),
            Layout::Dict { codes, values, .. } => match codes.code_at(i, values.len()) {
                Some(code) => values.is_valid_within(code),
                None => false,
            },
            Layout::FixedSizeList { validity, .. } => validity.is_valid_at(i),
            Layout::ListView { validity, .. } => validity.is_valid_at(i),
            Layout::VarBinView { validity, .. } => validity.is_valid_at(i),
            Layout::Struct { validity, .. } => validity.is_valid_at(i),
        }
    }

    /// The number of row `i`, where it is not null. Asks an integer data type and a row below the
    /// length.
    #[cycle(read)]
    #[inline]
    pub fn int_at(&self, i: usize) -> Option<i128>
        requires ints { is_integers (kind_of self.now) ≡ true }
        requires in_bounds { i < tree_len self.now }
        ensures value { result ≡ number_in (row_at self.now i) }
        ensures present { is_some result ≡ is_present (row_at self.now i) }
        ensures plain { is_plain_integers (kind_of self.now) ≡ true → IsSome result }
        ensures holds { IfSome result (Holds (integer_type (kind_of self.now))) }
        ensures small { IfSome result (λ z. z ≤ℤ pos (2 ^ 64 - 1)) }
    {
        let Layout::Primitive {
            ptype,
            bytes,
            validity,
        } = self.layout()
        else {
            return self.repeated_int_at(i);
        };
        if validity.is_valid_at(i) {
            Some(int_at(bytes.as_slice(), *ptype, i))
        } else {
            None
        }
    }

    // The number of row `i`, where a constant or a dictionary tells it. Not inlined, so that
    // numbers are read where they lie.
    #[cycle(read)]
    #[inline(never)]
    fn repeated_int_at(&self, i: usize) -> Option<i128>
        requires ints { is_integers (kind_of self.now) ≡ true }
        requires layout { is_primitive self.now ≡ false }
        requires in_bounds { i < tree_len self.now }
        ensures value { result ≡ number_in (row_at self.now i) }
        ensures present { is_some result ≡ is_present (row_at self.now i) }
        ensures plain { is_plain_integers (kind_of self.now) ≡ true → IsSome result }
        ensures holds { IfSome result (Holds (integer_type (kind_of self.now))) }
        ensures small { IfSome result (λ z. z ≤ℤ pos (2 ^ 64 - 1)) }
    {
        match self.layout() {
            Layout::Constant { scalar, .. } => scalar.as_int(),
            Layout::Dict { codes, values, .. } => match codes.code_at(i, values.len()) {
                Some(code) => values.int_at(code),
                None => None,
            },
            _ => unreachable!(),
        }
    }

    // Row `i` of an array of plain booleans.
    #[cycle(read)]
    #[inline(always)]
    pub(crate) fn truth_at(&self, i: usize) -> bool
        requires kind { kind_of self.now ≡ booleans false }
        requires in_bounds { i < tree_len self.now }
        ensures { result ≡ truth_of (row_at self.now i) }
    {
        let Layout::Bool { bits, .. } = self.layout() else {
            return self.repeated_truth_at(i);
        };
        bits.value(i)
    }

    // Row `i` of an array of plain booleans, where a constant or a dictionary tells it. Not inlined,
    // so that bits are read where they lie.
    #[cycle(read)]
    #[inline(never)]
    fn repeated_truth_at(&self, i: usize) -> bool
        requires kind { kind_of self.now ≡ booleans false }
        requires layout { is_bools self.now ≡ false }
        requires in_bounds { i < tree_len self.now }
        ensures { result ≡ truth_of (row_at self.now i) }
    {
        match self.layout() {
            Layout::Constant { scalar, .. } => scalar.as_bool(),
            Layout::Dict { codes, values, .. } => match codes.code_at(i, values.len()) {
                Some(code) => values.truth_at(code),
                None => false,
            },
            _ => unreachable!(),
        }
    }

    /// The rows of an array of plain booleans, as bits: those of a `Bool` layout where they lie.
    /// For the crates above.
    pub fn plain_bits(&self, alloc: Global) -> Result<BitBuffer, VortexError>
        requires { kind_of self.now ≡ booleans false }
        ensures bits { Gives result (λ b. b.bits ≡ map (λ i. truth_of (row_at self.now i)) (range_with_len 0 (tree_len self.now))) }
        ensures offset { IfOk result (λ b. b.offset ≡ first_bit self.now) }
    {
        match self.layout() {
            Layout::Bool { bits, .. } => bits.try_clone(alloc),
            Layout::Constant { scalar, len } => BitBuffer::full(alloc, scalar.as_bool(), *len),
            Layout::Dict { .. } => self.truths(alloc),
            _ => unreachable!(),
        }
    }

    // The rows of an array of plain booleans, as a mask. That of rows that are all one takes no
    // memory.
    pub(crate) fn plain_mask(&self, alloc: Global) -> Result<Mask, VortexError>
        requires { kind_of self.now ≡ booleans false }
        ensures { Gives result (λ m. m ≡ map (λ i. truth_of (row_at self.now i)) (range_with_len 0 (tree_len self.now))) }
    {
        if self.is_repeated() {
            return Ok(mask_of_one(self.truth_at(0), self.len()));
        }
        Mask::from_buffer(alloc, self.plain_bits(alloc)?)
    }

    // Adds the rows of an array of plain booleans to bits.
    pub(crate) fn append_truths(
        &self,
        alloc: Global,
        bits: &mut BitBufferMut,
    ) -> Result<(), VortexError>
        requires kind { kind_of self.now ≡ booleans false }
        requires short { length bits.old + tree_len self.now < 2 ^ 64 }
        ensures { Gives result (λ _. bits.new
            ≡ bits.old ++ map (λ i. truth_of (row_at self.now i)) (range_with_len 0 (tree_len self.now))) }
    {
        if self.is_repeated() {
            return bits.append_n(self.truth_at(0), self.len());
        }
        let truths = self.plain_bits(alloc)?;
        append_bits(bits, &truths)
    }

    // How many of the rows of an array of plain booleans are true. Of rows that are all one it takes
    // no memory.
    pub(crate) fn plain_true_count(&self, alloc: Global) -> Result<usize, VortexError>
        requires { kind_of self.now ≡ booleans false }
        ensures { Gives result (λ n. n ≡ count_by (λ b. b)
            (map (λ i. truth_of (row_at self.now i)) (range_with_len 0 (tree_len self.now)))) }
    {
        if self.is_repeated() {
            return Ok(self.plain_mask(alloc)?.true_count());
        }
        Ok(self.plain_bits(alloc)?.true_count())
    }

    // The rows of an array of plain booleans, as bits: in any layout, row by row.
    fn truths(&self, alloc: Global) -> Result<BitBuffer, VortexError>
        requires { kind_of self.now ≡ booleans false }
        ensures bits { Gives result (λ b. b.bits ≡ map (λ i. truth_of (row_at self.now i)) (range_with_len 0 (tree_len self.now))) }
        ensures offset { IfOk result (λ b. b.offset ≡ 0) }
    {
        let mut truths = vec![in alloc; false; self.len()]?;
        self.fill_truths(&mut truths);
        BitBuffer::from_bools(alloc, &truths)
    }

    // Writes the rows of an array of plain booleans, row by row.
    fn fill_truths(&self, out: &mut [bool])
        requires kind { kind_of self.now ≡ booleans false }
        requires room { length out.old ≡ tree_len self.now }
        ensures { out.new ≡ map (λ i. truth_of (row_at self.now i)) (range_with_len 0 (tree_len self.now)) }
    {
        for row in 0..out.len() {
            out[row] = self.truth_at(row);
        }
    }

    // Whether there are rows, and the layout alone says that they are all one.
    pub(crate) fn is_repeated(&self) -> bool
        ensures { IsTrue result → IsRepeated self.now }
    {
        !self.is_empty() && self.has_one_row()
    }

    // Whether the layout says that all rows are one: a constant's, and those that such codes name.
    fn has_one_row(&self) -> bool
        ensures alike { IsTrue result → (i : ℕ) → row_at self.now i ≡ row_at self.now 0 }
        ensures worked { IsTrue result → IsPlain self.now → ⊥ }
    {
        match self.layout() {
            Layout::Constant { .. } => true,
            Layout::Dict { codes, .. } => codes.has_one_row(),
            _ => false,
        }
    }

    /// Which rows are valid, in the state in which the layout keeps it: a constant's by its row and
    /// its data type, a dictionary's that of its values taken by its codes. Fails only for want of
    /// memory.
    #[cycle(validity)]
    pub fn validity(&self, alloc: Global) -> Result<Validity, VortexError>
        ensures { Gives result (λ v. IsValidityOf self.now (valid_of v)) }
    {
        match self.layout() {
            Layout::Bool { validity, .. } => validity.try_clone(alloc),
            Layout::Primitive { validity, .. } => validity.try_clone(alloc),
            Layout::Constant { scalar, .. } => Ok(scalar_validity(scalar)),
            Layout::Dict { .. } => self.dictionary_validity(alloc),
            Layout::FixedSizeList { validity, .. } => validity.try_clone(alloc),
            Layout::ListView { validity, .. } => validity.try_clone(alloc),
            Layout::VarBinView { validity, .. } => validity.try_clone(alloc),
            Layout::Struct { validity, .. } => validity.try_clone(alloc),
        }
    }
}

// The same boolean for every row.
fn mask_of_one(value: bool, len: usize) -> Mask
    ensures { result ≡ replicate len value }
{
    if value {
        Mask::new_true(len)
    } else {
        Mask::new_false(len)
    }
}

// Adds booleans to bits: those of less than a word one by one, so that no bit after them is set.
fn append_bits(bits: &mut BitBufferMut, more: &BitBuffer) -> Result<(), VortexError>
    requires { length bits.old + length more.now.bits < 2 ^ 64 }
    ensures { Gives result (λ _. bits.new ≡ bits.old ++ more.now.bits) }
{
    if more.len() < WORD {
        append_each(bits, more)
    } else {
        bits.append_slice(more, 0, more.len())
    }
}

// Adds booleans to bits one by one.
fn append_each(bits: &mut BitBufferMut, more: &BitBuffer) -> Result<(), VortexError>
    requires { length bits.old + length more.now.bits < 2 ^ 64 }
    ensures { Gives result (λ _. bits.new ≡ bits.old ++ more.now.bits) }
{
    for i in 0..more.len() {
        bits.append(more.value(i))?;
    }
    Ok(())
}
