// Whole numbers of one type, one after another.

ghost use Rattle.std.specs.Prelude.{◌≡◌, ◌<◌, ◌≤◌, ◌-◌, ℕ, true, false};
ghost use Rattle.vx_base.specs.Kinds.{booleans};
ghost use Rattle.vx_base.specs.Rows.{boolean};
ghost use Rattle.vx_base.specs.Refusals.{Gives};
ghost use Rattle.vx_base.specs.ValueRows.{row_under};
ghost use Rattle.vx_tree.specs.Tree.{by_array, constant, primitive};
ghost use Rattle.vx_tree.specs.Layouts.{is_primitive};
ghost use Rattle.vx_tree.specs.Meaning.{tree_len, kind_of, row_at, is_valid_at};
ghost use Rattle.vx_tree.specs.Formed.{ValidFits, WellFormed};
ghost use Rattle.vx_tree.specs.Parts.{valid_of};
ghost use Rattle.vx_tree.specs.Operations.{IsSlice, IsSelected, IsNulls, IsZeroes, IsZeroCodes, AreBelow};

use crate::array::{ArrayRef, Layout, Validity};
use crate::validity::constant_truth;
use std::alloc::Global;
use vx_base::{
    ByteBuffer, DType, Nullability, PType, Scalar, ScalarValue, Selection, VortexError,
    gather_numbers, int_at, slice_numbers, zero_numbers,
};

impl ArrayRef {
    /// Whole numbers, null where the validity is false. Asks that the bytes are those of whole
    /// numbers, and that the validity is that of as many rows.
    pub fn primitive(
        alloc: Global,
        ptype: PType,
        bytes: ByteBuffer,
        validity: Validity,
    ) -> Result<ArrayRef, VortexError>
        requires { WellFormed (primitive ptype bytes (valid_of validity)) }
        ensures { Gives result (λ a. a ≡ primitive ptype bytes (valid_of validity)) }
    {
        ArrayRef::from_parts(
            alloc,
            Layout::Primitive {
                ptype,
                bytes,
                validity,
            },
        )
    }

    #[cycle(slice)]
    #[tactic(auto, using(crate::specs::Formed::valid_reads))]
    pub(crate) fn slice_primitive(
        &self,
        alloc: Global,
        start: usize,
        end: usize,
    ) -> Result<ArrayRef, VortexError>
        requires layout { is_primitive self.now ≡ true }
        requires start_le_end { start ≤ end }
        requires in_bounds { end ≤ tree_len self.now }
        ensures { Gives result (IsSlice self.now start (end - start)) }
    {
        let Layout::Primitive {
            ptype,
            bytes,
            validity,
        } = self.layout()
        else {
            unreachable!();
        };
        let bytes = slice_numbers(alloc, bytes, *ptype, start..end)?;
        let validity = match validity.slice_within(alloc, start, end) {
            Ok(validity) => validity,
            Err(error) => {
                drop(bytes);
                return Err(error);
            }
        };
        let layout = Layout::Primitive {
            ptype: *ptype,
            bytes,
            validity,
        };
        self.with_parts(alloc, layout)
    }

    #[cycle(select)]
    pub(crate) fn select_primitive(
        &self,
        alloc: Global,
        selection: &Selection,
    ) -> Result<ArrayRef, VortexError>
        requires layout { is_primitive self.now ≡ true }
        requires within { AreBelow (tree_len self.now) selection.now }
        ensures { Gives result (IsSelected self.now selection.now) }
    {
        let Layout::Primitive {
            ptype,
            bytes,
            validity,
        } = self.layout()
        else {
            unreachable!();
        };
        let bytes = gather_numbers(alloc, *ptype, bytes.as_slice(), selection)?;
        let validity = match validity.select_within(alloc, selection) {
            Ok(validity) => validity,
            Err(error) => {
                drop(bytes);
                return Err(error);
            }
        };
        let layout = Layout::Primitive {
            ptype: *ptype,
            bytes,
            validity,
        };
        self.with_parts(alloc, layout)
    }

    pub(crate) fn null_numbers(
        &self,
        alloc: Global,
        len: usize,
        nulls: &Validity,
    ) -> Result<ArrayRef, VortexError>
        requires layout { is_primitive self.now ≡ true }
        requires fits { ValidFits (valid_of nulls.now) len }
        requires none { (i : ℕ) → i < len → is_valid_at (valid_of nulls.now) i ≡ false }
        ensures { Gives result (IsNulls self.now len (valid_of nulls.now)) }
    {
        let Layout::Primitive {
            ptype,
            validity,
            ..
        } = self.layout()
        else {
            unreachable!();
        };
        let validity = validity.nulls(alloc, len, nulls)?;
        match zero_numbers(alloc, *ptype, len) {
            Ok(bytes) => ArrayRef::primitive(alloc, *ptype, bytes, validity),
            Err(error) => {
                drop(validity);
                Err(error)
            }
        }
    }

    // The value of row `i`, `None` where it is null.
    #[tactic(auto, using(crate::specs::Formed::valid_reads))]
    pub(crate) fn number_value(&self, i: usize) -> Option<ScalarValue>
        requires layout { is_primitive self.now ≡ true }
        requires in_bounds { i < tree_len self.now }
        ensures { row_under (kind_of self.now) result ≡ row_at self.now i }
    {
        let Layout::Primitive {
            ptype,
            bytes,
            validity,
        } = self.layout()
        else {
            unreachable!();
        };
        if validity.is_valid_at(i) {
            Some(ScalarValue::Int(int_at(bytes.as_slice(), *ptype, i)))
        } else {
            None
        }
    }

    /// Counts that are all 0. For the crates above.
    pub fn zeroes(alloc: Global, ptype: PType, len: usize) -> Result<ArrayRef, VortexError>
        ensures { Gives result (IsZeroes ptype len) }
    {
        let bytes = zero_numbers(alloc, ptype, len)?;
        ArrayRef::primitive(alloc, ptype, bytes, Validity::NonNullable)
    }

    // Codes that are all 0, null where this validity is not true. They take no memory a row where
    // the validity is no array, or its rows are all one.
    pub(crate) fn zero_codes(
        alloc: Global,
        len: usize,
        nulls: &Validity,
    ) -> Result<ArrayRef, VortexError>
        requires { ValidFits (valid_of nulls.now) len }
        ensures { Gives result (IsZeroCodes len (valid_of nulls.now)) }
    {
        match nulls {
            Validity::NonNullable => {
                let zero = Scalar::int(0, PType::U8, Nullability::NonNullable);
                ArrayRef::constant(alloc, zero, len)
            }
            Validity::AllValid => {
                let zero = Scalar::int(0, PType::U8, Nullability::Nullable);
                ArrayRef::constant(alloc, zero, len)
            }
            Validity::AllInvalid => {
                let null = Scalar::null(DType::Primitive(PType::U8, Nullability::Nullable));
                ArrayRef::constant(alloc, null, len)
            }
            Validity::Array(array) => {
                if array.is_repeated() {
                    return ArrayRef::repeated_code(alloc, array.truth_at(0), len);
                }
                let bytes = zero_numbers(alloc, PType::U8, len)?;
                ArrayRef::primitive(alloc, PType::U8, bytes, nulls.try_clone(alloc)?)
            }
        }
    }

    // Codes that are all 0, and all null where `valid` is false: one code, which constant codes
    // name.
    fn repeated_code(alloc: Global, valid: bool, len: usize) -> Result<ArrayRef, VortexError>
        ensures { Gives result (IsZeroCodes len (by_array (constant (booleans false) (boolean valid) len))) }
    {
        let validity = Validity::Array(constant_truth(alloc, valid, 1)?);
        let bytes = zero_numbers(alloc, PType::U8, 1)?;
        let code = ArrayRef::primitive(alloc, PType::U8, bytes, validity)?;
        let zero = Scalar::int(0, PType::U8, Nullability::NonNullable);
        let codes = ArrayRef::constant(alloc, zero, len)?;
        ArrayRef::dictionary(alloc, codes, code, false)
    }
}

// These numbers, shared, under this validity.
pub(crate) fn numbers_under(
    alloc: Global,
    ptype: PType,
    bytes: &ByteBuffer,
    validity: Validity,
) -> Result<ArrayRef, VortexError>
    requires { WellFormed (primitive ptype bytes.now (valid_of validity)) }
    ensures { Gives result (λ a. a ≡ primitive ptype bytes.now (valid_of validity)) }
{
    match bytes.try_clone(alloc) {
        Ok(bytes) => ArrayRef::primitive(alloc, ptype, bytes, validity),
        Err(error) => {
            drop(validity);
            Err(error)
        }
    }
}
