// Lists of one size, one after another.

ghost use Rattle.std.specs.Prelude.{◌≡◌, ◌<◌, ◌≤◌, ◌-◌, ℕ, true, false, length, None};
ghost use Rattle.vx_base.specs.DTypes.{dtype_meaning, is_nullable};
ghost use Rattle.vx_base.specs.Kinds.{fixed_lists};
ghost use Rattle.vx_base.specs.Refusals.{Gives};
ghost use Rattle.vx_base.specs.ValueRows.{row_under};
ghost use Rattle.vx_tree.specs.Tree.{fixed_list};
ghost use Rattle.vx_tree.specs.Layouts.{is_fixed_list};
ghost use Rattle.vx_tree.specs.Meaning.{tree_len, kind_of, row_at, is_valid_at};
ghost use Rattle.vx_tree.specs.Formed.{ValidFits, WellFormed};
ghost use Rattle.vx_tree.specs.Parts.{valid_of};
ghost use Rattle.vx_tree.specs.Faults.{take_overflow};
ghost use Rattle.vx_tree.specs.Operations.{IsSlice, IsSelected, IsNulls, AreBelow};

use crate::array::{ArrayRef, Layout, Validity};
use std::alloc::Global;
use std::rc::Rc;
use vx_base::{DType, Nullability, ScalarValue, ScalarValues, Selection, VortexError};

impl ArrayRef {
    /// Lists of `size` elements each, null where the validity is false. Asks that there are `len`
    /// times `size` elements, and that the validity is that of `len` rows. Of size 0 there are no
    /// elements, and any number of lists. The elements 1, 2, 3, 4 are of size 2 the lists `[1, 2]`,
    /// `[3, 4]`.
    pub fn fixed_size_list(
        alloc: Global,
        elements: ArrayRef,
        size: u32,
        validity: Validity,
        len: usize,
    ) -> Result<ArrayRef, VortexError>
        requires { WellFormed (fixed_list elements size (valid_of validity) len) }
        ensures { Gives result (λ a. a ≡ fixed_list elements size (valid_of validity) len) }
    {
        ArrayRef::from_parts(
            alloc,
            Layout::FixedSizeList {
                elements,
                size,
                validity,
                len,
            },
        )
    }

    #[cycle(slice)]
    pub(crate) fn slice_fixed_lists(
        &self,
        alloc: Global,
        start: usize,
        end: usize,
    ) -> Result<ArrayRef, VortexError>
        requires layout { is_fixed_list self.now ≡ true }
        requires start_le_end { start ≤ end }
        requires in_bounds { end ≤ tree_len self.now }
        ensures { Gives result (IsSlice self.now start (end - start)) }
    {
        let Layout::FixedSizeList {
            elements,
            size,
            validity,
            ..
        } = self.layout()
        else {
            unreachable!();
        };
        elements.known_len();
        let width = *size as usize;
        let elements = elements.slice_within(alloc, start * width, end * width)?;
        let validity = match validity.slice_within(alloc, start, end) {
            Ok(validity) => validity,
            Err(error) => {
                drop(elements);
                return Err(error);
            }
        };
        let layout = Layout::FixedSizeList {
            elements,
            size: *size,
            validity,
            len: end - start,
        };
        self.with_parts(alloc, layout)
    }

    // The elements of the lists are selected.
    #[cycle(select)]
    pub(crate) fn select_fixed_lists(
        &self,
        alloc: Global,
        selection: &Selection,
    ) -> Result<ArrayRef, VortexError>
        requires layout { is_fixed_list self.now ≡ true }
        requires within { AreBelow (tree_len self.now) selection.now }
        requires countable { take_overflow self.now (length selection.now) ≡ None }
        ensures { Gives result (IsSelected self.now selection.now) }
    {
        let Layout::FixedSizeList {
            elements,
            size,
            validity,
            ..
        } = self.layout()
        else {
            unreachable!();
        };
        elements.known_len();
        let width = *size as usize;
        let len = selection.len();
        let picked = selection.lists(alloc, width)?;
        let elements = elements.select_within(alloc, &picked);
        drop(picked);
        let elements = elements?;
        let validity = match validity.select_within(alloc, selection) {
            Ok(validity) => validity,
            Err(error) => {
                drop(elements);
                return Err(error);
            }
        };
        let layout = Layout::FixedSizeList {
            elements,
            size: *size,
            validity,
            len,
        };
        self.with_parts(alloc, layout)
    }

    // The elements are default rows.
    pub(crate) fn null_fixed_lists(
        &self,
        alloc: Global,
        len: usize,
        nulls: &Validity,
    ) -> Result<ArrayRef, VortexError>
        requires layout { is_fixed_list self.now ≡ true }
        requires fits { ValidFits (valid_of nulls.now) len }
        requires none { (i : ℕ) → i < len → is_valid_at (valid_of nulls.now) i ≡ false }
        requires countable { take_overflow self.now len ≡ None }
        ensures { Gives result (IsNulls self.now len (valid_of nulls.now)) }
    {
        let Layout::FixedSizeList {
            elements,
            size,
            validity,
            ..
        } = self.layout()
        else {
            unreachable!();
        };
        let elements = elements.default_rows(alloc, len * *size as usize)?;
        match validity.nulls(alloc, len, nulls) {
            Ok(validity) => ArrayRef::fixed_size_list(alloc, elements, *size, validity, len),
            Err(error) => {
                drop(elements);
                Err(error)
            }
        }
    }

    // The list that row `i` is, `None` where it is null.
    #[cycle(value)]
    #[tactic(auto, using(crate::proofs::FixedLists::reads))]
    pub(crate) fn fixed_list_value(
        &self,
        alloc: Global,
        i: usize,
    ) -> Result<Option<ScalarValue>, VortexError>
        requires layout { is_fixed_list self.now ≡ true }
        requires in_bounds { i < tree_len self.now }
        ensures { Gives result (λ v. row_under (kind_of self.now) v ≡ row_at self.now i) }
    {
        let Layout::FixedSizeList {
            elements,
            size,
            validity,
            ..
        } = self.layout()
        else {
            unreachable!();
        };
        if !validity.is_valid_at(i) {
            return Ok(None);
        }
        elements.known_len();
        let width = *size as usize;
        let values = elements.values_within(alloc, i * width, width)?;
        let values = ScalarValues::from_vec(alloc, values)?;
        Ok(Some(ScalarValue::List(values)))
    }
}

// Lists of these elements, shared, under this validity.
pub(crate) fn fixed_lists_under(
    alloc: Global,
    elements: &ArrayRef,
    size: u32,
    validity: Validity,
    len: usize,
) -> Result<ArrayRef, VortexError>
    requires { WellFormed (fixed_list elements.now size (valid_of validity) len) }
    ensures { Gives result (λ a. a ≡ fixed_list elements.now size (valid_of validity) len) }
{
    match elements.try_clone(alloc) {
        Ok(elements) => ArrayRef::fixed_size_list(alloc, elements, size, validity, len),
        Err(error) => {
            drop(validity);
            Err(error)
        }
    }
}

// The data type of lists of so many of these elements.
pub(crate) fn fixed_lists_dtype(
    alloc: Global,
    elements: &ArrayRef,
    size: u32,
    nullability: Nullability,
) -> Result<DType, VortexError>
    ensures { Gives result (λ d. dtype_meaning d ≡ fixed_lists (kind_of elements.now) size (is_nullable nullability)) }
{
    let items = Rc::new(alloc, elements.dtype().try_clone(alloc)?)?;
    Ok(DType::FixedSizeList(items, size, nullability))
}
