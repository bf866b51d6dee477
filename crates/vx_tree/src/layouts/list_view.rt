// Lists that lie anywhere among shared elements.

ghost use Rattle.std.specs.Prelude.{◌≡◌, ◌<◌, ◌≤◌, ◌-◌, ℕ, true, false};
ghost use Rattle.vx_base.specs.DTypes.{dtype_meaning, is_nullable};
ghost use Rattle.vx_base.specs.Kinds.{lists};
ghost use Rattle.vx_base.specs.Refusals.{Gives};
ghost use Rattle.vx_base.specs.Rows.{count_in};
ghost use Rattle.vx_base.specs.ValueRows.{row_under};
ghost use Rattle.vx_tree.specs.Tree.{list_view};
ghost use Rattle.vx_tree.specs.Layouts.{is_list_view};
ghost use Rattle.vx_tree.specs.Meaning.{tree_len, kind_of, row_at, is_valid_at};
ghost use Rattle.vx_tree.specs.Formed.{ValidFits, IsCounts, WellFormed};
ghost use Rattle.vx_tree.specs.Parts.{valid_of};
ghost use Rattle.vx_tree.specs.Operations.{IsSlice, IsSelected, IsNulls, AreBelow};

use crate::array::{ArrayRef, Layout, Validity};
use crate::indices::to_position;
use std::alloc::Global;
use std::rc::Rc;
use vx_base::{DType, Nullability, ScalarValue, ScalarValues, Selection, VortexError, int_at};

impl ArrayRef {
    /// Lists, null where the validity is false. Asks that offsets and sizes are counts, as many of
    /// one as of the other and of the validity, that each list ends within the elements, and that
    /// a set flag holds.
    pub fn list_view(
        alloc: Global,
        elements: ArrayRef,
        offsets: ArrayRef,
        sizes: ArrayRef,
        validity: Validity,
        flag: bool,
    ) -> Result<ArrayRef, VortexError>
        requires { WellFormed (list_view elements offsets sizes (valid_of validity) flag) }
        ensures { Gives result (λ a. a ≡ list_view elements offsets sizes (valid_of validity) flag) }
    {
        ArrayRef::from_parts(
            alloc,
            Layout::ListView {
                elements,
                offsets,
                sizes,
                validity,
                flag,
            },
        )
    }

    #[cycle(slice)]
    #[tactic(auto, using(crate::specs::Formed::valid_reads))]
    pub(crate) fn slice_list_view(
        &self,
        alloc: Global,
        start: usize,
        end: usize,
    ) -> Result<ArrayRef, VortexError>
        requires layout { is_list_view self.now ≡ true }
        requires start_le_end { start ≤ end }
        requires in_bounds { end ≤ tree_len self.now }
        ensures { Gives result (IsSlice self.now start (end - start)) }
    {
        let Layout::ListView {
            elements,
            offsets,
            sizes,
            validity,
            flag,
        } = self.layout()
        else {
            unreachable!();
        };
        let elements = elements.try_clone(alloc)?;
        let offsets = offsets.slice_within(alloc, start, end)?;
        let sizes = match sizes.slice_within(alloc, start, end) {
            Ok(sizes) => sizes,
            Err(error) => {
                drop(elements);
                drop(offsets);
                return Err(error);
            }
        };
        let validity = match validity.slice_within(alloc, start, end) {
            Ok(validity) => validity,
            Err(error) => {
                drop(elements);
                drop(offsets);
                drop(sizes);
                return Err(error);
            }
        };
        let layout = Layout::ListView {
            elements,
            offsets,
            sizes,
            validity,
            flag: *flag,
        };
        self.with_parts(alloc, layout)
    }

    #[cycle(select)]
    #[tactic(auto, using(crate::proofs::Selected::counts_can_be_selected))]
    pub(crate) fn select_list_view(
        &self,
        alloc: Global,
        selection: &Selection,
    ) -> Result<ArrayRef, VortexError>
        requires layout { is_list_view self.now ≡ true }
        requires within { AreBelow (tree_len self.now) selection.now }
        ensures { Gives result (IsSelected self.now selection.now) }
    {
        let Layout::ListView {
            elements,
            offsets,
            sizes,
            validity,
            ..
        } = self.layout()
        else {
            unreachable!();
        };
        let elements = elements.try_clone(alloc)?;
        let offsets = offsets.select_within(alloc, selection)?;
        let sizes = match sizes.select_within(alloc, selection) {
            Ok(sizes) => sizes,
            Err(error) => {
                drop(elements);
                drop(offsets);
                return Err(error);
            }
        };
        let validity = match validity.select_within(alloc, selection) {
            Ok(validity) => validity,
            Err(error) => {
                drop(elements);
                drop(offsets);
                drop(sizes);
                return Err(error);
            }
        };
        let layout = Layout::ListView {
            elements,
            offsets,
            sizes,
            validity,
            flag: false,
        };
        self.with_parts(alloc, layout)
    }

    // Each list is empty; offsets and sizes are constants.
    pub(crate) fn null_lists(
        &self,
        alloc: Global,
        len: usize,
        nulls: &Validity,
    ) -> Result<ArrayRef, VortexError>
        requires layout { is_list_view self.now ≡ true }
        requires fits { ValidFits (valid_of nulls.now) len }
        requires none { (i : ℕ) → i < len → is_valid_at (valid_of nulls.now) i ≡ false }
        ensures { Gives result (IsNulls self.now len (valid_of nulls.now)) }
    {
        let Layout::ListView {
            elements,
            offsets,
            sizes,
            validity,
            ..
        } = self.layout()
        else {
            unreachable!();
        };
        let elements = elements.try_clone(alloc)?;
        let offsets = match offsets.default_rows(alloc, len) {
            Ok(offsets) => offsets,
            Err(error) => {
                drop(elements);
                return Err(error);
            }
        };
        let sizes = match sizes.default_rows(alloc, len) {
            Ok(sizes) => sizes,
            Err(error) => {
                drop(elements);
                drop(offsets);
                return Err(error);
            }
        };
        match validity.nulls(alloc, len, nulls) {
            Ok(validity) => ArrayRef::list_view(alloc, elements, offsets, sizes, validity, false),
            Err(error) => {
                drop(elements);
                drop(offsets);
                drop(sizes);
                Err(error)
            }
        }
    }

    // The list that row `i` is, `None` where it is null.
    #[cycle(value)]
    #[tactic(auto, using(crate::specs::Formed::valid_reads))]
    pub(crate) fn list_value(
        &self,
        alloc: Global,
        i: usize,
    ) -> Result<Option<ScalarValue>, VortexError>
        requires layout { is_list_view self.now ≡ true }
        requires in_bounds { i < tree_len self.now }
        ensures { Gives result (λ v. row_under (kind_of self.now) v ≡ row_at self.now i) }
    {
        let Layout::ListView {
            elements,
            offsets,
            sizes,
            validity,
            ..
        } = self.layout()
        else {
            unreachable!();
        };
        if !validity.is_valid_at(i) {
            return Ok(None);
        }
        let values = elements.values_within(alloc, offsets.count_at(i), sizes.count_at(i))?;
        let values = ScalarValues::from_vec(alloc, values)?;
        Ok(Some(ScalarValue::List(values)))
    }

    // The count that row `i` is.
    pub(crate) fn count_at(&self, i: usize) -> usize
        requires counts { IsCounts self.now }
        requires in_bounds { i < tree_len self.now }
        ensures { result ≡ count_in (row_at self.now i) }
    {
        match self.int_at(i) {
            Some(number) => to_position(number),
            None => unreachable!(),
        }
    }
}

// Lists of these parts, shared, under this validity.
pub(crate) fn lists_under(
    alloc: Global,
    elements: &ArrayRef,
    offsets: &ArrayRef,
    sizes: &ArrayRef,
    validity: Validity,
    flag: bool,
) -> Result<ArrayRef, VortexError>
    requires { WellFormed (list_view elements.now offsets.now sizes.now (valid_of validity) flag) }
    ensures { Gives result (λ a. a ≡ list_view elements.now offsets.now sizes.now (valid_of validity) flag) }
{
    let elements = match elements.try_clone(alloc) {
        Ok(elements) => elements,
        Err(error) => {
            drop(validity);
            return Err(error);
        }
    };
    let offsets = match offsets.try_clone(alloc) {
        Ok(offsets) => offsets,
        Err(error) => {
            drop(elements);
            drop(validity);
            return Err(error);
        }
    };
    match sizes.try_clone(alloc) {
        Ok(sizes) => ArrayRef::list_view(alloc, elements, offsets, sizes, validity, flag),
        Err(error) => {
            drop(offsets);
            drop(elements);
            drop(validity);
            Err(error)
        }
    }
}

// The data type of lists of these elements.
pub(crate) fn lists_dtype(
    alloc: Global,
    elements: &ArrayRef,
    nullability: Nullability,
) -> Result<DType, VortexError>
    ensures { Gives result (λ d. dtype_meaning d ≡ lists (kind_of elements.now) (is_nullable nullability)) }
{
    let items = Rc::new(alloc, elements.dtype().try_clone(alloc)?)?;
    Ok(DType::List(items, nullability))
}
