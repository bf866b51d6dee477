// What a list view has beside its children, and the test of these.

ghost use Rattle.std.specs.Prelude.{◌≡◌, Some, true, false, IfOk, IsOkAnd};
ghost use Rattle.vx_base.specs.Refusals.{Gives, Tests};
ghost use Rattle.vx_tree.specs.Formed.{WellFormed};
ghost use Rattle.vx_tree.specs.Parts.{valid_of};
ghost use Rattle.vx_tree.specs.Tree.{list_view};
ghost use Rattle.vx_lists.specs.ListViews.Faults.{list_view_fault};
ghost use Rattle.vx_lists.specs.ListViews.{flag_of, flag_text};

use crate::list_view::array::ListViewArray;
use crate::list_view::checks::check_list_view;
use std::alloc::Global;
use std::fmt;
use std::marker::Model;
use vx_base::VortexError;
use vx_tree::{ArrayRef, Validity};

/// What a list view has beside its children: whether it is known that each list, null rows
/// counted, ends where the next one starts.
#[derive(Clone, Debug, Drop)]
pub struct ListViewData {
    is_zero_copy_to_list: bool,
}

impl Model for ListViewData {
    ghost use Rattle.std.specs.Prelude.{Bool};

    ghost Value = { Bool };

    ghost view = { λ d. d.is_zero_copy_to_list };
}

impl ListViewData {
    /// The data of a new list view: of no lists it is known that they are consecutive.
    pub fn new() -> ListViewData
        ensures { result ≡ false }
    {
        ListViewData {
            is_zero_copy_to_list: false,
        }
    }

    /// The data that `new` gives: it never fails.
    pub fn try_new() -> Result<ListViewData, VortexError>
        ensures { IsOkAnd result (λ d. d ≡ false) }
    {
        Ok(ListViewData::new())
    }

    /// Whether `ListViewArray::try_new` takes these parts, and so `new`: it refuses as `try_new`
    /// does, and takes no memory.
    pub fn validate(
        elements: &ArrayRef,
        offsets: &ArrayRef,
        sizes: &ArrayRef,
        validity: &Validity,
    ) -> Result<(), VortexError>
        ensures formed { let v = valid_of validity.now in
            IfOk result (λ _. WellFormed (list_view elements.now offsets.now sizes.now v false)) }
        ensures tests { Tests result (list_view_fault elements.now offsets.now sizes.now (valid_of validity.now)) }
    {
        check_list_view(elements, offsets, sizes, validity)
    }

    /// Whether it is known that each list, null rows counted, ends where the next one starts.
    pub fn is_zero_copy_to_list(&self) -> bool
        ensures { result ≡ self.now }
    {
        self.is_zero_copy_to_list
    }
}

impl Default for ListViewData {
    ghost is_default = { λ d. d ≡ false };

    fn default() -> ListViewData {
        ListViewData::new()
    }
}

impl fmt::Display for ListViewData {
    ghost output = { λ d. Some (flag_text d) };

    fn fmt<W: fmt::Write>(&self, f: &mut fmt::Formatter<W>) -> fmt::Result {
        f.write_str(if self.is_zero_copy_to_list {
            "is_zero_copy_to_list: true"
        } else {
            "is_zero_copy_to_list: false"
        })
    }
}

impl ListViewArray {
    /// What the array has beside its children. Fails only for want of memory.
    pub fn to_data(&self, _alloc: Global) -> Result<ListViewData, VortexError>
        ensures { Gives result (λ d. d ≡ flag_of self.now) }
    {
        Ok(ListViewData {
            is_zero_copy_to_list: self.is_zero_copy_to_list(),
        })
    }
}
