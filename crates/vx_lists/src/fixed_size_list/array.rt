// Lists of one size, one after another.

ghost use Rattle.std.specs.Prelude.{◌≡◌, ◌<◌, ◌^◌, ◌*◌, IfOk};
ghost use Rattle.vx_base.specs.Refusals.{Gives, Refuses};
ghost use Rattle.vx_tree.specs.Formed.{WellFormed};
ghost use Rattle.vx_tree.specs.Meaning.{tree_len};
ghost use Rattle.vx_tree.specs.Parts.{valid_of};
ghost use Rattle.vx_tree.specs.Tree.{fixed_list};
ghost use Rattle.vx_lists.specs.FixedSizeLists.{fixed_list_fault, is_fixed_list, list_size_of};
ghost use Rattle.vx_lists.specs.ListViews.{elements_of};

use crate::fixed_size_list::data::FixedSizeListData;
use std::alloc::Global;
use std::marker::Model;
use vx_base::VortexError;
use vx_tree::{ArrayRef, Layout, TypedArray, Validity};

/// A column of lists of one size: row `i` is the list of the elements from `i` times the size up to
/// `i + 1` times the size, or null. Null rows have elements too.
#[derive(Drop)]
pub struct FixedSizeListArray {
    array: ArrayRef,
}

impl Model for FixedSizeListArray {
    ghost use Rattle.std.specs.Prelude.{◌≡◌, true};
    ghost use Rattle.vx_tree.specs.Tree.{Tree, tree_code};
    ghost use Rattle.vx_lists.specs.FixedSizeLists.{is_fixed_list};

    ghost Value = { Tree };

    ghost coded = { tree_code };

    ghost view = { λ a. a.array };

    ghost invariant = { λ a. is_fixed_list a.array ≡ true };
}

// The parts of lists of one size, lent.
#[derive(Drop)]
pub(crate) struct FixedSizeListParts<'a> {
    pub elements: &'a ArrayRef,
    pub list_size: u32,
    pub validity: &'a Validity,
    pub len: usize,
    // How many elements there are.
    pub count: usize,
}

impl TypedArray for FixedSizeListArray {
    ghost as_tree = { λ a. a };

    ghost has_layout = { is_fixed_list };

    fn is_layout(layout: &Layout) -> bool {
        matches!(layout, Layout::FixedSizeList { .. })
    }

    fn from_array(array: ArrayRef) -> Self {
        FixedSizeListArray { array }
    }

    fn as_array(&self) -> &ArrayRef {
        &self.array
    }

    fn into_array(self) -> ArrayRef {
        let FixedSizeListArray { array } = self;
        array
    }
}

impl FixedSizeListArray {
    /// Lists of these parts: of size 2 the elements 1, 2, 3, 4 are the lists `[1, 2]`, `[3, 4]`.
    /// Asks what `try_new` tests. Fails only for want of memory.
    pub fn new(
        alloc: Global,
        elements: ArrayRef,
        list_size: u32,
        validity: Validity,
        len: usize,
    ) -> Result<FixedSizeListArray, VortexError>
        requires { WellFormed (fixed_list elements list_size (valid_of validity) len) }
        ensures { Gives result (λ a. a ≡ fixed_list elements list_size (valid_of validity) len) }
    {
        let array = ArrayRef::fixed_size_list(alloc, elements, list_size, validity, len)?;
        Ok(FixedSizeListArray { array })
    }

    /// Lists of these parts. Lists of size 0 have no elements, and there may be any number of them.
    /// Refuses `MismatchedTypes` where the validity is an array but not of plain booleans;
    /// `LengthMismatch` where it has not `len` rows; `DegenerateElements` where the size is 0 and
    /// there are elements; of another size `Overflow` where `len` times it passes every `usize`,
    /// then `LengthMismatch` where there are not so many elements.
    pub fn try_new(
        alloc: Global,
        elements: ArrayRef,
        list_size: u32,
        validity: Validity,
        len: usize,
    ) -> Result<FixedSizeListArray, VortexError>
        ensures parts { IfOk result (λ a.
            a ≡ fixed_list elements list_size (valid_of validity) len) }
        ensures refuses { Refuses result
            (fixed_list_fault elements list_size (valid_of validity) len) }
    {
        FixedSizeListData::validate(&elements, len, list_size, &validity)?;
        FixedSizeListArray::new(alloc, elements, list_size, validity, len)
    }

    // The parts, which are well formed, with fewer elements than a usize can count.
    pub(crate) fn parts(&self) -> FixedSizeListParts<'_>
        ensures same { self.now ≡ fixed_list result.elements.now result.list_size
            (valid_of result.validity.now) result.len }
        ensures formed { WellFormed (fixed_list result.elements.now result.list_size
            (valid_of result.validity.now) result.len) }
        ensures count { result.count ≡ tree_len result.elements.now }
        ensures short { tree_len result.elements.now < 2 ^ 64 }
    {
        match self.array.layout() {
            Layout::FixedSizeList {
                elements,
                size,
                validity,
                len,
            } => FixedSizeListParts {
                elements,
                list_size: *size,
                validity,
                len: *len,
                count: elements.len(),
            },
            _ => unreachable!(),
        }
    }

    /// The elements of the lists, one list after another.
    pub fn elements(&self) -> &ArrayRef
        ensures value { result.now ≡ elements_of self.now }
        ensures len { tree_len result.now ≡ tree_len self.now * list_size_of self.now }
    {
        self.parts().elements
    }
}
