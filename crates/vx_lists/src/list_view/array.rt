// Lists that lie anywhere among shared elements.

ghost use Rattle.std.specs.Prelude.{◌≡◌, ◌↔◌, ◌<◌, ◌^◌, true, false, IfOk, IsTrue};
ghost use Rattle.vx_base.specs.Refusals.{Gives, Refuses};
ghost use Rattle.vx_tree.specs.Formed.{WellFormed, IsConsecutive, IsCounts};
ghost use Rattle.vx_tree.specs.Meaning.{tree_len};
ghost use Rattle.vx_tree.specs.Parts.{valid_of};
ghost use Rattle.vx_tree.specs.Tree.{list_view};
ghost use Rattle.vx_lists.specs.ListViews.Faults.{list_view_fault};
ghost use Rattle.vx_lists.specs.ListViews.{is_list_view, elements_of, offsets_of, sizes_of, flag_of, with_flag};

use crate::list_view::counts::{are_repeated, count_at, number_bytes};
use crate::list_view::data::ListViewData;
use crate::list_view::number_rows::are_number_rows_consecutive;
use std::alloc::Global;
use std::marker::Model;
use vx_base::VortexError;
use vx_tree::{ArrayRef, Layout, TypedArray, Validity};

/// A column of lists: row `i` is the list of `size_at(i)` elements from `offset_at(i)` on, or null.
/// Lists may overlap, and elements may be in none. A set flag says that each list, null rows
/// counted, ends where the next one starts.
#[derive(Drop)]
pub struct ListViewArray {
    array: ArrayRef,
}

impl Model for ListViewArray {
    ghost use Rattle.std.specs.Prelude.{◌≡◌, true};
    ghost use Rattle.vx_tree.specs.Tree.{Tree, tree_code};
    ghost use Rattle.vx_lists.specs.ListViews.{is_list_view};

    ghost Value = { Tree };

    ghost coded = { tree_code };

    ghost view = { λ a. a.array };

    ghost invariant = { λ a. is_list_view a.array ≡ true };
}

// The parts of a list view, lent.
#[derive(Drop)]
pub(crate) struct ListViewParts<'a> {
    pub elements: &'a ArrayRef,
    pub offsets: &'a ArrayRef,
    pub sizes: &'a ArrayRef,
    pub validity: &'a Validity,
    pub flag: bool,
    // How many elements there are.
    pub count: usize,
}

impl TypedArray for ListViewArray {
    ghost as_tree = { λ a. a };

    ghost has_layout = { is_list_view };

    fn is_layout(layout: &Layout) -> bool {
        matches!(layout, Layout::ListView { .. })
    }

    fn from_array(array: ArrayRef) -> Self {
        ListViewArray { array }
    }

    fn as_array(&self) -> &ArrayRef {
        &self.array
    }

    fn into_array(self) -> ArrayRef {
        let ListViewArray { array } = self;
        array
    }
}

impl ListViewArray {
    /// A list view of these parts: the offsets 2, 0, 1 and sizes 2, 1, 2 over the elements 1, 2, 3,
    /// 4 are the lists `[3, 4]`, `[1]`, `[2, 3]`. Asks what `try_new` tests. The flag is not set.
    /// Fails only for want of memory.
    pub fn new(
        alloc: Global,
        elements: ArrayRef,
        offsets: ArrayRef,
        sizes: ArrayRef,
        validity: Validity,
    ) -> Result<ListViewArray, VortexError>
        requires { WellFormed (list_view elements offsets sizes (valid_of validity) false) }
        ensures { Gives result (λ a. a ≡ list_view elements offsets sizes (valid_of validity) false) }
    {
        let array = ArrayRef::list_view(alloc, elements, offsets, sizes, validity, false)?;
        Ok(ListViewArray { array })
    }

    /// A list view of these parts. The flag is not set. Refuses `MismatchedTypes` where offsets or
    /// sizes are not of a non-nullable integer type or the validity is an array but not of plain
    /// booleans; `LengthMismatch` where the sizes, then the validity are not as long as the
    /// offsets; then at the first faulty row `Negative`, `Overflow` where its end passes every
    /// `usize`, or `OutOfBounds` with its end where that passes the elements. Null rows are tested
    /// too.
    pub fn try_new(
        alloc: Global,
        elements: ArrayRef,
        offsets: ArrayRef,
        sizes: ArrayRef,
        validity: Validity,
    ) -> Result<ListViewArray, VortexError>
        ensures parts { IfOk result (λ a.
            a ≡ list_view elements offsets sizes (valid_of validity) false) }
        ensures refuses { Refuses result
            (list_view_fault elements offsets sizes (valid_of validity)) }
    {
        ListViewData::validate(&elements, &offsets, &sizes, &validity)?;
        ListViewArray::new(alloc, elements, offsets, sizes, validity)
    }

    /// The same list view with the flag as given. Asks that each list, null rows counted, ends
    /// where the next one starts, where the flag is set: `is_consecutive` tells that. Fails only
    /// for want of memory.
    pub fn with_zero_copy_to_list(
        self,
        alloc: Global,
        flag: bool,
    ) -> Result<ListViewArray, VortexError>
        requires { IsTrue flag → IsConsecutive (offsets_of self) (sizes_of self) }
        ensures { Gives result (λ a. a ≡ with_flag flag self) }
    {
        self.with_flag(alloc, flag)
    }

    // The same parts under this flag.
    pub(crate) fn with_flag(&self, alloc: Global, flag: bool) -> Result<ListViewArray, VortexError>
        requires { IsTrue flag → IsConsecutive (offsets_of self.now) (sizes_of self.now) }
        ensures { Gives result (λ a. a ≡ with_flag flag self.now) }
    {
        let parts = self.parts();
        let elements = parts.elements.try_clone(alloc)?;
        let offsets = parts.offsets.try_clone(alloc)?;
        let sizes = parts.sizes.try_clone(alloc)?;
        let validity = parts.validity.try_clone(alloc)?;
        let array = ArrayRef::list_view(alloc, elements, offsets, sizes, validity, flag)?;
        Ok(ListViewArray { array })
    }

    // The parts, which are well formed, with fewer elements than a usize can count.
    pub(crate) fn parts(&self) -> ListViewParts<'_>
        ensures same { self.now ≡ list_view result.elements.now result.offsets.now
            result.sizes.now (valid_of result.validity.now) result.flag }
        ensures formed { WellFormed (list_view result.elements.now result.offsets.now
            result.sizes.now (valid_of result.validity.now) result.flag) }
        ensures count { result.count ≡ tree_len result.elements.now }
        ensures short { tree_len result.elements.now < 2 ^ 64 }
    {
        match self.array.layout() {
            Layout::ListView {
                elements,
                offsets,
                sizes,
                validity,
                flag,
            } => ListViewParts {
                elements,
                offsets,
                sizes,
                validity,
                flag: *flag,
                count: elements.len(),
            },
            _ => unreachable!(),
        }
    }

    /// The array that the lists lie in.
    pub fn elements(&self) -> &ArrayRef
        ensures { result.now ≡ elements_of self.now }
    {
        self.parts().elements
    }

    /// Where each list starts among the elements: where the flag is set, each but the first where
    /// the list before it ends.
    pub fn offsets(&self) -> &ArrayRef
        ensures formed { WellFormed self.now }
        ensures value { result.now ≡ offsets_of self.now }
        ensures counts { IsCounts result.now }
        ensures len { tree_len result.now ≡ tree_len self.now }
        ensures consecutive { flag_of self.now ≡ true → IsConsecutive (offsets_of self.now) (sizes_of self.now) }
    {
        self.parts().offsets
    }

    /// How many elements each list has.
    pub fn sizes(&self) -> &ArrayRef
        ensures value { result.now ≡ sizes_of self.now }
        ensures counts { IsCounts result.now }
        ensures len { tree_len result.now ≡ tree_len self.now }
    {
        self.parts().sizes
    }

    /// Whether it is known that each list, null rows counted, ends where the next one starts.
    pub fn is_zero_copy_to_list(&self) -> bool
        ensures value { result ≡ flag_of self.now }
        ensures consecutive { IsTrue result → IsConsecutive (offsets_of self.now) (sizes_of self.now) }
    {
        self.parts().flag
    }

    /// Whether each list, null rows counted, ends where the next one starts: what a set flag says.
    pub fn is_consecutive(&self) -> bool
        ensures { IsTrue result ↔ IsConsecutive (offsets_of self.now) (sizes_of self.now) }
    {
        let parts = self.parts();
        if let (Some((offset_type, offsets)), Some((size_type, sizes))) = (
            number_bytes(parts.offsets),
            number_bytes(parts.sizes),
        ) {
            return are_number_rows_consecutive(offset_type, offsets, size_type, sizes);
        }
        if are_repeated(parts.offsets, parts.sizes) {
            return self.len() == 1 || count_at(parts.sizes, 0) == 0;
        }
        for i in 1..parts.offsets.len() {
            let end = count_at(parts.offsets, i - 1) + count_at(parts.sizes, i - 1);
            if end != count_at(parts.offsets, i) {
                return false;
            }
        }
        true
    }
}
