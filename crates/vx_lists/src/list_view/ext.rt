// What a list view tells of its lists, its children and its parts.

ghost use Rattle.std.specs.Prelude.{◌≡◌, ◌<◌, ◌≤◌, ◌+◌, ◌^◌, Some, None, IfOk, IsOkUnless, if◌then◌else◌};
ghost use Rattle.std.specs.Prelude.{slice_range};
ghost use Rattle.vx_base.specs.DTypes.{dtype_meaning, is_nullable};
ghost use Rattle.vx_base.specs.Refusals.{Gives, Tests};
ghost use Rattle.vx_base.specs.Rows.{count_in, is_present, list_in};
ghost use Rattle.vx_base.specs.declared.errors.VortexError.TheVariants.{Memory};
ghost use Rattle.vx_tree.specs.Formed.{WellFormed};
ghost use Rattle.vx_tree.specs.Meaning.{tree_len, kind_of, nullable, row_at, rows};
ghost use Rattle.vx_tree.specs.Parts.{valid_of};
ghost use Rattle.vx_tree.specs.Shapes.{shape_of, sliced_shape};
ghost use Rattle.vx_tree.specs.Slots.{validity_slot};
ghost use Rattle.vx_tree.specs.Tree.{list_view};
ghost use Rattle.vx_lists.specs.ListViews.References.{MarksReferenced, BoundReferenced, bounds_fault};
ghost use Rattle.vx_lists.specs.ListViews.{elements_of, offsets_of, sizes_of, validity_of, flag_of};

use crate::list_view::array::ListViewArray;
use crate::list_view::counts::count_at;
use std::alloc::Global;
use std::rc::Rc;
use vx_base::{DType, Mask, Nullability, VortexError};
use vx_tree::{ArrayRef, TypedArray, Validity};

/// The children of a list view.
#[derive(Drop)]
pub struct ListViewSlots {
    /// The array that the lists lie in.
    pub elements: ArrayRef,
    /// Where each list starts among the elements.
    pub offsets: ArrayRef,
    /// How many elements each list has.
    pub sizes: ArrayRef,
    /// None where no row is null, a constant false where every row is, else the array that tells.
    pub validity: Option<ArrayRef>,
}

/// The parts of a list view.
#[derive(Drop)]
pub struct ListViewDataParts {
    /// What the elements are.
    pub elements_dtype: Rc<DType>,
    /// The array that the lists lie in.
    pub elements: ArrayRef,
    /// Where each list starts among the elements.
    pub offsets: ArrayRef,
    /// How many elements each list has.
    pub sizes: ArrayRef,
    /// Which rows are valid.
    pub validity: Validity,
}

/// What a list view tells of its lists.
pub trait ListViewArrayExt: TypedArray {
    /// Whether null may stand.
    fn nullability(&self) -> Nullability
        ensures { is_nullable result ≡ nullable (validity_of (Self.as_tree self.now)) };

    /// Which rows are valid, an array shared. Fails only for want of memory.
    fn listview_validity(&self, alloc: Global) -> Result<Validity, VortexError>
        ensures { Gives result (λ v. valid_of v ≡ validity_of (Self.as_tree self.now)) };

    /// Where list `i` starts; `offset_at(i) + size_at(i)`, where it ends, fits a `usize` and is at
    /// most the number of elements. Asks a row below the length.
    fn offset_at(&self, i: usize) -> usize
        requires { i < tree_len (Self.as_tree self.now) }
        ensures formed { WellFormed (Self.as_tree self.now) }
        ensures value { result ≡ count_in (row_at (offsets_of (Self.as_tree self.now)) i) }
        ensures within { result + count_in (row_at (sizes_of (Self.as_tree self.now)) i)
            ≤ tree_len (elements_of (Self.as_tree self.now)) }
        ensures short { result + count_in (row_at (sizes_of (Self.as_tree self.now)) i) < 2 ^ 64 };

    /// How many elements list `i` has. Asks a row below the length.
    fn size_at(&self, i: usize) -> usize
        requires { i < tree_len (Self.as_tree self.now) }
        ensures value { result ≡ count_in (row_at (sizes_of (Self.as_tree self.now)) i) }
        ensures within { count_in (row_at (offsets_of (Self.as_tree self.now)) i) + result
            ≤ tree_len (elements_of (Self.as_tree self.now)) }
        ensures short { count_in (row_at (offsets_of (Self.as_tree self.now)) i) + result < 2 ^ 64 };

    /// The elements of list `i`, also where the row is null. Where it is not, row `i` is the list
    /// of their rows. Asks a row below the length.
    fn list_elements_at(&self, alloc: Global, i: usize) -> Result<ArrayRef, VortexError>
        requires { i < tree_len (Self.as_tree self.now) }
        ensures list { let row = row_at (Self.as_tree self.now) i in IfOk result (λ a.
            list_in row ≡ (if is_present row then Some (rows a) else None)) }
        ensures rows { let start = count_in (row_at (offsets_of (Self.as_tree self.now)) i)
            in let end = start + count_in (row_at (sizes_of (Self.as_tree self.now)) i)
            in IfOk result (λ a.
            rows a ≡ slice_range (rows (elements_of (Self.as_tree self.now))) start end) }
        ensures kind { IfOk result (λ a. kind_of a ≡ kind_of (elements_of (Self.as_tree self.now))) }
        ensures shape { IfOk result (λ a.
            shape_of a ≡ sliced_shape (shape_of (elements_of (Self.as_tree self.now)))) }
        ensures err { IsOkUnless result Memory };

    /// Which elements lie in some list: a boolean for each, and those of null rows count. Of the
    /// lists `[1, 2]` and `[2]` that lie at 0 and 1 of the elements `1, 2, 3` it is true, true,
    /// false. Fails only for want of memory.
    fn compute_referenced_elements_mask(&self, alloc: Global) -> Result<Mask, VortexError>
        ensures { Gives result (MarksReferenced (Self.as_tree self.now)) };

    /// The range of elements that the lists lie in, from the least offset up to the greatest end:
    /// null rows and empty lists count. Of a flagged view these are the start of the first list and
    /// the end of the last. Refuses `EmptyInput` where there are no rows.
    fn referenced_element_bounds(&self) -> Result<(usize, usize), VortexError>
        ensures ok { IfOk result (λ bounds.
            BoundReferenced (Self.as_tree self.now) bounds.0 bounds.1) }
        ensures within { IfOk result (λ bounds.
            (bounds.0 ≤ bounds.1) × (bounds.1 ≤ tree_len (elements_of (Self.as_tree self.now)))) }
        ensures tests { Tests result (bounds_fault (Self.as_tree self.now)) };
}

impl ListViewArrayExt for ListViewArray {
    fn nullability(&self) -> Nullability {
        self.parts().validity.nullability()
    }

    fn listview_validity(&self, alloc: Global) -> Result<Validity, VortexError> {
        self.parts().validity.try_clone(alloc)
    }

    fn offset_at(&self, i: usize) -> usize {
        count_at(self.parts().offsets, i)
    }

    fn size_at(&self, i: usize) -> usize {
        count_at(self.parts().sizes, i)
    }

    fn list_elements_at(&self, alloc: Global, i: usize) -> Result<ArrayRef, VortexError> {
        let parts = self.parts();
        let start = count_at(parts.offsets, i);
        let end = start + count_at(parts.sizes, i);
        parts.elements.slice(alloc, start..end)
    }

    fn compute_referenced_elements_mask(&self, alloc: Global) -> Result<Mask, VortexError> {
        self.referenced_elements(alloc)
    }

    fn referenced_element_bounds(&self) -> Result<(usize, usize), VortexError> {
        self.element_bounds()
    }
}

impl ListViewArray {
    /// The children, shared. Fails only for want of memory.
    pub fn slots(&self, alloc: Global) -> Result<ListViewSlots, VortexError>
        ensures parts { Gives result (λ s.
            list_view s.elements s.offsets s.sizes (validity_of self.now) (flag_of self.now) ≡ self.now) }
        ensures validity { Gives result (λ s.
            s.validity ≡ validity_slot (validity_of self.now) (tree_len self.now)) }
    {
        let parts = self.parts();
        Ok(ListViewSlots {
            elements: parts.elements.try_clone(alloc)?,
            offsets: parts.offsets.try_clone(alloc)?,
            sizes: parts.sizes.try_clone(alloc)?,
            validity: parts.validity.to_slot(alloc, self.len())?,
        })
    }

    /// The parts, shared: the flag is told by `to_data`. Fails only for want of memory.
    pub fn into_data_parts(self, alloc: Global) -> Result<ListViewDataParts, VortexError>
        ensures parts { Gives result (λ p.
            list_view p.elements p.offsets p.sizes (valid_of p.validity) (flag_of self) ≡ self) }
        ensures dtype { Gives result (λ p.
            dtype_meaning p.elements_dtype.value ≡ kind_of (elements_of self)) }
    {
        let parts = self.parts();
        match self.dtype() {
            DType::List(items, _) => Ok(ListViewDataParts {
                elements_dtype: items.clone()?,
                elements: parts.elements.try_clone(alloc)?,
                offsets: parts.offsets.try_clone(alloc)?,
                sizes: parts.sizes.try_clone(alloc)?,
                validity: parts.validity.try_clone(alloc)?,
            }),
            DType::Bool(_) | DType::Primitive(_, _) | DType::Utf8(_) => unreachable!(),
            DType::Binary(_) | DType::FixedSizeList(_, _, _) => unreachable!(),
            DType::Struct(_, _) => unreachable!(),
        }
    }
}
