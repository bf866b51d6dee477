// What lists of one size tell of their elements, their children and their parts.

ghost use Rattle.std.specs.Prelude.{◌≡◌, ◌<◌, ◌+◌, ◌*◌, Some, None, IfOk, IsOkUnless, if◌then◌else◌};
ghost use Rattle.std.specs.Prelude.{slice_range};
ghost use Rattle.vx_base.specs.DTypes.{dtype_meaning, is_nullable};
ghost use Rattle.vx_base.specs.Refusals.{Gives};
ghost use Rattle.vx_base.specs.Rows.{is_present, list_in};
ghost use Rattle.vx_base.specs.declared.errors.VortexError.TheVariants.{Memory};
ghost use Rattle.vx_tree.specs.Meaning.{tree_len, kind_of, nullable, row_at, rows};
ghost use Rattle.vx_tree.specs.Parts.{valid_of};
ghost use Rattle.vx_tree.specs.Shapes.{shape_of, sliced_shape};
ghost use Rattle.vx_tree.specs.Slots.{validity_slot};
ghost use Rattle.vx_tree.specs.Tree.{fixed_list};
ghost use Rattle.vx_lists.specs.FixedSizeLists.{list_size_of};
ghost use Rattle.vx_lists.specs.ListViews.{elements_of, validity_of};

use crate::fixed_size_list::array::FixedSizeListArray;
use std::alloc::Global;
use vx_base::{DType, Nullability, VortexError};
use vx_tree::{ArrayRef, TypedArray, Validity};

/// The children of lists of one size.
#[derive(Drop)]
pub struct FixedSizeListSlots {
    /// The elements of the lists, one list after another.
    pub elements: ArrayRef,
    /// None where no row is null, a constant false where every row is, else the array that tells.
    pub validity: Option<ArrayRef>,
}

/// The parts of lists of one size.
#[derive(Drop)]
pub struct FixedSizeListDataParts {
    /// The elements of the lists, one list after another.
    pub elements: ArrayRef,
    /// Which rows are valid.
    pub validity: Validity,
    /// What the rows are, which tells the size.
    pub dtype: DType,
}

/// What lists of one size tell of their elements.
pub trait FixedSizeListArrayExt: TypedArray {
    /// What the elements are, how many of them each list has, and whether null may stand among the
    /// lists.
    fn dtype_parts(&self) -> (&DType, u32, Nullability)
        ensures elements { dtype_meaning result.0.now ≡ kind_of (elements_of (Self.as_tree self.now)) }
        ensures size { result.1 ≡ list_size_of (Self.as_tree self.now) }
        ensures nullability { is_nullable result.2 ≡ nullable (validity_of (Self.as_tree self.now)) };

    /// How many elements each list has.
    fn list_size(&self) -> u32
        ensures { result ≡ list_size_of (Self.as_tree self.now) };

    /// Which rows are valid, an array shared. Fails only for want of memory.
    fn fixed_size_list_validity(&self, alloc: Global) -> Result<Validity, VortexError>
        ensures { Gives result (λ v. valid_of v ≡ validity_of (Self.as_tree self.now)) };

    /// The elements of list `i`, also where the row is null. Where it is not, row `i` is the list
    /// of their rows. Asks a row below the length.
    fn fixed_size_list_elements_at(&self, alloc: Global, i: usize) -> Result<ArrayRef, VortexError>
        requires { i < tree_len (Self.as_tree self.now) }
        ensures list { let row = row_at (Self.as_tree self.now) i in IfOk result (λ a.
            list_in row ≡ (if is_present row then Some (rows a) else None)) }
        ensures rows { let size = list_size_of (Self.as_tree self.now) in IfOk result (λ a.
            rows a ≡ slice_range (rows (elements_of (Self.as_tree self.now))) (i * size) ((i + 1) * size)) }
        ensures len { IfOk result (λ a. tree_len a ≡ list_size_of (Self.as_tree self.now)) }
        ensures kind { IfOk result (λ a. kind_of a ≡ kind_of (elements_of (Self.as_tree self.now))) }
        ensures shape { IfOk result (λ a.
            shape_of a ≡ sliced_shape (shape_of (elements_of (Self.as_tree self.now)))) }
        ensures err { IsOkUnless result Memory };
}

impl FixedSizeListArrayExt for FixedSizeListArray {
    fn dtype_parts(&self) -> (&DType, u32, Nullability) {
        let parts = self.parts();
        let nullability = parts.validity.nullability();
        (parts.elements.dtype(), parts.list_size, nullability)
    }

    fn list_size(&self) -> u32 {
        self.parts().list_size
    }

    fn fixed_size_list_validity(&self, alloc: Global) -> Result<Validity, VortexError> {
        self.parts().validity.try_clone(alloc)
    }

    fn fixed_size_list_elements_at(
        &self,
        alloc: Global,
        i: usize,
    ) -> Result<ArrayRef, VortexError> {
        let parts = self.parts();
        let size = parts.list_size as usize;
        let start = i * size;
        parts.elements.slice(alloc, start..start + size)
    }
}

impl FixedSizeListArray {
    /// The children, shared. Fails only for want of memory.
    pub fn slots(&self, alloc: Global) -> Result<FixedSizeListSlots, VortexError>
        ensures parts { Gives result (λ s. fixed_list s.elements (list_size_of self.now)
            (validity_of self.now) (tree_len self.now) ≡ self.now) }
        ensures validity { Gives result (λ s.
            s.validity ≡ validity_slot (validity_of self.now) (tree_len self.now)) }
    {
        let parts = self.parts();
        Ok(FixedSizeListSlots {
            elements: parts.elements.try_clone(alloc)?,
            validity: parts.validity.to_slot(alloc, parts.len)?,
        })
    }

    /// The parts, shared: the size is told by the data type, the number of lists of size 0 by
    /// `to_data`. Fails only for want of memory.
    pub fn into_data_parts(self, alloc: Global) -> Result<FixedSizeListDataParts, VortexError>
        ensures parts { Gives result (λ p. fixed_list p.elements (list_size_of self)
            (valid_of p.validity) (tree_len self) ≡ self) }
        ensures dtype { Gives result (λ p. dtype_meaning p.dtype ≡ kind_of self) }
    {
        let parts = self.parts();
        Ok(FixedSizeListDataParts {
            elements: parts.elements.try_clone(alloc)?,
            validity: parts.validity.try_clone(alloc)?,
            dtype: self.dtype().try_clone(alloc)?,
        })
    }
}
