// What an array of texts or byte lists tells of its data type, its validity and its parts.

ghost use Rattle.std.specs.Prelude.{◌≡◌};
ghost use Rattle.vx_base.specs.DTypes.{dtype_meaning, is_nullable};
ghost use Rattle.vx_base.specs.Refusals.{Gives};
ghost use Rattle.vx_tree.specs.Meaning.{tree_len, kind_of, is_texts, nullable};
ghost use Rattle.vx_tree.specs.Parts.{valid_of};
ghost use Rattle.vx_tree.specs.Slots.{validity_slot};
ghost use Rattle.vx_tree.specs.Tree.{view_array};
ghost use Rattle.vx_text.specs.Texts.{validity_of};

use crate::var_bin_view::VarBinViewArray;
use crate::view_parts::is_utf8;
use std::alloc::Global;
use vx_base::{Buffer, ByteBuffer, DType, Nullability, VortexError, share_buffers};
use vx_tree::{ArrayRef, TypedArray, Validity};
use vx_views::BinaryView;

/// The children of an array of views.
#[derive(Drop)]
pub struct VarBinViewSlots {
    /// None where no row is null by the state alone, a constant false where every row is, else the
    /// array that tells.
    pub validity: Option<ArrayRef>,
}

/// The parts of an array of views.
#[derive(Drop)]
pub struct VarBinViewDataParts {
    /// What the rows are.
    pub dtype: DType,
    /// The buffers that the views refer to.
    pub buffers: Vec<ByteBuffer>,
    /// The views, one a row.
    pub views: Buffer<BinaryView>,
    /// Which rows are valid.
    pub validity: Validity,
}

/// What an array of views tells of its data type and its validity.
pub trait VarBinViewArrayExt: TypedArray {
    /// Whether the rows are texts (else byte lists), and whether null may stand.
    fn dtype_parts(&self) -> (bool, Nullability)
        ensures utf8 { result.0 ≡ is_texts (kind_of (Self.as_tree self.now)) }
        ensures nullability { is_nullable result.1 ≡ nullable (validity_of (Self.as_tree self.now)) };

    /// Which rows are valid, an array shared. Fails only for want of memory.
    fn varbinview_validity(&self, alloc: Global) -> Result<Validity, VortexError>
        ensures { Gives result (λ v. valid_of v ≡ validity_of (Self.as_tree self.now)) };
}

impl VarBinViewArrayExt for VarBinViewArray {
    fn dtype_parts(&self) -> (bool, Nullability) {
        let parts = self.parts();
        (is_utf8(parts.dtype), parts.validity.nullability())
    }

    fn varbinview_validity(&self, alloc: Global) -> Result<Validity, VortexError> {
        self.parts().validity.try_clone(alloc)
    }
}

impl VarBinViewArray {
    /// The children. Fails only for want of memory.
    pub fn slots(&self, alloc: Global) -> Result<VarBinViewSlots, VortexError>
        ensures { Gives result (λ s. s.validity
            ≡ validity_slot (validity_of self.now) (tree_len self.now)) }
    {
        let validity = self.parts().validity.to_slot(alloc, self.len())?;
        Ok(VarBinViewSlots { validity })
    }

    /// The parts, shared. Fails only for want of memory.
    pub fn into_data_parts(self, alloc: Global) -> Result<VarBinViewDataParts, VortexError>
        ensures { Gives result (λ p.
            view_array p.views p.buffers.items (dtype_meaning p.dtype) (valid_of p.validity) ≡ self) }
    {
        let parts = self.parts();
        Ok(VarBinViewDataParts {
            dtype: parts.dtype.try_clone(alloc)?,
            buffers: share_buffers(alloc, parts.buffers)?,
            views: parts.views.try_clone(alloc)?,
            validity: parts.validity.try_clone(alloc)?,
        })
    }
}
