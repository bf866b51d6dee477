// Texts and byte lists, each by its view.

ghost use Rattle.std.specs.Prelude.{◌≡◌, length, true, IfOk};
ghost use Rattle.vx_base.specs.DTypes.{dtype_meaning};
ghost use Rattle.vx_base.specs.Refusals.{Gives, Refuses};
ghost use Rattle.vx_tree.specs.Formed.{WellFormed};
ghost use Rattle.vx_tree.specs.Parts.{valid_of};
ghost use Rattle.vx_tree.specs.Tree.{view_array};
ghost use Rattle.vx_text.specs.Texts.{is_view_array, AreViewParts, HasValues, array_of_views};
ghost use Rattle.vx_text.specs.TextFaults.{view_array_fault};

use crate::view_parts::{checked_views, emptied};
use std::alloc::Global;
use std::marker::Model;
use vx_base::{Buffer, ByteBuffer, DType, VortexError};
use vx_tree::{ArrayRef, Layout, TypedArray, Validity};
use vx_views::BinaryView;

/// A column of texts or of byte lists: row `i` is the value of view `i`, which stands in the view
/// or in one of the buffers, or null. The view of a null row is 16 zero bytes.
#[derive(Drop)]
pub struct VarBinViewArray {
    array: ArrayRef,
}

impl Model for VarBinViewArray {
    ghost use Rattle.std.specs.Prelude.{◌≡◌, true};
    ghost use Rattle.vx_tree.specs.Tree.{Tree, tree_code};
    ghost use Rattle.vx_text.specs.Texts.{is_view_array};

    ghost Value = { Tree };

    ghost coded = { tree_code };

    ghost view = { λ a. a.array };

    ghost invariant = { λ a. is_view_array a.array ≡ true };
}

// The parts of an array of views, lent.
#[derive(Drop)]
pub(crate) struct ViewArrayParts<'a> {
    pub views: &'a Buffer<BinaryView>,
    pub buffers: &'a [ByteBuffer],
    pub dtype: &'a DType,
    pub validity: &'a Validity,
}

impl TypedArray for VarBinViewArray {
    ghost as_tree = { λ a. a };

    ghost has_layout = { is_view_array };

    fn is_layout(layout: &Layout) -> bool {
        matches!(layout, Layout::VarBinView { .. })
    }

    fn from_array(array: ArrayRef) -> Self {
        VarBinViewArray { array }
    }

    fn as_array(&self) -> &ArrayRef {
        &self.array
    }

    fn into_array(self) -> ArrayRef {
        let VarBinViewArray { array } = self;
        array
    }
}

impl VarBinViewArray {
    /// The array of the values of these views, null where the validity is false. What the view of a
    /// null row says is not kept. Asks what `try_new` tests. Fails only for want of memory. Only
    /// where rows are null and another buffer shares the views are they copied.
    pub fn new(
        alloc: Global,
        views: Buffer<BinaryView>,
        buffers: Vec<ByteBuffer>,
        dtype: DType,
        validity: Validity,
    ) -> Result<VarBinViewArray, VortexError>
        requires { AreViewParts views buffers.items (dtype_meaning dtype) (valid_of validity) }
        ensures parts { Gives result (λ a. a
            ≡ array_of_views views buffers.items (dtype_meaning dtype) (valid_of validity)) }
        ensures rows { IfOk result
            (HasValues views buffers.items (dtype_meaning dtype) (valid_of validity)) }
    {
        let mask = validity.execute_mask(alloc, views.len())?;
        let views = emptied(alloc, views, &mask)?;
        VarBinViewArray::of_parts(alloc, views, buffers, dtype, validity)
    }

    /// The array of the values of these views, null where the validity is false. What the view of a
    /// null row says is neither tested nor kept.
    ///
    /// Refuses `MismatchedTypes` where the data type is neither one of texts nor of byte lists, or
    /// the validity has an array that is not one of plain booleans; `NullabilityMismatch` where
    /// null may stand by the data type but not by the validity, or the other way round;
    /// `LengthMismatch` where the validity has not one row a view; then at the first faulty valid
    /// row, as `check_views` does, `BadBuffer`, `BadStart`, `BadEnd`, `BadPrefix`, or `NotUtf8` of
    /// texts. Bytes that no valid view refers to never refuse. The views are gone through once; only
    /// where rows are null and another buffer shares the views are they copied.
    pub fn try_new(
        alloc: Global,
        views: Buffer<BinaryView>,
        buffers: Vec<ByteBuffer>,
        dtype: DType,
        validity: Validity,
    ) -> Result<VarBinViewArray, VortexError>
        ensures parts { IfOk result (λ a. a
            ≡ array_of_views views buffers.items (dtype_meaning dtype) (valid_of validity)) }
        ensures rows { IfOk result
            (HasValues views buffers.items (dtype_meaning dtype) (valid_of validity)) }
        ensures refuses { Refuses result
            (view_array_fault views buffers.items (dtype_meaning dtype) (valid_of validity)) }
    {
        let views = checked_views(alloc, views, &buffers, &dtype, &validity)?;
        VarBinViewArray::of_parts(alloc, views, buffers, dtype, validity)
    }

    // The array of parts of which the views of null rows are emptied.
    fn of_parts(
        alloc: Global,
        views: Buffer<BinaryView>,
        buffers: Vec<ByteBuffer>,
        dtype: DType,
        validity: Validity,
    ) -> Result<VarBinViewArray, VortexError>
        requires { WellFormed (view_array views buffers.items (dtype_meaning dtype) (valid_of validity)) }
        ensures { Gives result (λ a. a
            ≡ view_array views buffers.items (dtype_meaning dtype) (valid_of validity)) }
    {
        let array = ArrayRef::var_bin_view(alloc, views, buffers, dtype, validity)?;
        Ok(VarBinViewArray { array })
    }

    // The parts, which are well formed.
    pub(crate) fn parts(&self) -> ViewArrayParts<'_>
        ensures same { self.now ≡ view_array result.views.now result.buffers.now
            (dtype_meaning result.dtype.now) (valid_of result.validity.now) }
        ensures formed { WellFormed (view_array result.views.now result.buffers.now
            (dtype_meaning result.dtype.now) (valid_of result.validity.now)) }
    {
        match self.array.layout() {
            Layout::VarBinView {
                views,
                buffers,
                dtype,
                validity,
            } => ViewArrayParts {
                views,
                buffers,
                dtype,
                validity,
            },
            _ => unreachable!(),
        }
    }
}
