// The views and the buffers of an array of texts or byte lists, apart from its validity.

ghost use Rattle.std.specs.Prelude.{◌≡◌, ◌<◌, ◌==◌, [], length, Some, IfOk, OnOk, slice_get};
ghost use Rattle.vx_base.specs.DTypes.{dtype_meaning};
ghost use Rattle.vx_base.specs.Refusals.{Gives, Refuses};
ghost use Rattle.vx_tree.specs.Parts.{valid_of};
ghost use Rattle.vx_text.specs.Texts.{AreViewParts, AllResolve, array_of_views, view_data_of, value_in};
ghost use Rattle.vx_text.specs.TextFaults.{view_array_fault};

use crate::var_bin_view::VarBinViewArray;
use crate::view_parts::{budget_of, is_utf8, parts_mask};
use std::alloc::Global;
use std::fmt;
use std::marker::Model;
use vx_base::{Buffer, ByteBuffer, DType, VortexError, share_buffers};
use vx_tree::Validity;
use vx_views::{BinaryView, check_views};

/// The views of an array, and the buffers that they refer to. Each view resolves: that of a null
/// row is one of no bytes.
#[derive(Drop)]
pub struct VarBinViewData {
    views: Buffer<BinaryView>,
    buffers: Vec<ByteBuffer>,
}

impl Model for VarBinViewData {
    ghost use Rattle.vx_text.specs.Texts.{ViewData, view_data, AllResolve};

    ghost Value = { ViewData };

    ghost view = { λ d. view_data d.views d.buffers.items };

    ghost invariant = { λ d. AllResolve (view_data d.views d.buffers.items) };
}

impl VarBinViewData {
    /// The data of the array of these parts. Asks what `try_new` tests. Fails only for want of
    /// memory.
    pub fn new(
        alloc: Global,
        views: Buffer<BinaryView>,
        buffers: Vec<ByteBuffer>,
        dtype: DType,
        validity: Validity,
    ) -> Result<VarBinViewData, VortexError>
        requires { AreViewParts views buffers.items (dtype_meaning dtype) (valid_of validity) }
        ensures { Gives result (λ d. d ≡ view_data_of
            (array_of_views views buffers.items (dtype_meaning dtype) (valid_of validity))) }
    {
        VarBinViewArray::new(alloc, views, buffers, dtype, validity)?.to_data(alloc)
    }

    /// The data of the array of these parts. Refuses as the array does: `MismatchedTypes`,
    /// `NullabilityMismatch`, `LengthMismatch`, then the fault of the first faulty valid view.
    pub fn try_new(
        alloc: Global,
        views: Buffer<BinaryView>,
        buffers: Vec<ByteBuffer>,
        dtype: DType,
        validity: Validity,
    ) -> Result<VarBinViewData, VortexError>
        ensures data { IfOk result (λ d. d ≡ view_data_of
            (array_of_views views buffers.items (dtype_meaning dtype) (valid_of validity))) }
        ensures refuses { Refuses result
            (view_array_fault views buffers.items (dtype_meaning dtype) (valid_of validity)) }
    {
        VarBinViewArray::try_new(alloc, views, buffers, dtype, validity)?.to_data(alloc)
    }

    /// Whether `try_new` takes these parts, and so `new`: it refuses as `try_new` does. Of whole
    /// buffers 64 bytes for each valid row may be read ahead, which changes no answer.
    pub fn validate(
        alloc: Global,
        views: &[BinaryView],
        buffers: &[ByteBuffer],
        dtype: &DType,
        validity: &Validity,
    ) -> Result<(), VortexError>
        ensures parts { OnOk result
            (AreViewParts views.now buffers.now (dtype_meaning dtype.now) (valid_of validity.now)) }
        ensures refuses { Refuses result
            (view_array_fault views.now buffers.now (dtype_meaning dtype.now) (valid_of validity.now)) }
    {
        let mask = parts_mask(alloc, views.len(), dtype, validity)?;
        check_views(
            alloc,
            views,
            &mask,
            buffers,
            is_utf8(dtype),
            budget_of(&mask),
        )
    }

    /// Whether `try_new` takes these parts, where so many bytes of whole buffers may be read ahead:
    /// the answer is the same for every budget.
    pub fn validate_with_budget(
        alloc: Global,
        views: &[BinaryView],
        buffers: &[ByteBuffer],
        dtype: &DType,
        validity: &Validity,
        budget: usize,
    ) -> Result<(), VortexError>
        ensures parts { OnOk result
            (AreViewParts views.now buffers.now (dtype_meaning dtype.now) (valid_of validity.now)) }
        ensures refuses { Refuses result
            (view_array_fault views.now buffers.now (dtype_meaning dtype.now) (valid_of validity.now)) }
    {
        let mask = parts_mask(alloc, views.len(), dtype, validity)?;
        check_views(alloc, views, &mask, buffers, is_utf8(dtype), budget)
    }

    /// How many views there are.
    pub fn len(&self) -> usize
        ensures { result ≡ length self.now.views }
    {
        self.views.len()
    }

    /// Whether there is no view.
    pub fn is_empty(&self) -> bool
        ensures { result ≡ (length self.now.views == 0) }
    {
        self.len() == 0
    }

    /// The views, one a row.
    pub fn views(&self) -> &[BinaryView]
        ensures { result.now ≡ self.now.views }
    {
        self.views.as_slice()
    }

    /// The buffer of a number. Asks that there is one.
    pub fn buffer(&self, i: usize) -> &ByteBuffer
        requires { i < length self.now.buffers }
        ensures { slice_get self.now.buffers i ≡ Some result.now }
    {
        &self.buffers[i]
    }

    /// The buffers that the views refer to.
    pub fn data_buffers(&self) -> &[ByteBuffer]
        ensures { result.now ≡ self.now.buffers }
    {
        self.buffers.as_slice()
    }

    /// The value of view `i`: shared with its buffer, or copied from the view that holds it. That
    /// of a null row has no bytes. Asks a row below the length. Fails only for want of memory.
    pub fn bytes_at(&self, alloc: Global, i: usize) -> Result<ByteBuffer, VortexError>
        requires { i < length self.now.views }
        ensures { Gives result (λ b. b ≡ value_in self.now i) }
    {
        let view = &self.views.as_slice()[i];
        if view.is_inlined() {
            return ByteBuffer::copy_from(alloc, view.value_in(&self.buffers));
        }
        let parts = view.as_view();
        self.buffers[parts.buffer_index as usize].slice(alloc, parts.as_range())
    }

    /// The same data, the views and the buffers shared. Fails only for want of memory.
    pub fn try_clone(&self, alloc: Global) -> Result<VarBinViewData, VortexError>
        ensures { Gives result (λ d. d ≡ self.now) }
    {
        Ok(VarBinViewData {
            views: self.views.try_clone(alloc)?,
            buffers: share_buffers(alloc, &self.buffers)?,
        })
    }
}

impl fmt::Display for VarBinViewData {
    ghost output = { λ d. Some [] };

    fn fmt<W: fmt::Write>(&self, _f: &mut fmt::Formatter<W>) -> fmt::Result {
        Ok(())
    }
}

impl fmt::Debug for VarBinViewData {
    fn fmt<W: fmt::Write>(&self, f: &mut fmt::Formatter<W>) -> fmt::Result {
        let views = self.views.as_slice();
        let buffers = self.buffers.len();
        write!(
            f,
            "VarBinViewData {{ views: {views:?}, buffers: {buffers} }}"
        )
    }
}

impl VarBinViewArray {
    /// The views and the buffers, shared. Fails only for want of memory.
    pub fn to_data(&self, alloc: Global) -> Result<VarBinViewData, VortexError>
        ensures data { Gives result (λ d. d ≡ view_data_of self.now) }
        ensures resolve { AllResolve (view_data_of self.now) }
    {
        let parts = self.parts();
        Ok(VarBinViewData {
            views: parts.views.try_clone(alloc)?,
            buffers: share_buffers(alloc, parts.buffers)?,
        })
    }
}
