// Texts and byte lists of arrays, one array after another.

ghost use Rattle.std.specs.Prelude.{◌≡◌, ◌<◌, ◌≤◌, ◌+◌, ◌^◌, ◌++◌, true, length, map, slice_index, IfOk};
ghost use Rattle.std.specs.List.{All};
ghost use Rattle.vx_base.specs.Refusals.{Gives};
ghost use Rattle.vx_base.specs.DTypes.{dtype_meaning};
ghost use Rattle.vx_base.specs.Kinds.{is_nullable_kind, or_nullable};
ghost use Rattle.vx_views.specs.Views.{view_size, view_block};
ghost use Rattle.vx_views.specs.declared.view.TheConstants.{MAX_INLINED_SIZE};
ghost use Rattle.vx_tree.specs.Layouts.{is_view_array};
ghost use Rattle.vx_tree.specs.Meaning.{kind_of, nullable, is_texts};
ghost use Rattle.vx_tree.specs.Formed.{ValidFits, value_kind};
ghost use Rattle.vx_tree.specs.Parts.{valid_of};
ghost use Rattle.vx_tree.specs.Plain.{IsPlainValid};
ghost use Rattle.vx_tree.specs.Extents.{extent_of};
ghost use Rattle.vx_canonical.specs.Canonical.{IsBlank};
ghost use Rattle.vx_canonical.specs.Joined.{IsJoined, IsValidJoined, HasJoinedNumbers, AreValues, AreResolved, joined_buffers, shifted_view, views_from};

use std::alloc::Global;
use vx_base::{Buffer, ByteBuffer, DType, VortexError};
use vx_tree::{ArrayRef, Layout, Validity, empty_views};
use vx_views::BinaryView;

// The texts or the byte lists of arrays, one array after another, under the validity of them;
// the buffers are shared, one array's after another's. Asks that they can be numbered.
pub(crate) fn join_views(
    alloc: Global,
    dtype: &DType,
    arrays: &[ArrayRef],
    len: usize,
    validity: Validity,
) -> Result<ArrayRef, VortexError>
    requires values { All (AreValues (is_texts (dtype_meaning dtype.now))) arrays.now }
    requires kind { dtype_meaning dtype.now ≡ value_kind (is_texts (dtype_meaning dtype.now)) (nullable (valid_of validity)) }
    requires valid { IsValidJoined (nullable (valid_of validity)) arrays.now (valid_of validity) }
    requires few { length (joined_buffers arrays.now) ≤ 2 ^ 32 }
    ensures joined { Gives result (IsJoined (dtype_meaning dtype.now) arrays.now) }
    ensures numbers { IfOk result (HasJoinedNumbers arrays.now) }
{
    let count = buffer_count(arrays);
    let buffers = joined_buffers(alloc, arrays, count)?;
    let views = joined_views(alloc, arrays, len)?;
    let dtype = dtype.try_clone(alloc)?;
    Ok(ArrayRef::var_bin_view(alloc, views, buffers, dtype, validity)?)
}

// Empty texts or byte lists of this validity, over the same buffers.
pub(crate) fn blank_views(
    alloc: Global,
    array: &ArrayRef,
    len: usize,
    validity: Validity,
) -> Result<ArrayRef, VortexError>
    requires layout { is_view_array array.now ≡ true }
    requires fits { ValidFits (valid_of validity) len }
    requires plain { IsPlainValid (valid_of validity) }
    requires nullable { is_nullable_kind (kind_of array.now) ≡ true → nullable (valid_of validity) ≡ true }
    ensures { Gives result (IsBlank (or_nullable (nullable (valid_of validity)) (kind_of array.now)) (extent_of array.now) len
        (valid_of validity)) }
{
    let Layout::VarBinView { buffers, dtype, .. } = array.layout() else {
        unreachable!();
    };
    let dtype = dtype
        .try_clone(alloc)?
        .union_nullability(validity.nullability());
    empty_views(alloc, len, buffers, &dtype, validity)
}

// How many buffers the arrays have. Asks that they can be numbered.
fn buffer_count(arrays: &[ArrayRef]) -> usize
    requires resolved { All AreResolved arrays.now }
    requires few { length (joined_buffers arrays.now) ≤ 2 ^ 32 }
    ensures { result ≡ length (joined_buffers arrays.now) }
{
    let mut count = 0;
    for array in arrays {
        let Layout::VarBinView { buffers, .. } = array.layout() else {
            unreachable!();
        };
        count += buffers.len();
    }
    count
}

// The buffers of arrays, of which there are `count`, one array after another.
fn joined_buffers(
    alloc: Global,
    arrays: &[ArrayRef],
    count: usize,
) -> Result<Vec<ByteBuffer>, VortexError>
    requires { All AreResolved arrays.now }
    ensures { Gives result (λ bs. bs.items ≡ joined_buffers arrays.now) }
{
    let mut joined = Vec::with_capacity(alloc, count)?;
    for array in arrays {
        let Layout::VarBinView { buffers, .. } = array.layout() else {
            unreachable!();
        };
        add_buffers(alloc, buffers, &mut joined)?;
    }
    Ok(joined)
}

// The buffers, each shared, are added to these.
fn add_buffers(
    alloc: Global,
    buffers: &[ByteBuffer],
    out: &mut Vec<ByteBuffer>,
) -> Result<(), VortexError>
    ensures { Gives result (λ _. out.new.items ≡ out.old.items ++ buffers.now) }
{
    for buffer in buffers {
        out.push(buffer.try_clone(alloc)?)?;
    }
    Ok(())
}

// The views of arrays, of which there are `len`, one array after another, their buffers numbered
// further by the buffers of the arrays before.
fn joined_views(
    alloc: Global,
    arrays: &[ArrayRef],
    len: usize,
) -> Result<Buffer<BinaryView>, VortexError>
    requires resolved { All AreResolved arrays.now }
    requires few { length (joined_buffers arrays.now) ≤ 2 ^ 32 }
    ensures { Gives result (λ views. views ≡ views_from 0 arrays.now) }
{
    let mut joined = Vec::with_capacity(alloc, len)?;
    let mut base = 0usize;
    for array in arrays {
        let Layout::VarBinView { views, buffers, .. } = array.layout() else {
            unreachable!();
        };
        add_views(views.as_slice(), &[base, 0], &mut joined)?;
        base += buffers.len();
    }
    Buffer::from_vec(alloc, joined)
}

// The views are added to these, their buffers numbered further by the first of two steps: the
// second is that of views which hold their value, 0. Not inlined, so that a step is looked up where
// both lie: a choice between a number and 0 is compiled to a branch, which a processor guesses wrong
// where short and long values stand by turns.
#[inline(never)]
fn add_views(
    views: &[BinaryView],
    steps: &[usize; 2],
    out: &mut Vec<BinaryView>,
) -> Result<(), VortexError>
    requires held { slice_index steps.now 1 ≡ 0 }
    requires few { All (λ view. MAX_INLINED_SIZE < view_size view → slice_index steps.now 0 + view_block view < 2 ^ 32) views.now }
    ensures { Gives result (λ _. out.new.items ≡ out.old.items ++ map (shifted_view (slice_index steps.now 0)) views.now) }
{
    out.reserve(views.len())?;
    for view in views {
        out.push_reserved(shifted(view, steps));
    }
    Ok(())
}

// The view, its buffer numbered further by the first step where it refers to one: the number of its
// buffer is bits 64 to 95 of its bytes as one number, so that views of both kinds go the same way.
#[inline]
fn shifted(view: &BinaryView, steps: &[usize; 2]) -> BinaryView
    requires held { slice_index steps.now 1 ≡ 0 }
    requires few { MAX_INLINED_SIZE < view_size view.now → slice_index steps.now 0 + view_block view.now < 2 ^ 32 }
    ensures { result ≡ shifted_view (slice_index steps.now 0) view.now }
{
    let further = step_of(view, steps);
    BinaryView::from(view.as_u128() + ((further as u128) << 64))
}

// The second step where the view holds its value, and else the first.
#[inline]
fn step_of(view: &BinaryView, steps: &[usize; 2]) -> usize
    ensures held { view_size view.now ≤ MAX_INLINED_SIZE → result ≡ slice_index steps.now 1 }
    ensures refers { MAX_INLINED_SIZE < view_size view.now → result ≡ slice_index steps.now 0 }
{
    steps[usize::from(view.is_inlined())]
}
