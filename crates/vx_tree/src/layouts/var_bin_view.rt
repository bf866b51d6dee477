// Texts and byte lists, each by its view.

ghost use Rattle.std.specs.Prelude.{◌≡◌, ◌<◌, ◌≤◌, ◌-◌, ℕ, true, false, [], length, map, slice_index_or, Some};
ghost use Rattle.std.specs.Prelude.{MatchOption, replicate, if◌then◌else◌};
ghost use Rattle.std.specs.List.{range_with_len};
ghost use Rattle.vx_base.specs.Refusals.{Gives};
ghost use Rattle.vx_base.specs.DTypes.{dtype_meaning};
ghost use Rattle.vx_base.specs.Kinds.{or_nullable};
ghost use Rattle.vx_base.specs.Bytes.{AreBytes};
ghost use Rattle.vx_base.specs.MaskRuns.{is_in_run, is_in_runs, AreRuns};
ghost use Rattle.vx_views.specs.Views.{IsView, buffer_at, view_of};
ghost use Rattle.vx_tree.specs.Tree.{view_array};
ghost use Rattle.vx_tree.specs.Layouts.{is_view_array};
ghost use Rattle.vx_base.specs.Rows.{null};
ghost use Rattle.vx_base.specs.ValueRows.{option_row, row_under};
ghost use Rattle.vx_tree.specs.Meaning.{tree_len, kind_of, row_at, is_valid_at, is_texts, nullable, valid_mask, value_row};
ghost use Rattle.vx_tree.specs.Values.{bytes_in};
ghost use Rattle.vx_tree.specs.Formed.{ValidFits, WellFormed};
ghost use Rattle.vx_tree.specs.Fitting.{AreViews};
ghost use Rattle.vx_tree.specs.Parts.{valid_of};
ghost use Rattle.vx_tree.specs.Operations.{IsSlice, IsSelected, IsNulled, IsNulls, IsTakenAt, AreBelow, valid_view};

use crate::array::{ArrayRef, Layout, Validity};
use std::alloc::Global;
use vx_base::{
    Buffer, ByteBuffer, DType, Mask, ScalarValue, Selection, VortexError, gather_items,
    share_buffers,
};
use vx_views::BinaryView;

impl ArrayRef {
    /// Texts or byte lists, null where the validity is false. Asks that the data type is one of
    /// texts or of byte lists, nullable just where the validity is, that there are as many views
    /// as the validity has rows, that the view of each valid row is sound, as `check_views` has it,
    /// and that the view of each null row is 16 zero bytes.
    pub fn var_bin_view(
        alloc: Global,
        views: Buffer<BinaryView>,
        buffers: Vec<ByteBuffer>,
        dtype: DType,
        validity: Validity,
    ) -> Result<ArrayRef, VortexError>
        requires { WellFormed (view_array views buffers.items (dtype_meaning dtype) (valid_of validity)) }
        ensures { Gives result (λ a. a
            ≡ view_array views buffers.items (dtype_meaning dtype) (valid_of validity)) }
    {
        ArrayRef::from_parts(
            alloc,
            Layout::VarBinView {
                views,
                buffers,
                dtype,
                validity,
            },
        )
    }

    #[cycle(slice)]
    pub(crate) fn slice_views(
        &self,
        alloc: Global,
        start: usize,
        end: usize,
    ) -> Result<ArrayRef, VortexError>
        requires layout { is_view_array self.now ≡ true }
        requires start_le_end { start ≤ end }
        requires in_bounds { end ≤ tree_len self.now }
        ensures { Gives result (IsSlice self.now start (end - start)) }
    {
        let Layout::VarBinView {
            views,
            buffers,
            dtype,
            validity,
        } = self.layout()
        else {
            unreachable!();
        };
        let views = views.slice(alloc, start..end)?;
        let buffers = match share_buffers(alloc, buffers) {
            Ok(buffers) => buffers,
            Err(error) => {
                drop(views);
                return Err(error);
            }
        };
        let dtype = match dtype.try_clone(alloc) {
            Ok(dtype) => dtype,
            Err(error) => {
                drop(views);
                drop(buffers);
                return Err(error);
            }
        };
        match validity.slice_within(alloc, start, end) {
            Ok(validity) => ArrayRef::var_bin_view(alloc, views, buffers, dtype, validity),
            Err(error) => {
                drop(views);
                drop(buffers);
                drop(dtype);
                Err(error)
            }
        }
    }

    #[cycle(select)]
    pub(crate) fn select_views(
        &self,
        alloc: Global,
        selection: &Selection,
    ) -> Result<ArrayRef, VortexError>
        requires layout { is_view_array self.now ≡ true }
        requires within { AreBelow (tree_len self.now) selection.now }
        ensures { Gives result (IsSelected self.now selection.now) }
    {
        let Layout::VarBinView {
            views,
            buffers,
            dtype,
            validity,
        } = self.layout()
        else {
            unreachable!();
        };
        let views = gather_items(alloc, views.as_slice(), selection)?;
        let buffers = match share_buffers(alloc, buffers) {
            Ok(buffers) => buffers,
            Err(error) => {
                drop(views);
                return Err(error);
            }
        };
        let dtype = match dtype.try_clone(alloc) {
            Ok(dtype) => dtype,
            Err(error) => {
                drop(views);
                drop(buffers);
                return Err(error);
            }
        };
        match validity.select_within(alloc, selection) {
            Ok(validity) => ArrayRef::var_bin_view(alloc, views, buffers, dtype, validity),
            Err(error) => {
                drop(views);
                drop(buffers);
                drop(dtype);
                Err(error)
            }
        }
    }

    pub(crate) fn nulled_views(
        &self,
        alloc: Global,
        nulls: &Validity,
    ) -> Result<ArrayRef, VortexError>
        requires layout { is_view_array self.now ≡ true }
        requires fits { ValidFits (valid_of nulls.now) (tree_len self.now) }
        ensures { Gives result (IsNulled self.now (valid_of nulls.now)) }
    {
        let Layout::VarBinView {
            views,
            buffers,
            dtype,
            validity,
        } = self.layout()
        else {
            unreachable!();
        };
        let validity = validity.nulled(alloc, nulls, views.len())?;
        let shared = match views.try_clone(alloc) {
            Ok(shared) => shared,
            Err(error) => {
                drop(validity);
                return Err(error);
            }
        };
        nullable_views(alloc, shared, buffers, dtype, nulls, validity)
    }

    // The texts or the byte lists that are picked, null where this validity is not true: the views
    // are gathered, and those of null rows made empty where they lie.
    pub(crate) fn take_views(
        &self,
        alloc: Global,
        selection: &Selection,
        nulls: &Validity,
    ) -> Result<ArrayRef, VortexError>
        requires layout { is_view_array self.now ≡ true }
        requires within { AreBelow (tree_len self.now) selection.now }
        requires fits { ValidFits (valid_of nulls.now) (length selection.now) }
        ensures { Gives result (IsTakenAt self.now selection.now (valid_of nulls.now)) }
    {
        let Layout::VarBinView {
            views,
            buffers,
            dtype,
            validity,
        } = self.layout()
        else {
            unreachable!();
        };
        let selected = validity.select_within(alloc, selection)?;
        let nulled = selected.nulled(alloc, nulls, selection.len());
        drop(selected);
        let nulled = nulled?;
        let gathered = match gather_items(alloc, views.as_slice(), selection) {
            Ok(gathered) => gathered,
            Err(error) => {
                drop(nulled);
                return Err(error);
            }
        };
        nullable_views(alloc, gathered, buffers, dtype, nulls, nulled)
    }

    pub(crate) fn null_views(
        &self,
        alloc: Global,
        len: usize,
        nulls: &Validity,
    ) -> Result<ArrayRef, VortexError>
        requires layout { is_view_array self.now ≡ true }
        requires fits { ValidFits (valid_of nulls.now) len }
        requires none { (i : ℕ) → i < len → is_valid_at (valid_of nulls.now) i ≡ false }
        ensures { Gives result (IsNulls self.now len (valid_of nulls.now)) }
    {
        let Layout::VarBinView {
            buffers,
            dtype,
            validity,
            ..
        } = self.layout()
        else {
            unreachable!();
        };
        let dtype = dtype
            .try_clone(alloc)?
            .union_nullability(nulls.nullability());
        let validity = match validity.nulls(alloc, len, nulls) {
            Ok(validity) => validity,
            Err(error) => {
                drop(dtype);
                return Err(error);
            }
        };
        let array = empty_views(alloc, len, buffers, &dtype, validity);
        drop(dtype);
        array
    }

    /// The bytes of row `i`, a text or a byte list, `None` where it is null: those in the view or
    /// in the buffer, with no copy. Asks an array of views, and a row below the length.
    #[tactic(auto, using(crate::proofs::ViewArrays::view_reads))]
    pub fn bytes_at(&self, i: usize) -> Option<&[u8]>
        requires layout { is_view_array self.now ≡ true }
        requires in_bounds { i < tree_len self.now }
        ensures { MatchOption result (row_at self.now i ≡ null) (λ value. bytes_in (row_at self.now i) ≡ Some value.now) }
    {
        let Layout::VarBinView {
            views,
            buffers,
            validity,
            ..
        } = self.layout()
        else {
            unreachable!();
        };
        if validity.is_valid_at(i) {
            Some(views.as_slice()[i].value_in(buffers))
        } else {
            None
        }
    }

    // The text or the byte list that row `i` is, copied, `None` where it is null.
    #[tactic(auto, using(crate::proofs::ViewArrays::view_value_found, crate::proofs::ViewArrays::view_value_none))]
    pub(crate) fn view_value(
        &self,
        alloc: Global,
        i: usize,
    ) -> Result<Option<ScalarValue>, VortexError>
        requires layout { is_view_array self.now ≡ true }
        requires in_bounds { i < tree_len self.now }
        ensures { Gives result (λ v. row_under (kind_of self.now) v ≡ row_at self.now i) }
    {
        self.known();
        let Some(value) = self.bytes_at(i) else {
            return Ok(None);
        };
        let value = ByteBuffer::copy_from(alloc, value)?;
        Ok(Some(value_of_kind(self.dtype(), value)))
    }
}

// These bytes as a text where texts stand, else as a byte list.
fn value_of_kind(dtype: &DType, value: ByteBuffer) -> ScalarValue
    ensures { option_row (Some result) ≡ value_row (is_texts (dtype_meaning dtype.now)) value }
{
    match dtype {
        DType::Utf8(_) => ScalarValue::Text(value),
        DType::Binary(_) | DType::Bool(_) | DType::Primitive(_, _) => ScalarValue::Bytes(value),
        DType::List(_, _) | DType::FixedSizeList(_, _, _) => ScalarValue::Bytes(value),
        DType::Struct(_, _) => ScalarValue::Bytes(value),
    }
}

// Texts or byte lists of these views, empty where the validity is not true, over the buffers, which
// are shared. The data type is nullable where it was, or where the nulls are.
fn nullable_views(
    alloc: Global,
    views: Buffer<BinaryView>,
    buffers: &[ByteBuffer],
    dtype: &DType,
    nulls: &Validity,
    validity: Validity,
) -> Result<ArrayRef, VortexError>
    requires fits { ValidFits (valid_of validity) (length views) }
    requires formed { WellFormed (view_array (map (valid_view views (valid_mask (valid_of validity) (length views))) (range_with_len 0 (length views)))
        buffers.now (or_nullable (nullable (valid_of nulls.now)) (dtype_meaning dtype.now)) (valid_of validity)) }
    ensures { Gives result (λ a. a ≡ view_array (map (valid_view views (valid_mask (valid_of validity) (length views))) (range_with_len 0 (length views)))
        buffers.now (or_nullable (nullable (valid_of nulls.now)) (dtype_meaning dtype.now)) (valid_of validity)) }
{
    let views = match views_under(alloc, views, &validity) {
        Ok(views) => views,
        Err(error) => {
            drop(validity);
            return Err(error);
        }
    };
    let dtype = match dtype.try_clone(alloc) {
        Ok(dtype) => dtype.union_nullability(nulls.nullability()),
        Err(error) => {
            drop(views);
            drop(validity);
            return Err(error);
        }
    };
    let array = views_over(alloc, views, buffers, &dtype, validity);
    drop(dtype);
    array
}

// Texts or byte lists of these views, over the buffers, which are shared.
fn views_over(
    alloc: Global,
    views: Buffer<BinaryView>,
    buffers: &[ByteBuffer],
    dtype: &DType,
    validity: Validity,
) -> Result<ArrayRef, VortexError>
    requires { WellFormed (view_array views buffers.now (dtype_meaning dtype.now) (valid_of validity)) }
    ensures { Gives result (λ a. a ≡ view_array views buffers.now (dtype_meaning dtype.now) (valid_of validity)) }
{
    let dtype = match dtype.try_clone(alloc) {
        Ok(dtype) => dtype,
        Err(error) => {
            drop(views);
            drop(validity);
            return Err(error);
        }
    };
    match share_buffers(alloc, buffers) {
        Ok(buffers) => ArrayRef::var_bin_view(alloc, views, buffers, dtype, validity),
        Err(error) => {
            drop(dtype);
            drop(views);
            drop(validity);
            Err(error)
        }
    }
}

// Texts or byte lists of these views and buffers, which are shared, under this validity.
pub(crate) fn same_views_under(
    alloc: Global,
    views: &Buffer<BinaryView>,
    buffers: &[ByteBuffer],
    dtype: &DType,
    validity: Validity,
) -> Result<ArrayRef, VortexError>
    requires { WellFormed (view_array views.now buffers.now (dtype_meaning dtype.now) (valid_of validity)) }
    ensures { Gives result (λ a. a ≡ view_array views.now buffers.now (dtype_meaning dtype.now) (valid_of validity)) }
{
    match views.try_clone(alloc) {
        Ok(views) => views_over(alloc, views, buffers, dtype, validity),
        Err(error) => {
            drop(validity);
            Err(error)
        }
    }
}

/// Empty texts or byte lists, over the buffers, which are shared. For the crates above.
pub fn empty_views(
    alloc: Global,
    len: usize,
    buffers: &[ByteBuffer],
    dtype: &DType,
    validity: Validity,
) -> Result<ArrayRef, VortexError>
    requires { WellFormed (view_array (replicate len (view_of [] 0 0)) buffers.now (dtype_meaning dtype.now) (valid_of validity)) }
    ensures { Gives result (λ a. a
        ≡ view_array (replicate len (view_of [] 0 0)) buffers.now (dtype_meaning dtype.now) (valid_of validity)) }
{
    let views = Buffer::from_vec(alloc, vec![in alloc; BinaryView::empty_view(); len]?)?;
    views_over(alloc, views, buffers, dtype, validity)
}

// The views where the validity is true, and 16 zero bytes elsewhere.
fn views_under(
    alloc: Global,
    views: Buffer<BinaryView>,
    validity: &Validity,
) -> Result<Buffer<BinaryView>, VortexError>
    requires { ValidFits (valid_of validity.now) (length views) }
    ensures { Gives result (λ b. b ≡ map (valid_view views (valid_mask (valid_of validity.now) (length views)))
        (range_with_len 0 (length views))) }
{
    let mask = validity.mask(alloc, views.len())?;
    valid_views(alloc, views, &mask)
}

// The views where the mask is true, and 16 zero bytes elsewhere.
fn valid_views(
    alloc: Global,
    views: Buffer<BinaryView>,
    mask: &Mask,
) -> Result<Buffer<BinaryView>, VortexError>
    requires { length mask.now ≡ length views }
    ensures { Gives result (λ b. b ≡ map (valid_view views mask.now) (range_with_len 0 (length views))) }
{
    if mask.all_true() {
        return Ok(views);
    }
    let valid = masked_views(alloc, views, mask)?;
    Buffer::from_vec(alloc, valid)
}

// The views where the mask is true, and 16 zero bytes elsewhere: these are written where the views
// lie, or in a copy where another buffer shares them.
fn masked_views(
    alloc: Global,
    views: Buffer<BinaryView>,
    mask: &Mask,
) -> Result<Vec<BinaryView>, VortexError>
    requires { length mask.now ≡ length views }
    ensures { Gives result (λ made. made.items ≡ map (valid_view views mask.now) (range_with_len 0 (length views))) }
{
    let mut made = views.into_vec(alloc)?;
    empty_between(&mut made, mask.runs());
    Ok(made)
}

// Makes the views of the rows that lie in none of these runs empty.
fn empty_between(views: &mut [BinaryView], runs: &[(usize, usize)])
    requires { AreRuns (length views.old) runs.now }
    ensures len { length views.new ≡ length views.old }
    ensures emptied { (k : ℕ) → k < length views.old → slice_index_or views.new k []
        ≡ (if is_in_runs runs.now k then slice_index_or views.old k [] else view_of [] 0 0) }
{
    let mut at = 0;
    for run in runs {
        let (start, end) = *run;
        empty_range(views, at, start);
        at = end;
    }
    let len = views.len();
    empty_range(views, at, len);
}

// Makes the views of the rows from `start` up to `end` empty.
#[inline]
fn empty_range(views: &mut [BinaryView], start: usize, end: usize)
    requires ordered { start ≤ end }
    requires within { end ≤ length views.old }
    ensures len { length views.new ≡ length views.old }
    ensures emptied { (k : ℕ) → k < length views.old → slice_index_or views.new k []
        ≡ (if is_in_run (start, end) k then view_of [] 0 0 else slice_index_or views.old k []) }
{
    for k in start..end {
        views[k] = BinaryView::empty_view();
    }
}

// Each view has 16 bytes, and each buffer has bytes: learnt from two loops that change nothing.
pub(crate) fn known_views(views: &[BinaryView], buffers: &[ByteBuffer])
    ensures { AreViews views.now buffers.now }
{
    known_sizes(views);
    known_bytes(buffers);
}

// Each view has 16 bytes. The loop uses nothing that it reads: LLVM leaves it out, Rattle's own
// compiler does not, and nothing proves either.
fn known_sizes(views: &[BinaryView])
    ensures { (i : ℕ) → i < length views.now → IsView (slice_index_or views.now i []) }
{
    for view in views {
        let _size = view.len();
    }
}

// Each buffer has bytes, by such a loop over the buffers.
fn known_bytes(buffers: &[ByteBuffer])
    ensures { (block : ℕ) → AreBytes (buffer_at buffers.now block) }
{
    for buffer in buffers {
        let _bytes = buffer.as_slice();
    }
}
