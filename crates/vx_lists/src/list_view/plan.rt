// What a list view is rebuilt from: the runs of its elements and its new numbers, in loops over the
// bytes of its offsets and sizes. Valid rows are gone through run by run.

ghost use Rattle.std.specs.Prelude.{◌≡◌, ◌+◌, ◌*◌, ◌-◌, ◌≤◌, ◌^◌, ◌++◌, ◌∷◌, [], pos, length, sum, replicate};
ghost use Rattle.std.specs.Prelude.{slice_range};
ghost use Rattle.std.specs.List.{All, flat_map};
ghost use Rattle.vx_base.specs.Integers.{byte_width, Holds, numbers};
ghost use Rattle.vx_base.specs.Refusals.{Gives};
ghost use Rattle.vx_base.specs.Selections.{run_positions};
ghost use Rattle.vx_lists.specs.ListViews.CountBytes.{counts_of, numbers_before, AreCountBytes, HoldCounts};
ghost use Rattle.vx_lists.specs.ListViews.Layout.{joined_positions, starts_from, valid_sizes, valid_total};
ghost use Rattle.vx_lists.specs.ListViews.PlannedRuns.{AreListBytes};
ghost use Rattle.vx_lists.specs.ListViews.{rebuilt_ptype};

use crate::list_view::counts::count_of_bytes;
use std::alloc::Global;
use vx_base::{
    ByteBuffer, Mask, NativePType, PType, VortexError, call_native, number_count, put_int,
};

/// The offsets of a list view, as bytes of their type, the sizes of its valid rows, 0 at null rows,
/// as bytes of their rebuilt type, and how many elements these rows have in all.
#[derive(Drop)]
pub(crate) struct RebuildPlan {
    pub offset_type: PType,
    pub offsets: ByteBuffer,
    pub size_type: PType,
    pub sizes: ByteBuffer,
    pub count: usize,
}

// The type that offsets or sizes of a type have in a rebuilt list view.
pub(crate) fn rebuilt_ptype(ptype: PType) -> PType
    ensures { result ≡ rebuilt_ptype ptype }
{
    match ptype {
        PType::U8 | PType::U16 | PType::U32 => PType::U32,
        PType::U64 => PType::U64,
        PType::I8 | PType::I16 | PType::I32 => PType::I32,
        PType::I64 => PType::I64,
    }
}

// Writes count `i` of these bytes.
#[inline]
fn put_count<T: NativePType>(out: &mut [u8], i: usize, count: usize)
    requires holds { Holds T.PTYPE (pos count) }
    requires room { i * byte_width T.PTYPE + byte_width T.PTYPE ≤ length out.old }
    ensures len { length out.new ≡ length out.old }
    ensures numbers { numbers_before T.PTYPE (i + 1) out.new
        ≡ numbers_before T.PTYPE i out.old ++ pos count ∷ [] }
{
    let width = T::PTYPE.byte_width();
    put_int(
        count as i128,
        T::PTYPE,
        &mut out[i * width..i * width + width],
    );
}

// The bytes of the counts of a run.
#[inline]
fn bytes_of_run<T: NativePType>(bytes: &[u8], start: usize, end: usize) -> &[u8]
    requires ordered { start ≤ end }
    requires within { end ≤ length (numbers T.PTYPE bytes.now) }
    ensures { numbers T.PTYPE result.now ≡ slice_range (numbers T.PTYPE bytes.now) start end }
{
    let width = T::PTYPE.byte_width();
    &bytes[start * width..end * width]
}

// How many elements the present rows have in all.
pub(crate) fn valid_total(ptype: PType, sizes: &[u8], mask: &Mask) -> u128
    requires counts { AreCountBytes ptype sizes.now }
    requires same_len { length mask.now ≡ length (numbers ptype sizes.now) }
    ensures { result ≡ valid_total (counts_of ptype sizes.now) mask.now }
{
    call_native!(ptype, typed_total(sizes, mask))
}

#[inline(never)]
fn typed_total<S: NativePType>(sizes: &[u8], mask: &Mask) -> u128
    requires counts { AreCountBytes S.PTYPE sizes.now }
    requires same_len { length mask.now ≡ length (numbers S.PTYPE sizes.now) }
    ensures { result ≡ valid_total (counts_of S.PTYPE sizes.now) mask.now }
{
    let runs = mask.runs();
    let mut total = 0;
    for run in runs {
        let (start, end) = *run;
        total += sum_counts::<S>(bytes_of_run::<S>(sizes, start, end));
    }
    total
}

// The sum of these counts.
#[inline]
fn sum_counts<T: NativePType>(counts: &[u8]) -> u128
    requires { AreCountBytes T.PTYPE counts.now }
    ensures sum { result ≡ sum (counts_of T.PTYPE counts.now) }
    ensures bounded { result ≤ (2 ^ 64 - 1) * length (numbers T.PTYPE counts.now) }
{
    let mut total = 0;
    for i in 0..number_count(counts, T::PTYPE) {
        total += count_of_bytes::<T>(counts, i) as u128;
    }
    total
}

// The sizes of the present rows, and 0 for each null row, as bytes of another type that holds their
// sum: shared where the type is the same and no row is null.
pub(crate) fn valid_sizes(
    alloc: Global,
    ptype: PType,
    sizes: &ByteBuffer,
    mask: &Mask,
    new_type: PType,
) -> Result<ByteBuffer, VortexError>
    requires counts { AreCountBytes ptype sizes.now }
    requires whole { length sizes.now ≡ length (numbers ptype sizes.now) * byte_width ptype }
    requires same_len { length mask.now ≡ length (numbers ptype sizes.now) }
    requires holds { Holds new_type (pos (valid_total (counts_of ptype sizes.now) mask.now)) }
    ensures { Gives result (λ b.
        HoldCounts new_type b (valid_sizes (counts_of ptype sizes.now) mask.now)) }
{
    if ptype == new_type && mask.all_true() {
        return Ok(sizes.try_clone(alloc)?);
    }
    call_native!(ptype, sizes_from(alloc, sizes.as_slice(), mask, new_type))
}

fn sizes_from<S: NativePType>(
    alloc: Global,
    sizes: &[u8],
    mask: &Mask,
    new_type: PType,
) -> Result<ByteBuffer, VortexError>
    requires counts { AreCountBytes S.PTYPE sizes.now }
    requires same_len { length mask.now ≡ length (numbers S.PTYPE sizes.now) }
    requires holds { Holds new_type (pos (valid_total (counts_of S.PTYPE sizes.now) mask.now)) }
    ensures { Gives result (λ b.
        HoldCounts new_type b (valid_sizes (counts_of S.PTYPE sizes.now) mask.now)) }
{
    call_native!(new_type, typed_sizes::<S>(alloc, sizes, mask))
}

fn typed_sizes<S: NativePType, N: NativePType>(
    alloc: Global,
    sizes: &[u8],
    mask: &Mask,
) -> Result<ByteBuffer, VortexError>
    requires counts { AreCountBytes S.PTYPE sizes.now }
    requires same_len { length mask.now ≡ length (numbers S.PTYPE sizes.now) }
    requires holds { Holds N.PTYPE (pos (valid_total (counts_of S.PTYPE sizes.now) mask.now)) }
    ensures { Gives result (λ b.
        HoldCounts N.PTYPE b (valid_sizes (counts_of S.PTYPE sizes.now) mask.now)) }
{
    let len = number_count(sizes, S::PTYPE).saturating_mul(N::PTYPE.byte_width());
    let mut out = vec![in alloc; 0u8; len]?;
    put_valid_sizes::<S, N>(sizes, mask, &mut out);
    Ok(ByteBuffer::from_vec(alloc, out)?)
}

// Writes the sizes of the present rows over bytes that are all 0.
#[inline(never)]
fn put_valid_sizes<S: NativePType, N: NativePType>(sizes: &[u8], mask: &Mask, out: &mut [u8])
    requires counts { AreCountBytes S.PTYPE sizes.now }
    requires same_len { length mask.now ≡ length (numbers S.PTYPE sizes.now) }
    requires holds { Holds N.PTYPE (pos (valid_total (counts_of S.PTYPE sizes.now) mask.now)) }
    requires zeroed { out.old
        ≡ replicate (length (numbers S.PTYPE sizes.now) * byte_width N.PTYPE) 0 }
    ensures { HoldCounts N.PTYPE out.new (valid_sizes (counts_of S.PTYPE sizes.now) mask.now) }
{
    let width = N::PTYPE.byte_width();
    let runs = mask.runs();
    for run in runs {
        let (start, end) = *run;
        let present = bytes_of_run::<S>(sizes, start, end);
        put_counts::<S, N>(present, &mut out[start * width..end * width]);
    }
}

// Writes these counts as bytes of another type, which holds each of them.
#[inline]
fn put_counts<T: NativePType, N: NativePType>(counts: &[u8], out: &mut [u8])
    requires counts { AreCountBytes T.PTYPE counts.now }
    requires held { All (λ n. Holds N.PTYPE (pos n)) (counts_of T.PTYPE counts.now) }
    requires room { length out.old ≡ length (numbers T.PTYPE counts.now) * byte_width N.PTYPE }
    ensures { HoldCounts N.PTYPE out.new (counts_of T.PTYPE counts.now) }
{
    for i in 0..number_count(counts, T::PTYPE) {
        put_count::<N>(out, i, count_of_bytes::<T>(counts, i));
    }
}

// Where lists of these sizes start when they lie end to end. Asks that the type of the starts
// holds the sum of the sizes.
pub(crate) fn list_starts(
    alloc: Global,
    start_type: PType,
    size_type: PType,
    sizes: &[u8],
) -> Result<ByteBuffer, VortexError>
    requires counts { AreCountBytes size_type sizes.now }
    requires holds { Holds start_type (pos (sum (counts_of size_type sizes.now))) }
    ensures { Gives result (λ b.
        HoldCounts start_type b (starts_from 0 (counts_of size_type sizes.now))) }
{
    call_native!(start_type, starts_of(alloc, size_type, sizes))
}

fn starts_of<O: NativePType>(
    alloc: Global,
    size_type: PType,
    sizes: &[u8],
) -> Result<ByteBuffer, VortexError>
    requires counts { AreCountBytes size_type sizes.now }
    requires holds { Holds O.PTYPE (pos (sum (counts_of size_type sizes.now))) }
    ensures { Gives result (λ b.
        HoldCounts O.PTYPE b (starts_from 0 (counts_of size_type sizes.now))) }
{
    call_native!(size_type, typed_starts::<O>(alloc, sizes))
}

fn typed_starts<O: NativePType, S: NativePType>(
    alloc: Global,
    sizes: &[u8],
) -> Result<ByteBuffer, VortexError>
    requires counts { AreCountBytes S.PTYPE sizes.now }
    requires holds { Holds O.PTYPE (pos (sum (counts_of S.PTYPE sizes.now))) }
    ensures { Gives result (λ b.
        HoldCounts O.PTYPE b (starts_from 0 (counts_of S.PTYPE sizes.now))) }
{
    let len = number_count(sizes, S::PTYPE).saturating_mul(O::PTYPE.byte_width());
    let mut out = vec![in alloc; 0u8; len]?;
    put_starts::<O, S>(sizes, &mut out);
    Ok(ByteBuffer::from_vec(alloc, out)?)
}

#[inline(never)]
fn put_starts<O: NativePType, S: NativePType>(sizes: &[u8], out: &mut [u8])
    requires counts { AreCountBytes S.PTYPE sizes.now }
    requires holds { Holds O.PTYPE (pos (sum (counts_of S.PTYPE sizes.now))) }
    requires room { length out.old ≡ length (numbers S.PTYPE sizes.now) * byte_width O.PTYPE }
    ensures { HoldCounts O.PTYPE out.new (starts_from 0 (counts_of S.PTYPE sizes.now)) }
{
    let mut at = 0;
    for row in 0..number_count(sizes, S::PTYPE) {
        put_count::<O>(out, row, at);
        at += count_of_bytes::<S>(sizes, row);
    }
}

// How the elements of these lists lie, one list after another: in runs, those that meet joined.
pub(crate) fn element_runs(
    alloc: Global,
    offset_type: PType,
    offsets: &[u8],
    size_type: PType,
    sizes: &[u8],
) -> Result<Vec<(usize, usize)>, VortexError>
    requires { AreListBytes offset_type offsets.now size_type sizes.now }
    ensures { Gives result (λ runs. flat_map run_positions runs.items
        ≡ joined_positions (counts_of offset_type offsets.now) (counts_of size_type sizes.now)) }
{
    call_native!(offset_type, runs_from(alloc, offsets, size_type, sizes))
}

fn runs_from<O: NativePType>(
    alloc: Global,
    offsets: &[u8],
    size_type: PType,
    sizes: &[u8],
) -> Result<Vec<(usize, usize)>, VortexError>
    requires { AreListBytes O.PTYPE offsets.now size_type sizes.now }
    ensures { Gives result (λ runs. flat_map run_positions runs.items
        ≡ joined_positions (counts_of O.PTYPE offsets.now) (counts_of size_type sizes.now)) }
{
    call_native!(size_type, typed_runs::<O>(alloc, offsets, sizes))
}

#[inline(never)]
fn typed_runs<O: NativePType, S: NativePType>(
    alloc: Global,
    offsets: &[u8],
    sizes: &[u8],
) -> Result<Vec<(usize, usize)>, VortexError>
    requires { AreListBytes O.PTYPE offsets.now S.PTYPE sizes.now }
    ensures { Gives result (λ runs. flat_map run_positions runs.items
        ≡ joined_positions (counts_of O.PTYPE offsets.now) (counts_of S.PTYPE sizes.now)) }
{
    let count = number_count(offsets, O::PTYPE);
    let mut runs = Vec::new(alloc);
    let mut start = 0;
    let mut end = 0;
    for row in 0..count {
        let offset = count_of_bytes::<O>(offsets, row);
        let size = count_of_bytes::<S>(sizes, row);
        let meets = size == 0 || offset == end;
        if meets {
            end += size;
        } else {
            runs.push((start, end))?;
            start = offset;
            end = offset + size;
        }
    }
    runs.push((start, end))?;
    Ok(runs)
}
