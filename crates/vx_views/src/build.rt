// Building views and buffers from a heap of values.

ghost use Rattle.std.specs.Prelude.{◌≡◌, ◌≤◌, ◌<◌, ◌+◌, ◌^◌, ◌≤ℤ◌, ℕ, pos, List, None, length, map, IfOk, IfSome, IfNone};
ghost use Rattle.vx_base.specs.Refusals.{Gives, Refuses};
ghost use Rattle.vx_views.specs.Cut.{IsCut};
ghost use Rattle.vx_views.specs.Places.{AreBuilt, ReadBack, value_at};
ghost use Rattle.vx_views.specs.BuildFaults.{lengths_of, lengths_between, differences, used_part, bytes_between, lengths_fault};
ghost use Rattle.vx_base.specs.Integers.{number_nth};
ghost use Rattle.vx_views.specs.BuildFaults.{offsets_fault, build_fault, build_from_offsets_fault, IsPieceCount, AreRising};

use crate::length_checks::{check_lengths, check_offsets, used_range};
use crate::lengths::{Lengths, OffsetLengths, RowLengths, difference};
use crate::view::{BinaryView, MAX_BUFFER_LEN};
use std::alloc::Global;
use vx_base::{Buffer, ByteBuffer, NativePType, VortexError};

// Cuts a heap into the pieces of the maximal cut of its values, and gives the pieces and the
// views of the values; none where the lengths have a fault, or the pieces cannot be numbered.
fn cut_heap<L: Lengths>(
    alloc: Global,
    start: u32,
    limit: usize,
    heap: &ByteBuffer,
    lengths: &L,
) -> Result<Option<(Vec<ByteBuffer>, Vec<BinaryView>)>, VortexError>
    requires { limit ≤ MAX_BUFFER_LEN }
    ensures built { Gives result (λ r. IfSome r (λ made.
        AreBuilt start limit heap.now (lengths_of (L.numbers lengths.now)) made.0.items made.1.items)) }
    ensures read_back { IfOk result (λ r. IfSome r (λ made.
        ReadBack start (value_at heap.now (lengths_of (L.numbers lengths.now))) made.0.items made.1.items)) }
    ensures faultless { IfOk result (λ r. IfSome r (λ _.
        lengths_fault limit (length heap.now) (L.numbers lengths.now) ≡ None)) }
    ensures stopped { IfOk result (λ r. IfNone r (
        lengths_fault limit (length heap.now) (L.numbers lengths.now) ≡ None →
        (ends : List ℕ) → IsCut limit (lengths_of (L.numbers lengths.now)) ends
        → 2 ^ 32 < start + length ends)) }
{
    let bytes = heap.as_slice();
    let mut buffers = Vec::new(alloc);
    let mut views = Vec::with_capacity(alloc, lengths.count())?;
    let mut number = start;
    let mut begin = 0;
    let mut at = 0;
    for row in 0..lengths.count() {
        let Some(size) = lengths.length_at(row) else {
            return Ok(None);
        };
        if limit < size || bytes.len() - at < size {
            return Ok(None);
        }
        if limit < at - begin + size {
            if number == u32::MAX {
                return Ok(None);
            }
            buffers.push(heap.slice(alloc, begin..at)?)?;
            number += 1;
            begin = at;
        }
        let value = &bytes[at..at + size];
        views.push(BinaryView::make_view(value, number, (at - begin) as u32))?;
        at += size;
    }
    if at < bytes.len() {
        return Ok(None);
    }
    if begin < at {
        buffers.push(heap.slice(alloc, begin..at)?)?;
    }
    Ok(Some((buffers, views)))
}

/// Cuts a heap of values, which stand one after another and have these lengths, into buffers of at
/// most `limit` bytes, and makes the view of each value.
///
/// The buffers are shared with `bytes`, are as few as any cut at the values' ends could give, and
/// none is empty. They are numbered from `start` on: the views read their values where `start`
/// other buffers come first. Bytes of values that stand in their views stay in the buffers.
///
/// Refuses, in this order: `LimitTooLarge` where `limit` passes `MAX_BUFFER_LEN`; `Negative` at the
/// first negative length; `LengthsNotExact` where the lengths do not sum to the heap's length;
/// `ValueTooLong` at the first value longer than `limit`; `Overflow` where the last buffer's number
/// would pass `u32`.
pub fn build_views<P: NativePType>(
    alloc: Global,
    start: u32,
    limit: usize,
    bytes: ByteBuffer,
    lens: &[P],
) -> Result<(Vec<ByteBuffer>, Buffer<BinaryView>), VortexError>
    ensures built { IfOk result (λ made.
        AreBuilt start limit bytes (lengths_of (map P.value lens.now)) made.0.items made.1) }
    ensures read_back { IfOk result (λ made.
        ReadBack start (value_at bytes (lengths_of (map P.value lens.now))) made.0.items made.1) }
    ensures fewest { IfOk result (λ made. (others : List ℕ) →
        IsCut limit (lengths_of (map P.value lens.now)) others
        → length made.0.items ≤ length others) }
    ensures refuses { (pieces : ℕ) × (IsPieceCount limit (lengths_of (map P.value lens.now)) pieces
        × Refuses result (build_fault start limit (length bytes) (map P.value lens.now) pieces)) }
{
    let lengths = RowLengths(lens);
    if MAX_BUFFER_LEN < limit {
        return Err(VortexError::LimitTooLarge);
    }
    match cut_heap(alloc, start, limit, &bytes, &lengths)? {
        Some((buffers, views)) => Ok((buffers, Buffer::from_vec(alloc, views)?)),
        None => {
            check_lengths(limit, bytes.len(), &lengths)?;
            Err(VortexError::Overflow)
        }
    }
}

// Cuts the part of a heap that offsets use, as `cut_heap` does; none where the offsets have a
// fault, or the pieces cannot be numbered.
fn cut_at_offsets<P: NativePType>(
    alloc: Global,
    start: u32,
    limit: usize,
    bytes: &ByteBuffer,
    offsets: &[P],
) -> Result<Option<(Vec<ByteBuffer>, Vec<BinaryView>)>, VortexError>
    requires { limit ≤ MAX_BUFFER_LEN }
    ensures built { Gives result (λ r. IfSome r (λ made.
        AreBuilt start limit (used_part bytes.now (map P.value offsets.now))
        (lengths_between (map P.value offsets.now)) made.0.items made.1.items)) }
    ensures read_back { IfOk result (λ r. IfSome r (λ made.
        ReadBack start (value_at (used_part bytes.now (map P.value offsets.now))
        (lengths_between (map P.value offsets.now))) made.0.items made.1.items)) }
    ensures faultless { IfOk result (λ r. IfSome r (λ made.
        offsets_fault limit (length bytes.now) (map P.value offsets.now) ≡ None)) }
    ensures stopped { IfOk result (λ r. IfNone r (
        offsets_fault limit (length bytes.now) (map P.value offsets.now) ≡ None →
        (ends : List ℕ) → IsCut limit (lengths_between (map P.value offsets.now)) ends
        → 2 ^ 32 < start + length ends)) }
{
    match used_range(bytes.len(), offsets) {
        None => Ok(None),
        Some((first, last)) => {
            let heap = bytes.slice(alloc, first..last)?;
            cut_heap(alloc, start, limit, &heap, &OffsetLengths(offsets))
        }
    }
}

/// Cuts the part of a heap between the first and the last offset, as `build_views` does: the value
/// of a row stands between its offset and the next one.
///
/// Refuses, in this order: `LimitTooLarge` where `limit` passes `MAX_BUFFER_LEN`; `EmptyInput`
/// where there is no offset; `Negative` at the first negative offset; `FallingOffsets` at the first
/// offset that is less than the one before it; `OutOfBounds` with the last offset, where it lies
/// past the heap; `ValueTooLong` at the first value longer than `limit`; `Overflow` where the last
/// buffer's number would pass `u32`.
pub fn build_views_from_offsets<P: NativePType>(
    alloc: Global,
    start: u32,
    limit: usize,
    bytes: ByteBuffer,
    offsets: &[P],
) -> Result<(Vec<ByteBuffer>, Buffer<BinaryView>), VortexError>
    ensures built { IfOk result (λ made.
        AreBuilt start limit (used_part bytes (map P.value offsets.now))
        (lengths_between (map P.value offsets.now)) made.0.items made.1) }
    ensures read_back { IfOk result (λ made.
        ReadBack start (value_at (used_part bytes (map P.value offsets.now))
        (lengths_between (map P.value offsets.now))) made.0.items made.1) }

    // The value of a row is the bytes between its offset and the next one.
    ensures values { IfOk result (λ made.
        ReadBack start (bytes_between bytes (map P.value offsets.now)) made.0.items made.1) }
    ensures fewest { IfOk result (λ made. (others : List ℕ) →
        IsCut limit (lengths_between (map P.value offsets.now)) others
        → length made.0.items ≤ length others) }
    ensures refuses { (pieces : ℕ)
        × (IsPieceCount limit (lengths_between (map P.value offsets.now)) pieces
        × Refuses result
        (build_from_offsets_fault start limit (length bytes) (map P.value offsets.now) pieces)) }
{
    let heap_len = bytes.len();
    if MAX_BUFFER_LEN < limit {
        return Err(VortexError::LimitTooLarge);
    }
    match cut_at_offsets(alloc, start, limit, &bytes, offsets)? {
        Some((buffers, views)) => Ok((buffers, Buffer::from_vec(alloc, views)?)),
        None => {
            check_offsets(limit, heap_len, offsets)?;
            Err(VortexError::Overflow)
        }
    }
}

/// The lengths of the values between offsets: each offset but the first, less the one before it.
/// Asks that the first, if there is one, is at least 0 and that they never fall. Fails only for
/// want of memory.
pub fn offsets_to_lengths<P: NativePType>(
    alloc: Global,
    offsets: &[P],
) -> Result<Buffer<P>, VortexError>
    requires natural { pos 0 ≤ℤ number_nth (map P.value offsets.now) 0 }
    requires rising { AreRising (map P.value offsets.now) }
    ensures { Gives result (λ lengths. map P.value lengths
        ≡ differences (map P.value offsets.now)) }
{
    let count = offsets.len().saturating_sub(1);
    let mut lengths = Vec::with_capacity(alloc, count)?;
    for row in 0..count {
        lengths.push(P::from_i128(difference(offsets, row)).unwrap())?;
    }
    Buffer::from_vec(alloc, lengths)
}
