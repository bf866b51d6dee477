// Finding the first fault of lengths and offsets.

ghost use Rattle.std.specs.Prelude.{◌≡◌, ◌≢◌, ◌<◌, ℕ, None, length, map, IfNone, IfSome};
ghost use Rattle.vx_base.specs.Refusals.{Tests};
ghost use Rattle.vx_views.specs.BuildFaults.{IsUsedRange, first_negative, first_falling, first_too_long, sum_fault, lengths_fault};
ghost use Rattle.vx_views.specs.BuildFaults.{offsets_fault};

use crate::lengths::{Lengths, OffsetLengths, RowLengths, natural};
use vx_base::{NativePType, VortexError};

// Finds the first row whose number is negative.
fn check_natural<L: Lengths>(lengths: &L) -> Result<(), VortexError>
    ensures { Tests result (first_negative (L.numbers lengths.now)) }
{
    for row in 0..lengths.count() {
        let Some(_) = lengths.length_at(row) else {
            return Err(VortexError::Negative { row });
        };
    }
    Ok(())
}

// Finds out whether the lengths are those of a heap of so many bytes.
fn check_exact<L: Lengths>(heap_len: usize, lengths: &L) -> Result<(), VortexError>
    requires { first_negative (L.numbers lengths.now) ≡ None }
    ensures { Tests result (sum_fault heap_len (L.numbers lengths.now)) }
{
    let mut rest = heap_len;
    for row in 0..lengths.count() {
        let size = lengths.length_at(row).unwrap();
        if rest < size {
            return Err(VortexError::LengthsNotExact);
        }
        rest -= size;
    }
    if rest == 0 {
        Ok(())
    } else {
        Err(VortexError::LengthsNotExact)
    }
}

// Finds the first row whose value is longer than the limit.
fn check_short<L: Lengths>(limit: usize, lengths: &L) -> Result<(), VortexError>
    requires { first_negative (L.numbers lengths.now) ≡ None }
    ensures { Tests result (first_too_long limit (L.numbers lengths.now)) }
{
    for row in 0..lengths.count() {
        if limit < lengths.length_at(row).unwrap() {
            return Err(VortexError::ValueTooLong { row });
        }
    }
    Ok(())
}

// Finds the first offset that is less than the one before it.
fn check_rising<P: NativePType>(offsets: &[P]) -> Result<(), VortexError>
    requires { 0 < length offsets.now }
    ensures { Tests result (first_falling (map P.value offsets.now)) }
{
    for row in 1..offsets.len() {
        if offsets[row].as_i128() < offsets[row - 1].as_i128() {
            return Err(VortexError::FallingOffsets { row });
        }
    }
    Ok(())
}

/// Finds the first fault of lengths over a heap of so many bytes.
pub fn check_lengths<L: Lengths>(
    limit: usize,
    heap_len: usize,
    lengths: &L,
) -> Result<(), VortexError>
    ensures { Tests result (lengths_fault limit heap_len (L.numbers lengths.now)) }
{
    check_natural(lengths)?;
    check_exact(heap_len, lengths)?;
    check_short(limit, lengths)
}

/// Finds the first fault of offsets into a heap of so many bytes.
pub fn check_offsets<P: NativePType>(
    limit: usize,
    heap_len: usize,
    offsets: &[P],
) -> Result<(), VortexError>
    ensures { Tests result (offsets_fault limit heap_len (map P.value offsets.now)) }
{
    if offsets.is_empty() {
        return Err(VortexError::EmptyInput);
    }
    check_natural(&RowLengths(offsets))?;
    check_rising(offsets)?;
    let last = natural(offsets[offsets.len() - 1]).unwrap();
    if heap_len < last {
        return Err(VortexError::OutOfBounds {
            index: last,
            len: heap_len,
        });
    }
    check_short(limit, &OffsetLengths(offsets))
}

/// The part of a heap of so many bytes that offsets use, from the first to the last; none where
/// there is no such part.
pub fn used_range<P: NativePType>(heap_len: usize, offsets: &[P]) -> Option<(usize, usize)>
    ensures some { IfSome result (λ r. IsUsedRange heap_len (map P.value offsets.now) r.0 r.1) }
    ensures none { IfNone result ((limit : ℕ)
        → offsets_fault limit heap_len (map P.value offsets.now) ≢ None) }
{
    if offsets.is_empty() {
        return None;
    }
    let first = natural(offsets[0])?;
    let last = natural(offsets[offsets.len() - 1])?;
    if first <= last && last <= heap_len {
        Some((first, last))
    } else {
        None
    }
}
