// Counts that stand as bytes of an integer type, as offsets and sizes of lists do.

ghost use Rattle.std.specs.Prelude.{◌≡◌, ◌<◌, ◌≤◌, ◌+◌, ◌^◌, drop, length, slice_index, sum, take, MatchResult};
ghost use Rattle.vx_base.specs.Integers.{numbers};
ghost use Rattle.vx_base.specs.declared.errors.VortexError.TheVariants.{Overflow};
ghost use Rattle.vx_pack.specs.CountBytes.{AreCountBytes, counts_of};

use vx_base::{NativePType, PType, VortexError, call_native, int_at, number_count};

// Count `i` of these bytes.
#[inline(always)]
pub(crate) fn count_of_bytes<T: NativePType>(bytes: &[u8], i: usize) -> usize
    requires counts { AreCountBytes T.PTYPE bytes.now }
    requires in_bounds { i < length (numbers T.PTYPE bytes.now) }
    ensures { result ≡ slice_index (counts_of T.PTYPE bytes.now) i }
{
    int_at(bytes, T::PTYPE, i) as usize
}

// Puts as many of these counts as there is room for, from one on.
pub(crate) fn put_counts(ptype: PType, bytes: &[u8], first: usize, out: &mut [usize])
    requires counts { AreCountBytes ptype bytes.now }
    requires within { first + length out.old ≤ length (numbers ptype bytes.now) }
    ensures { out.new ≡ take (length out.old) (drop first (counts_of ptype bytes.now)) }
{
    call_native!(ptype, put_typed_counts(bytes, first, out))
}

// Puts as many of these counts of one type as there is room for, from one on.
#[inline(never)]
fn put_typed_counts<T: NativePType>(bytes: &[u8], first: usize, out: &mut [usize])
    requires counts { AreCountBytes T.PTYPE bytes.now }
    requires within { first + length out.old ≤ length (numbers T.PTYPE bytes.now) }
    ensures { out.new ≡ take (length out.old) (drop first (counts_of T.PTYPE bytes.now)) }
{
    for i in 0..out.len() {
        out[i] = count_of_bytes::<T>(bytes, first + i);
    }
}

// All these counts together: asks that they can be counted.
pub(crate) fn sum_of_counts(ptype: PType, counts: &[u8]) -> usize
    requires counts { AreCountBytes ptype counts.now }
    requires countable { sum (counts_of ptype counts.now) < 2 ^ 64 }
    ensures { result ≡ sum (counts_of ptype counts.now) }
{
    call_native!(ptype, sum_of_typed(counts))
}

// All these counts of one type together: asks that they can be counted.
#[inline(never)]
fn sum_of_typed<T: NativePType>(counts: &[u8]) -> usize
    requires counts { AreCountBytes T.PTYPE counts.now }
    requires countable { sum (counts_of T.PTYPE counts.now) < 2 ^ 64 }
    ensures { result ≡ sum (counts_of T.PTYPE counts.now) }
{
    let mut total = 0;
    for i in 0..number_count(counts, T::PTYPE) {
        total += count_of_bytes::<T>(counts, i);
    }
    total
}

// So many, and all these counts. Refuses `Overflow` where they are more than the limit.
pub(crate) fn total_with_counts(
    ptype: PType,
    counts: &[u8],
    before: usize,
    limit: usize,
) -> Result<usize, VortexError>
    requires counts { AreCountBytes ptype counts.now }
    requires within { before ≤ limit }
    ensures { let count = before + sum (counts_of ptype counts.now) in
        MatchResult result (λ total. (total ≡ count) × (total ≤ limit)) (λ e. (e ≡ Overflow) × (limit < count)) }
{
    call_native!(ptype, total_with_typed(counts, before, limit))
}

// So many, and all these counts of one type. Refuses `Overflow` where they are more than the limit.
#[inline(never)]
fn total_with_typed<T: NativePType>(
    counts: &[u8],
    before: usize,
    limit: usize,
) -> Result<usize, VortexError>
    requires counts { AreCountBytes T.PTYPE counts.now }
    requires within { before ≤ limit }
    ensures { let count = before + sum (counts_of T.PTYPE counts.now) in
        MatchResult result (λ total. (total ≡ count) × (total ≤ limit)) (λ e. (e ≡ Overflow) × (limit < count)) }
{
    let mut total = before;
    for i in 0..number_count(counts, T::PTYPE) {
        match total.checked_add(count_of_bytes::<T>(counts, i)) {
            Some(more) if more <= limit => total = more,
            _ => return Err(VortexError::Overflow),
        }
    }
    Ok(total)
}
