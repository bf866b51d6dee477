// Booleans that are gathered.

ghost use Rattle.std.specs.Prelude.{◌≡◌, ◌<◌, ◌≤◌, ◌*◌, ◌+◌, ◌^◌, ◌++◌, IfOk, length, map, slice_index_or};
ghost use Rattle.vx_base.specs.Refusals.{Gives};
ghost use Rattle.std.specs.List.{All, flat_map};
ghost use Rattle.vx_base.specs.Bits.{unpacked, bool_at};
ghost use Rattle.vx_base.specs.Selections.{run_positions, list_positions};

use crate::bit_buffer::BitBuffer;
use crate::bit_buffer_mut::{BitBufferMut, put_last};
use crate::bit_bytes::{byte_of, put_bit};
use crate::byte_buffer::ByteBuffer;
use crate::errors::VortexError;
use crate::gather::{Gather, gather_rows};
use crate::places::Places;
use crate::selection::Selection;
use std::alloc::Global;

// Runs of at least 256 x (runs + 1) booleans in all, and lists of more than 256 each, are appended
// one after another, so that each part of the result is cleared just before it is written. Shorter
// ones are written over zeroes.
const LONG: usize = 256;

// Booleans of which some are gathered.
#[derive(Drop)]
struct Bits<'a> {
    bits: &'a BitBuffer,
}

/// The booleans that are picked, in their order. Asks that each position has a boolean. Fails only
/// for want of memory.
pub fn gather_bits(
    alloc: Global,
    bits: &BitBuffer,
    selection: &Selection,
) -> Result<BitBuffer, VortexError>
    requires { All (λ k. k < length bits.now.bits) selection.now }
    ensures bits { Gives result (λ b. b.bits ≡ map (bool_at bits.now.bits) selection.now) }
    ensures offset { IfOk result (λ b. b.offset ≡ 0) }
{
    gather_rows(alloc, Bits { bits }, selection)
}

impl Gather for Bits<'_> {
    type Gathered = BitBuffer;

    ghost HasRows = { λ s ks. All (λ k. k < length s.bits.now.bits) ks };

    ghost AreGathered = { λ s ks b. (b.bits ≡ map (bool_at s.bits.now.bits) ks) × (b.offset ≡ 0) };

    fn at<P: Places>(self, alloc: Global, places: P) -> Result<BitBuffer, VortexError> {
        let len = places.count();
        let mut bytes = vec![in alloc; 0u8; len.div_ceil(8)]?;
        put_bits_at::<P>(self.bits, places, &mut bytes);
        Ok(BitBuffer::from_parts(ByteBuffer::from_vec(alloc, bytes)?, 0, len))
    }

    #[tactic(auto, using(crate::proofs::Repeated::map_repeated))]
    fn repeated(
        self,
        alloc: Global,
        position: usize,
        len: usize,
    ) -> Result<BitBuffer, VortexError> {
        if len == 0 {
            return BitBuffer::new_unset(alloc, 0);
        }
        BitBuffer::full(alloc, self.bits.value(position), len)
    }

    fn of_runs(
        self,
        alloc: Global,
        runs: &[(usize, usize)],
        len: usize,
    ) -> Result<BitBuffer, VortexError> {
        if len / LONG > runs.len() {
            return append_runs(alloc, self.bits, runs, len);
        }
        let mut bytes = vec![in alloc; 0u8; len.div_ceil(8)]?;
        put_runs(self.bits, runs, &mut bytes);
        Ok(BitBuffer::from_parts(ByteBuffer::from_vec(alloc, bytes)?, 0, len))
    }

    fn of_lists<P: Places>(
        self,
        alloc: Global,
        lists: P,
        size: usize,
        len: usize,
    ) -> Result<BitBuffer, VortexError> {
        if size > LONG {
            return append_lists::<P>(alloc, self.bits, lists, size, len);
        }
        let mut bytes = vec![in alloc; 0u8; len.div_ceil(8)]?;
        put_lists::<P>(self.bits, lists, size, &mut bytes);
        Ok(BitBuffer::from_parts(ByteBuffer::from_vec(alloc, bytes)?, 0, len))
    }
}

// Writes the booleans at these positions, eight to a byte. Not inlined, so that the loop stands by
// itself, where what it writes is known to be nothing that it reads.
#[inline(never)]
fn put_bits_at<P: Places>(bits: &BitBuffer, places: P, out: &mut [u8])
    requires within { All (λ k. k < length bits.now.bits) (P.positions places) }
    requires room { length (P.positions places) ≤ 8 * length out.old }
    ensures len { length out.new ≡ length out.old }
    ensures bits { unpacked out.new 0 (length (P.positions places)) ≡ map (bool_at bits.now.bits) (P.positions places) }
{
    let len = places.count();
    let whole = len / 8;
    for j in 0..whole {
        let at = 8 * j;
        out[j] = byte_of([
            bit_at(bits, places, at),
            bit_at(bits, places, at + 1),
            bit_at(bits, places, at + 2),
            bit_at(bits, places, at + 3),
            bit_at(bits, places, at + 4),
            bit_at(bits, places, at + 5),
            bit_at(bits, places, at + 6),
            bit_at(bits, places, at + 7),
        ]);
    }
    for i in 8 * whole..len {
        put_bit(out, i, bit_at(bits, places, i));
    }
}

// The boolean at the position that stands at a place.
#[inline]
fn bit_at<P: Places>(bits: &BitBuffer, places: P, i: usize) -> bool
    requires within { All (λ k. k < length bits.now.bits) (P.positions places) }
    requires place { i < length (P.positions places) }
    ensures { result ≡ bool_at bits.now.bits (slice_index_or (P.positions places) i 0) }
{
    bits.value(places.at(i))
}

// Writes the booleans of these runs, one run after another. Not inlined, as the loop above.
#[inline(never)]
fn put_runs(bits: &BitBuffer, runs: &[(usize, usize)], out: &mut [u8])
    requires within { All (λ k. k < length bits.now.bits) (flat_map run_positions runs.now) }
    requires room { length (flat_map run_positions runs.now) ≤ 8 * length out.old }
    requires fits { length (flat_map run_positions runs.now) < 2 ^ 64 }
    ensures len { length out.new ≡ length out.old }
    ensures bits { unpacked out.new 0 (length (flat_map run_positions runs.now))
        ≡ map (bool_at bits.now.bits) (flat_map run_positions runs.now) }
{
    let mut at = 0;
    for run in runs {
        at = put_run(bits, *run, out, at);
    }
}

// Writes the booleans of these lists of `size` booleans each, one list after another.
#[inline(never)]
fn put_lists<P: Places>(bits: &BitBuffer, lists: P, size: usize, out: &mut [u8])
    requires within { All (λ k. k < length bits.now.bits) (flat_map (list_positions size) (P.positions lists)) }
    requires room { length (flat_map (list_positions size) (P.positions lists)) ≤ 8 * length out.old }
    requires fits { length (flat_map (list_positions size) (P.positions lists)) < 2 ^ 64 }
    ensures len { length out.new ≡ length out.old }
    ensures bits { unpacked out.new 0 (length (flat_map (list_positions size) (P.positions lists)))
        ≡ map (bool_at bits.now.bits) (flat_map (list_positions size) (P.positions lists)) }
{
    let count = lists.count();
    // No list is longer than all booleans.
    prove!(size <= bits.len() || count == 0);
    let mut at = 0;
    for i in 0..count {
        let start = lists.at(i) * size;
        at = put_run(bits, (start, start + size), out, at);
    }
}

// Writes the booleans of a run, none where there is none between its ends, to the bits from `at`
// on, and gives the place after them. What there is after them may change.
#[inline]
fn put_run(bits: &BitBuffer, run: (usize, usize), out: &mut [u8], at: usize) -> usize
    requires within { All (λ k. k < length bits.now.bits) (run_positions run) }
    requires room { at + length (run_positions run) ≤ 8 * length out.old }
    requires fits { at + length (run_positions run) < 2 ^ 64 }
    ensures len { length out.new ≡ length out.old }
    ensures place { result ≡ at + length (run_positions run) }
    ensures bits { unpacked out.new 0 result ≡ unpacked out.old 0 at ++ map (bool_at bits.now.bits) (run_positions run) }
{
    let (start, end) = run;
    if end <= start {
        return at;
    }
    let next = at + (end - start);
    put_last(out, at, next, bits, start);
    next
}

// The booleans of these runs, of which there are `len` in all, appended one run after another.
fn append_runs(
    alloc: Global,
    bits: &BitBuffer,
    runs: &[(usize, usize)],
    len: usize,
) -> Result<BitBuffer, VortexError>
    requires within { All (λ k. k < length bits.now.bits) (flat_map run_positions runs.now) }
    requires len { len ≡ length (flat_map run_positions runs.now) }
    ensures bits { Gives result (λ b. b.bits ≡ map (bool_at bits.now.bits) (flat_map run_positions runs.now)) }
    ensures offset { IfOk result (λ b. b.offset ≡ 0) }
{
    let mut picked = BitBufferMut::with_capacity(alloc, len)?;
    for run in runs {
        let (start, end) = *run;
        append_run(&mut picked, bits, start, end)?;
    }
    picked.freeze()
}

// The booleans of these lists of `size` booleans each, of which there are `len` in all, appended
// one list after another.
fn append_lists<P: Places>(
    alloc: Global,
    bits: &BitBuffer,
    lists: P,
    size: usize,
    len: usize,
) -> Result<BitBuffer, VortexError>
    requires within { All (λ k. k < length bits.now.bits) (flat_map (list_positions size) (P.positions lists)) }
    requires len { len ≡ length (flat_map (list_positions size) (P.positions lists)) }
    ensures bits { Gives result (λ b. b.bits ≡ map (bool_at bits.now.bits) (flat_map (list_positions size) (P.positions lists))) }
    ensures offset { IfOk result (λ b. b.offset ≡ 0) }
{
    let count = lists.count();
    // No list is longer than all booleans.
    prove!(size <= bits.len() || count == 0);
    let mut picked = BitBufferMut::with_capacity(alloc, len)?;
    for i in 0..count {
        let start = lists.at(i) * size;
        append_run(&mut picked, bits, start, start + size)?;
    }
    picked.freeze()
}

// Appends the booleans from `start` up to `end`, none where there is none between.
fn append_run(
    picked: &mut BitBufferMut,
    bits: &BitBuffer,
    start: usize,
    end: usize,
) -> Result<(), VortexError>
    requires within { All (λ k. k < length bits.now.bits) (run_positions (start, end)) }
    requires countable { length picked.old + length (run_positions (start, end)) < 2 ^ 64 }
    ensures { Gives result (λ _. picked.new ≡ picked.old ++ map (bool_at bits.now.bits) (run_positions (start, end))) }
{
    if start < end {
        picked.append_slice(bits, start, end)?;
    }
    Ok(())
}
