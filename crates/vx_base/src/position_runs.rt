// Positions that follow one another. Eight are written at once, with no branch on how many are
// wanted, and those past the last are written over by the next.

ghost use Rattle.std.specs.Prelude.{ℕ, ◌≡◌, ◌+◌, ◌-◌, ◌<◌, ◌≤◌, ◌^◌, ◌++◌, [], length, take};
ghost use Rattle.std.specs.List.{flat_map, range_with_len};
ghost use Rattle.std.specs.Vec.{vec_len, vec_capacity};
ghost use Rattle.vx_base.specs.Refusals.{Gives};
ghost use Rattle.vx_base.specs.Selections.{run_positions};

use crate::errors::VortexError;
use std::alloc::Global;

// How many positions are written at once.
const AT_ONCE: usize = 8;

/// More positions than these, of 8 bytes each, leave the cache before they are written over: to
/// clear memory for them takes as long as eight at once save.
pub const MANY_POSITIONS: usize = 1 << 19;

// The positions of these runs, of which there are `len` in all.
pub(crate) fn positions_of_runs(
    alloc: Global,
    runs: &[(usize, usize)],
    len: usize,
) -> Result<Vec<usize>, VortexError>
    requires { len ≡ length (flat_map run_positions runs.now) }
    ensures { Gives result (λ positions. positions.items ≡ flat_map run_positions runs.now) }
{
    if len > MANY_POSITIONS {
        let mut positions = Vec::with_capacity(alloc, len)?;
        push_runs(runs, &mut positions);
        return Ok(positions);
    }
    let mut positions = vec![in alloc; 0usize; len]?;
    put_runs(runs, &mut positions);
    Ok(positions)
}

// Pushes the positions of these runs, for which there is room. Not inlined, so that the loop stands
// by itself, where what it writes is known to be nothing that it reads.
#[inline(never)]
fn push_runs(runs: &[(usize, usize)], positions: &mut Vec<usize>)
    requires empty { positions.old.items ≡ [] }
    requires room { length (flat_map run_positions runs.now) ≤ vec_capacity positions.old }
    ensures { positions.new.items ≡ flat_map run_positions runs.now }
{
    for run in runs {
        let (start, end) = *run;
        push_positions(positions, start, end.max(start));
    }
}

// Writes the positions of these runs. Not inlined, as the loop above.
#[inline(never)]
fn put_runs(runs: &[(usize, usize)], out: &mut [usize])
    requires { length out.old ≡ length (flat_map run_positions runs.now) }
    ensures { out.new ≡ flat_map run_positions runs.now }
{
    let mut at = 0;
    for run in runs {
        let (start, end) = *run;
        let count = end.saturating_sub(start);
        put_positions(out, at, start, count);
        at += count;
    }
}

/// Pushes the positions from `start` up to `end`, for which there is room. For the crates above.
#[inline]
pub fn push_positions(positions: &mut Vec<usize>, start: usize, end: usize)
    requires ordered { start ≤ end }
    requires room { vec_len positions.old + (end - start) ≤ vec_capacity positions.old }
    ensures items { positions.new.items ≡ positions.old.items ++ range_with_len start (end - start) }
    ensures capacity { vec_capacity positions.new ≡ vec_capacity positions.old }
{
    for position in start..end {
        positions.push_reserved(position);
    }
}

/// Writes `count` positions from `start` on to the places from `at` on: by eights, or one by one
/// where eight more would go past the last place. What there is after them may change. For the
/// crates above.
#[inline]
pub fn put_positions(out: &mut [usize], at: usize, start: usize, count: usize)
    requires room { at + count ≤ length out.old }
    requires end { start + count < 2 ^ 64 }
    ensures len { length out.new ≡ length out.old }
    ensures put { take (at + count) out.new ≡ take at out.old ++ range_with_len start count }
{
    if out.len() - at - count < AT_ONCE {
        put_each(out, at, start, count);
    } else {
        put_eights(out, at, start, count);
    }
}

// Writes `count` positions from `start` on to the places from `at` on, one by one.
fn put_each(out: &mut [usize], at: usize, start: usize, count: usize)
    requires room { at + count ≤ length out.old }
    requires end { start + count < 2 ^ 64 }
    ensures len { length out.new ≡ length out.old }
    ensures put { take (at + count) out.new ≡ take at out.old ++ range_with_len start count }
{
    for i in 0..count {
        out[at + i] = start + i;
    }
}

// Writes `count` positions from `start` on to the places from `at` on, by eights. What there is
// after them may change.
#[inline]
fn put_eights(out: &mut [usize], at: usize, start: usize, count: usize)
    requires room { at + count + 8 ≤ length out.old }
    requires end { start + count < 2 ^ 64 }
    ensures len { length out.new ≡ length out.old }
    ensures put { take (at + count) out.new ≡ take at out.old ++ range_with_len start count }
{
    put_eight(out, at, start);
    for j in 1..count.div_ceil(AT_ONCE) {
        put_eight(out, at + AT_ONCE * j, start + AT_ONCE * j);
    }
}

// Writes eight numbers from `start` on, the next of the greatest being 0. As many of them are
// positions as are wanted.
#[inline]
fn put_eight(out: &mut [usize], at: usize, start: usize)
    requires room { at + 8 ≤ length out.old }
    ensures len { length out.new ≡ length out.old }
    ensures put { (n : ℕ) → n ≤ 8 → start + n ≤ 2 ^ 64
        → take (at + n) out.new ≡ take at out.old ++ range_with_len start n }
{
    for i in 0..AT_ONCE {
        out[at + i] = start.wrapping_add(i);
    }
}
