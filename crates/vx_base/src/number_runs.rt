// Runs of numbers that are gathered: the short ones by way of a block.

ghost use Rattle.std.specs.Prelude.{◌≡◌, ◌<◌, ◌≤◌, ◌*◌, ◌+◌, ◌++◌, IfOk, length, slice_range, take};
ghost use Rattle.vx_base.specs.Refusals.{Gives};
ghost use Rattle.std.specs.List.{All, flat_map};
ghost use Rattle.vx_base.specs.Selections.{run_positions, bytes_of_position, held};

use crate::errors::VortexError;

// How many numbers a block has before it is written.
const BLOCK: usize = 512;

// How many numbers are copied at once where a run is short.
const SHORT: usize = 8;

// One run at a time: short runs are written by way of a block of numbers.
pub(crate) fn extend_runs<const WIDTH: usize>(
    picked: &mut Vec<u8>,
    bytes: &[u8],
    runs: &[(usize, usize)],
) -> Result<(), VortexError>
    requires some { 0 < WIDTH }
    requires width { WIDTH ≤ 8 }
    requires within { All (λ k. k * WIDTH + WIDTH ≤ length bytes.now) (flat_map run_positions runs.now) }
    ensures { Gives result (λ _. picked.new.items ≡ picked.old.items
        ++ flat_map (bytes_of_position WIDTH bytes.now) (flat_map run_positions runs.now)) }
{
    let (numbers, _) = bytes.as_chunks::<WIDTH>();
    let mut block = [[0u8; WIDTH]; BLOCK + SHORT];
    let mut filled = 0;
    for run in runs {
        let (start, end) = *run;
        filled = extend_run::<WIDTH>(picked, &mut block, filled, numbers, start, end)?;
    }
    picked.extend_from_slice(block[..filled].as_flattened())?;
    Ok(())
}

// Appends the numbers from `start` up to `end`, none where there is none between, after those of
// which a block has the first `filled`, and gives how many the block has now.
#[inline]
fn extend_run<const WIDTH: usize>(
    picked: &mut Vec<u8>,
    block: &mut [[u8; WIDTH]],
    filled: usize,
    numbers: &[[u8; WIDTH]],
    start: usize,
    end: usize,
) -> Result<usize, VortexError>
    requires width { WIDTH ≤ 8 }
    requires room { length block.old ≡ 520 }
    requires filled { filled ≤ 512 }
    requires within { All (λ k. k < length numbers.now) (run_positions (start, end)) }
    ensures room { length block.new ≡ length block.old }
    ensures filled { IfOk result (λ n. n ≤ 512) }
    ensures numbers { Gives result (λ n. held picked.new.items (take n block.new)
        ≡ held (held picked.old.items (take filled block.old)) (slice_range numbers.now start end)) }
{
    if start < end && end - start <= SHORT && numbers.len() - start >= SHORT {
        put_short::<WIDTH>(block, filled, numbers, start, end - start);
        return write_full::<WIDTH>(picked, block, filled + (end - start));
    }
    picked.extend_from_slice(block[..filled].as_flattened())?;
    if start < end {
        picked.extend_from_slice(numbers[start..end].as_flattened())?;
    }
    Ok(0)
}

// Puts `count` numbers from place `start` on into a block, behind those that are in it. Eight are
// copied, which is faster than fewer, and those past the count are written over by the next.
#[inline]
fn put_short<const WIDTH: usize>(
    block: &mut [[u8; WIDTH]],
    filled: usize,
    numbers: &[[u8; WIDTH]],
    start: usize,
    count: usize,
)
    requires count { count ≤ 8 }
    requires room { filled + 8 ≤ length block.old }
    requires within { start + 8 ≤ length numbers.now }
    ensures len { length block.new ≡ length block.old }
    ensures put { take (filled + count) block.new ≡ take filled block.old ++ slice_range numbers.now start (start + count) }
{
    block[filled..filled + SHORT].copy_from_slice(&numbers[start..start + SHORT]);
}

// Writes the first `filled` numbers of a block where it is full, and gives how many it has then.
#[inline]
fn write_full<const WIDTH: usize>(
    picked: &mut Vec<u8>,
    block: &[[u8; WIDTH]],
    filled: usize,
) -> Result<usize, VortexError>
    requires width { WIDTH ≤ 8 }
    requires room { length block.now ≡ 520 }
    requires filled { filled ≤ 520 }
    ensures filled { IfOk result (λ n. n ≤ 512) }
    ensures numbers { Gives result (λ n. held picked.new.items (take n block.now) ≡ held picked.old.items (take filled block.now)) }
{
    if filled <= BLOCK {
        return Ok(filled);
    }
    picked.extend_from_slice(block[..filled].as_flattened())?;
    Ok(0)
}
