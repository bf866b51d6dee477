// Bits that are gathered by runs and by lists, and bits that are appended, byte for byte: the bytes
// are those that plain code writes bit by bit over zeroes, one run after another. A run of up to 56
// bits comes as a word: its last byte holds what follows it there too. A longer one changes no
// other bit. So after the last bit there is what followed a short run, and nothing after a long
// one.

ghost use Rattle.std.specs.Prelude.{◌≡◌, ◌*◌, ◌<◌, length, IfOk};
ghost use Rattle.std.specs.List.{All, flat_map};
ghost use Rattle.vx_base.specs.Selections.{run_positions};

use crate::base::plain::{Part, bit_at, has_bytes, noise, part_to, put_bit};
use std::alloc::Global;
use std::process::Abort;
use vx_base::{BitBuffer, BitBufferMut, Mask, PType, Selection, VortexError, gather_bits};

// How many bits are written of `count` that begin at bit `from`, to bit `at` and after it.
fn written(count: usize, from: usize, at: usize) -> usize {
    if count == 0 || count > 56 {
        return count;
    }
    let rest = (8 - at.wrapping_add(count) % 8) % 8;
    (count + rest).min(64 - from % 8)
}

// Writes a run to bit `at` and after it, and gives the place after its last bit.
fn write_run(part: &Part<'_>, run: (usize, usize), out: &mut [u8], at: usize) -> usize {
    let (start, end) = run;
    let count = end.saturating_sub(start);
    let from = part.from.wrapping_add(start);
    for i in 0..written(count, from, at) {
        let bit = bit_at(part.bytes, from.wrapping_add(i));
        put_bit(out, at.wrapping_add(i), bit);
    }
    at.wrapping_add(count)
}

// The bytes of these runs, which have `len` bits in all.
fn write_runs(
    alloc: Global,
    part: &Part<'_>,
    runs: &[(usize, usize)],
    len: usize,
) -> Result<Vec<u8>, VortexError> {
    let mut out = vec![in alloc; 0u8; len.div_ceil(8)]?;
    let mut at = 0;
    for run in runs {
        at = write_run(part, *run, &mut out, at);
    }
    Ok(out)
}

// ---- runs

// How many rows these runs have, all of them among the first `rows`.
fn count_rows(runs: &[(usize, usize)], rows: usize) -> Result<usize, VortexError>
    ensures count { IfOk result (λ n. n ≡ length (flat_map run_positions runs.now)) }
    ensures within { IfOk result (λ _. All (λ k. k < rows) (flat_map run_positions runs.now)) }
{
    let mut count = 0usize;
    for run in runs {
        let (start, end) = *run;
        let size = end.saturating_sub(start);
        if end > rows || size > usize::MAX - count {
            return Err(VortexError::Overflow);
        }
        count += size;
    }
    Ok(count)
}

// The bits of these runs, appended one run after another.
fn append_runs(
    alloc: Global,
    bits: &BitBuffer,
    runs: &[(usize, usize)],
) -> Result<BitBuffer, VortexError> {
    let mut appended = BitBufferMut::with_capacity(alloc, 0)?;
    for run in runs {
        let (start, end) = *run;
        if start <= end && end <= bits.len() {
            appended.append_slice(bits, start, end)?;
        }
    }
    appended.freeze()
}

// Whether the bits of these runs are gathered and appended as they are written.
fn runs_are_written(
    alloc: Global,
    part: &Part<'_>,
    runs: &[(usize, usize)],
) -> Result<bool, VortexError> {
    let len = count_rows(runs, part.bits.len())?;
    let wanted = write_runs(alloc, part, runs, len)?;
    let picked = gather_bits(alloc, &part.bits, &Selection::of_runs(runs, len))?;
    let appended = append_runs(alloc, &part.bits, runs)?;
    Ok(has_bytes(picked, len, &wanted) && has_bytes(appended, len, &wanted))
}

// Stops unless it is so of many short runs, for each number of rows up to 300.
fn expect_short_runs(
    rt: &impl Abort,
    alloc: Global,
    bytes: &[u8],
    left: usize,
) -> Result<(), VortexError> {
    for len in 0..301 {
        let rows = Mask::from_buffer(alloc, part_to(alloc, bytes, len, 150)?.bits)?;
        let part = part_to(alloc, bytes, len, left)?;
        assert!(rt;
            runs_are_written(alloc, &part, rows.runs())?,
            "{len} rows, {left} left"
        );
    }
    Ok(())
}

#[test]
fn short_runs_of_bits(rt: HostRuntime) {
    let bytes = noise(rt.alloc(), 60).expect(&rt, "made");
    for left in 0..8 {
        expect_short_runs(&rt, rt.alloc(), &bytes, left).expect(&rt, "gathered");
    }
}

// Stops unless it is so of two runs with a row between them, and so many rows before and after, for
// each length of the last one up to 130.
fn expect_two_runs(
    rt: &impl Abort,
    alloc: Global,
    bytes: &[u8],
    around: u8,
    first: u8,
) -> Result<(), VortexError> {
    let start = around as usize;
    let between = start + first as usize;
    for last in 0..131 {
        let end = between + 1 + last;
        let part = part_to(alloc, bytes, end + start, start)?;
        assert!(rt;
            runs_are_written(alloc, &part, &[(start, between), (between + 1, end)])?,
            "{around}, {first}, {last}"
        );
    }
    Ok(())
}

// Lengths of the first run.
const FIRST: [u8; 12] = [1, 2, 7, 8, 9, 55, 56, 57, 63, 64, 65, 130];

#[test]
fn two_runs_of_bits(rt: HostRuntime) {
    let bytes = noise(rt.alloc(), 60).expect(&rt, "made");
    for case in 0..96 {
        let (around, first) = (case % 8, FIRST[case / 8]);
        expect_two_runs(&rt, rt.alloc(), &bytes, around as u8, first).expect(&rt, "gathered");
    }
}

// Stops unless it is so of these runs, of 1,400 rows that begin at each bit of a byte.
fn expect_runs(
    rt: &impl Abort,
    alloc: Global,
    bytes: &[u8],
    runs: &[(usize, usize)],
) -> Result<(), VortexError> {
    for left in 0..8 {
        let part = part_to(alloc, bytes, 1400, left)?;
        assert!(rt; runs_are_written(alloc, &part, runs)?, "{left} left");
    }
    Ok(())
}

#[test]
fn runs_of_bits_in_any_order(rt: HostRuntime) -> Result<(), VortexError> {
    let alloc = rt.alloc();
    let bytes = noise(alloc, 180)?;
    // a long one, and a short one of which eight bytes are written
    expect_runs(&rt, alloc, &bytes, &[(3, 103), (200, 201), (400, 500)])?;
    expect_runs(
        &rt,
        alloc,
        &bytes,
        &[(0, 57), (9, 65), (11, 68), (4, 5), (1343, 1400)],
    )?;
    // some have no rows
    expect_runs(
        &rt,
        alloc,
        &bytes,
        &[(5, 5), (7, 20), (20, 7), (0, 0), (30, 90), (1400, 1400)],
    )?;
    expect_runs(&rt, alloc, &bytes, &[(9, 9), (1400, 3)])?;
    // they descend, meet and repeat
    expect_runs(
        &rt,
        alloc,
        &bytes,
        &[(1399, 1400), (700, 770), (700, 770), (690, 700), (0, 2)],
    )?;
    expect_runs(
        &rt,
        alloc,
        &bytes,
        &[(60, 120), (0, 60), (60, 61), (60, 61), (120, 121)],
    )
}

#[test]
fn long_runs_of_bits_in_any_order(rt: HostRuntime) -> Result<(), VortexError> {
    let alloc = rt.alloc();
    let bytes = noise(alloc, 180)?;
    expect_runs(&rt, alloc, &bytes, &[(1, 1396)])?;
    expect_runs(
        &rt,
        alloc,
        &bytes,
        &[(1, 1001), (30, 43), (43, 43), (700, 1400), (9, 1)],
    )?;
    expect_runs(
        &rt,
        alloc,
        &bytes,
        &[(0, 1400), (1399, 1400), (5, 60), (5, 905)],
    )?;
    expect_runs(
        &rt,
        alloc,
        &bytes,
        &[(600, 1203), (2, 605), (2, 605), (7, 7), (100, 156)],
    )
}

// Stops unless it is so of two runs that overlap, the last of so many rows up to 280.
fn expect_mean_runs(
    rt: &impl Abort,
    alloc: Global,
    bytes: &[u8],
    first: u16,
) -> Result<(), VortexError> {
    let end = first as usize + 3;
    for last in 230..280 {
        let part = part_to(alloc, bytes, 800, last % 8)?;
        assert!(rt;
            runs_are_written(alloc, &part, &[(3, end), (5, 5 + last)])?,
            "{first}, {last}"
        );
    }
    Ok(())
}

#[test]
fn runs_of_256_bits_in_the_mean(rt: HostRuntime) -> Result<(), VortexError> {
    let alloc = rt.alloc();
    let bytes = noise(alloc, 110)?;
    for first in 505..520 {
        expect_mean_runs(&rt, alloc, &bytes, first)?;
        expect_runs(&rt, alloc, &noise(alloc, 180)?, &[(7, 7 + first as usize)])?;
    }
    Ok(())
}

// ---- lists

// Whether the bits of these lists, each one of three, are gathered as those of their runs are
// written.
fn lists_are_written(
    alloc: Global,
    part: &Part<'_>,
    size: usize,
    lists: &Selection<'_>,
    runs: &[(usize, usize)],
) -> Result<bool, VortexError>
    requires bits { length part.now.bits.bits ≡ 3 * size }
    requires few { length lists.now ≡ 3 }
    requires within { All (λ k. k < 3) lists.now }
{
    let len = part.bits.len();
    let elements = lists.lists(alloc, size)?;
    let picked = gather_bits(alloc, &part.bits, &elements)?;
    Ok(has_bytes(picked, len, &write_runs(alloc, part, runs, len)?))
}

// Stops unless it is so of lists at positions, at numbers and of one list again and again.
#[tactic(auto, unfolding(vx_base::specs::Integers::numbers))]
fn expect_lists(
    rt: &impl Abort,
    alloc: Global,
    bytes: &[u8],
    size: u16,
    left: usize,
) -> Result<(), VortexError> {
    let one = size as usize;
    let (two, all) = (2 * one, 3 * one);
    let part = part_to(alloc, bytes, all, left)?;
    let lists = Selection::at_positions(&[2, 0, 1]);
    let runs = [(two, all), (0, one), (one, two)];
    assert!(rt;
        lists_are_written(alloc, &part, one, &lists, &runs)?,
        "{size}, {left}"
    );
    let lists = Selection::at_numbers(PType::U8, &[1, 2, 1]);
    let runs = [(one, two), (two, all), (one, two)];
    assert!(rt;
        lists_are_written(alloc, &part, one, &lists, &runs)?,
        "{size}, {left}"
    );
    let lists = Selection::repeated(1, 3);
    let runs = [(one, two), (one, two), (one, two)];
    assert!(rt;
        lists_are_written(alloc, &part, one, &lists, &runs)?,
        "{size}, {left}"
    );
    Ok(())
}

#[test]
fn lists_of_bits(rt: HostRuntime) -> Result<(), VortexError> {
    let bytes = noise(rt.alloc(), 60)?;
    for case in 0..1048 {
        expect_lists(&rt, rt.alloc(), &bytes, (case / 8) as u16, case % 8)?;
    }
    Ok(())
}

#[test]
fn long_lists_of_bits(rt: HostRuntime) -> Result<(), VortexError> {
    let bytes = noise(rt.alloc(), 110)?;
    for case in 0..128 {
        expect_lists(&rt, rt.alloc(), &bytes, 250 + (case / 8) as u16, case % 8)?;
    }
    Ok(())
}
