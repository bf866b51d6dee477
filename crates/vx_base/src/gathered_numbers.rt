// Numbers that are gathered, as the bytes of each.

ghost use Rattle.std.specs.Prelude.{◌≡◌, ◌<◌, ◌≤◌, ◌*◌, ◌/◌, ◌+◌, ◌^◌, ◌++◌, IfOk, IsTrue, pos};
ghost use Rattle.std.specs.Prelude.{length, map, replicate, slice_range};
ghost use Rattle.vx_base.specs.Refusals.{Gives};
ghost use Rattle.std.specs.List.{All, flat_map};
ghost use Rattle.vx_base.specs.Integers.{byte_width, numbers, number_nth};
ghost use Rattle.vx_base.specs.Selections.{list_positions, bytes_of_position};

use crate::byte_buffer::{ByteBuffer, zero_numbers};
use crate::errors::VortexError;
use crate::gather::{Gather, gather_rows};
use crate::number_runs::extend_runs;
use crate::numbers::int_at;
use crate::places::Places;
use crate::ptypes::PType;
use crate::selection::{Picks, Selection};
use std::alloc::Global;

// How many numbers are read before they are written.
const BLOCK: usize = 512;

// How many times a number that is repeated is written at once.
const REPEATS: usize = 128;

// Numbers of WIDTH bytes each, some of which are gathered behind the bytes that stand before.
#[derive(Drop)]
struct Numbers<'a, const WIDTH: usize> {
    before: Vec<u8>,
    bytes: &'a [u8],
}

/// The bytes of the numbers that are picked, in their order. Asks that each position has a number.
/// Fails only for want of memory.
pub fn gather_numbers(
    alloc: Global,
    ptype: PType,
    bytes: &[u8],
    selection: &Selection,
) -> Result<ByteBuffer, VortexError>
    requires { All (λ k. k < length bytes.now / byte_width ptype) selection.now }
    ensures ok { Gives result (λ b. numbers ptype b ≡ map (number_nth (numbers ptype bytes.now)) selection.now) }
    ensures len { IfOk result (λ b. length b ≡ length selection.now * byte_width ptype) }
{
    if picks_zeroes(ptype, bytes, selection) {
        return zero_numbers(alloc, ptype, selection.len());
    }
    let picked = extend_with_numbers(Vec::new(alloc), ptype, bytes, selection)?;
    ByteBuffer::from_vec(alloc, picked)
}

// Whether one 0 is picked again and again: as many are had with no loop.
fn picks_zeroes(ptype: PType, bytes: &[u8], selection: &Selection) -> bool
    requires { All (λ k. k < length bytes.now / byte_width ptype) selection.now }
    ensures { IsTrue result → map (number_nth (numbers ptype bytes.now)) selection.now ≡ map pos (replicate (length selection.now) 0) }
{
    match selection.picks() {
        Picks::Repeated(position, len) => *len > 0 && int_at(bytes, ptype, *position) == 0,
        _ => false,
    }
}

/// The bytes, and after them those of the numbers that are picked, in their order. Asks that each
/// position has a number. Fails only for want of memory, and drops the bytes then: so nobody keeps
/// bytes to which some of the numbers were appended.
pub fn extend_with_numbers(
    before: Vec<u8>,
    ptype: PType,
    bytes: &[u8],
    selection: &Selection,
) -> Result<Vec<u8>, VortexError>
    requires { All (λ k. k < length bytes.now / byte_width ptype) selection.now }
    ensures { Gives result (λ all. all.items ≡ before.items
        ++ flat_map (bytes_of_position (byte_width ptype) bytes.now) selection.now) }
{
    let alloc = *before.allocator();
    let mut before = before;
    before.reserve(selection.len().saturating_mul(ptype.byte_width()))?;
    match ptype {
        PType::U8 | PType::I8 => gather_rows(alloc, Numbers::<1> { before, bytes }, selection),
        PType::U16 | PType::I16 => gather_rows(alloc, Numbers::<2> { before, bytes }, selection),
        PType::U32 | PType::I32 => gather_rows(alloc, Numbers::<4> { before, bytes }, selection),
        PType::U64 | PType::I64 => gather_rows(alloc, Numbers::<8> { before, bytes }, selection),
    }
}

impl<const WIDTH: usize> Gather for Numbers<'_, WIDTH> {
    type Gathered = Vec<u8>;

    ghost HasRows = { λ s ks. (0 < WIDTH) × (WIDTH ≤ 8) × All (λ k. k * WIDTH + WIDTH ≤ length s.bytes.now) ks };

    ghost AreGathered = { λ s ks all. all.items ≡ s.before.items ++ flat_map (bytes_of_position WIDTH s.bytes.now) ks };

    fn at<P: Places>(self, _alloc: Global, places: P) -> Result<Vec<u8>, VortexError> {
        let Numbers { before, bytes } = self;
        let mut all = before;
        extend_at::<WIDTH, P>(&mut all, bytes, places)?;
        Ok(all)
    }

    fn repeated(self, _alloc: Global, position: usize, len: usize) -> Result<Vec<u8>, VortexError> {
        let Numbers { before, bytes } = self;
        let mut all = before;
        extend_repeated::<WIDTH>(&mut all, bytes, position, len)?;
        Ok(all)
    }

    fn of_runs(
        self,
        _alloc: Global,
        runs: &[(usize, usize)],
        _len: usize,
    ) -> Result<Vec<u8>, VortexError> {
        let Numbers { before, bytes } = self;
        let mut all = before;
        extend_runs::<WIDTH>(&mut all, bytes, runs)?;
        Ok(all)
    }

    fn of_lists<P: Places>(
        self,
        _alloc: Global,
        lists: P,
        size: usize,
        _len: usize,
    ) -> Result<Vec<u8>, VortexError> {
        let Numbers { before, bytes } = self;
        let mut all = before;
        extend_lists::<WIDTH, P>(&mut all, bytes, lists, size)?;
        Ok(all)
    }
}

// One number at a time: a block of them is read, and then written at once.
fn extend_at<const WIDTH: usize, P: Places>(
    picked: &mut Vec<u8>,
    bytes: &[u8],
    places: P,
) -> Result<(), VortexError>
    requires some { 0 < WIDTH }
    requires width { WIDTH ≤ 32 }
    requires within { All (λ k. k * WIDTH + WIDTH ≤ length bytes.now) (P.positions places) }
    ensures { Gives result (λ _. picked.new.items ≡ picked.old.items
        ++ flat_map (bytes_of_position WIDTH bytes.now) (P.positions places)) }
{
    let count = places.count();
    let mut block = [[0u8; WIDTH]; BLOCK];
    for at in 0..count.div_ceil(BLOCK) {
        let start = at * BLOCK;
        let numbers = &mut block[..BLOCK.min(count - start)];
        read_numbers_at::<WIDTH, P>(bytes, places, start, numbers);
        picked.extend_from_slice(numbers.as_flattened())?;
    }
    Ok(())
}

// Reads the numbers at the positions from place `start` on. Not inlined, so that the loop stands by
// itself, where what it writes is known to be nothing that it reads.
#[inline(never)]
fn read_numbers_at<const WIDTH: usize, P: Places>(
    bytes: &[u8],
    places: P,
    start: usize,
    out: &mut [[u8; WIDTH]],
)
    requires some { 0 < WIDTH }
    requires counted { length (P.positions places) < 2 ^ 64 }
    requires within { All (λ k. k * WIDTH + WIDTH ≤ length bytes.now) (P.positions places) }
    requires room { start + length out.old ≤ length (P.positions places) }
    ensures { out.new ≡ map (bytes_of_position WIDTH bytes.now) (slice_range (P.positions places) start (start + length out.old)) }
{
    let (numbers, _) = bytes.as_chunks::<WIDTH>();
    for i in 0..out.len() {
        out[i] = numbers[places.at(start + i)];
    }
}

// One number, `len` times: a block of them is made once, and written as often as it goes in.
fn extend_repeated<const WIDTH: usize>(
    picked: &mut Vec<u8>,
    bytes: &[u8],
    position: usize,
    len: usize,
) -> Result<(), VortexError>
    requires width { WIDTH ≤ 8 }
    requires within { All (λ k. k * WIDTH + WIDTH ≤ length bytes.now) (replicate len position) }
    ensures { Gives result (λ _. picked.new.items ≡ picked.old.items
        ++ flat_map (bytes_of_position WIDTH bytes.now) (replicate len position)) }
{
    if len == 0 {
        return Ok(());
    }
    let mut number = [0u8; WIDTH];
    number.copy_from_slice(&bytes[position * WIDTH..position * WIDTH + WIDTH]);
    let block = [number; REPEATS];
    for _ in 0..len / REPEATS {
        picked.extend_from_slice(block.as_flattened())?;
    }
    picked.extend_from_slice(block[..len % REPEATS].as_flattened())?;
    Ok(())
}

// One list at a time: the numbers of a list are one number of as many bytes.
fn extend_lists<const WIDTH: usize, P: Places>(
    picked: &mut Vec<u8>,
    bytes: &[u8],
    lists: P,
    size: usize,
) -> Result<(), VortexError>
    requires { All (λ k. k * WIDTH + WIDTH ≤ length bytes.now) (flat_map (list_positions size) (P.positions lists)) }
    ensures { Gives result (λ _. picked.new.items ≡ picked.old.items
        ++ flat_map (bytes_of_position WIDTH bytes.now) (flat_map (list_positions size) (P.positions lists))) }
{
    if lists.count() == 0 {
        return Ok(());
    }
    extend_wide_at::<P>(picked, bytes, lists, size * WIDTH)
}

// One number at a time, where a number takes `width` bytes: by blocks where that is a width of a
// number, or two or four of the widest.
fn extend_wide_at<P: Places>(
    picked: &mut Vec<u8>,
    bytes: &[u8],
    places: P,
    width: usize,
) -> Result<(), VortexError>
    requires { All (λ k. k * width + width ≤ length bytes.now) (P.positions places) }
    ensures { Gives result (λ _. picked.new.items ≡ picked.old.items
        ++ flat_map (bytes_of_position width bytes.now) (P.positions places)) }
{
    match width {
        1 => extend_at::<1, P>(picked, bytes, places),
        2 => extend_at::<2, P>(picked, bytes, places),
        4 => extend_at::<4, P>(picked, bytes, places),
        8 => extend_at::<8, P>(picked, bytes, places),
        16 => extend_at::<16, P>(picked, bytes, places),
        32 => extend_at::<32, P>(picked, bytes, places),
        _ => extend_numbers_at::<P>(picked, bytes, places, width),
    }
}

// One number at a time, where a number takes `width` bytes, each by one copy.
fn extend_numbers_at<P: Places>(
    picked: &mut Vec<u8>,
    bytes: &[u8],
    places: P,
    width: usize,
) -> Result<(), VortexError>
    requires { All (λ k. k * width + width ≤ length bytes.now) (P.positions places) }
    ensures { Gives result (λ _. picked.new.items ≡ picked.old.items
        ++ flat_map (bytes_of_position width bytes.now) (P.positions places)) }
{
    for i in 0..places.count() {
        let start = places.at(i) * width;
        picked.extend_from_slice(&bytes[start..start + width])?;
    }
    Ok(())
}
