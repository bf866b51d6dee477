// Which rows of numbers are valid, read a word at a time where the bits lie.

ghost use Rattle.std.specs.Prelude.{◌≡◌, ◌<◌, ◌≤◌, ◌+◌, ◌-◌, ◌*◌, ◌/◌, ◌==◌, ℕ, length, replicate};
ghost use Rattle.std.specs.Int.{bit_at};
ghost use Rattle.vx_base.specs.Bits.{bit_of, bool_at};
ghost use Rattle.vx_base.specs.Refusals.{Gives};
ghost use Rattle.vx_tree.specs.Formed.{ValidFits};
ghost use Rattle.vx_tree.specs.Meaning.{valid_mask};
ghost use Rattle.vx_tree.specs.Parts.{valid_of};

use std::alloc::Global;
use std::marker::Model;
use vx_base::{BitBuffer, ByteBuffer, Mask, VortexError};
use vx_tree::{Layout, Validity};

// A boolean a row: whether the row is valid.
#[derive(Drop)]
pub(crate) struct ValidRows {
    state: ValidState,
}

// One boolean for so many rows, or so many bits of bytes, from this bit on.
#[derive(Drop)]
enum ValidState {
    Alike(bool, usize),
    Told(ByteBuffer, usize, usize),
}

impl Model for ValidRows {
    ghost use Rattle.std.specs.Prelude.{Bool, List};
    ghost use Rattle.vx_leaves.specs.ValidRows.{told_rows, AreHeld};

    ghost Value = { List Bool };

    ghost view = { λ v. told_rows v.state };

    ghost invariant = { λ v. AreHeld v.state };
}

#[tactic(auto, using(vx_base::proofs::PackedBits::unpacked_bits))]
impl ValidRows {
    // The same boolean for every row.
    pub(crate) fn alike(valid: bool, len: usize) -> ValidRows
        ensures { result ≡ replicate len valid }
    {
        ValidRows {
            state: ValidState::Alike(valid, len),
        }
    }

    // Which of `len` rows are valid. The bits of a `Bool` layout are shared.
    pub(crate) fn new(
        alloc: Global,
        validity: &Validity,
        len: usize,
    ) -> Result<ValidRows, VortexError>
        requires { ValidFits (valid_of validity.now) len }
        ensures { Gives result (λ v. v ≡ valid_mask (valid_of validity.now) len) }
    {
        if let Validity::Array(array) = validity {
            if matches!(array.layout(), Layout::Bool { .. }) {
                return Ok(ValidRows::told(array.plain_bits(alloc)?));
            }
        }
        let mask = validity.execute_mask(alloc, len)?;
        ValidRows::of_mask(alloc, &mask)
    }

    // The booleans of these bits.
    fn told(bits: BitBuffer) -> ValidRows
        ensures { result ≡ bits.bits }
    {
        let (offset, len, bytes) = bits.into_inner();
        ValidRows {
            state: ValidState::Told(bytes, offset, len),
        }
    }

    // The booleans of a mask.
    fn of_mask(alloc: Global, mask: &Mask) -> Result<ValidRows, VortexError>
        ensures { Gives result (λ v. v ≡ mask.now) }
    {
        match mask.values() {
            Some(values) => Ok(ValidRows::told(values.bit_buffer(alloc)?)),
            None => Ok(ValidRows::alike(mask.all_true(), mask.len())),
        }
    }

    // How many rows there are.
    pub(crate) fn len(&self) -> usize
        ensures { result ≡ length self.now }
    {
        match &self.state {
            ValidState::Alike(_, len) => *len,
            ValidState::Told(_, _, len) => *len,
        }
    }

    // The booleans of the rows from `start` on, as many as a word has, but none from `end` on: a
    // bit for each, with zeroes after them, and how many they are.
    #[inline]
    pub(crate) fn word(&self, start: usize, end: usize) -> (u64, usize)
        requires order { start < end }
        requires here { end ≤ length self.now }
        ensures some { 0 < result.1 }
        ensures most { result.1 ≤ 64 }
        ensures within { start + result.1 ≤ end }
        ensures bits { (i : ℕ) → i < result.1 → (bit_at result.0 i == 1) ≡ bool_at self.now (start + i) }
        ensures none { (i : ℕ) → result.1 ≤ i → bit_at result.0 i ≡ 0 }
    {
        let (word, held) = self.word_from(start);
        let count = held.min(end - start);
        (word & (u64::MAX >> (64 - count)), count)
    }

    // The booleans of the rows from `start` on, as many as a word has, and how many that may be.
    #[inline]
    fn word_from(&self, start: usize) -> (u64, usize)
        requires { start < length self.now }
        ensures some { 0 < result.1 }
        ensures most { result.1 ≤ 64 }
        ensures bits { (i : ℕ) → i < result.1 → start + i < length self.now
            → (bit_at result.0 i == 1) ≡ bool_at self.now (start + i) }
    {
        match &self.state {
            ValidState::Alike(valid, _) => (if *valid { u64::MAX } else { 0 }, 64),
            ValidState::Told(bytes, offset, _) => bits_from(bytes.as_slice(), *offset + start),
        }
    }
}

// The bits from a place on, and how many they are: those up to the end of the eighth byte, or of
// the first where there are fewer bytes.
#[inline]
fn bits_from(bytes: &[u8], place: usize) -> (u64, usize)
    requires { place / 8 < length bytes.now }
    ensures some { 0 < result.1 }
    ensures most { result.1 ≤ 64 }
    ensures bits { (i : ℕ) → i < result.1 → (bit_at result.0 i == 1) ≡ bit_of bytes.now (place + i) }
{
    let at = place / 8;
    if bytes.len() - at < 8 {
        return (bytes[at] as u64 >> (place % 8), 8 - place % 8);
    }
    (eight_bytes(bytes, at) >> (place % 8), 64 - place % 8)
}

// The 64 bits of eight bytes.
#[inline]
fn eight_bytes(bytes: &[u8], at: usize) -> u64
    requires { at + 8 ≤ length bytes.now }
    ensures { (i : ℕ) → i < 64 → (bit_at result i == 1) ≡ bit_of bytes.now (8 * at + i) }
{
    u64::from_le_bytes([
        bytes[at],
        bytes[at + 1],
        bytes[at + 2],
        bytes[at + 3],
        bytes[at + 4],
        bytes[at + 5],
        bytes[at + 6],
        bytes[at + 7],
    ])
}
