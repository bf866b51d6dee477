// Numbers that look random, the same ones at each start.

ghost use Rattle.std.specs.Prelude.{◌<◌};

use crate::fault::Fault;
use std::alloc::Global;
use vx_base::{BitBuffer, BitBufferMut, ByteBuffer};

// Words that look random: those of the generator SplitMix64, after Steele, Lea and Flood.
#[derive(Drop)]
pub(crate) struct Random {
    state: u64,
}

// How many of some bits are true.
#[derive(Clone, Copy)]
pub(crate) enum Share {
    // One in 128.
    Few,
    // One in two.
    Half,
    // Seven in eight.
    Most,
}

impl Random {
    pub(crate) fn new(seed: u32) -> Random {
        Random { state: seed as u64 }
    }

    pub(crate) fn word(&mut self) -> u64 {
        self.state = self.state.wrapping_add(0x9E3779B97F4A7C15);
        let mixed = (self.state ^ (self.state >> 30)).wrapping_mul(0xBF58476D1CE4E5B9);
        let mixed = (mixed ^ (mixed >> 27)).wrapping_mul(0x94D049BB133111EB);
        mixed ^ (mixed >> 31)
    }

    // A number below a limit that fits 32 bits, or 0 where that is 0.
    pub(crate) fn below(&mut self, limit: usize) -> usize
        ensures { result < 4294967296 }
    {
        let high = self.word() >> 32;
        (high.wrapping_mul(limit as u64) >> 32) as usize
    }

    // So many numbers below a limit.
    pub(crate) fn numbers(
        &mut self,
        alloc: Global,
        count: usize,
        limit: usize,
    ) -> Result<Vec<u32>, Fault> {
        let mut numbers = Vec::with_capacity(alloc, count)?;
        for _ in 0..count {
            numbers.push(self.below(limit) as u32)?;
        }
        Ok(numbers)
    }

    // So many words of bytes, in which only bits of the mask are set.
    pub(crate) fn bytes(
        &mut self,
        alloc: Global,
        words: usize,
        mask: u64,
    ) -> Result<ByteBuffer, Fault> {
        let mut bytes = Vec::new(alloc);
        for _ in 0..words {
            bytes.extend_from_slice(&(self.word() & mask).to_le_bytes())?;
        }
        Ok(ByteBuffer::from_vec(alloc, bytes)?)
    }

    // A word of which such a share of the bits is true.
    fn shared(&mut self, share: Share) -> u64 {
        match share {
            Share::Half => self.word(),
            Share::Most => !(self.word() & self.word() & self.word()),
            Share::Few => {
                let eighth = self.word() & self.word() & self.word();
                eighth & self.word() & self.word() & self.word() & self.word()
            }
        }
    }

    // So many bits, of which such a share is true.
    pub(crate) fn bits(
        &mut self,
        alloc: Global,
        len: usize,
        share: Share,
    ) -> Result<BitBuffer, Fault> {
        let mut bytes = Vec::new(alloc);
        for _ in 0..len / 64 + 1 {
            bytes.extend_from_slice(&self.shared(share).to_le_bytes())?;
        }
        bits_of(alloc, bytes, len)
    }

    // So many bits in runs of up to twice so many, true and false by turns.
    pub(crate) fn bits_in_runs(
        &mut self,
        alloc: Global,
        len: usize,
        run: usize,
    ) -> Result<BitBuffer, Fault> {
        let mut bits = BitBufferMut::with_capacity(alloc, len)?;
        let mut value = false;
        for _ in 0..len {
            let left = len.saturating_sub(bits.len());
            if left == 0 {
                break;
            }
            let count = self.below(run.saturating_mul(2)).max(1).min(left);
            bits.append_n(value, count)?;
            value = !value;
        }
        Ok(bits.freeze()?)
    }
}

// So many bits, true and false by turns.
pub(crate) fn bits_by_turns(alloc: Global, len: usize) -> Result<BitBuffer, Fault> {
    bits_of(alloc, vec![in alloc; 0x55u8; len / 8 + 1]?, len)
}

// The first bits of these bytes.
fn bits_of(alloc: Global, bytes: Vec<u8>, len: usize) -> Result<BitBuffer, Fault> {
    let bytes = ByteBuffer::from_vec(alloc, bytes)?;
    if bytes.len() <= len / 8 {
        return Err(Fault::Usage);
    }
    Ok(BitBuffer::new_with_offset(alloc, bytes, len, 0)?)
}
