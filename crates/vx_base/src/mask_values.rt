// The booleans of a mask where both values stand, as the runs of those that are true.

ghost use Rattle.std.specs.Prelude.{◌≡◌, ◌<◌, length, count_by, IfOk};
ghost use Rattle.std.specs.List.{flat_map};
ghost use Rattle.vx_base.specs.Refusals.{Gives};
ghost use Rattle.vx_base.specs.Bits.{bool_at};
ghost use Rattle.vx_base.specs.Booleans.{IsMixed};
ghost use Rattle.vx_base.specs.MaskRuns.{marked, AreRuns};
ghost use Rattle.vx_base.specs.Selections.{run_positions};
ghost use Rattle.vx_base.specs.Trues.{trues};

use crate::bit_buffer::BitBuffer;
use crate::byte_buffer::ByteBuffer;
use crate::errors::VortexError;
use crate::mask_runs::mark_runs;
use std::alloc::Global;
use std::marker::Model;

/// Booleans of which some are true and some are false, kept as the runs of those that are true.
#[derive(Drop)]
pub struct MaskValues {
    runs: Vec<(usize, usize)>,
    len: usize,
    true_count: usize,
}

impl Model for MaskValues {
    ghost use Rattle.std.specs.Prelude.{◌≡◌, Bool, List, count_by};
    ghost use Rattle.vx_base.specs.Booleans.{IsMixed};
    ghost use Rattle.vx_base.specs.MaskRuns.{marked, AreRuns};

    ghost Value = { List Bool };

    ghost view = { λ v. marked v.len v.runs.items };

    ghost invariant = { λ v. AreRuns v.len v.runs.items × (v.true_count ≡ count_by (λ b. b) (marked v.len v.runs.items))
        × IsMixed (marked v.len v.runs.items) };
}

impl MaskValues {
    // So many booleans, true in these runs: so many of them are.
    pub(crate) fn new(runs: Vec<(usize, usize)>, len: usize, true_count: usize) -> MaskValues
        requires runs { AreRuns len runs.items }
        requires counted { true_count ≡ count_by (λ b. b) (marked len runs.items) }
        requires mixed { IsMixed (marked len runs.items) }
        ensures { result ≡ marked len runs.items }
    {
        MaskValues {
            runs,
            len,
            true_count,
        }
    }

    /// How many booleans there are.
    pub fn len(&self) -> usize
        ensures { result ≡ length self.now }
    {
        self.len
    }

    /// The boolean of row `i`, counted from 0. Asks that there is such a row.
    pub fn value(&self, i: usize) -> bool
        requires { i < length self.now }
        ensures { result ≡ bool_at self.now i }
    {
        let started = self.runs.partition_point(|run| run.0 <= i);
        started > 0 && i < self.runs[started - 1].1
    }

    /// How many of the booleans are true: some, and not all.
    pub fn true_count(&self) -> usize
        ensures value { result ≡ count_by (λ b. b) self.now }
        ensures mixed { IsMixed self.now }
    {
        self.true_count
    }

    /// The runs of rows that are true, each from its start up to its end: in order, none empty, and
    /// a row that is false between any two.
    pub fn runs(&self) -> &[(usize, usize)]
        ensures apart { AreRuns (length self.now) result.now }
        ensures trues { flat_map run_positions result.now ≡ trues self.now }
    {
        &self.runs
    }

    /// The booleans as bits. Fails only for want of memory.
    pub fn bit_buffer(&self, alloc: Global) -> Result<BitBuffer, VortexError>
        ensures bits { Gives result (λ b. b.bits ≡ self.now) }
        ensures offset { IfOk result (λ b. b.offset ≡ 0) }
    {
        let mut bytes = vec![in alloc; 0u8; self.len.div_ceil(8)]?;
        mark_runs(&mut bytes, &self.runs);
        Ok(BitBuffer::from_parts(ByteBuffer::from_vec(alloc, bytes)?, 0, self.len))
    }
}
