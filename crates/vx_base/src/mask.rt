// A list of booleans, one a row.

ghost use Rattle.std.specs.Prelude.{◌≡◌, ◌<◌, ◌↔◌, ◌+◌, ◌^◌, ◌++◌, true, false, length, replicate, count_by, IsTrue, IsSome, IfSome, IfOk, OnOk};
ghost use Rattle.std.specs.Bool.{beq};
ghost use Rattle.std.specs.Cmp.{bool_eq_equiv, partial_equiv_from_equiv};
ghost use Rattle.std.specs.Cmp.Lexicographic.{pointwise, lists_equiv};
ghost use Rattle.std.specs.List.{flat_map};
ghost use Rattle.vx_base.specs.Refusals.{Gives, Refuses, Tests};
ghost use Rattle.vx_base.specs.Bits.{bool_at, both};
ghost use Rattle.vx_base.specs.Booleans.{IsMixed, joined, count_fault};
ghost use Rattle.vx_base.specs.MaskRuns.{marked, AreRuns};
ghost use Rattle.vx_base.specs.Selections.{run_positions};
ghost use Rattle.vx_base.specs.Trues.{trues};

use crate::bit_buffer::BitBuffer;
use crate::errors::VortexError;
use crate::mask_rows::MaskRows;
use crate::mask_runs::{push_run, rows_in, runs_of_both, same_runs};
use crate::mask_values::MaskValues;
use crate::position_runs::positions_of_runs;
use std::alloc::Global;
use std::marker::Model;
use std::slice::from_ref;

/// A list of booleans, one a row: a length where all of them are alike, which takes no memory, and
/// else the runs of those that are true. The empty mask is all true.
#[derive(Drop)]
pub struct Mask {
    state: MaskState,
}

// Where all are true, the run of them all stands there, so that it can be lent.
#[derive(Drop)]
enum MaskState {
    AllTrue((usize, usize)),
    AllFalse(usize),
    Mixed(MaskValues),
}

impl Model for Mask {
    ghost use Rattle.std.specs.Prelude.{Bool, List};
    ghost use Rattle.vx_base.specs.Masks.{booleans_of, IsMixedState};

    ghost Value = { List Bool };

    ghost view = { λ m. booleans_of m.state };

    ghost invariant = { λ m. IsMixedState m.state };
}

#[tactic(auto, using(crate::proofs::MaskCounts::mask_counts))]
impl Mask {
    /// `len` times true.
    pub fn new_true(len: usize) -> Mask
        ensures { result ≡ replicate len true }
    {
        Mask {
            state: MaskState::AllTrue((0, len)),
        }
    }

    /// `len` times false.
    pub fn new_false(len: usize) -> Mask
        ensures { result ≡ replicate len false }
    {
        if len == 0 {
            return Mask::new_true(0);
        }
        Mask {
            state: MaskState::AllFalse(len),
        }
    }

    /// The booleans of a bit buffer. Fails only for want of memory.
    pub fn from_buffer(alloc: Global, bits: BitBuffer) -> Result<Mask, VortexError>
        ensures { Gives result (λ m. m ≡ bits.bits) }
    {
        let len = bits.len();
        let true_count = bits.true_count();
        if true_count == len {
            return Ok(Mask::new_true(len));
        }
        if true_count == 0 {
            return Ok(Mask::new_false(len));
        }
        let runs = bits.true_runs(alloc)?;
        Ok(Mask {
            state: MaskState::Mixed(MaskValues::new(runs, len, true_count)),
        })
    }

    /// The booleans of a bit buffer where the mask is true too, and false elsewhere: only the bits
    /// within the mask's runs are looked at. Asks that both are as long. Fails only for want of
    /// memory.
    pub fn from_buffer_within(
        alloc: Global,
        bits: &BitBuffer,
        valid: &Mask,
    ) -> Result<Mask, VortexError>
        requires { length bits.now.bits ≡ length valid.now }
        ensures { Gives result (λ m. m ≡ both bits.now.bits valid.now) }
    {
        let runs = bits.true_runs_within(alloc, valid.runs())?;
        Ok(Mask::from_runs(bits.len(), runs))
    }

    /// So many booleans, true in these runs, each from its start up to its end. Asks that they are
    /// in order and lie within the length, that none is empty, and that no run begins where the one
    /// before it ends. Of 4 booleans the runs (0, 1) and (2, 4) make true, false, true, true.
    pub fn from_runs(len: usize, runs: Vec<(usize, usize)>) -> Mask
        requires { AreRuns len runs.items }
        ensures marked { result ≡ marked len runs.items }
        ensures len { length result ≡ len }
        ensures trues { trues result ≡ flat_map run_positions runs.items }
    {
        let true_count = rows_in(&runs);
        if true_count == len {
            return Mask::new_true(len);
        }
        if true_count == 0 {
            return Mask::new_false(len);
        }
        Mask {
            state: MaskState::Mixed(MaskValues::new(runs, len, true_count)),
        }
    }

    /// The booleans of these masks, one mask after another. Refuses `Overflow` where they are 2^64
    /// or more.
    pub fn concat(alloc: Global, masks: &[Mask]) -> Result<Mask, VortexError>
        ensures booleans { IfOk result (λ m. m ≡ joined masks.now) }
        ensures refuses { Refuses result (count_fault (length (joined masks.now))) }
    {
        let len = total_len(masks)?;
        let trues = total_true_count(masks);
        if trues == len {
            return Ok(Mask::new_true(len));
        }
        if trues == 0 {
            return Ok(Mask::new_false(len));
        }
        let runs = joined_runs(alloc, masks)?;
        Ok(Mask {
            state: MaskState::Mixed(MaskValues::new(runs, len, trues)),
        })
    }

    /// How many rows there are.
    pub fn len(&self) -> usize
        ensures { result ≡ length self.now }
    {
        match &self.state {
            MaskState::AllTrue((_, len)) => *len,
            MaskState::AllFalse(len) => *len,
            MaskState::Mixed(values) => values.len(),
        }
    }

    /// The boolean of row `i`, counted from 0. Asks that there is such a row.
    pub fn value(&self, i: usize) -> bool
        requires { i < length self.now }
        ensures { result ≡ bool_at self.now i }
    {
        match &self.state {
            MaskState::AllTrue(_) => true,
            MaskState::AllFalse(_) => false,
            MaskState::Mixed(values) => values.value(i),
        }
    }

    /// How many rows are true.
    pub fn true_count(&self) -> usize
        ensures { result ≡ count_by (λ b. b) self.now }
    {
        match &self.state {
            MaskState::AllTrue((_, len)) => *len,
            MaskState::AllFalse(_) => 0,
            MaskState::Mixed(values) => values.true_count(),
        }
    }

    /// The rows that are true, in order, as runs, each from its start up to its end: none empty,
    /// and a row that is false between any two. Where all rows are alike, none of them is looked
    /// at. Fails only for want of memory.
    pub fn true_runs(&self, alloc: Global) -> Result<Vec<(usize, usize)>, VortexError>
        ensures apart { IfOk result (λ runs. AreRuns (length self.now) runs.items) }
        ensures trues { Gives result (λ runs. flat_map run_positions runs.items ≡ trues self.now) }
    {
        Ok(self.runs().to_vec(alloc)?)
    }

    /// The rows that are true, in order, as runs that are lent: none empty, and a row that is false
    /// between any two.
    pub fn runs(&self) -> &[(usize, usize)]
        ensures apart { AreRuns (length self.now) result.now }
        ensures trues { flat_map run_positions result.now ≡ trues self.now }
    {
        match &self.state {
            MaskState::AllTrue(all) if all.1 > 0 => from_ref(all),
            MaskState::AllTrue(_) => &[],
            MaskState::AllFalse(_) => &[],
            MaskState::Mixed(values) => values.runs(),
        }
    }

    /// The rows that are true, in order, each by its position. Fails only for want of memory.
    pub fn true_positions(&self, alloc: Global) -> Result<Vec<usize>, VortexError>
        ensures { Gives result (λ positions. positions.items ≡ trues self.now) }
    {
        positions_of_runs(alloc, self.runs(), self.true_count())
    }

    /// The booleans, to be read row by row.
    pub fn rows(&self) -> MaskRows<'_>
        ensures { result ≡ self.now }
    {
        MaskRows::new(self)
    }

    /// True where both are. Asks that both are as long. Fails only for want of memory.
    pub fn and(&self, alloc: Global, other: &Mask) -> Result<Mask, VortexError>
        requires { length self.now ≡ length other.now }
        ensures { Gives result (λ m. m ≡ both self.now other.now) }
    {
        let len = self.len();
        let runs = runs_of_both(alloc, self.runs(), other.runs(), len)?;
        Ok(Mask::from_runs(len, runs))
    }

    /// Whether no row is false, as of the empty mask.
    pub fn all_true(&self) -> bool
        ensures { IsTrue result ↔ (count_by (λ b. b) self.now ≡ length self.now) }
    {
        self.true_count() == self.len()
    }

    /// Whether no row is true, as of the empty mask.
    pub fn all_false(&self) -> bool
        ensures { IsTrue result ↔ (count_by (λ b. b) self.now ≡ 0) }
    {
        self.true_count() == 0
    }

    /// The booleans themselves, `None` where all of them are alike.
    pub fn values(&self) -> Option<&MaskValues>
        ensures some { IsSome result ↔ IsMixed self.now }
        ensures value { IfSome result (λ v. v.now ≡ self.now) }
    {
        match &self.state {
            MaskState::AllTrue(_) | MaskState::AllFalse(_) => None,
            MaskState::Mixed(values) => Some(values),
        }
    }

    // Adds the runs of rows that are true, where the rows follow `at` others.
    fn append_to(&self, runs: &mut Vec<(usize, usize)>, at: usize) -> Result<(), VortexError>
        requires runs { AreRuns at runs.old.items }
        requires fits { at + length self.now < 2 ^ 64 }
        ensures apart { OnOk result (AreRuns (at + length self.now) runs.new.items) }
        ensures rows { Gives result (λ _. marked (at + length self.now) runs.new.items ≡ marked at runs.old.items ++ self.now) }
    {
        for run in self.runs() {
            let (start, end) = *run;
            push_run(runs, at + start, at + end)?;
        }
        Ok(())
    }

    // Whether the two have the same booleans.
    fn same(&self, other: &Mask) -> bool
        ensures { IsTrue result ↔ (self.now ≡ other.now) }
    {
        self.len() == other.len() && same_runs(self.runs(), other.runs())
    }
}

impl PartialEq for Mask {
    ghost eq = { pointwise beq };

    ghost laws = { partial_equiv_from_equiv (lists_equiv bool_eq_equiv) };

    fn eq(&self, other: &Mask) -> bool {
        self.same(other)
    }
}

impl Eq for Mask {
    ghost laws = { lists_equiv bool_eq_equiv };
}

// How many booleans these masks have.
fn total_len(masks: &[Mask]) -> Result<usize, VortexError>
    ensures len { IfOk result (λ n. n ≡ length (joined masks.now)) }
    ensures tests { Tests result (count_fault (length (joined masks.now))) }
{
    let mut total = 0usize;
    for mask in masks {
        let Some(longer) = total.checked_add(mask.len()) else {
            return Err(VortexError::Overflow);
        };
        total = longer;
    }
    Ok(total)
}

// How many of the booleans of these masks are true. Asks that they can be counted.
fn total_true_count(masks: &[Mask]) -> usize
    requires { length (joined masks.now) < 2 ^ 64 }
    ensures { result ≡ count_by (λ b. b) (joined masks.now) }
{
    let mut total = 0;
    for mask in masks {
        total += mask.true_count();
    }
    total
}

// The runs of these masks one after another, where those that touch are one. Asks that the booleans
// can be counted. The room for them is had once.
fn joined_runs(alloc: Global, masks: &[Mask]) -> Result<Vec<(usize, usize)>, VortexError>
    requires { length (joined masks.now) < 2 ^ 64 }
    ensures apart { IfOk result (λ runs. AreRuns (length (joined masks.now)) runs.items) }
    ensures rows { Gives result (λ runs. marked (length (joined masks.now)) runs.items ≡ joined masks.now) }
{
    let mut runs = Vec::with_capacity(alloc, total_run_count(masks))?;
    let mut len = 0;
    for mask in masks {
        mask.append_to(&mut runs, len)?;
        len += mask.len();
    }
    Ok(runs)
}

// How many runs these masks have, each by itself.
fn total_run_count(masks: &[Mask]) -> usize {
    let mut total = 0usize;
    for mask in masks {
        total = total.saturating_add(mask.runs().len());
    }
    total
}
