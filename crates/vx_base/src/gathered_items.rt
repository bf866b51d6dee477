// Items of any type that are gathered.

ghost use Rattle.std.specs.Prelude.{◌≡◌, ◌<◌, ◌++◌, length, map};
ghost use Rattle.vx_base.specs.Refusals.{Gives};
ghost use Rattle.std.specs.List.{All};
ghost use Rattle.vx_base.specs.Selections.{run_positions, item_of_position};

use crate::buffer::Buffer;
use crate::errors::VortexError;
use crate::gather::{Gather, gather_rows};
use crate::places::Places;
use crate::selection::Selection;
use std::alloc::Global;

// Items of which some are gathered.
#[derive(Drop)]
struct Items<'a, T> {
    items: &'a [T],
}

/// The items that are picked, in their order. Asks that each position has an item. Fails only for
/// want of memory.
pub fn gather_items<T: Copy>(
    alloc: Global,
    items: &[T],
    selection: &Selection,
) -> Result<Buffer<T>, VortexError>
    requires { All (λ k. k < length items.now) selection.now }
    ensures { Gives result (λ b. (d : T) → b ≡ map (item_of_position d items.now) selection.now) }
{
    let picked = gather_rows(alloc, Items { items }, selection)?;
    Buffer::from_vec(alloc, picked)
}

impl<T: Copy> Gather for Items<'_, T> {
    type Gathered = Vec<T>;

    ghost HasRows = { λ s ks. All (λ k. k < length s.items.now) ks };

    ghost AreGathered = { λ s ks picked. (d : T) → picked.items ≡ map (item_of_position d s.items.now) ks };

    fn at<P: Places>(self, alloc: Global, places: P) -> Result<Vec<T>, VortexError> {
        let len = places.count();
        if len == 0 {
            return Ok(Vec::new(alloc));
        }
        let mut picked = vec![in alloc; self.items[places.at(0)]; len]?;
        put_items_at::<T, P>(self.items, places, &mut picked);
        Ok(picked)
    }

    fn repeated(self, alloc: Global, position: usize, len: usize) -> Result<Vec<T>, VortexError> {
        if len == 0 {
            return Ok(Vec::new(alloc));
        }
        let mut picked = Vec::with_capacity(alloc, len)?;
        picked.resize(len, self.items[position])?;
        Ok(picked)
    }

    fn of_runs(
        self,
        alloc: Global,
        runs: &[(usize, usize)],
        len: usize,
    ) -> Result<Vec<T>, VortexError> {
        let mut picked = Vec::with_capacity(alloc, len)?;
        for run in runs {
            let (start, end) = *run;
            append_items(&mut picked, self.items, start, end)?;
        }
        Ok(picked)
    }

    fn of_lists<P: Places>(
        self,
        alloc: Global,
        lists: P,
        size: usize,
        len: usize,
    ) -> Result<Vec<T>, VortexError> {
        let mut picked = Vec::with_capacity(alloc, len)?;
        for i in 0..lists.count() {
            let start = lists.at(i) * size;
            append_items(&mut picked, self.items, start, start + size)?;
        }
        Ok(picked)
    }
}

// Writes the items at these positions. Not inlined, so that the loop stands by itself, where what
// it writes is known to be nothing that it reads.
#[inline(never)]
fn put_items_at<T: Copy, P: Places>(items: &[T], places: P, out: &mut [T])
    requires within { All (λ k. k < length items.now) (P.positions places) }
    requires room { length out.old ≡ length (P.positions places) }
    ensures { (d : T) → out.new ≡ map (item_of_position d items.now) (P.positions places) }
{
    for i in 0..places.count() {
        out[i] = items[places.at(i)];
    }
}

// Appends the items from `start` up to `end`, none where there is none between.
fn append_items<T: Copy>(
    picked: &mut Vec<T>,
    items: &[T],
    start: usize,
    end: usize,
) -> Result<(), VortexError>
    requires { All (λ k. k < length items.now) (run_positions (start, end)) }
    ensures { Gives result (λ _. (d : T) → picked.new.items ≡ picked.old.items
        ++ map (item_of_position d items.now) (run_positions (start, end))) }
{
    if start < end {
        picked.extend_from_slice(&items[start..end])?;
    }
    Ok(())
}
