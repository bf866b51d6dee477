// Arrays of the truth values that an iterator gives, and of the places that it gives.

ghost use Rattle.std.specs.Prelude.{◌≡◌, ◌⊎◌, Bool, ℕ, List, Option, Some, unwrap_or, None, false, map, length, replicate, IfOk, IfErr};
ghost use Rattle.std.specs.Prelude.{MatchResult};
ghost use Rattle.std.specs.Option.{is_some};
ghost use Rattle.std.specs.Iterator.{IsFinite, Drains};
ghost use Rattle.vx_base.specs.Refusals.{Gives, Names, refusal_of, out_of_bounds};
ghost use Rattle.vx_base.specs.declared.errors.VortexError.TheVariants.{Memory};
ghost use Rattle.vx_tree.specs.Parts.{valid_of};
ghost use Rattle.vx_tree.specs.Tree.{bools, non_nullable, all_valid};
ghost use Rattle.vx_tree.specs.Validities.{valid_from};
ghost use Rattle.vx_leaves.specs.Leaves.{validity_fault};
ghost use Rattle.vx_leaves.specs.Iterated.{AreMarked, AllBelow, IsFirstPast};

use crate::bool_array::BoolArray;
use crate::collect::collect_options;
use std::alloc::Global;
use vx_base::{BitBuffer, BitBufferMut, VortexError};
use vx_tree::{Validity, collect_items};

impl BoolArray {
    /// The array of `length` rows that is true just at these indices, null where the validity is
    /// false. Asks that the iterator ends. Refuses `OutOfBounds` at the first index that is not
    /// below `length`, then `MismatchedTypes` where the validity has an array that is not one of
    /// plain booleans, then `LengthMismatch` where it has not `length` rows.
    pub fn from_indices<I: Iterator<Item = usize> + Drop>(
        alloc: Global,
        length: usize,
        indices: I,
        validity: Validity,
    ) -> Result<BoolArray, VortexError>
        requires can { I.can_next indices }
        requires ends { IsFinite (I.remaining indices) }
        ensures ok { IfOk result (λ a. (xs : List ℕ) × (bits : List Bool)
            × AllBelow I.next_gives indices length xs × AreMarked length xs bits
            × (a ≡ bools 0 bits (valid_of validity)) × (validity_fault (valid_of validity) length ≡ None)) }
        ensures err { IfErr result (λ e. (e ≡ Memory)
            ⊎ ((i : ℕ) × IsFirstPast I.next_gives indices length i × (refusal_of e ≡ Some (out_of_bounds i)))
            ⊎ ((xs : List ℕ) × AllBelow I.next_gives indices length xs × Names (validity_fault (valid_of validity) length) e)) }
    {
        let mut bits = BitBufferMut::new_unset(alloc, length)?;
        mark(&mut bits, indices)?;
        BoolArray::try_new(alloc, bits.freeze()?, validity)
    }

    /// The array of the truth values, none of them null. The size hint is not looked at. Asks that
    /// the iterator ends. Fails only for want of memory.
    pub fn from_iter<I: Iterator<Item = bool> + Drop>(
        alloc: Global,
        items: I,
    ) -> Result<BoolArray, VortexError>
        requires can { I.can_next items }
        requires ends { IsFinite (I.remaining items) }
        ensures { Gives result (λ a. (xs : List Bool) × Drains I.next_gives items xs
            × (a ≡ bools 0 xs non_nullable)) }
    {
        let bools = collect_items(alloc, items)?;
        let bits = BitBuffer::from_bools(alloc, &bools)?;
        BoolArray::from_bit_buffer(alloc, bits)
    }

    /// The array of the truth values, null and false where there is none. No row is null by the
    /// state alone where all are there, every row where none is, and else an array tells. The size
    /// hint is not looked at. Asks that the iterator ends. Fails only for want of memory.
    pub fn from_option_iter<I: Iterator<Item = Option<bool>> + Drop>(
        alloc: Global,
        items: I,
    ) -> Result<BoolArray, VortexError>
        requires can { I.can_next items }
        requires ends { IsFinite (I.remaining items) }
        ensures { Gives result (λ a. (xs : List (Option Bool)) × Drains I.next_gives items xs
            × (a ≡ bools 0 (map (λ x. unwrap_or x false) xs) (valid_from 0 (map is_some xs) all_valid))) }
    {
        let all = collect_options(alloc, items, false)?;
        let present = BitBuffer::from_bools(alloc, &all.present)?;
        let validity = Validity::from_buffer(alloc, present)?;
        let bits = BitBuffer::from_bools(alloc, &all.items)?;
        BoolArray::new(alloc, bits, validity)
    }
}

// Makes the bits at these places true, up to the first place at which there is none.
fn mark<I: Iterator<Item = usize> + Drop>(
    bits: &mut BitBufferMut,
    indices: I,
) -> Result<(), VortexError>
    requires can { I.can_next indices }
    requires ends { IsFinite (I.remaining indices) }
    requires unset { bits.old ≡ replicate (length bits.old) false }
    ensures { MatchResult result
        (λ _. (xs : List ℕ) × AllBelow I.next_gives indices (length bits.old) xs × AreMarked (length bits.old) xs bits.new)
        (λ e. (i : ℕ) × IsFirstPast I.next_gives indices (length bits.old) i × (refusal_of e ≡ Some (out_of_bounds i))) }
{
    let len = bits.len();
    for index in indices {
        if index >= len {
            return Err(VortexError::OutOfBounds { index, len });
        }
        bits.set(index);
    }
    Ok(())
}
