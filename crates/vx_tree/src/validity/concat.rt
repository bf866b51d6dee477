// Validities that are joined, and gathered from iterators.

ghost use Rattle.std.specs.Prelude.{◌≡◌, ◌⊎◌, ◌<◌, ◌+◌, ◌^◌, ◌++◌, Bool, List, None, length, map, IfOk, IfErr};
ghost use Rattle.std.specs.Option.{option_map};
ghost use Rattle.std.specs.List.{All};
ghost use Rattle.std.specs.Iterator.{IsFinite, Drains};
ghost use Rattle.vx_base.specs.Booleans.{joined, count_fault};
ghost use Rattle.vx_base.specs.Refusals.{Gives, Refuses, Tests, refusal_of};
ghost use Rattle.vx_base.specs.declared.errors.VortexError.TheVariants.{Memory};
ghost use Rattle.vx_tree.specs.Tree.{Valid, all_valid};
ghost use Rattle.vx_tree.specs.Meaning.{valid_mask};
ghost use Rattle.vx_tree.specs.Formed.{IsLenOf};
ghost use Rattle.vx_tree.specs.Parts.{valid_of};
ghost use Rattle.vx_tree.specs.Faults.{valid_type_fault};
ghost use Rattle.vx_tree.specs.Validities.{valid_from};
ghost use Rattle.vx_tree.specs.Joins.{executed, AreLens, mask_of, joined_mask, are_all, joined_validity, types_fault, join_fault};

use crate::array::Validity;
use crate::collect::collect_items;
use crate::validity::told_by;
use std::alloc::Global;
use std::fmt;
use vx_base::{BitBuffer, BitBufferMut, Mask, Nullability, VortexError};

// How many rows at most are joined by appending their bits: those of a page.
const APPENDED: usize = 32_768;

impl Validity {
    /// A state without an array as it is, and an array as one of plain booleans of its own, neither
    /// a constant nor a dictionary. Refuses `MismatchedTypes` where the array is not one of plain
    /// booleans.
    pub fn execute(self, alloc: Global) -> Result<Validity, VortexError>
        ensures ok { IfOk result (λ w. valid_of w ≡ executed (valid_of self)) }
        ensures refuses { Refuses result (valid_type_fault (valid_of self)) }
    {
        match self {
            Validity::NonNullable => Ok(Validity::NonNullable),
            Validity::AllValid => Ok(Validity::AllValid),
            Validity::AllInvalid => Ok(Validity::AllInvalid),
            Validity::Array(array) => {
                if !array.dtype().is_plain_bool() {
                    return Err(VortexError::MismatchedTypes);
                }
                let bits = array.plain_bits(alloc)?;
                Ok(told_by(alloc, bits)?)
            }
        }
    }

    /// The rows of validities, one validity after another, each of so many rows: nothing of none,
    /// the state that all of them are where it is one without an array, and then no number of rows
    /// is looked at; else an array. Asks that an array has as many rows as stand beside it. Refuses
    /// `MismatchedTypes` where an array is not one of plain booleans, then `Overflow` where the
    /// rows are 2^64 or more. Two rows of `AllValid` and one of `AllInvalid` are true, true, false.
    pub fn concat(
        alloc: Global,
        parts: Vec<(Validity, usize)>,
    ) -> Result<Option<Validity>, VortexError>
        requires { AreLens parts.items }
        ensures joined { IfOk result (λ o. option_map valid_of o ≡ joined_validity parts.items) }
        ensures refuses { Refuses result (join_fault parts.items) }
    {
        joined_parts(alloc, &parts)
    }

    /// Valid where the item is true, as `from_buffer` says it. The size hint is not looked at. Asks
    /// that the iterator ends. Fails only for want of memory.
    pub fn from_iter<I: Iterator<Item = bool> + Drop>(
        alloc: Global,
        items: I,
    ) -> Result<Validity, VortexError>
        requires can { I.can_next items }
        requires ends { IsFinite (I.remaining items) }
        ensures { Gives result (λ v. (bits : List Bool) × Drains I.next_gives items bits
            × (valid_of v ≡ valid_from 0 bits all_valid)) }
    {
        let bools = collect_items(alloc, items)?;
        let bits = BitBuffer::from_bools(alloc, &bools)?;
        Validity::from_buffer(alloc, bits)
    }

    /// Valid where the masks are true, one mask after another, as `from_mask` says it of a nullable
    /// data type. The size hint is not looked at. Asks that the iterator ends. Refuses `Overflow`
    /// where the rows are 2^64 or more.
    pub fn from_mask_iter<I: Iterator<Item = Mask> + Drop>(
        alloc: Global,
        items: I,
    ) -> Result<Validity, VortexError>
        requires can { I.can_next items }
        requires ends { IsFinite (I.remaining items) }
        ensures ok { IfOk result (λ v. (masks : List (List Bool)) × Drains I.next_gives items masks
            × (count_fault (length (joined masks)) ≡ None) × (valid_of v ≡ valid_from 0 (joined masks) all_valid)) }
        ensures err { IfErr result (λ e. (e ≡ Memory) ⊎ ((masks : List (List Bool)) × Drains I.next_gives items masks
            × (count_fault (length (joined masks)) ≡ refusal_of e))) }
    {
        let masks = collect_items(alloc, items)?;
        let mask = Mask::concat(alloc, &masks)?;
        Validity::from_mask(alloc, mask, Nullability::Nullable)
    }

    // Adds the booleans of `len` rows to bits.
    fn append_to(
        &self,
        alloc: Global,
        len: usize,
        bits: &mut BitBufferMut,
    ) -> Result<(), VortexError>
        requires rows { IsLenOf (valid_of self.now) len }
        requires kind { valid_type_fault (valid_of self.now) ≡ None }
        requires short { length bits.old + len < 2 ^ 64 }
        ensures { Gives result (λ _. bits.new ≡ bits.old ++ valid_mask (valid_of self.now) len) }
    {
        match self {
            Validity::NonNullable => bits.append_n(true, len),
            Validity::AllValid => bits.append_n(true, len),
            Validity::AllInvalid => bits.append_n(false, len),
            Validity::Array(array) => array.append_truths(alloc, bits),
        }
    }

    // Whether all of them are this state, and it is one without an array.
    fn are_all(&self, parts: &[(Validity, usize)]) -> bool
        ensures { result ≡ are_all (valid_of self.now) parts.now }
    {
        for (part, _) in parts {
            if !self.is_unchanged(part) {
                return false;
            }
        }
        true
    }
}

impl fmt::Debug for Validity {
    fn fmt<W: fmt::Write>(&self, f: &mut fmt::Formatter<W>) -> fmt::Result {
        let name = match self {
            Validity::NonNullable => "NonNullable",
            Validity::AllValid => "AllValid",
            Validity::AllInvalid => "AllInvalid",
            Validity::Array(_) => "Array(..)",
        };
        write!(f, "{name}")
    }
}

// The rows of validities, one validity after another, nothing of none.
#[tactic(auto, using(crate::proofs::Joins::lens_each))]
fn joined_parts(alloc: Global, parts: &[(Validity, usize)]) -> Result<Option<Validity>, VortexError>
    requires { AreLens parts.now }
    ensures joined { IfOk result (λ o. option_map valid_of o ≡ joined_validity parts.now) }
    ensures refuses { Refuses result (join_fault parts.now) }
{
    let Some((first, _)) = parts.first() else {
        return Ok(None);
    };
    if first.are_all(parts) {
        return Ok(Some(first.try_clone(alloc)?));
    }
    check_types(parts)?;
    let bits = joined_bits(alloc, parts)?;
    Ok(Some(told_by(alloc, bits)?))
}

// Whether each array is one of plain booleans.
fn check_types(parts: &[(Validity, usize)]) -> Result<(), VortexError>
    ensures each { IfOk result (λ _. All (λ part. valid_type_fault (valid_of part.0) ≡ None) parts.now) }
    ensures tests { Tests result (types_fault parts.now) }
{
    for (part, _) in parts {
        part.check_type()?;
    }
    Ok(())
}

// Their booleans, one validity after another: appended bit by bit, or, where there are many rows,
// joined by their runs, since a loop that lets go of large results then had fewer page faults.
fn joined_bits(alloc: Global, parts: &[(Validity, usize)]) -> Result<BitBuffer, VortexError>
    requires lens { All (λ part. IsLenOf (valid_of part.0) part.1) parts.now }
    requires types { All (λ part. valid_type_fault (valid_of part.0) ≡ None) parts.now }
    ensures ok { IfOk result (λ b. b.bits ≡ joined_mask parts.now) }
    ensures offset { IfOk result (λ b. b.offset ≡ 0) }
    ensures refuses { Refuses result (count_fault (length (joined_mask parts.now))) }
{
    let count = row_count(parts)?;
    if count <= APPENDED {
        return appended_bits(alloc, count, parts);
    }
    let masks = masks_of(alloc, parts)?;
    let mask = Mask::concat(alloc, &masks)?;
    bits_of_mask(alloc, &mask)
}

// The booleans of each, of which there are so many together, are appended.
fn appended_bits(
    alloc: Global,
    count: usize,
    parts: &[(Validity, usize)],
) -> Result<BitBuffer, VortexError>
    requires lens { All (λ part. IsLenOf (valid_of part.0) part.1) parts.now }
    requires types { All (λ part. valid_type_fault (valid_of part.0) ≡ None) parts.now }
    requires count { count ≡ length (joined_mask parts.now) }
    ensures bits { Gives result (λ b. b.bits ≡ joined_mask parts.now) }
    ensures offset { IfOk result (λ b. b.offset ≡ 0) }
{
    let mut bits = BitBufferMut::with_capacity(alloc, count)?;
    for (part, len) in parts {
        part.append_to(alloc, *len, &mut bits)?;
    }
    bits.freeze()
}

// The booleans of each.
fn masks_of(alloc: Global, parts: &[(Validity, usize)]) -> Result<Vec<Mask>, VortexError>
    requires lens { All (λ part. IsLenOf (valid_of part.0) part.1) parts.now }
    requires types { All (λ part. valid_type_fault (valid_of part.0) ≡ None) parts.now }
    ensures { Gives result (λ masks. masks.items ≡ map mask_of parts.now) }
{
    let mut masks = Vec::with_capacity(alloc, parts.len())?;
    for (part, len) in parts {
        masks.push(part.execute_mask(alloc, *len)?)?;
    }
    Ok(masks)
}

// How many rows they have together.
fn row_count(parts: &[(Validity, usize)]) -> Result<usize, VortexError>
    requires { All (λ part. IsLenOf (valid_of part.0) part.1) parts.now }
    ensures count { IfOk result (λ n. n ≡ length (joined_mask parts.now)) }
    ensures tests { Tests result (count_fault (length (joined_mask parts.now))) }
{
    let mut count = 0usize;
    for (_, len) in parts {
        let Some(more) = count.checked_add(*len) else {
            return Err(VortexError::Overflow);
        };
        count = more;
    }
    Ok(count)
}

// The booleans of a mask as bits, which are made of its runs where both values stand.
pub(crate) fn bits_of_mask(alloc: Global, mask: &Mask) -> Result<BitBuffer, VortexError>
    ensures bits { Gives result (λ b. b.bits ≡ mask.now) }
    ensures offset { IfOk result (λ b. b.offset ≡ 0) }
{
    if mask.all_true() {
        return BitBuffer::new_set(alloc, mask.len());
    }
    if mask.all_false() {
        return BitBuffer::new_unset(alloc, mask.len());
    }
    match mask.values() {
        Some(values) => values.bit_buffer(alloc),
        None => unreachable!(),
    }
}
