// A query over a table: filters, takes, masks and joins, and the plain layout in the end.

use crate::columns::{bool_array, table, truths};
use crate::digest::{Digest, with_array, with_texts};
use crate::fault::Fault;
use crate::random::{Random, Share, bits_by_turns};
use crate::scale::Scale;
use std::alloc::Global;
use vx_base::{BitBuffer, Buffer, Mask};
use vx_canonical::ToCanonical;
use vx_leaves::PrimitiveArray;
use vx_structs::{StructArray, StructArrayExt};
use vx_tree::{ArrayRef, TypedArray, Validity};

// The rows of a batch at which the bits are true.
fn kept(alloc: Global, batch: &ArrayRef, bits: BitBuffer) -> Result<ArrayRef, Fault> {
    Ok(batch.filter(alloc, &Mask::from_buffer(alloc, bits)?)?)
}

// The places of a sort: so many, at random.
fn sorted_places(
    alloc: Global,
    random: &mut Random,
    count: usize,
    rows: usize,
) -> Result<ArrayRef, Fault> {
    let places = Buffer::from_vec(alloc, random.numbers(alloc, count, rows)?)?;
    Ok(PrimitiveArray::try_new(alloc, places, Validity::NonNullable)?.into_array())
}

// The places of a join: nearly in order, some again, and one in eight finds none.
fn joined_places(
    alloc: Global,
    random: &mut Random,
    count: usize,
    rows: usize,
) -> Result<ArrayRef, Fault> {
    let mut places = Vec::with_capacity(alloc, count)?;
    let last = rows.saturating_sub(1);
    for i in 0..count {
        let place = i.saturating_add(random.below(4)).min(last);
        places.push(u32::try_from(place).unwrap_or(0))?;
    }
    let places = Buffer::from_vec(alloc, places)?;
    let found = Validity::Array(truths(alloc, random, count, Share::Most)?);
    Ok(PrimitiveArray::try_new(alloc, places, found)?.into_array())
}

// A sum over the numbers of a column, as they are read row by row: one below 0 counts as 1.
fn sum_of(amounts: &ArrayRef) -> Result<u64, Fault> {
    if !amounts.dtype().is_int() {
        return Err(Fault::Usage);
    }
    let mut sum = 0u64;
    for i in 0..amounts.len() {
        if let Some(amount) = amounts.int_at(i) {
            sum = sum.wrapping_add(u64::try_from(amount).unwrap_or(1));
        }
    }
    Ok(sum)
}

// What is kept of a batch: few rows and half of them at random, ranges, and each second row.
fn filtered(alloc: Global, random: &mut Random, batch: &ArrayRef) -> Result<Vec<ArrayRef>, Fault> {
    let rows = batch.len();
    let mut kept_rows = Vec::with_capacity(alloc, 4)?;
    for share in [Share::Few, Share::Half] {
        kept_rows.push(kept(alloc, batch, random.bits(alloc, rows, share)?)?)?;
    }
    let ranges = random.bits_in_runs(alloc, rows, 1000)?;
    kept_rows.push(kept(alloc, batch, ranges)?)?;
    kept_rows.push(kept(alloc, batch, bits_by_turns(alloc, rows)?)?)?;
    Ok(kept_rows)
}

// The rows of a batch in the order of a sort, those of a join, and those under a mask.
fn moved(alloc: Global, random: &mut Random, batch: &ArrayRef) -> Result<Vec<ArrayRef>, Fault> {
    let rows = batch.len();
    let mut all = Vec::with_capacity(alloc, 3)?;
    let sorted = sorted_places(alloc, random, rows / 2, rows)?;
    all.push(batch.take(alloc, &sorted)?)?;
    let joined = joined_places(alloc, random, rows, rows)?;
    all.push(batch.take(alloc, &joined)?)?;
    let mask = bool_array(alloc, random.bits(alloc, rows, Share::Most)?)?;
    all.push(batch.mask(alloc, &mask)?)?;
    Ok(all)
}

// A batch without its lists.
fn without_lists(alloc: Global, batch: ArrayRef) -> Result<StructArray, Fault> {
    let Ok(batch) = StructArray::try_from_array(batch) else {
        return Err(Fault::Usage);
    };
    match batch.remove_column(alloc, "tags")? {
        Some((rest, _)) => Ok(rest),
        None => Err(Fault::Usage),
    }
}

// What was kept of batches, joined. The lists are left out: joined, they have as many elements as
// all batches together, and each batch has those of the table.
fn joined(alloc: Global, batches: Vec<ArrayRef>) -> Result<StructArray, Fault> {
    let mut chosen = Vec::with_capacity(alloc, batches.len())?;
    for batch in batches {
        chosen.push(without_lists(alloc, batch)?)?;
    }
    Ok(StructArray::try_concat(alloc, chosen.iter())?)
}

// A digest of arrays, one after another.
fn with_all(alloc: Global, digest: Digest, arrays: &[ArrayRef]) -> Result<Digest, Fault> {
    let mut digest = digest;
    for array in arrays {
        digest = with_array(alloc, digest, array)?;
    }
    Ok(digest)
}

// A digest of arrays in their plain layout.
fn with_plain(alloc: Global, digest: Digest, arrays: &[ArrayRef]) -> Result<Digest, Fault> {
    let mut digest = digest;
    for array in arrays {
        let plain = array.to_canonical(alloc)?;
        digest = with_array(alloc, digest, &plain)?;
    }
    Ok(digest)
}

// A digest of what is asked of a batch.
fn with_batch(
    alloc: Global,
    random: &mut Random,
    digest: Digest,
    batch: &ArrayRef,
) -> Result<Digest, Fault> {
    let kept = filtered(alloc, random, batch)?;
    let digest = with_all(alloc, digest, &kept)?;
    let joined = joined(alloc, kept)?;
    let digest = with_array(alloc, digest, joined.as_array())?;
    let digest = with_texts(digest, joined.as_array());
    let moved = moved(alloc, random, batch)?;
    let digest = with_all(alloc, digest, &moved)?;
    with_plain(alloc, digest, &moved)
}

pub(crate) fn run(alloc: Global, random: &mut Random, scale: Scale) -> Result<Digest, Fault> {
    let table = table(alloc, random, scale.column)?;
    let Some(amounts) = table.unmasked_field_by_name_opt("amount") else {
        return Err(Fault::Usage);
    };
    let mut digest = Digest::new(scale.rounds);
    for _ in 0..scale.rounds {
        let rows = scale.cut(random);
        let amounts = amounts.slice(alloc, rows.start..rows.end)?;
        digest = digest.with_word(sum_of(&amounts)?);
        let batch = table.as_array().slice(alloc, rows)?;
        digest = with_batch(alloc, random, digest, &batch)?.next_turn();
    }
    Ok(digest)
}
