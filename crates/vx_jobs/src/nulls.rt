// Nulls of many columns are joined and read.

use crate::columns::{bool_array, counts, numbers, records, some_null, truths};
use crate::digest::{Digest, with_array};
use crate::fault::Fault;
use crate::random::{Random, Share, bits_by_turns};
use crate::scale::Scale;
use std::alloc::Global;
use vx_base::PType;
use vx_leaves::{BoolArray, BoolArrayExt};
use vx_structs::StructArray;
use vx_tree::{ArrayRef, TypedArray, Validity};

// The names of the columns of records.
const COLUMNS: [&str; 4] = ["id", "count", "flag", "weight"];

// A validity of so many rows, null in ranges.
fn null_in_ranges(alloc: Global, random: &mut Random, rows: usize) -> Result<Validity, Fault> {
    let ranges = random.bits_in_runs(alloc, rows, 500)?;
    Ok(Validity::Array(bool_array(alloc, ranges)?))
}

// A validity of so many rows, of which each second one is null.
fn null_by_turns(alloc: Global, rows: usize) -> Result<Validity, Fault> {
    Ok(Validity::Array(bool_array(alloc, bits_by_turns(alloc, rows)?)?))
}

// Records in which some are null, and some of their fields.
fn records_with_nulls(
    alloc: Global,
    random: &mut Random,
    rows: usize,
) -> Result<StructArray, Fault> {
    let mut columns = Vec::with_capacity(alloc, 4)?;
    for ptype in [PType::I64, PType::U16, PType::U8, PType::I32] {
        let null = some_null(alloc, random, rows)?;
        columns.push(numbers(alloc, random, rows, ptype, null)?)?;
    }
    let null = some_null(alloc, random, rows)?;
    records(alloc, &COLUMNS, columns, rows, null)
}

// A digest of a validity, whether it has nulls, and its mask.
fn with_validity(
    alloc: Global,
    digest: Digest,
    validity: &Validity,
    rows: usize,
) -> Result<Digest, Fault> {
    validity.check(rows)?;
    let digest = with_array(alloc, digest, &validity.to_array(alloc, rows)?)?;
    Ok(digest.with_mask(&validity.execute_mask(alloc, rows)?))
}

// A digest of validities that are joined, turned and patched.
fn with_joined(
    alloc: Global,
    random: &mut Random,
    digest: Digest,
    rows: usize,
) -> Result<Digest, Fault> {
    let one = some_null(alloc, random, rows)?;
    let both = one.and(alloc, some_null(alloc, random, rows)?)?;
    let digest = with_array(alloc, digest, &both.not(alloc)?.to_array(alloc, rows)?)?;
    let indices = counts(alloc, random.numbers(alloc, rows / 8, rows)?)?;
    let patches = some_null(alloc, random, rows / 8)?;
    let patched = both.patch(alloc, rows, 0, &indices, &patches)?;
    let in_ranges = patched.and(alloc, null_in_ranges(alloc, random, rows)?)?;
    let digest = with_validity(alloc, digest, &in_ranges, rows)?;
    let last = in_ranges.and(alloc, null_by_turns(alloc, rows)?)?;
    with_array(alloc, digest, &last.to_array(alloc, rows)?)
}

// A digest of truth values as a mask, where a row that is null counts as false.
fn with_truths(
    alloc: Global,
    random: &mut Random,
    digest: Digest,
    rows: usize,
) -> Result<Digest, Fault> {
    let bits = random.bits(alloc, rows, Share::Half)?;
    let null = some_null(alloc, random, rows)?;
    let truths = BoolArray::try_new(alloc, bits, null)?;
    Ok(digest.with_mask(&truths.to_mask_fill_null_false(alloc)?))
}

// A digest of records whose nulls are pushed into their columns, one of which is masked.
fn with_records(
    alloc: Global,
    random: &mut Random,
    digest: Digest,
    rows: usize,
    table: &ArrayRef,
) -> Result<Digest, Fault> {
    let masked = table.mask(alloc, &truths(alloc, random, rows, Share::Most)?)?;
    match StructArray::try_from_array(masked) {
        Ok(records) => {
            let pushed = records.push_validity_into_children(alloc, true)?;
            with_array(alloc, digest, pushed.as_array())
        }
        Err(_) => Err(Fault::Usage),
    }
}

pub(crate) fn run(alloc: Global, random: &mut Random, scale: Scale) -> Result<Digest, Fault> {
    let table = records_with_nulls(alloc, random, scale.column)?;
    let mut digest = Digest::new(scale.rounds);
    for _ in 0..scale.rounds {
        let rows = scale.cut(random);
        digest = with_joined(alloc, random, digest, scale.batch)?;
        digest = with_truths(alloc, random, digest, scale.batch)?;
        let batch = table.as_array().slice(alloc, rows)?;
        digest = with_records(alloc, random, digest, scale.batch, &batch)?.next_turn();
    }
    Ok(digest)
}
