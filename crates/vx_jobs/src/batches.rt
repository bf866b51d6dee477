// Many small batches: each is cut out of its columns, looked at by name, and joined again.

use crate::columns::{Lie, lists_in, lists_of_numbers, numbers, records, table};
use crate::digest::{Digest, with_array, with_texts};
use crate::fault::Fault;
use crate::random::Random;
use crate::scale::Scale;
use std::alloc::Global;
use vx_base::{FieldName, PType};
use vx_structs::{StructArray, StructArrayExt};
use vx_tree::{ArrayRef, TypedArray, Validity};

// The columns that are chosen of a table: no lists, since each batch of a list view has all of its
// elements, and those that are joined have them as often as there are batches.
const CHOSEN: [&str; 5] = ["name", "id", "city", "place", "flag"];

// How many batches are joined again.
const JOINED: usize = 32;

// How many columns a wide table has.
const WIDE: usize = 200;

// A table, a wide one, and lists in lists in lists.
#[derive(Drop)]
struct Tables {
    table: ArrayRef,
    wide: ArrayRef,
    nested: ArrayRef,
    chosen: Vec<FieldName>,
    half: Vec<FieldName>,
}

// The name of column `i` of a wide table.
fn wide_name(alloc: Global, i: usize) -> Result<FieldName, Fault> {
    let text = format!(in alloc; "measure_{i}")?;
    Ok(FieldName::try_new(alloc, &text)?)
}

// How many rows a wide table has.
fn wide_rows(scale: Scale) -> usize {
    (scale.column / 16).max(1_024)
}

// The names of the columns of a wide table.
fn wide_names(alloc: Global) -> Result<Vec<FieldName>, Fault> {
    let mut names = Vec::with_capacity(alloc, WIDE)?;
    for i in 0..WIDE {
        names.push(wide_name(alloc, i)?)?;
    }
    Ok(names)
}

// The columns of a wide table, all of them numbers.
fn wide_columns(alloc: Global, random: &mut Random, rows: usize) -> Result<Vec<ArrayRef>, Fault> {
    let mut columns = Vec::with_capacity(alloc, WIDE)?;
    for _ in 0..WIDE {
        columns.push(numbers(alloc, random, rows, PType::U8, Validity::AllValid)?)?;
    }
    Ok(columns)
}

// A table of 200 columns.
fn wide_table(alloc: Global, random: &mut Random, rows: usize) -> Result<StructArray, Fault> {
    let columns = wide_columns(alloc, random, rows)?;
    let names = wide_names(alloc)?;
    let mut texts = Vec::with_capacity(alloc, WIDE)?;
    for name in &names {
        texts.push(name.as_str())?;
    }
    records(alloc, &texts, columns, rows, Validity::NonNullable)
}

// Each second name of a wide table.
fn half_of_wide(alloc: Global) -> Result<Vec<FieldName>, Fault> {
    let mut names = Vec::with_capacity(alloc, WIDE / 2)?;
    for i in 0..WIDE / 2 {
        names.push(wide_name(alloc, i * 2 + 1)?)?;
    }
    Ok(names)
}

impl Tables {
    fn new(alloc: Global, random: &mut Random, scale: Scale) -> Result<Tables, Fault> {
        let rows = scale.column;
        let inner = lists_of_numbers(alloc, random, rows)?.into_array();
        let middle = lists_in(alloc, random, rows, inner, 5, Lie::Anywhere)?.into_array();
        let mut chosen = Vec::new(alloc);
        for name in CHOSEN {
            chosen.push(FieldName::try_new(alloc, name)?)?;
        }
        Ok(Tables {
            table: table(alloc, random, rows)?.into_array(),
            wide: wide_table(alloc, random, wide_rows(scale))?.into_array(),
            nested: lists_in(alloc, random, rows, middle, 5, Lie::Anywhere)?.into_array(),
            chosen,
            half: half_of_wide(alloc)?,
        })
    }
}

fn records_of(array: ArrayRef) -> Result<StructArray, Fault> {
    match StructArray::try_from_array(array) {
        Ok(records) => Ok(records),
        Err(_) => Err(Fault::Usage),
    }
}

// A batch of a table: some of its columns, one of them twice and one taken out.
fn chosen_batch(
    alloc: Global,
    batch: ArrayRef,
    names: &[FieldName],
    twice: &str,
) -> Result<StructArray, Fault> {
    let batch = records_of(batch)?.project(alloc, names)?;
    let Some(column) = batch.unmasked_field_by_name_opt(twice) else {
        return Err(Fault::Usage);
    };
    let more = batch.with_column(alloc, "again", column.try_clone(alloc)?)?;
    match more.remove_column(alloc, twice)? {
        Some((rest, _)) => Ok(rest),
        None => Err(Fault::Usage),
    }
}

// A batch of 400 to 1,423 rows of the narrow table, and a digest of it and of as many nested lists.
fn next_batch(
    alloc: Global,
    random: &mut Random,
    digest: Digest,
    scale: Scale,
    tables: &Tables,
) -> Result<(StructArray, Digest), Fault> {
    let rows = random.below(1024).saturating_add(400).min(scale.batch);
    let start = random.below(scale.column.saturating_sub(rows));
    let end = start.saturating_add(rows);
    let nested = tables.nested.slice(alloc, start..end)?;
    let digest = with_array(alloc, digest, &nested)?;
    let batch = tables.table.slice(alloc, start..end)?;
    let batch = chosen_batch(alloc, batch, &tables.chosen, "id")?;
    let digest = with_array(alloc, digest, batch.as_array())?;
    Ok((batch, digest.next_turn()))
}

// Some batches of the narrow table, a digest of each, of the texts of the last one, which all
// share, and of all of them joined again.
fn with_joined(
    alloc: Global,
    random: &mut Random,
    digest: Digest,
    scale: Scale,
    tables: &Tables,
) -> Result<Digest, Fault> {
    let mut digest = digest;
    let mut batches = Vec::new(alloc);
    for _ in 0..JOINED {
        let (batch, after) = next_batch(alloc, random, digest, scale, tables)?;
        batches.push(batch)?;
        digest = after;
    }
    if let Some(batch) = batches.last() {
        digest = with_texts(digest, batch.as_array());
    }
    let joined = StructArray::try_concat(alloc, batches.iter())?;
    with_array(alloc, digest, joined.as_array())
}

// A digest of a batch of 400 rows of the wide table: each round has rows of its own to begin at.
fn with_wide(
    alloc: Global,
    random: &mut Random,
    digest: Digest,
    round: usize,
    step: usize,
    tables: &Tables,
) -> Result<Digest, Fault> {
    let start = round
        .saturating_mul(step)
        .saturating_add(random.below(step));
    let batch = tables.wide.slice(alloc, start..start.saturating_add(400))?;
    let batch = chosen_batch(alloc, batch, &tables.half, "measure_101")?;
    with_array(alloc, digest, batch.as_array())
}

pub(crate) fn run(alloc: Global, random: &mut Random, scale: Scale) -> Result<Digest, Fault> {
    let tables = Tables::new(alloc, random, scale)?;
    let step = wide_rows(scale).saturating_sub(400) / scale.rounds.max(1);
    let mut digest = Digest::new(scale.rounds.saturating_mul(JOINED));
    for round in 0..scale.rounds {
        digest = with_joined(alloc, random, digest, scale, &tables)?;
        digest = with_wide(alloc, random, digest, round, step, &tables)?;
    }
    Ok(digest)
}
