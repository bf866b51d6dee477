// A reader takes in foreign parts: each batch is tested where it comes in.

use crate::columns::{Lie, codes, numbers, places, records, some_null};
use crate::digest::{Digest, with_array, with_texts};
use crate::fault::Fault;
use crate::random::Random;
use crate::scale::Scale;
use crate::texts::{Lengths, NAMES, Parts, Script, names};
use std::alloc::Global;
use std::ops::Range;
use vx_base::PType;
use vx_leaves::DictArray;
use vx_lists::ListViewArray;
use vx_tree::{ArrayRef, TypedArray, Validity};

// Texts of some thousand bytes.
const LONG: Lengths = Lengths {
    least: 1_000,
    more: 1_000,
};

// What lies outside, before it is tested.
#[derive(Drop)]
struct Foreign {
    ascii: Parts,
    mixed: Parts,
    long: Parts,
    elements: ArrayRef,
    in_order: (ArrayRef, ArrayRef),
    anywhere: (ArrayRef, ArrayRef),
    codes: ArrayRef,
    values: ArrayRef,
}

impl Foreign {
    fn new(alloc: Global, random: &mut Random, scale: Scale) -> Result<Foreign, Fault> {
        let rows = scale.column;
        let count = rows.saturating_mul(20);
        Ok(Foreign {
            ascii: Parts::new(alloc, random, rows, Script::Ascii, NAMES)?,
            mixed: Parts::new(alloc, random, rows, Script::Mixed, NAMES)?,
            long: Parts::new(alloc, random, rows / 64, Script::Rare, LONG)?,
            elements: numbers(alloc, random, count, PType::I32, Validity::NonNullable)?,
            in_order: places(alloc, random, rows, count, 20, Lie::InOrder)?,
            anywhere: places(alloc, random, rows, count, 20, Lie::Anywhere)?,
            codes: codes(alloc, random, rows)?,
            values: names(alloc, random, 1024)?,
        })
    }

    // Lists of these places, in these rows.
    fn lists(
        &self,
        alloc: Global,
        places: &(ArrayRef, ArrayRef),
        rows: Range<usize>,
    ) -> Result<ListViewArray, Fault> {
        let (start, end) = (rows.start, rows.end);
        let offsets = places.0.slice(alloc, start..end)?;
        let sizes = places.1.slice(alloc, start..end)?;
        let elements = self.elements.try_clone(alloc)?;
        let none = Validity::NonNullable;
        Ok(ListViewArray::try_new(alloc, elements, offsets, sizes, none)?)
    }

    // A batch of each, and whether its lists lie one after another.
    fn batch(
        &self,
        alloc: Global,
        random: &mut Random,
        rows: Range<usize>,
    ) -> Result<(Vec<ArrayRef>, bool, bool), Fault> {
        let (start, end) = (rows.start, rows.end);
        let null = some_null(alloc, random, end.saturating_sub(start))?;
        let in_order = self.lists(alloc, &self.in_order, start..end)?;
        let anywhere = self.lists(alloc, &self.anywhere, start..end)?;
        let (one, other) = (in_order.is_consecutive(), anywhere.is_consecutive());
        let codes = self.codes.slice(alloc, start..end)?;
        let values = self.values.try_clone(alloc)?;
        let mut columns = Vec::with_capacity(alloc, 5)?;
        columns.push(self.ascii.batch(alloc, start..end, Validity::NonNullable)?)?;
        columns.push(self.mixed.batch(alloc, start..end, null)?)?;
        columns.push(in_order.into_array())?;
        columns.push(anywhere.into_array())?;
        columns.push(DictArray::try_new(alloc, codes, values)?.into_array())?;
        Ok((columns, one, other))
    }
}

// The names of the columns.
const COLUMNS: [&str; 5] = ["ascii", "mixed", "in order", "anywhere", "code"];

// A digest of a batch of each part.
fn with_batch(
    alloc: Global,
    random: &mut Random,
    digest: Digest,
    scale: Scale,
    foreign: &Foreign,
) -> Result<Digest, Fault> {
    let rows = scale.cut(random);
    let (first, last) = (rows.start / 64, rows.end / 64);
    let (columns, one, other) = foreign.batch(alloc, random, rows)?;
    let digest = digest.with_word(one as u64).with_word(other as u64);
    let none = Validity::NonNullable;
    let table = records(alloc, &COLUMNS, columns, scale.batch, none)?;
    let digest = with_array(alloc, digest, table.as_array())?;
    let digest = with_texts(digest, table.as_array());
    let long = foreign.long.batch(alloc, first..last, Validity::AllValid)?;
    Ok(with_texts(with_array(alloc, digest, &long)?, &long).next_turn())
}

pub(crate) fn run(alloc: Global, random: &mut Random, scale: Scale) -> Result<Digest, Fault> {
    let foreign = Foreign::new(alloc, random, scale)?;
    let mut digest = Digest::new(scale.rounds);
    for _ in 0..scale.rounds {
        digest = with_batch(alloc, random, digest, scale, &foreign)?;
    }
    Ok(digest)
}
