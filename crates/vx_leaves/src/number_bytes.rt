// The bytes of the numbers that iterators give: each is written where there is room, which grows
// with what comes. No size hint is looked at.

ghost use Rattle.std.specs.Prelude.{◌≡◌, ◌≤◌, ◌+◌, ◌*◌, ◌∷◌, ◌++◌, [], List, Option, length, take, map, OnOk};
ghost use Rattle.std.specs.Option.{is_some};
ghost use Rattle.std.specs.Iterator.{IsFinite, Drains};
ghost use Rattle.vx_base.specs.Integers.{byte_width, numbers};
ghost use Rattle.vx_base.specs.Refusals.{Gives};
ghost use Rattle.vx_leaves.specs.Leaves.{number_or_zero};

use std::alloc::Global;
use vx_base::{NativePType, VortexError};

// How many bytes are added at most where there is no room, which are cleared and are still near
// when they are written, and how many of them a number takes at most.
const BLOCK: usize = 1024;

const WIDEST: usize = 8;

// The bytes of the items, one number after another.
pub(crate) fn collect_numbers<T: NativePType + Drop, I: Iterator<Item = T> + Drop>(
    alloc: Global,
    items: I,
) -> Result<Vec<u8>, VortexError>
    requires can { I.can_next items }
    requires ends { IsFinite (I.remaining items) }
    ensures { Gives result (λ bytes. (xs : List T) × Drains I.next_gives items xs
        × (numbers T.PTYPE bytes.items ≡ map T.value xs)
        × (length bytes.items ≡ length xs * byte_width T.PTYPE)) }
{
    let width = T::PTYPE.byte_width();
    let mut bytes = Vec::new(alloc);
    let mut row = 0;
    for item in items {
        make_room(&mut bytes, row * width)?;
        put_number(&mut bytes, row, item);
        row += 1;
    }
    bytes.truncate(row * width);
    Ok(bytes)
}

// The numbers of items that may be none: their bytes, and which are there.
#[derive(Drop)]
pub(crate) struct OptionalNumbers {
    pub bytes: Vec<u8>,
    pub present: Vec<bool>,
}

// The bytes of the items, one number after another, 0 in the place of none.
pub(crate) fn collect_optional_numbers<T: NativePType + Drop, I: Iterator<Item = Option<T>> + Drop>(
    alloc: Global,
    items: I,
) -> Result<OptionalNumbers, VortexError>
    requires can { I.can_next items }
    requires ends { IsFinite (I.remaining items) }
    ensures { Gives result (λ all. (xs : List (Option T)) × Drains I.next_gives items xs
        × (numbers T.PTYPE all.bytes.items ≡ map (number_or_zero T.value) xs)
        × (all.present.items ≡ map is_some xs)
        × (length all.bytes.items ≡ length xs * byte_width T.PTYPE)) }
{
    let width = T::PTYPE.byte_width();
    let mut bytes = Vec::new(alloc);
    let mut present = Vec::new(alloc);
    let mut row = 0;
    for item in items {
        make_room(&mut bytes, row * width)?;
        put_number(&mut bytes, row, number_or_zero(item));
        present.push(item.is_some())?;
        row += 1;
    }
    bytes.truncate(row * width);
    Ok(OptionalNumbers { bytes, present })
}

// The number, 0 where there is none.
#[inline]
fn number_or_zero<T: NativePType>(item: Option<T>) -> T
    ensures { T.value result ≡ number_or_zero T.value item }
{
    match item {
        Some(number) => number,
        None => T::zero(),
    }
}

// Makes room for a number after the first bytes: twice as much as there is, up to a block.
#[inline]
pub(crate) fn make_room(bytes: &mut Vec<u8>, filled: usize) -> Result<(), VortexError>
    requires { filled ≤ length bytes.old.items }
    ensures room { Gives result (λ _. filled + 8 ≤ length bytes.new.items) }
    ensures same { OnOk result (take filled bytes.new.items ≡ take filled bytes.old.items) }
{
    let len = bytes.len();
    if len - filled < WIDEST {
        let more = if len < BLOCK { len + WIDEST } else { BLOCK };
        bytes.resize(len + more, 0)?;
    }
    Ok(())
}

// Writes the bytes of a number after those of `row` others.
#[inline]
pub(crate) fn put_number<T: NativePType>(out: &mut [u8], row: usize, number: T)
    requires { row * byte_width T.PTYPE + byte_width T.PTYPE ≤ length out.old }
    ensures len { length out.new ≡ length out.old }
    ensures put { numbers T.PTYPE (take ((row + 1) * byte_width T.PTYPE) out.new)
        ≡ numbers T.PTYPE (take (row * byte_width T.PTYPE) out.old) ++ T.value number ∷ [] }
{
    let width = T::PTYPE.byte_width();
    number.put_le(&mut out[row * width..row * width + width]);
}
