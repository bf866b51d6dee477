// Items that iterators give: values that may be none, each looked at once, as it comes.

ghost use Rattle.std.specs.Prelude.{◌≡◌, ◌⊎◌, ◌∷◌, ◌++◌, [], List, None, map, IfOk, IfErr, true, IsTrue, IsUtf8, ◌↔◌};
ghost use Rattle.std.specs.Iterator.{IsFinite, Drains};
ghost use Rattle.std.specs.Option.{is_some};
ghost use Rattle.vx_base.specs.DTypes.{dtype_meaning};
ghost use Rattle.vx_base.specs.Kinds.{is_nullable_kind};
ghost use Rattle.vx_base.specs.Refusals.{Gives, Tests};
ghost use Rattle.vx_base.specs.declared.errors.VortexError.TheVariants.{Memory};
ghost use Rattle.vx_tree.specs.Meaning.{is_texts};
ghost use Rattle.vx_text.specs.Items.{Item as ItemValue, item_fault, items_fault, value_of, valid_items, AreCut};
ghost use Rattle.vx_text.specs.Collected.{some_value, maybe_value, IsFirstFaulty, AreTooMany};

use crate::filling::Filling;
use crate::utf8::bytes_are_text;
use crate::view_parts::is_utf8;
use std::alloc::Global;
use vx_base::{Buffer, ByteBuffer, DType, VortexError};
use vx_views::{BinaryView, MAX_BUFFER_LEN};

// What an iterator gives for a row.
pub(crate) trait Item {
    ghost item: { Self → ItemValue };

    // The value, where there is one.
    fn bytes(&self) -> Option<&[u8]>
        ensures { maybe_value result ≡ item self.now };

    // Whether the value is text, as no bytes are.
    fn is_text(&self) -> bool
        ensures { IsTrue result ↔ IsUtf8 (value_of (item self.now)) };
}

impl<'a> Item for &'a [u8] {
    ghost item = { some_value };

    fn bytes(&self) -> Option<&[u8]> {
        Some(*self)
    }

    fn is_text(&self) -> bool {
        bytes_are_text(self)
    }
}

impl<'a> Item for &'a str {
    ghost item = { some_value };

    fn bytes(&self) -> Option<&[u8]> {
        Some(self.as_bytes())
    }

    fn is_text(&self) -> bool {
        str_is_text(self)
    }
}

impl<'a> Item for Option<&'a [u8]> {
    ghost item = { maybe_value };

    fn bytes(&self) -> Option<&[u8]> {
        match self {
            Some(value) => Some(*value),
            None => None,
        }
    }

    fn is_text(&self) -> bool {
        match self {
            Some(value) => bytes_are_text(value),
            None => true,
        }
    }
}

impl<'a> Item for Option<&'a str> {
    ghost item = { maybe_value };

    fn bytes(&self) -> Option<&[u8]> {
        match self {
            Some(value) => Some(value.as_bytes()),
            None => None,
        }
    }

    fn is_text(&self) -> bool {
        match self {
            Some(value) => str_is_text(value),
            None => true,
        }
    }
}

// Whether a `str` is text: its type says so, and no byte is looked at.
fn str_is_text(text: &str) -> bool
    ensures { IsTrue result ↔ IsUtf8 text.now }
{
    true
}

// Items in buffers.
#[derive(Drop)]
pub(crate) struct Gathered {
    // The values that no view holds.
    pub buffers: Vec<ByteBuffer>,
    // The view of each item.
    pub views: Buffer<BinaryView>,
    // Which items are there, where null may stand.
    pub present: Vec<bool>,
}

// The items in as few buffers as can be; none where one of them is faulty, or the buffers cannot be
// numbered.
pub(crate) fn gather<T: Item + Drop, I: Iterator<Item = T> + Drop>(
    alloc: Global,
    items: I,
    dtype: &DType,
) -> Result<Gathered, VortexError>
    requires can { I.can_next items }
    requires ends { IsFinite (I.remaining items) }
    ensures ok { IfOk result (λ all. (xs : List T) × Drains I.next_gives items xs
        × (items_fault (is_texts (dtype_meaning dtype.now)) (is_nullable_kind (dtype_meaning dtype.now)) (map T.item xs) ≡ None)
        × AreCut (map T.item xs) all.buffers.items all.views
        × (valid_items (is_nullable_kind (dtype_meaning dtype.now)) all.present.items
        ≡ valid_items (is_nullable_kind (dtype_meaning dtype.now)) (map is_some (map T.item xs)))) }
    ensures err { IfErr result (λ e. (e ≡ Memory)
        ⊎ IsFirstFaulty I.next_gives items T.item (dtype_meaning dtype.now) e
        ⊎ AreTooMany I.next_gives items T.item (dtype_meaning dtype.now) e) }
{
    let (is_text, is_nullable) = (is_utf8(dtype), dtype.is_nullable());
    let mut filling = Filling::new(alloc);
    let mut present = Vec::new(alloc);
    for item in items {
        check_item(&item, filling.views.len(), is_text, is_nullable)?;
        let value = item.bytes();
        mark(&mut present, value.is_some(), is_nullable)?;
        filling.push(alloc, value.unwrap_or(&[]))?;
    }
    let (buffers, views) = filling.finish(alloc)?;
    Ok(Gathered {
        buffers,
        views,
        present,
    })
}

// Refuses an item: none where no null may stand, a value longer than a buffer may be, or one that
// is no text where text is asked.
fn check_item<T: Item>(
    item: &T,
    row: usize,
    is_text: bool,
    is_nullable: bool,
) -> Result<(), VortexError>
    ensures { Tests result (item_fault is_text is_nullable row (T.item item.now)) }
{
    match item.bytes() {
        Some(value) if value.len() > MAX_BUFFER_LEN => Err(VortexError::ValueTooLong { row }),
        Some(_) if is_text && !item.is_text() => Err(VortexError::NotUtf8 { row }),
        None if !is_nullable => Err(VortexError::HasNulls),
        _ => Ok(()),
    }
}

// Marks whether an item is there, where null may stand.
fn mark(present: &mut Vec<bool>, is_there: bool, is_nullable: bool) -> Result<(), VortexError>
    ensures { Gives result (λ _. is_nullable ≡ true
        → present.new.items ≡ present.old.items ++ is_there ∷ []) }
{
    if is_nullable {
        present.push(is_there)?;
    }
    Ok(())
}
