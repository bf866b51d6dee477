// Arrays of the texts and byte lists that iterators give.

ghost use Rattle.std.specs.Prelude.{◌≡◌, true, false, IfOk, IfErr};
ghost use Rattle.std.specs.Iterator.{IsFinite};
ghost use Rattle.vx_base.specs.DTypes.{dtype_meaning, is_nullable};
ghost use Rattle.vx_base.specs.Kinds.{texts, binaries};
ghost use Rattle.vx_base.specs.Refusals.{Gives};
ghost use Rattle.vx_tree.specs.Parts.{valid_of};
ghost use Rattle.vx_text.specs.Items.{valid_items};
ghost use Rattle.vx_text.specs.Collected.{some_value, maybe_value, IsCollected, AreRefused};

use crate::items::{Item, gather};
use crate::var_bin_view::VarBinViewArray;
use crate::view_parts::has_values;
use std::alloc::Global;
use vx_base::{BitBuffer, DType, Nullability, VortexError};
use vx_tree::{ArrayRef, TypedArray, Validity};

impl VarBinViewArray {
    /// The array of the items, null where there is none: texts or byte lists by the data type.
    ///
    /// The values of more than 12 bytes, one after another, are cut into as few buffers as can hold
    /// them. Where null may stand, no row is null by the state alone where all items are there,
    /// every row where none is, and else an array tells. The size hint is not looked at. Asks that
    /// the iterator ends.
    ///
    /// Refuses `MismatchedTypes` where the data type is neither one of texts nor of byte lists;
    /// then at the first faulty item `HasNulls` where there is none and no null may stand,
    /// `ValueTooLong` where it is longer than `MAX_BUFFER_LEN`, or `NotUtf8` of texts; then
    /// `Overflow` where the number of a buffer would pass `u32`.
    pub fn from_iter<'a, I: Iterator<Item = Option<&'a [u8]>> + Drop>(
        alloc: Global,
        items: I,
        dtype: DType,
    ) -> Result<VarBinViewArray, VortexError>
        requires can { I.can_next items }
        requires ends { IsFinite (I.remaining items) }
        ensures ok { IfOk result
            (IsCollected I.next_gives items maybe_value (dtype_meaning dtype)) }
        ensures err { IfErr result
            (AreRefused I.next_gives items maybe_value (dtype_meaning dtype)) }
    {
        array_of_items(alloc, items, dtype)
    }

    /// The array of these texts, none of them null. The buffers are as few as can be, and the size
    /// hint is not looked at. Asks that the iterator ends. Refuses `ValueTooLong` at the first text
    /// longer than `MAX_BUFFER_LEN`, then `Overflow` where the number of a buffer would pass `u32`.
    pub fn from_iter_str<'a, I: Iterator<Item = &'a str> + Drop>(
        alloc: Global,
        items: I,
    ) -> Result<VarBinViewArray, VortexError>
        requires can { I.can_next items }
        requires ends { IsFinite (I.remaining items) }
        ensures ok { IfOk result (IsCollected I.next_gives items some_value (texts false)) }
        ensures err { IfErr result (AreRefused I.next_gives items some_value (texts false)) }
    {
        array_of_items(alloc, items, DType::Utf8(Nullability::NonNullable))
    }

    /// The array of these texts, null where there is none, as `from_iter` makes it. Asks that the
    /// iterator ends. Refuses as `from_iter_str` does.
    pub fn from_iter_nullable_str<'a, I: Iterator<Item = Option<&'a str>> + Drop>(
        alloc: Global,
        items: I,
    ) -> Result<VarBinViewArray, VortexError>
        requires can { I.can_next items }
        requires ends { IsFinite (I.remaining items) }
        ensures ok { IfOk result (IsCollected I.next_gives items maybe_value (texts true)) }
        ensures err { IfErr result (AreRefused I.next_gives items maybe_value (texts true)) }
    {
        array_of_items(alloc, items, DType::Utf8(Nullability::Nullable))
    }

    /// The array of these byte lists, none of them null. The buffers are as few as can be, and the
    /// size hint is not looked at. Asks that the iterator ends. Refuses `ValueTooLong` at the first
    /// byte list longer than `MAX_BUFFER_LEN`, then `Overflow` where the number of a buffer would
    /// pass `u32`.
    pub fn from_iter_bin<'a, I: Iterator<Item = &'a [u8]> + Drop>(
        alloc: Global,
        items: I,
    ) -> Result<VarBinViewArray, VortexError>
        requires can { I.can_next items }
        requires ends { IsFinite (I.remaining items) }
        ensures ok { IfOk result (IsCollected I.next_gives items some_value (binaries false)) }
        ensures err { IfErr result (AreRefused I.next_gives items some_value (binaries false)) }
    {
        array_of_items(alloc, items, DType::Binary(Nullability::NonNullable))
    }

    /// The array of these byte lists, null where there is none, as `from_iter` makes it. Asks that
    /// the iterator ends. Refuses as `from_iter_bin` does.
    pub fn from_iter_nullable_bin<'a, I: Iterator<Item = Option<&'a [u8]>> + Drop>(
        alloc: Global,
        items: I,
    ) -> Result<VarBinViewArray, VortexError>
        requires can { I.can_next items }
        requires ends { IsFinite (I.remaining items) }
        ensures ok { IfOk result (IsCollected I.next_gives items maybe_value (binaries true)) }
        ensures err { IfErr result (AreRefused I.next_gives items maybe_value (binaries true)) }
    {
        array_of_items(alloc, items, DType::Binary(Nullability::Nullable))
    }
}

// The array of the items of an iterator.
fn array_of_items<T: Item + Drop, I: Iterator<Item = T> + Drop>(
    alloc: Global,
    items: I,
    dtype: DType,
) -> Result<VarBinViewArray, VortexError>
    requires can { I.can_next items }
    requires ends { IsFinite (I.remaining items) }
    ensures ok { IfOk result (IsCollected I.next_gives items T.item (dtype_meaning dtype)) }
    ensures err { IfErr result (AreRefused I.next_gives items T.item (dtype_meaning dtype)) }
{
    if !has_values(&dtype) {
        return Err(VortexError::MismatchedTypes);
    }
    let all = gather(alloc, items, &dtype)?;
    let validity = validity_of(alloc, &all.present, dtype.nullability())?;
    let array = ArrayRef::var_bin_view(alloc, all.views, all.buffers, dtype, validity)?;
    Ok(VarBinViewArray::from_array(array))
}

// Which items are there, where null may stand.
fn validity_of(
    alloc: Global,
    present: &[bool],
    nullability: Nullability,
) -> Result<Validity, VortexError>
    ensures { Gives result (λ v. valid_of v ≡ valid_items (is_nullable nullability) present.now) }
{
    match nullability {
        Nullability::NonNullable => Ok(Validity::NonNullable),
        Nullability::Nullable => {
            let bits = BitBuffer::from_bools(alloc, present)?;
            Validity::from_buffer(alloc, bits)
        }
    }
}
