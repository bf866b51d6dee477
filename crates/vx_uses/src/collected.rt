//! Columns of what iterators give.

ghost use Rattle.std.specs.Prelude.{◌≡◌, ℕ, map, true, IfOk, IsOkUnless};
ghost use Rattle.vx_base.specs.Kinds.{booleans, integers, texts};
ghost use Rattle.vx_base.specs.Refusals.{Refuses, or_else};
ghost use Rattle.vx_base.specs.declared.errors.VortexError.TheVariants.{Memory};
ghost use Rattle.vx_views.specs.BuildFaults.{IsPieceCount, numbering_fault};
ghost use Rattle.vx_views.specs.declared.view.TheConstants.{MAX_BUFFER_LEN};
ghost use Rattle.vx_tree.specs.Meaning.{kind_of, rows};
ghost use Rattle.vx_text.specs.Collected.{maybe_value};
ghost use Rattle.vx_text.specs.Items.{heap_lens, item_row, items_fault};
ghost use Rattle.vx_uses.specs.Collected.{number_row, truth_row};

use std::alloc::Global;
use vx_base::{NativePType, VortexError};
use vx_leaves::laws::{rows_of_bits, rows_of_numbers};
use vx_leaves::{BoolArray, PrimitiveArray};
use vx_text::VarBinViewArray;
use vx_tree::row_laws::rows_stand_at_their_places;
use vx_tree::{ArrayRef, TypedArray};

/// A column of these numbers, null where there is none: of `Some(7)`, `None`, `Some(9)` the rows 7,
/// null, 9. Fails only for want of memory.
pub fn numbers_or_nulls<T: NativePType + Drop>(
    alloc: Global,
    items: &[Option<T>],
) -> Result<ArrayRef, VortexError>
    ensures rows { IfOk result (λ a. rows a ≡ map (number_row T.value) items.now) }
    ensures kind { IfOk result (λ a. kind_of a ≡ integers T.PTYPE true) }
    ensures err { IsOkUnless result Memory }
{
    rows_of_numbers();
    let column = PrimitiveArray::from_option_iter(alloc, items.iter().copied())?;
    Ok(column.into_array())
}

/// A column of these truth values, null where there is none. Fails only for want of memory.
pub fn truths_or_nulls(alloc: Global, items: &[Option<bool>]) -> Result<ArrayRef, VortexError>
    ensures rows { IfOk result (λ a. rows a ≡ map truth_row items.now) }
    ensures kind { IfOk result (λ a. kind_of a ≡ booleans true) }
    ensures err { IsOkUnless result Memory }
{
    rows_of_bits();
    let column = BoolArray::from_option_iter(alloc, items.iter().copied())?;
    Ok(column.into_array())
}

/// A column of these texts, null where there is none: of `Some("abc")`, `None` the rows `abc`, null.
/// Refuses `ValueTooLong` at the first text longer than `MAX_BUFFER_LEN`, then `Overflow` where the
/// long texts need more buffers than a view can number.
pub fn texts_or_nulls(alloc: Global, items: &[Option<&str>]) -> Result<ArrayRef, VortexError>
    ensures rows { IfOk result (λ a. rows a ≡ map (item_row true) (map maybe_value items.now)) }
    ensures kind { IfOk result (λ a. kind_of a ≡ texts true) }
    ensures refuses { let values = map maybe_value items.now in (pieces : ℕ)
        × (IsPieceCount MAX_BUFFER_LEN (heap_lens values) pieces × Refuses result
        (or_else (items_fault true true values) (numbering_fault 0 pieces))) }
{
    rows_stand_at_their_places();
    let column = VarBinViewArray::from_iter_nullable_str(alloc, items.iter().copied())?;
    Ok(column.into_array())
}
