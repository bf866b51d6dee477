//! Columns in the one form that their rows have, and columns that are stored once.

ghost use Rattle.std.specs.Prelude.{◌≡◌, ◌<◌, length, take, slice_range, IfErr, IfOk, OnErr};
ghost use Rattle.std.specs.List.{All};
ghost use Rattle.vx_tree.specs.Faults.{length_fault, slice_fault};
ghost use Rattle.vx_tree.specs.Meaning.{kind_of, rows, tree_len};
ghost use Rattle.vx_tree.specs.Operations.{filtered};
ghost use Rattle.vx_pack.specs.Packed.{IsPackRefused, IsPacked};
ghost use Rattle.vx_uses.specs.FaultyRows.{IsFirstWith};
ghost use Rattle.vx_uses.specs.Packing.{AreDistinct, HasRowsAt, IsFormOfAll, IsPackedForm, RefusesPicked};

use std::alloc::Global;
use std::ops::Range;
use vx_base::{Mask, VortexError};
use vx_pack::laws::{rows_pack_to_one_tree, what_is_packed_is_held};
use vx_pack::{Pack, RowsEqual};
use vx_tree::ArrayRef;

/// The rows of a table at which a mask is true, packed, so that nothing is left of the others: the
/// one tree that each table of these rows and this data type packs to, whatever its layout. Of the
/// records `{a: 5}`, `{a: 6}`, `{a: 7}` the mask true, false, true leaves the packed form of
/// `{a: 5}`, `{a: 7}`.
///
/// Refuses `LengthMismatch` where the mask has not one boolean a row, then as `pack` does of the
/// rows that are left.
pub fn kept_table(alloc: Global, table: &ArrayRef, mask: &Mask) -> Result<ArrayRef, VortexError>
    ensures packed { IfOk result (IsPacked (kind_of table.now) (filtered mask.now (rows table.now))) }
    ensures one { IfOk result (IsFormOfAll (kind_of table.now) (filtered mask.now (rows table.now))) }
    ensures refuses { RefusesPicked result (length_fault (tree_len table.now) (length mask.now))
        (kind_of table.now) (filtered mask.now (rows table.now)) }
{
    rows_pack_to_one_tree();
    what_is_packed_is_held();
    let kept = table.filter(alloc, mask)?;
    kept.pack(alloc)
}

/// A page of a column, packed, so that it can be handed on without the rest of the column: the one
/// form of its rows. Refuses `OutOfBounds` with the end where it passes the length, then with the
/// start where it passes the end, then as `pack` does of the page.
pub fn packed_page(
    alloc: Global,
    column: &ArrayRef,
    page: Range<usize>,
) -> Result<ArrayRef, VortexError>
    ensures packed { IfOk result (IsPacked (kind_of column.now) (slice_range (rows column.now) page.start page.end)) }
    ensures one { IfOk result (IsFormOfAll (kind_of column.now) (slice_range (rows column.now) page.start page.end)) }
    ensures refuses { RefusesPicked result (slice_fault (tree_len column.now) page.start page.end)
        (kind_of column.now) (slice_range (rows column.now) page.start page.end) }
{
    rows_pack_to_one_tree();
    what_is_packed_is_held();
    let part = column.slice(alloc, page)?;
    part.pack(alloc)
}

/// The first of these columns that has the rows and the data type of a column, whatever its layout,
/// none where no one has them. It takes no memory.
pub fn place_of_rows(columns: &[ArrayRef], column: &ArrayRef) -> Option<usize>
    ensures { IsFirstWith (HasRowsAt columns.now column.now) (length columns.now) result }
{
    for (place, other) in columns.iter().enumerate() {
        if other.rows_equal(column) {
            return Some(place);
        }
    }
    None
}

/// Where a column stands among those that are stored. Where none of them has its rows and its data
/// type, it is packed and stored behind them, and else it is not stored again: so no two that are
/// stored have the same. Refuses as `pack` does, with what is stored as it was.
pub fn stored_once(
    alloc: Global,
    stored: &mut Vec<ArrayRef>,
    column: &ArrayRef,
) -> Result<usize, VortexError>
    ensures place { IfOk result (λ place. place < length stored.new.items) }
    ensures rows { IfOk result (HasRowsAt stored.new.items column.now) }
    ensures kept { take (length stored.old.items) stored.new.items ≡ stored.old.items }
    ensures once { AreDistinct stored.old.items → AreDistinct stored.new.items }
    ensures packed { All IsPackedForm stored.old.items → All IsPackedForm stored.new.items }
    ensures refuses { IfErr result (IsPackRefused (kind_of column.now) (rows column.now)) }
    ensures refused { OnErr result (stored.new.items ≡ stored.old.items) }
{
    if let Some(place) = place_of_rows(stored.as_slice(), column) {
        return Ok(place);
    }
    let packed = column.pack(alloc)?;
    let place = stored.len();
    stored.push(packed)?;
    Ok(place)
}
