//! Values as a writer lays them out: views, and the buffers that they refer to.

ghost use Rattle.std.specs.Prelude.{◌≡◌, ◌<◌, ◌≤◌, ℕ, true, List, [], length, map, slice_index_or, IfOk, IsOkUnless};
ghost use Rattle.std.specs.List.{All};
ghost use Rattle.vx_base.specs.Kinds.{is_integers};
ghost use Rattle.vx_base.specs.Refusals.{Refuses};
ghost use Rattle.vx_base.specs.declared.errors.VortexError.TheVariants.{Memory};
ghost use Rattle.vx_tree.specs.Layouts.{is_primitive};
ghost use Rattle.vx_tree.specs.Meaning.{kind_of, rows};
ghost use Rattle.vx_tree.specs.Parts.{valid_of};
ghost use Rattle.vx_tree.specs.Plain.{IsPlain};
ghost use Rattle.vx_tree.specs.Tree.{primitive};
ghost use Rattle.vx_views.specs.BuildFaults.{lengths_of, build_fault, IsPieceCount};
ghost use Rattle.vx_views.specs.Cut.{IsCut};
ghost use Rattle.vx_views.specs.Places.{value_at};
ghost use Rattle.vx_views.specs.Views.{view_value, Resolves};

use std::alloc::Global;
use vx_base::{Buffer, ByteBuffer, NativePType, VortexError};
use vx_canonical::ToCanonical;
use vx_leaves::{PrimitiveArray, PrimitiveDataParts};
use vx_tree::{ArrayRef, TypedArray};
use vx_views::{BinaryView, build_views};

/// Values as a column of views stores them. Each view resolves.
#[derive(Drop)]
pub struct ValueColumn {
    /// The bytes of the longer values.
    pub buffers: Vec<ByteBuffer>,
    /// One view a row.
    pub views: Buffer<BinaryView>,
    ghost resolve: { (row : ℕ) → row < length views → Resolves buffers.items (slice_index_or views row []) },
}

impl ValueColumn {
    /// The value of a row. Asks a row below the length.
    pub fn value(&self, row: usize) -> &[u8]
        requires { row < length self.now.views }
        ensures { result.now
            ≡ view_value self.now.buffers.items (slice_index_or self.now.views row []) }
    {
        self.views.as_slice()[row].value_in(&self.buffers)
    }
}

/// Writes values that stand one after another in a heap and have these lengths, in buffers of at
/// most `limit` bytes. Each row reads back its value, and no cut of the heap at the ends of values
/// into pieces of at most `limit` bytes has fewer pieces than there are buffers. Refuses what
/// `build_views` does.
pub fn write_values<P: NativePType>(
    alloc: Global,
    limit: usize,
    heap: ByteBuffer,
    lens: &[P],
) -> Result<ValueColumn, VortexError>
    ensures len { IfOk result (λ c. length c.views ≡ length lens.now) }
    ensures read_back { IfOk result (λ c. (row : ℕ) → row < length lens.now →
        view_value c.buffers.items (slice_index_or c.views row [])
        ≡ value_at heap (lengths_of (map P.value lens.now)) row) }
    ensures within { IfOk result (λ c. All (λ buffer. length buffer ≤ limit) c.buffers.items) }
    ensures fewest { IfOk result (λ c. (others : List ℕ) →
        IsCut limit (lengths_of (map P.value lens.now)) others →
        length c.buffers.items ≤ length others) }
    ensures refuses { (pieces : ℕ) × (IsPieceCount limit (lengths_of (map P.value lens.now)) pieces
        × Refuses result (build_fault 0 limit (length heap) (map P.value lens.now) pieces)) }
{
    let (buffers, views) = build_views(alloc, 0, limit, heap, lens)?;
    Ok(ValueColumn { buffers, views })
}

/// What a writer stores of a column of numbers, in whatever layout, a dictionary or a constant too:
/// the type, the bytes of one number a row, and which rows are valid. Fails only for want of memory.
pub fn stored_numbers(alloc: Global, column: &ArrayRef) -> Result<PrimitiveDataParts, VortexError>
    requires { is_integers (kind_of column.now) ≡ true }
    ensures rows { IfOk result (λ p.
        rows (primitive p.ptype p.buffer (valid_of p.validity)) ≡ rows column.now) }
    ensures kind { IfOk result (λ p.
        kind_of (primitive p.ptype p.buffer (valid_of p.validity)) ≡ kind_of column.now) }
    ensures err { IsOkUnless result Memory }
{
    let plain = column.to_canonical(alloc)?;
    plain_numbers_are_primitive(&plain);
    let Ok(numbers) = PrimitiveArray::try_from_array(plain) else {
        unreachable!()
    };
    Ok(numbers.into_data_parts(alloc)?)
}

// Numbers in plain layout are an array of numbers.
fn plain_numbers_are_primitive(array: &ArrayRef)
    requires plain { IsPlain array.now }
    requires numbers { is_integers (kind_of array.now) ≡ true }
    ensures { is_primitive array.now ≡ true }
{
    array.layout();
}
