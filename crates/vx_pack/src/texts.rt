// The bytes of texts and of byte lists.

ghost use Rattle.std.specs.Prelude.{◌≡◌, ◌<◌, option_map};
ghost use Rattle.vx_tree.specs.Meaning.{row_at, tree_len};
ghost use Rattle.vx_tree.specs.Values.{bytes_in};

use crate::places::place_of;
use crate::values::bytes_of;
use vx_tree::{ArrayRef, Layout};

// The bytes of a row that is a text or a byte list, where they stand.
pub(crate) fn bytes_at(array: &ArrayRef, row: usize) -> Option<&[u8]>
    requires { row < tree_len array.now }
    ensures { option_map (λ b. b.now) result ≡ bytes_in (row_at array.now row) }
{
    let place = place_of(array, row)?;
    match place.array.layout() {
        Layout::VarBinView { .. } => place.array.bytes_at(place.row),
        Layout::Constant { scalar, .. } => bytes_of(scalar.value()),
        Layout::Bool { .. } | Layout::Primitive { .. } | Layout::Dict { .. } => None,
        Layout::FixedSizeList { .. } | Layout::ListView { .. } | Layout::Struct { .. } => None,
    }
}
