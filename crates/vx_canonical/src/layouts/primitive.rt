// Whole numbers of arrays, one array after another.

ghost use Rattle.std.specs.Prelude.{◌≡◌, true, IfOk};
ghost use Rattle.std.specs.List.{All, flat_map};
ghost use Rattle.vx_base.specs.Kinds.{integers};
ghost use Rattle.vx_base.specs.Refusals.{Gives};
ghost use Rattle.vx_tree.specs.Layouts.{is_primitive};
ghost use Rattle.vx_tree.specs.Meaning.{nullable};
ghost use Rattle.vx_canonical.specs.Joined.{IsJoined, IsValidJoined, HasJoinedNumbers, AreNumbers, bytes_in};
ghost use Rattle.vx_tree.specs.Parts.{valid_of};

use std::alloc::Global;
use vx_base::{ByteBuffer, PType, VortexError};
use vx_tree::{ArrayRef, Layout, Validity};

// The numbers of arrays of one type, one array after another, under the validity of them.
pub(crate) fn join_primitives(
    alloc: Global,
    ptype: PType,
    arrays: &[ArrayRef],
    len: usize,
    validity: Validity,
) -> Result<ArrayRef, VortexError>
    requires numbers { All (AreNumbers ptype) arrays.now }
    requires valid { IsValidJoined (nullable (valid_of validity)) arrays.now (valid_of validity) }
    ensures joined { Gives result (IsJoined (integers ptype (nullable (valid_of validity))) arrays.now) }
    ensures numbers { IfOk result (HasJoinedNumbers arrays.now) }
{
    let size = len.saturating_mul(ptype.byte_width());
    let bytes = ByteBuffer::from_vec(alloc, joined_bytes(alloc, arrays, size)?)?;
    ArrayRef::primitive(alloc, ptype, bytes, validity)
}

// The bytes of arrays of numbers, one array after another.
fn joined_bytes(alloc: Global, arrays: &[ArrayRef], size: usize) -> Result<Vec<u8>, VortexError>
    requires { All (λ t. is_primitive t ≡ true) arrays.now }
    ensures { Gives result (λ bytes. bytes.items ≡ flat_map bytes_in arrays.now) }
{
    let mut joined = Vec::with_capacity(alloc, size)?;
    for array in arrays {
        let Layout::Primitive { bytes, .. } = array.layout() else {
            unreachable!();
        };
        joined.extend_from_slice(bytes.as_slice())?;
    }
    Ok(joined)
}
