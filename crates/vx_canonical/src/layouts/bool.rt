// Truth values of arrays, one array after another.

ghost use Rattle.std.specs.Prelude.{◌≡◌, true, IfOk};
ghost use Rattle.std.specs.List.{All, flat_map};
ghost use Rattle.vx_base.specs.Kinds.{booleans};
ghost use Rattle.vx_base.specs.Refusals.{Gives};
ghost use Rattle.vx_tree.specs.Layouts.{is_bools};
ghost use Rattle.vx_tree.specs.Meaning.{nullable};
ghost use Rattle.vx_canonical.specs.Joined.{joined_len, IsJoined, IsValidJoined, HasJoinedNumbers, bits_in};
ghost use Rattle.vx_tree.specs.Parts.{valid_of};

use std::alloc::Global;
use vx_base::{BitBuffer, BitBufferMut, VortexError};
use vx_tree::{ArrayRef, Layout, Validity};

// The rows of arrays of booleans, one array after another, under the validity of them.
pub(crate) fn join_bools(
    alloc: Global,
    arrays: &[ArrayRef],
    len: usize,
    validity: Validity,
) -> Result<ArrayRef, VortexError>
    requires layout { All (λ t. is_bools t ≡ true) arrays.now }
    requires len { len ≡ joined_len arrays.now }
    requires valid { IsValidJoined (nullable (valid_of validity)) arrays.now (valid_of validity) }
    ensures joined { Gives result (IsJoined (booleans (nullable (valid_of validity))) arrays.now) }
    ensures numbers { IfOk result (HasJoinedNumbers arrays.now) }
{
    let bits = joined_bits(alloc, arrays, len)?;
    ArrayRef::bools(alloc, bits, validity)
}

// The bits of arrays of booleans, one array after another.
fn joined_bits(alloc: Global, arrays: &[ArrayRef], len: usize) -> Result<BitBuffer, VortexError>
    requires layout { All (λ t. is_bools t ≡ true) arrays.now }
    requires len { len ≡ joined_len arrays.now }
    ensures { Gives result (λ b. b.bits ≡ flat_map bits_in arrays.now) }
{
    let mut joined = BitBufferMut::with_capacity(alloc, len)?;
    for array in arrays {
        let Layout::Bool { bits, .. } = array.layout() else {
            unreachable!();
        };
        joined.append_slice(bits, 0, bits.len())?;
    }
    joined.freeze()
}
