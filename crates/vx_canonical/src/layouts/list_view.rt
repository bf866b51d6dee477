// Lists of arrays, one array after another.

ghost use Rattle.std.specs.Prelude.{◌≡◌, ◌<◌, ◌≤◌, ◌≤ℤ◌, ◌*◌, ◌%◌, ℕ, List, true, IfOk, ◌+◌, ◌^◌, ◌++◌, pos, unsigned_abs, length, map};
ghost use Rattle.vx_base.specs.Refusals.{Gives};
ghost use Rattle.std.specs.List.{All};
ghost use Rattle.vx_base.specs.Integers.{numbers};
ghost use Rattle.vx_base.specs.declared.ptypes.PType.TheVariants.{U64};
ghost use Rattle.vx_tree.specs.Layouts.{is_primitive};
ghost use Rattle.vx_canonical.specs.Joined.{joined_len, elements_in, counts_in, offsets_from, joined_sizes, AreLists, IsCountsOf, IsJoined, IsValidJoined, HasJoinedNumbers};
ghost use Rattle.vx_base.specs.Kinds.{lists};
ghost use Rattle.vx_tree.specs.Meaning.{kind_of, nullable};
ghost use Rattle.vx_tree.specs.Formed.{IsCounts};
ghost use Rattle.vx_tree.specs.Parts.{valid_of};

use std::alloc::Global;
use vx_base::{
    ByteBuffer, NativePType, PType, VortexError, call_native, int_at, number_count, put_int,
    write_counts,
};
use vx_tree::{ArrayRef, Layout, Validity};

// The lists of arrays, one array after another, under the validity of them; offsets and sizes
// become numbers of type U64. Asks that the elements are those of the arrays, one array after
// another.
pub(crate) fn join_list_views(
    alloc: Global,
    elements: ArrayRef,
    arrays: &[ArrayRef],
    len: usize,
    validity: Validity,
) -> Result<ArrayRef, VortexError>
    requires lists { All AreLists arrays.now }
    requires elements { IsJoined (kind_of elements) (map elements_in arrays.now) elements }
    requires valid { IsValidJoined (nullable (valid_of validity)) arrays.now (valid_of validity) }
    ensures joined { Gives result (IsJoined (lists (kind_of elements) (nullable (valid_of validity))) arrays.now) }
    ensures numbers { HasJoinedNumbers (map elements_in arrays.now) elements → IfOk result (HasJoinedNumbers arrays.now) }
{
    elements.known_len();
    let offsets = wide_offsets(alloc, arrays, len)?;
    let sizes = wide_sizes(alloc, arrays, len)?;
    ArrayRef::list_view(alloc, elements, offsets, sizes, validity, false)
}

// The counts that the rows of an array of plain numbers are, each further by `base`, are added to
// these bytes, as numbers of type U64. Asks that the sums can be counted.
fn add_counts(counts: &ArrayRef, base: usize, out: &mut Vec<u8>) -> Result<(), VortexError>
    requires layout { is_primitive counts.now ≡ true }
    requires counts { IsCounts counts.now }
    requires short { All (λ n. base + n < 2 ^ 64) (counts_in counts.now) }
    requires whole { length out.old.items % 8 ≡ 0 }
    ensures whole { length out.new.items % 8 ≡ 0 }
    ensures numbers { Gives result (λ _. numbers U64 out.new.items
        ≡ numbers U64 out.old.items ++ map (λ n. pos (base + n)) (counts_in counts.now)) }
{
    let Layout::Primitive { ptype, bytes, .. } = counts.layout() else {
        unreachable!();
    };
    add_numbers(*ptype, bytes.as_slice(), base, out)
}

// Each number further by `base` is added to these bytes, as a number of type U64. Asks that none is
// negative, and that the sums can be counted.
fn add_numbers(
    ptype: PType,
    bytes: &[u8],
    base: usize,
    out: &mut Vec<u8>,
) -> Result<(), VortexError>
    requires positions { All (λ z. pos 0 ≤ℤ z) (numbers ptype bytes.now) }
    requires short { All (λ z. base + unsigned_abs z < 2 ^ 64) (numbers ptype bytes.now) }
    requires whole { length out.old.items % 8 ≡ 0 }
    ensures whole { length out.new.items % 8 ≡ 0 }
    ensures numbers { Gives result (λ _. numbers U64 out.new.items
        ≡ numbers U64 out.old.items ++ map (λ z. pos (base + unsigned_abs z)) (numbers ptype bytes.now)) }
{
    call_native!(ptype, add_sums(bytes, base, out))
}

// Each of these numbers of one type further by `base` is added to the bytes, as a number of type
// U64.
fn add_sums<T: NativePType>(bytes: &[u8], base: usize, out: &mut Vec<u8>) -> Result<(), VortexError>
    requires positions { All (λ z. pos 0 ≤ℤ z) (numbers T.PTYPE bytes.now) }
    requires short { All (λ z. base + unsigned_abs z < 2 ^ 64) (numbers T.PTYPE bytes.now) }
    requires whole { length out.old.items % 8 ≡ 0 }
    ensures whole { length out.new.items % 8 ≡ 0 }
    ensures numbers { Gives result (λ _. numbers U64 out.new.items
        ≡ numbers U64 out.old.items ++ map (λ z. pos (base + unsigned_abs z)) (numbers T.PTYPE bytes.now)) }
{
    let start = out.len();
    let more = number_count(bytes, T::PTYPE).saturating_mul(8);
    out.resize(start.saturating_add(more), 0)?;
    put_sums::<T>(bytes, base, &mut out[start..]);
    Ok(())
}

// Writes each number further by `base`, as a number of type U64.
#[inline(never)]
fn put_sums<T: NativePType>(bytes: &[u8], base: usize, out: &mut [u8])
    requires positions { All (λ z. pos 0 ≤ℤ z) (numbers T.PTYPE bytes.now) }
    requires short { All (λ z. base + unsigned_abs z < 2 ^ 64) (numbers T.PTYPE bytes.now) }
    requires room { length out.old ≡ length (numbers T.PTYPE bytes.now) * 8 }
    ensures len { length out.new ≡ length out.old }
    ensures numbers { numbers U64 out.new ≡ map (λ z. pos (base + unsigned_abs z)) (numbers T.PTYPE bytes.now) }
{
    for i in 0..number_count(bytes, T::PTYPE) {
        let number = int_at(bytes, T::PTYPE, i) as usize;
        let sum = base + number;
        put_int(sum as i128, PType::U64, &mut out[i * 8..i * 8 + 8]);
    }
}

// The sizes of arrays of lists, one array after another, of which there are `len`, as numbers of
// type U64.
fn joined_sizes(alloc: Global, arrays: &[ArrayRef], len: usize) -> Result<Vec<u8>, VortexError>
    requires { All AreLists arrays.now }
    ensures whole { IfOk result (λ bytes. length bytes.items % 8 ≡ 0) }
    ensures numbers { Gives result (λ bytes. numbers U64 bytes.items ≡ map pos (joined_sizes arrays.now)) }
{
    let mut joined = Vec::with_capacity(alloc, len.saturating_mul(8))?;
    for array in arrays {
        let Layout::ListView {
            elements,
            sizes,
            ..
        } = array.layout()
        else {
            unreachable!();
        };
        elements.known_len();
        add_counts(sizes, 0, &mut joined)?;
    }
    Ok(joined)
}

// The offsets of arrays of lists, one array after another, of which there are `len`, each further
// by the elements of the arrays before, as numbers of type U64. Asks that the elements can be
// counted.
fn joined_offsets(alloc: Global, arrays: &[ArrayRef], len: usize) -> Result<Vec<u8>, VortexError>
    requires lists { All AreLists arrays.now }
    requires short { joined_len (map elements_in arrays.now) < 2 ^ 64 }
    ensures whole { IfOk result (λ bytes. length bytes.items % 8 ≡ 0) }
    ensures numbers { Gives result (λ bytes. numbers U64 bytes.items ≡ map pos (offsets_from 0 arrays.now)) }
{
    let mut joined = Vec::with_capacity(alloc, len.saturating_mul(8))?;
    let mut base = 0usize;
    for array in arrays {
        let Layout::ListView {
            elements,
            offsets,
            ..
        } = array.layout()
        else {
            unreachable!();
        };
        add_counts(offsets, base, &mut joined)?;
        base += elements.len();
    }
    Ok(joined)
}

// The sizes of arrays of lists, one array after another, of which there are `len`.
fn wide_sizes(alloc: Global, arrays: &[ArrayRef], len: usize) -> Result<ArrayRef, VortexError>
    requires { All AreLists arrays.now }
    ensures { Gives result (IsCountsOf (joined_sizes arrays.now)) }
{
    let bytes = joined_sizes(alloc, arrays, len)?;
    wide_array(alloc, bytes)
}

// The offsets of arrays of lists, one array after another, of which there are `len`, each further
// by the elements of the arrays before. Asks that the elements can be counted.
fn wide_offsets(alloc: Global, arrays: &[ArrayRef], len: usize) -> Result<ArrayRef, VortexError>
    requires lists { All AreLists arrays.now }
    requires short { joined_len (map elements_in arrays.now) < 2 ^ 64 }
    ensures { Gives result (IsCountsOf (offsets_from 0 arrays.now)) }
{
    let bytes = joined_offsets(alloc, arrays, len)?;
    wide_array(alloc, bytes)
}

// Plain numbers of type U64 that these bytes hold, which are counts.
fn wide_array(alloc: Global, bytes: Vec<u8>) -> Result<ArrayRef, VortexError>
    requires { length bytes.items % 8 ≡ 0 }
    ensures { (counts : List ℕ) → numbers U64 bytes.items ≡ map pos counts → Gives result (IsCountsOf counts) }
{
    let bytes = ByteBuffer::from_vec(alloc, bytes)?;
    ArrayRef::primitive(alloc, PType::U64, bytes, Validity::NonNullable)
}

// Plain numbers that are these counts.
pub(crate) fn counts_array(alloc: Global, counts: &[usize]) -> Result<ArrayRef, VortexError>
    ensures { Gives result (IsCountsOf counts.now) }
{
    let bytes = write_counts(alloc, PType::U64, counts)?;
    ArrayRef::primitive(alloc, PType::U64, bytes, Validity::NonNullable)
}
