// Numbers in the narrowest type that has them.

ghost use Rattle.std.specs.Prelude.{◌≡◌, ◌≤◌, ◌<◌, ◌*◌, ◌++◌, ◌&&◌, ℕ, ℤ, List, [], ◌∷◌, length, map, replicate, IfOk};
ghost use Rattle.std.specs.Prelude.{if◌then◌else◌};
ghost use Rattle.std.specs.Int.Signed.{le_z};
ghost use Rattle.std.specs.List.{All};
ghost use Rattle.vx_base.specs.Integers.{byte_width, numbers, number_nth, least, greatest, Holds};
ghost use Rattle.vx_base.specs.MaskRuns.{is_in_run};
ghost use Rattle.vx_base.specs.Refusals.{Gives};
ghost use Rattle.vx_base.specs.Selections.{run_positions};
ghost use Rattle.vx_leaves.specs.Narrow.{IsNarrowed, IsSpan, narrowed_type, type_between, first_that_covers, covers, kept, zeroed};

use crate::primitive_array::{PrimitiveArray, primitive_array};
use crate::spread::read_number;
use std::alloc::Global;
use vx_base::{ByteBuffer, Mask, NativePType, PType, VortexError, call_native, int_at, put_int};
use vx_tree::{TypedArray, rows_fit_their_dtype};

// The same rows in the narrowest type that has the numbers of the valid ones. Where the type stays
// and some row is valid, the array is shared as it is; else the numbers are written anew, 0 in a
// null row.
pub(crate) fn narrowed_array(
    alloc: Global,
    array: &PrimitiveArray,
) -> Result<PrimitiveArray, VortexError>
    ensures { Gives result (IsNarrowed array.now) }
{
    rows_fit_their_dtype(array.as_array());
    let parts = array.parts();
    let len = array.len();
    let mask = parts.validity.execute_mask(alloc, len)?;
    let bytes = parts.bytes.as_slice();
    let ptype = narrowed_ptype(parts.ptype, bytes, &mask);
    if ptype == parts.ptype && !mask.all_false() {
        return array.try_clone(alloc);
    }
    let narrowed = narrowed_bytes(alloc, parts.ptype, ptype, bytes, &mask)?;
    let validity = parts.validity.try_clone(alloc)?;
    primitive_array(alloc, ptype, narrowed, len, validity)
}

// ---- the type

// The narrowed type of the numbers at which the mask is true.
fn narrowed_ptype(ptype: PType, bytes: &[u8], mask: &Mask) -> PType
    requires { length mask.now ≡ length (numbers ptype bytes.now) }
    ensures { result ≡ narrowed_type ptype (kept mask.now (numbers ptype bytes.now)) }
{
    let (least, greatest) = span(ptype, bytes, mask);
    ptype_between(ptype, least, greatest)
}

// The least and the greatest of the numbers at which the mask is true; the type's greatest and
// least where it is nowhere.
fn span(ptype: PType, bytes: &[u8], mask: &Mask) -> (i128, i128)
    requires { length mask.now ≡ length (numbers ptype bytes.now) }
    ensures { IsSpan ptype (kept mask.now (numbers ptype bytes.now)) result.0 result.1 }
{
    call_native!(ptype, typed_span(bytes, mask))
}

// The least and the greatest of the numbers of one type at which the mask is true, one run after
// another.
fn typed_span<T: NativePType>(bytes: &[u8], mask: &Mask) -> (i128, i128)
    requires { length mask.now ≡ length (numbers T.PTYPE bytes.now) }
    ensures { IsSpan T.PTYPE (kept mask.now (numbers T.PTYPE bytes.now)) result.0 result.1 }
{
    let mut span = (greatest_number::<T>(), least_number::<T>());
    for run in mask.runs() {
        let (start, end) = *run;
        span = widened_span::<T>(bytes, (start, end), span);
    }
    (span.0.as_i128(), span.1.as_i128())
}

// The least and the greatest with the numbers of a run.
#[inline(never)]
fn widened_span<T: NativePType>(bytes: &[u8], run: (usize, usize), span: (T, T)) -> (T, T)
    requires order { run.0 ≤ run.1 }
    requires here { run.1 ≤ length (numbers T.PTYPE bytes.now) }
    ensures { (zs : List ℤ) → IsSpan T.PTYPE zs (T.value span.0) (T.value span.1)
        → IsSpan T.PTYPE (zs ++ map (number_nth (numbers T.PTYPE bytes.now)) (run_positions run))
        (T.value result.0) (T.value result.1) }
{
    let (mut least, mut greatest) = span;
    for row in run.0..run.1 {
        let number = read_number::<T>(bytes, row);
        least = lesser(least, number);
        greatest = greater(greatest, number);
    }
    (least, greatest)
}

// The greatest number of a type.
fn greatest_number<T: NativePType>() -> T
    ensures { T.value result ≡ greatest T.PTYPE }
{
    T::from_i128(T::PTYPE.greatest()).unwrap()
}

// The least number of a type.
fn least_number<T: NativePType>() -> T
    ensures { T.value result ≡ least T.PTYPE }
{
    T::from_i128(T::PTYPE.least()).unwrap()
}

// The lesser of two numbers.
#[inline]
fn lesser<T: NativePType>(least: T, number: T) -> T
    ensures { (lo : ℤ) → le_z lo (T.value result) ≡ (le_z lo (T.value least) && le_z lo (T.value number)) }
{
    if number.as_i128() < least.as_i128() {
        return number;
    }
    least
}

// The greater of two numbers.
#[inline]
fn greater<T: NativePType>(greatest: T, number: T) -> T
    ensures { (hi : ℤ) → le_z (T.value result) hi ≡ (le_z (T.value greatest) hi && le_z (T.value number) hi) }
{
    if greatest.as_i128() < number.as_i128() {
        return number;
    }
    greatest
}

// The narrowed type of numbers from `least` up to `greatest`.
fn ptype_between(ptype: PType, least: i128, greatest: i128) -> PType
    ensures { result ≡ type_between ptype least greatest }
{
    if greatest > i64::MAX as i128 {
        return ptype;
    }
    if least < 0 {
        first_of(PType::I8, PType::I16, PType::I32, ptype, least, greatest)
    } else {
        first_of(PType::U8, PType::U16, PType::U32, ptype, least, greatest)
    }
}

// The first of three types that has all numbers from `least` up to `greatest`, else the other.
fn first_of(
    first: PType,
    second: PType,
    third: PType,
    other: PType,
    least: i128,
    greatest: i128,
) -> PType
    ensures { result ≡ first_that_covers (first ∷ second ∷ third ∷ []) other least greatest }
{
    if covers(first, least, greatest) {
        first
    } else if covers(second, least, greatest) {
        second
    } else if covers(third, least, greatest) {
        third
    } else {
        other
    }
}

// Whether a type has all numbers from `least` up to `greatest`.
fn covers(ptype: PType, least: i128, greatest: i128) -> bool
    ensures { result ≡ covers ptype least greatest }
{
    ptype.least() <= least && greatest <= ptype.greatest()
}

// ---- the numbers

// The numbers of one type as those of another, 0 where the mask is false.
fn narrowed_bytes(
    alloc: Global,
    from: PType,
    to: PType,
    bytes: &[u8],
    mask: &Mask,
) -> Result<ByteBuffer, VortexError>
    requires same_len { length mask.now ≡ length (numbers from bytes.now) }
    requires holds { All (Holds to) (zeroed mask.now (numbers from bytes.now)) }
    requires narrower { byte_width to ≤ byte_width from }
    ensures ok { Gives result (λ b. numbers to b ≡ zeroed mask.now (numbers from bytes.now)) }
    ensures len { IfOk result (λ b. length b ≡ length mask.now * byte_width to) }
{
    let mut narrowed = vec![in alloc; 0u8; mask.len() * to.byte_width()]?;
    put_narrowed(from, to, bytes, mask, &mut narrowed);
    ByteBuffer::from_vec(alloc, narrowed)
}

// Writes the numbers of one type as those of another where the mask is true, over bytes that are 0.
fn put_narrowed(from: PType, to: PType, bytes: &[u8], mask: &Mask, out: &mut [u8])
    requires same_len { length mask.now ≡ length (numbers from bytes.now) }
    requires holds { All (Holds to) (zeroed mask.now (numbers from bytes.now)) }
    requires zeroes { out.old ≡ replicate (length mask.now * byte_width to) 0 }
    ensures len { length out.new ≡ length out.old }
    ensures numbers { numbers to out.new ≡ zeroed mask.now (numbers from bytes.now) }
{
    call_native!(from, put_numbers_as(to, bytes, mask, out))
}

// Writes the numbers of one type as those of `to` where the mask is true, over bytes that are 0.
fn put_numbers_as<T: NativePType>(to: PType, bytes: &[u8], mask: &Mask, out: &mut [u8])
    requires same_len { length mask.now ≡ length (numbers T.PTYPE bytes.now) }
    requires holds { All (Holds to) (zeroed mask.now (numbers T.PTYPE bytes.now)) }
    requires zeroes { out.old ≡ replicate (length mask.now * byte_width to) 0 }
    ensures len { length out.new ≡ length out.old }
    ensures numbers { numbers to out.new ≡ zeroed mask.now (numbers T.PTYPE bytes.now) }
{
    call_native!(to, put_numbers::<T>(bytes, mask, out))
}

// Writes the numbers of one type as those of another where the mask is true, one run after another.
fn put_numbers<T: NativePType, U: NativePType>(bytes: &[u8], mask: &Mask, out: &mut [u8])
    requires same_len { length mask.now ≡ length (numbers T.PTYPE bytes.now) }
    requires holds { All (Holds U.PTYPE) (zeroed mask.now (numbers T.PTYPE bytes.now)) }
    requires zeroes { out.old ≡ replicate (length mask.now * byte_width U.PTYPE) 0 }
    ensures len { length out.new ≡ length out.old }
    ensures numbers { numbers U.PTYPE out.new ≡ zeroed mask.now (numbers T.PTYPE bytes.now) }
{
    for run in mask.runs() {
        let (start, end) = *run;
        put_run::<T, U>(bytes, (start, end), out);
    }
}

// Writes the numbers of a run.
#[inline(never)]
fn put_run<T: NativePType, U: NativePType>(bytes: &[u8], run: (usize, usize), out: &mut [u8])
    requires here { run.1 ≤ length (numbers T.PTYPE bytes.now) }
    requires holds { (k : ℕ) → run.0 ≤ k → k < run.1
        → Holds U.PTYPE (number_nth (numbers T.PTYPE bytes.now) k) }
    requires order { run.0 ≤ run.1 }
    requires room { run.1 * byte_width U.PTYPE ≤ length out.old }
    ensures len { length out.new ≡ length out.old }
    ensures numbers { (k : ℕ) → number_nth (numbers U.PTYPE out.new) k
        ≡ (if is_in_run run k then number_nth (numbers T.PTYPE bytes.now) k
        else number_nth (numbers U.PTYPE out.old) k) }
{
    let width = U::PTYPE.byte_width();
    for row in run.0..run.1 {
        let number = int_at(bytes, T::PTYPE, row);
        put_int(number, U::PTYPE, &mut out[row * width..row * width + width]);
    }
}
