// Arrays of each layout, made of parts that are tested first. Rows become null by `mask`. Each
// function ends where memory is wanting, or where no such array is.

ghost use Rattle.std.specs.Prelude.{◌≡◌, ◌≤◌, ◌≤ℤ◌, ◌+◌, ◌-◌, ◌^◌, ℕ, false, pos, Some, IsTrue, IfOk, IfSome};
ghost use Rattle.vx_base.specs.declared.ptypes.PType.TheVariants.{U8};
ghost use Rattle.vx_base.specs.Kinds.{integers};
ghost use Rattle.vx_base.specs.Rows.{whole};
ghost use Rattle.vx_tree.specs.Formed.{IsListView};
ghost use Rattle.vx_tree.specs.Meaning.{tree_len};
ghost use Rattle.vx_tree.specs.Tree.{Tree, constant};

use std::alloc::Global;
use std::process::Abort;
use vx_base::{
    DType, FieldNames, NativePType, Nullability, PType, Scalar, ScalarValue, ScalarValues,
    VortexError,
};
use vx_test_help::{bools, columns_of, ints};
use vx_tree::{ArrayRef, Layout, Validity};

mod dtypes;
mod many;
mod texts;

pub(crate) use dtypes::{fixed_of, lists_of, records_of, u8s};
pub(crate) use many::{MANY, many_columns, many_named};
pub(crate) use texts::{LONG, byte_lists, text, texts, view};

// Truth values, none of them null.
pub(crate) fn truths(rt: &(impl Abort + AllocGlobal), values: &[bool]) -> ArrayRef {
    bools(rt.alloc(), values).expect(rt, "truth values")
}

// Numbers, none of them null.
pub(crate) fn numbers<T: NativePType>(rt: &(impl Abort + AllocGlobal), numbers: &[T]) -> ArrayRef {
    ints::<T>(rt.alloc(), numbers).expect(rt, "numbers")
}

// The same of type u8.
pub(crate) fn counts(rt: &(impl Abort + AllocGlobal), numbers: &[u8]) -> ArrayRef {
    ints::<u8>(rt.alloc(), numbers).expect(rt, "numbers")
}

// So many rows of one value.
pub(crate) fn same(rt: &(impl Abort + AllocGlobal), value: Scalar, len: usize) -> ArrayRef {
    ArrayRef::constant(rt.alloc(), value, len).expect(rt, "a constant")
}

// So many times a number of type u8.
pub(crate) fn same_counts(rt: &(impl Abort + AllocGlobal), number: u8, len: usize) -> ArrayRef {
    repeated(rt.alloc(), number, len).expect(rt, "a constant")
}

// The same, unless memory is wanting.
fn repeated(alloc: Global, number: u8, len: usize) -> Result<ArrayRef, VortexError>
    ensures { IfOk result (λ a. a ≡ constant (integers U8 false) (whole (pos number)) len) }
{
    let scalar = Scalar::int(i128::from(number), PType::U8, Nullability::NonNullable);
    ArrayRef::constant(alloc, scalar, len)
}

// The same where null may stand.
pub(crate) fn same_nullable(rt: &(impl Abort + AllocGlobal), number: u8, len: usize) -> ArrayRef {
    let number = Scalar::int(i128::from(number), PType::U8, Nullability::Nullable);
    same(rt, number, len)
}

// The values that codes name.
pub(crate) fn named(
    rt: &(impl Abort + AllocGlobal),
    codes: ArrayRef,
    values: ArrayRef,
) -> ArrayRef {
    assert!(rt; codes.dtype().is_int());
    codes
        .positions(rt.alloc(), values.len())
        .expect(rt, "codes");
    let flag = false;
    let layout = Layout::Dict {
        codes,
        values,
        flag,
    };
    ArrayRef::from_parts(rt.alloc(), layout).expect(rt, "a dictionary")
}

// The same rows, null where these are false.
pub(crate) fn null_where(
    rt: &(impl Abort + AllocGlobal),
    array: ArrayRef,
    valid: &[bool],
) -> ArrayRef {
    array
        .mask(rt.alloc(), &truths(rt, valid))
        .expect(rt, "as many rows")
}

// Numbers of type u8, null where these are false.
pub(crate) fn some_counts(
    rt: &(impl Abort + AllocGlobal),
    numbers: &[u8],
    valid: &[bool],
) -> ArrayRef {
    null_where(rt, counts(rt, numbers), valid)
}

// Truth values, null where the second ones are false.
pub(crate) fn some_truths(
    rt: &(impl Abort + AllocGlobal),
    values: &[bool],
    valid: &[bool],
) -> ArrayRef {
    null_where(rt, truths(rt, values), valid)
}

// The default row of a data type, so many times: null where it may stand.
pub(crate) fn defaults(rt: &(impl Abort + AllocGlobal), dtype: DType, len: usize) -> ArrayRef {
    let value = Scalar::default_value(rt.alloc(), dtype).expect(rt, "a default");
    same(rt, value, len)
}

// So many lists of one size.
pub(crate) fn fixed(
    rt: &(impl Abort + AllocGlobal),
    elements: ArrayRef,
    size: u32,
    len: usize,
) -> ArrayRef {
    assert!(rt; len.checked_mul(size as usize) == Some(elements.len()));
    ArrayRef::fixed_size_list(rt.alloc(), elements, size, Validity::NonNullable, len).expect(
        rt,
        "lists of one size",
    )
}

// Records of two columns.
pub(crate) fn records(
    rt: &(impl Abort + AllocGlobal),
    names: &[&str; 2],
    first: ArrayRef,
    second: ArrayRef,
) -> ArrayRef {
    let len = first.len();
    assert_eq!(rt; second.len(), len);
    columns_of(rt.alloc(), names, first, second, Validity::NonNullable, len).expect(rt, "records")
}

// Records of one column.
pub(crate) fn wrapped(rt: &(impl Abort + AllocGlobal), name: &str, column: ArrayRef) -> ArrayRef {
    let len = column.len();
    let names = FieldNames::try_new(rt.alloc(), &[name]).expect(rt, "a name");
    let columns = vec![in rt.alloc(); column].expect(rt, "a column");
    ArrayRef::structure(rt.alloc(), names, columns, Validity::NonNullable, len).expect(
        rt, "records",
    )
}

// So many records without columns.
pub(crate) fn without_columns(rt: &(impl Abort + AllocGlobal), len: usize) -> ArrayRef {
    let names = FieldNames::try_new(rt.alloc(), &[]).expect(rt, "no names");
    let columns = Vec::new(rt.alloc());
    ArrayRef::structure(rt.alloc(), names, columns, Validity::NonNullable, len).expect(
        rt, "records",
    )
}

// Lists by where each begins among the elements and how many it has: each has to end within them.
pub(crate) fn lists_within(
    rt: &(impl Abort + AllocGlobal),
    elements: ArrayRef,
    offsets: ArrayRef,
    sizes: ArrayRef,
) -> ArrayRef {
    assert!(rt; are_within(elements.len(), &offsets, &sizes));
    ArrayRef::list_view(
        rt.alloc(),
        elements,
        offsets,
        sizes,
        Validity::NonNullable,
        false,
    )
    .expect(rt, "lists")
}

// Whether these are counts, as many of the one as of the other, and each list ends within so many
// elements.
fn are_within(len: usize, offsets: &ArrayRef, sizes: &ArrayRef) -> bool
    ensures { IsTrue result → (e : Tree) → tree_len e ≡ len → IsListView e offsets.now sizes.now false }
{
    if !offsets.dtype().is_plain_int() || !sizes.dtype().is_plain_int() {
        return false;
    }
    if sizes.len() != offsets.len() {
        return false;
    }
    for i in 0..offsets.len() {
        if !ends_within(len, offsets.int_at(i), sizes.int_at(i)) {
            return false;
        }
    }
    true
}

// Whether a list of this offset and this size ends within so many elements.
fn ends_within(len: usize, offset: Option<i128>, size: Option<i128>) -> bool
    requires offset { IfSome offset (λ z. z ≤ℤ pos (2 ^ 64 - 1)) }
    requires size { IfSome size (λ z. z ≤ℤ pos (2 ^ 64 - 1)) }
    ensures { IsTrue result → (a : ℕ) × (b : ℕ) × (offset ≡ Some (pos a)) × (size ≡ Some (pos b)) × (a + b ≤ len) }
{
    let (Some(offset), Some(size)) = (offset, size) else {
        return false;
    };
    0 <= offset && 0 <= size && offset + size <= len as i128
}

// The same by numbers of type u8.
pub(crate) fn lists_at(
    rt: &(impl Abort + AllocGlobal),
    elements: ArrayRef,
    offsets: &[u8],
    sizes: &[u8],
) -> ArrayRef {
    lists_within(rt, elements, counts(rt, offsets), counts(rt, sizes))
}

// The offsets and the sizes of three lists of four elements: of the first two, of none, and of the
// last two.
pub(crate) const END_TO_END: [[u8; 3]; 2] = [[0, 2, 2], [2, 0, 2]];

// Of the last two, of none, and of the first two.
pub(crate) const OUT_OF_ORDER: [[u8; 3]; 2] = [[2, 4, 0], [2, 0, 2]];

// Of the first two, of none, and of the two in the middle.
pub(crate) const OVERLAPPING: [[u8; 3]; 2] = [[0, 0, 1], [2, 0, 2]];

// Of the first one, of none, and of the last three.
pub(crate) const PARTED_ELSEWHERE: [[u8; 3]; 2] = [[0, 1, 1], [1, 0, 3]];

// Three lists of four numbers of type u8.
pub(crate) fn three_lists(
    rt: &(impl Abort + AllocGlobal),
    elements: ArrayRef,
    places: &[[u8; 3]; 2],
) -> ArrayRef {
    lists_at(rt, elements, &places[0], &places[1])
}

// The lists `[1, 2]`, `[]`, `[2, 3]`.
pub(crate) fn in_order(rt: &(impl Abort + AllocGlobal)) -> ArrayRef {
    three_lists(rt, counts(rt, &[1, 2, 2, 3]), &END_TO_END)
}

// A value of a data type.
pub(crate) fn value(rt: &(impl Abort + AllocGlobal), dtype: DType, value: ScalarValue) -> Scalar {
    Scalar::try_new(dtype, Some(value)).expect(rt, "a value")
}

// Values of a number each, null where there is none.
fn values(rt: &(impl Abort + AllocGlobal), numbers: &[Option<i128>]) -> ScalarValues {
    let mut values = Vec::new(rt.alloc());
    for number in numbers {
        values
            .push(number.map(ScalarValue::Int))
            .expect(rt, "a value");
    }
    ScalarValues::from_vec(rt.alloc(), values).expect(rt, "values")
}

// A list of numbers of type u8, so many times.
pub(crate) fn same_lists(
    rt: &(impl Abort + AllocGlobal),
    numbers: &[Option<i128>],
    nullability: Nullability,
    len: usize,
) -> ArrayRef {
    let dtype = lists_of(rt, u8s(nullability), Nullability::NonNullable);
    let list = ScalarValue::List(values(rt, numbers));
    same(rt, value(rt, dtype, list), len)
}

// A record of two numbers of type u8, of which the second one may be null, so many times.
pub(crate) fn same_records(
    rt: &(impl Abort + AllocGlobal),
    numbers: &[Option<i128>],
    len: usize,
) -> ArrayRef {
    let dtypes = [u8s(Nullability::NonNullable), u8s(Nullability::Nullable)];
    let dtype = records_of(rt, &["a", "b"], dtypes, Nullability::NonNullable);
    let record = ScalarValue::Record(values(rt, numbers));
    same(rt, value(rt, dtype, record), len)
}
