// Each of the eight layouts, made of its parts, and the arrays that are nested three deep.

ghost use Rattle.std.specs.Prelude.{◌≡◌, length, true, IfOk};
ghost use Rattle.vx_base.specs.Kinds.{is_integers};
ghost use Rattle.vx_base.specs.declared.ptypes.PType.TheVariants.{U8};
ghost use Rattle.vx_tree.specs.Meaning.{tree_len, kind_of};
ghost use Rattle.vx_tree.specs.Tree.{bools, primitive, non_nullable, by_array};

use super::LONG;
use std::alloc::Global;
use std::rc::Rc;
use vx_base::{
    BitBuffer, Buffer, ByteBuffer, DType, FieldNames, Mask, Nullability, PType, Scalar,
    ScalarValue, ScalarValues, StructFields, VortexError,
};
use vx_test_help::{bools, columns_of, some_bools};
use vx_tree::{ArrayRef, Layout, Validity};
use vx_views::{BinaryView, check_views};

// ---- numbers

// Numbers of type u8, none of them null.
pub(crate) fn counts(alloc: Global, numbers: &[u8]) -> Result<ArrayRef, VortexError>
    ensures { IfOk result (λ a. a ≡ primitive U8 numbers.now non_nullable) }
{
    let ptype = PType::U8;
    let bytes = ByteBuffer::copy_from(alloc, numbers)?;
    let validity = Validity::NonNullable;
    ArrayRef::from_parts(
        alloc,
        Layout::Primitive {
            ptype,
            bytes,
            validity,
        },
    )
}

// Numbers of type u8, of which the truth values say which are not null.
pub(crate) fn some_counts(
    alloc: Global,
    numbers: &[u8],
    valid: &[bool],
) -> Result<ArrayRef, VortexError>
    requires { length valid.now ≡ length numbers.now }
    ensures { IfOk result (λ a.
        a ≡ primitive U8 numbers.now (by_array (bools 0 valid.now non_nullable))) }
{
    let ptype = PType::U8;
    let bytes = ByteBuffer::copy_from(alloc, numbers)?;
    let validity = Validity::Array(bools(alloc, valid)?);
    ArrayRef::from_parts(
        alloc,
        Layout::Primitive {
            ptype,
            bytes,
            validity,
        },
    )
}

// The numbers 7, null and -9 of type i16.
fn shorts(alloc: Global) -> Result<ArrayRef, VortexError> {
    let ptype = PType::I16;
    let bytes = ByteBuffer::copy_from(alloc, &[7, 0, 0, 0, 0xF7, 0xFF])?;
    let validity = Validity::Array(bools(alloc, &[true, false, true])?);
    ArrayRef::from_parts(
        alloc,
        Layout::Primitive {
            ptype,
            bytes,
            validity,
        },
    )
}

// The values that codes name.
fn named(alloc: Global, codes: ArrayRef, values: ArrayRef) -> Result<ArrayRef, VortexError>
    requires { is_integers (kind_of codes) ≡ true }
    ensures { IfOk result (λ a. tree_len a ≡ tree_len codes) }
{
    codes.positions(alloc, values.len())?;
    let flag = false;
    ArrayRef::from_parts(
        alloc,
        Layout::Dict {
            codes,
            values,
            flag,
        },
    )
}

// ---- a dictionary of list views of records of texts and truth values

// The texts `hi`, null, `é`, a long one, which stands in a buffer, and `no`.
fn texts(alloc: Global) -> Result<ArrayRef, VortexError>
    ensures { IfOk result (λ a. tree_len a ≡ 5) }
{
    let views = [
        BinaryView::make_view(b"hi", 0, 0),
        BinaryView::empty_view(),
        BinaryView::make_view(b"\xC3\xA9", 0, 0),
        BinaryView::make_view(LONG, 0, 0),
        BinaryView::make_view(b"no", 0, 0),
    ];
    let valid = [true, false, true, true, true];
    let mask = Mask::from_buffer(alloc, BitBuffer::from_bools(alloc, &valid)?)?;
    let mut buffers = Vec::new(alloc);
    buffers.push(ByteBuffer::copy_from(alloc, LONG)?)?;
    check_views(alloc, &views, &mask, &buffers, true, 0)?;
    let views = Buffer::copy_from(alloc, &views)?;
    let validity = Validity::Array(bools(alloc, &valid)?);
    let dtype = DType::Utf8(Nullability::Nullable);
    ArrayRef::from_parts(
        alloc,
        Layout::VarBinView {
            views,
            buffers,
            dtype,
            validity,
        },
    )
}

// The records {name:hi,done:true}, {name:null,done:false}, {name:é,done:null}, that of the long
// text with true, and null.
fn records(alloc: Global) -> Result<ArrayRef, VortexError>
    ensures { IfOk result (λ a. tree_len a ≡ 5) }
{
    let done = [true, false, true, true, true];
    let done = some_bools(alloc, &done, &[true, true, false, true, true])?;
    let validity = Validity::Array(bools(alloc, &[true, true, true, true, false])?);
    columns_of(alloc, &["name", "done"], texts(alloc)?, done, validity, 5)
}

// The lists of the first two of five elements, of the fourth alone, and of the last three.
fn lists(alloc: Global, elements: ArrayRef) -> Result<ArrayRef, VortexError>
    requires { tree_len elements ≡ 5 }
{
    let offsets = counts(alloc, &[0, 3, 2])?;
    let sizes = counts(alloc, &[2, 1, 3])?;
    let validity = Validity::NonNullable;
    let flag = false;
    ArrayRef::from_parts(
        alloc,
        Layout::ListView {
            elements,
            offsets,
            sizes,
            validity,
            flag,
        },
    )
}

// The list of the last three records, null, and that of the first two.
pub(crate) fn lists_by_codes(alloc: Global) -> Result<ArrayRef, VortexError> {
    let codes = some_counts(alloc, &[2, 9, 0], &[true, false, true])?;
    named(alloc, codes, lists(alloc, records(alloc)?)?)
}

// ---- lists of one size of a dictionary

// The pairs [7, null], [-9, null], [null, 7], by codes into 7, null, -9.
pub(crate) fn pairs_by_codes(alloc: Global) -> Result<ArrayRef, VortexError> {
    let codes = counts(alloc, &[0, 1, 2, 1, 1, 0])?;
    let elements = named(alloc, codes, shorts(alloc)?)?;
    let (size, len) = (2, 3);
    let validity = Validity::NonNullable;
    ArrayRef::from_parts(
        alloc,
        Layout::FixedSizeList {
            elements,
            size,
            validity,
            len,
        },
    )
}

// ---- a constant record of a text and a list

// Records of these fields, one of each name.
pub(crate) fn records_of(
    alloc: Global,
    names: &[&str],
    first: DType,
    second: DType,
    nullability: Nullability,
) -> Result<DType, VortexError> {
    let names = FieldNames::try_new(alloc, names)?;
    let mut dtypes = Vec::with_capacity(alloc, 2)?;
    dtypes.push(first)?;
    dtypes.push(second)?;
    let dtypes = Rc::new(alloc, dtypes)?;
    if names.len() != dtypes.len() {
        return Err(VortexError::MismatchedTypes);
    }
    Ok(DType::new_struct(StructFields::new(names, dtypes), nullability))
}

// Records of a text `name` and of a list `sizes` of 16-bit numbers.
pub(crate) fn parcels(alloc: Global) -> Result<DType, VortexError> {
    let size = Rc::new(alloc, DType::Primitive(PType::I16, Nullability::Nullable))?;
    let sizes = DType::List(size, Nullability::NonNullable);
    let name = DType::Utf8(Nullability::NonNullable);
    records_of(
        alloc,
        &["name", "sizes"],
        name,
        sizes,
        Nullability::NonNullable,
    )
}

// A parcel of a long name and the sizes -3 and null.
fn parcel(alloc: Global) -> Result<Scalar, VortexError> {
    let name = ScalarValue::Text(ByteBuffer::copy_from(alloc, LONG)?);
    let sizes = vec![in alloc; Some(ScalarValue::Int(-3)), None]?;
    let sizes = ScalarValue::List(ScalarValues::from_vec(alloc, sizes)?);
    let fields = ScalarValues::from_vec(alloc, vec![in alloc; Some(name), Some(sizes)]?)?;
    Scalar::try_new(parcels(alloc)?, Some(ScalarValue::Record(fields)))
}

// Three times the same parcel.
pub(crate) fn same_parcels(alloc: Global) -> Result<ArrayRef, VortexError> {
    let scalar = parcel(alloc)?;
    let _fits = scalar.dtype();
    ArrayRef::from_parts(alloc, Layout::Constant { scalar, len: 3 })
}
