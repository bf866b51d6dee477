// Data types.

use std::process::Abort;
use std::rc::Rc;
use vx_base::{DType, FieldNames, Nullability, PType, StructFields};

// That of numbers of type u8.
pub(crate) fn u8s(nullability: Nullability) -> DType {
    DType::Primitive(PType::U8, nullability)
}

// That of lists.
pub(crate) fn lists_of(
    rt: &(impl Abort + AllocGlobal),
    items: DType,
    nullability: Nullability,
) -> DType {
    DType::List(Rc::new(rt.alloc(), items).expect(rt, "made"), nullability)
}

// That of lists of one size.
pub(crate) fn fixed_of(
    rt: &(impl Abort + AllocGlobal),
    items: DType,
    size: u32,
    nullability: Nullability,
) -> DType {
    DType::FixedSizeList(
        Rc::new(rt.alloc(), items).expect(rt, "made"),
        size,
        nullability,
    )
}

// That of records of these fields.
pub(crate) fn records_of<const N: usize>(
    rt: &(impl Abort + AllocGlobal),
    names: &[&str],
    dtypes: [DType; N],
    nullability: Nullability,
) -> DType {
    let names = FieldNames::try_new(rt.alloc(), names).expect(rt, "names");
    let dtypes = Vec::from_array(rt.alloc(), dtypes).expect(rt, "data types");
    assert_eq!(rt; names.len(), dtypes.len());
    let fields = StructFields::new(names, Rc::new(rt.alloc(), dtypes).expect(rt, "made"));
    DType::new_struct(fields, nullability)
}
