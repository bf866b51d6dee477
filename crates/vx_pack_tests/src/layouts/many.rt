// More rows than memory holds.

ghost use Rattle.std.specs.Prelude.{◌<◌};

use super::{defaults, records, repeated, same_counts, u8s};
use std::alloc::Global;
use std::process::Abort;
use vx_base::{Nullability, PType, VortexError};
use vx_test_help::numbers;
use vx_tree::{ArrayRef, Validity};

// More rows than memory holds a byte for.
pub(crate) const MANY: usize = 1099511627776;

// So many records of a number and null, by columns.
pub(crate) fn many_columns(rt: &(impl Abort + AllocGlobal), first: u8) -> ArrayRef {
    let nulls = defaults(rt, u8s(Nullability::Nullable), MANY);
    records(rt, &["a", "b"], same_counts(rt, first, MANY), nulls)
}

// So many rows, each the value 4 or 5 that one code names.
pub(crate) fn many_named(rt: &(impl Abort + AllocGlobal), code: u8) -> ArrayRef {
    assert!(rt; code < 2);
    four_or_five(rt.alloc(), code).expect(rt, "a dictionary")
}

// The same, unless memory is wanting.
fn four_or_five(alloc: Global, code: u8) -> Result<ArrayRef, VortexError>
    requires { code < 2 }
{
    let codes = repeated(alloc, code, MANY)?;
    let values = numbers(alloc, PType::U8, &[4, 5], Validity::NonNullable)?;
    ArrayRef::dictionary(alloc, codes, values, false)
}
