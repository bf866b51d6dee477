// The value of a row where none is given.

ghost use Rattle.std.specs.Prelude.{◌≡◌, replicate};
ghost use Rattle.std.specs.List.{AllZip};
ghost use Rattle.vx_base.specs.Refusals.{Gives};
ghost use Rattle.vx_base.specs.DTypes.{dtype_meaning};
ghost use Rattle.vx_base.specs.Kinds.{Fits};
ghost use Rattle.vx_base.specs.Defaults.{default_row};
ghost use Rattle.vx_base.specs.ValueRows.{row_under};

use crate::byte_buffer::ByteBuffer;
use crate::dtypes::DType;
use crate::errors::VortexError;
use crate::scalar_value::{ScalarValue, ScalarValues, share_value};
use std::alloc::Global;

// The default of a data type, where it fits.
#[tactic(auto, using(crate::proofs::ValueFits::struct_depth))]
#[cycle(default)]
pub(crate) fn default_of(alloc: Global, dtype: &DType) -> Result<Option<ScalarValue>, VortexError>
    ensures { Gives result (λ v. Fits (dtype_meaning dtype.now) (default_row (dtype_meaning dtype.now))
        → row_under (dtype_meaning dtype.now) v ≡ default_row (dtype_meaning dtype.now)) }
{
    if dtype.is_nullable() {
        return Ok(None);
    }
    match dtype {
        DType::Bool(_) => Ok(Some(ScalarValue::Bool(false))),
        DType::Primitive(_, _) => Ok(Some(ScalarValue::Int(0))),
        DType::Utf8(_) => Ok(Some(ScalarValue::Text(ByteBuffer::empty(alloc)?))),
        DType::Binary(_) => Ok(Some(ScalarValue::Bytes(ByteBuffer::empty(alloc)?))),
        DType::List(_, _) => {
            let none = ScalarValues::from_vec(alloc, Vec::new(alloc))?;
            Ok(Some(ScalarValue::List(none)))
        }
        DType::FixedSizeList(items, size, _) => {
            let item = default_of(alloc, items)?;
            let rows = ScalarValues::from_vec(alloc, repeated(alloc, &item, *size as usize)?)?;
            Ok(Some(ScalarValue::List(rows)))
        }
        DType::Struct(fields, _) => {
            let values = ScalarValues::from_vec(alloc, defaults_of(alloc, fields.fields())?)?;
            Ok(Some(ScalarValue::Record(values)))
        }
    }
}

// The defaults of data types, in order, where they fit.
#[tactic(auto, using(crate::proofs::ValueFits::field_depth))]
#[cycle(default)]
fn defaults_of(alloc: Global, dtypes: &[DType]) -> Result<Vec<Option<ScalarValue>>, VortexError>
    ensures { Gives result (λ vs. AllZip (λ d v. Fits (dtype_meaning d) (default_row (dtype_meaning d))
        → row_under (dtype_meaning d) v ≡ default_row (dtype_meaning d)) dtypes.now vs.items) }
{
    let mut values = Vec::with_capacity(alloc, dtypes.len())?;
    for dtype in dtypes {
        values.push(default_of(alloc, dtype)?)?;
    }
    Ok(values)
}

// One value, so many times, its parts shared.
fn repeated(
    alloc: Global,
    value: &Option<ScalarValue>,
    count: usize,
) -> Result<Vec<Option<ScalarValue>>, VortexError>
    ensures { Gives result (λ vs. vs.items ≡ replicate count value.now) }
{
    let mut values = Vec::with_capacity(alloc, count)?;
    for _made in 0..count {
        values.push(share_value(alloc, value)?)?;
    }
    Ok(values)
}
