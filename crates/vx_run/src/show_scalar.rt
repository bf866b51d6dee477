// The row of a scalar as text.

use crate::hexadecimal::write_bytes;
use crate::show::separate;
use vx_base::{DType, ScalarValue, StructFields, VortexError};

// Adds the row of this data type that a value is: null where there is none.
#[tactic(auto, using(crate::proofs::Fields::struct_depth))]
#[cycle(value)]
pub(crate) fn show_value(
    dtype: &DType,
    value: &Option<ScalarValue>,
    text: &mut String,
) -> Result<(), VortexError> {
    match (dtype, value) {
        (_, Some(ScalarValue::Bool(truth))) => {
            let truth = *truth;
            write!(text, "{truth}")?;
        }
        (_, Some(ScalarValue::Int(number))) => {
            let number = *number;
            write!(text, "{number}")?;
        }
        (_, Some(ScalarValue::Bytes(bytes))) => write_bytes(bytes.as_slice(), text)?,
        (_, Some(ScalarValue::Text(bytes))) => write_bytes(bytes.as_slice(), text)?,
        (DType::List(items, _), Some(ScalarValue::List(rows))) => {
            show_items(items, rows.as_slice(), text)?;
        }
        (DType::FixedSizeList(items, _, _), Some(ScalarValue::List(rows))) => {
            show_items(items, rows.as_slice(), text)?;
        }
        (DType::Struct(fields, _), Some(ScalarValue::Record(rows))) => {
            show_fields(fields, rows.as_slice(), text)?;
        }
        _ => text.push_str("null")?,
    }
    Ok(())
}

// Adds the rows of a list.
#[cycle(value)]
fn show_items(
    dtype: &DType,
    values: &[Option<ScalarValue>],
    text: &mut String,
) -> Result<(), VortexError> {
    text.push('[')?;
    for (row, value) in values.iter().enumerate() {
        separate(row, text)?;
        show_value(dtype, value, text)?;
    }
    text.push(']')?;
    Ok(())
}

// Adds the fields of a record, each after its name.
#[tactic(auto, using(crate::proofs::Fields::field_depth))]
#[cycle(value)]
fn show_fields(
    fields: &StructFields,
    values: &[Option<ScalarValue>],
    text: &mut String,
) -> Result<(), VortexError> {
    let names = fields.names();
    let dtypes = fields.fields();
    text.push('{')?;
    for i in 0..values.len() {
        if i >= names.len() || i >= dtypes.len() {
            break;
        }
        separate(i, text)?;
        text.push_str(names.get(i).as_str())?;
        text.push(':')?;
        show_value(&dtypes[i], &values[i], text)?;
    }
    text.push('}')?;
    Ok(())
}
