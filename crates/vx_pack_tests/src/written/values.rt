// The values of constants as text.

use super::add;
use super::parts::write_bytes;
use std::process::Abort;
use vx_base::ScalarValue;

// Adds a value.
#[cycle(value)]
pub(crate) fn write_value(
    rt: &impl Abort,
    text: &mut String,
    value: &Option<ScalarValue>,
    levels: usize,
) {
    assert!(rt; 0 < levels);
    match value {
        None => add(rt, text, "null"),
        Some(ScalarValue::Bool(truth)) => {
            let truth = *truth;
            write!(text, "{truth}").expect(rt, "written");
        }
        Some(ScalarValue::Int(number)) => {
            let number = *number;
            write!(text, "{number}").expect(rt, "written");
        }
        Some(ScalarValue::Bytes(bytes)) => write_bytes(rt, text, bytes.as_slice()),
        Some(ScalarValue::Text(bytes)) => write_bytes(rt, text, bytes.as_slice()),
        Some(ScalarValue::List(values)) => write_values(rt, text, values.as_slice(), levels - 1),
        Some(ScalarValue::Record(values)) => write_values(rt, text, values.as_slice(), levels - 1),
    }
}

// Adds the rows of a list, or the fields of a record.
#[cycle(value)]
fn write_values(rt: &impl Abort, text: &mut String, values: &[Option<ScalarValue>], levels: usize) {
    add(rt, text, "[");
    for (place, value) in values.iter().enumerate() {
        if place > 0 {
            add(rt, text, ",");
        }
        write_value(rt, text, value, levels);
    }
    add(rt, text, "]");
}
