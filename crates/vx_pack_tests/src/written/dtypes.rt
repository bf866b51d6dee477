// Data types as text.

use super::add;
use std::process::Abort;
use vx_base::{DType, StructFields};

// Adds a data type.
#[cycle(dtype)]
pub(crate) fn write_dtype(rt: &impl Abort, text: &mut String, dtype: &DType, levels: usize) {
    assert!(rt; 0 < levels);
    match dtype {
        DType::Bool(_) => add(rt, text, "bool"),
        DType::Primitive(ptype, _) => {
            let ptype = *ptype;
            write!(text, "{ptype}").expect(rt, "written");
        }
        DType::Utf8(_) => add(rt, text, "text"),
        DType::Binary(_) => add(rt, text, "bytes"),
        DType::List(items, _) => {
            add(rt, text, "[");
            write_dtype(rt, text, items, levels - 1);
            add(rt, text, "]");
        }
        DType::FixedSizeList(items, size, _) => {
            let size = *size;
            add(rt, text, "[");
            write_dtype(rt, text, items, levels - 1);
            write!(text, ";{size}]").expect(rt, "written");
        }
        DType::Struct(fields, _) => write_fields(rt, text, fields, levels - 1),
    }
    if dtype.is_nullable() {
        add(rt, text, "?");
    }
}

// Adds the names and the data types of fields.
#[cycle(dtype)]
fn write_fields(rt: &impl Abort, text: &mut String, fields: &StructFields, levels: usize) {
    add(rt, text, "{");
    for (place, field) in fields.fields().iter().enumerate() {
        if place > 0 {
            add(rt, text, ",");
        }
        add(rt, text, fields.names().get(place).as_str());
        add(rt, text, ":");
        write_dtype(rt, text, field, levels);
    }
    add(rt, text, "}");
}
