// Whether arrays are alike in every part, and rows the same. It takes no memory.

use vx_base::{ByteBuffer, ScalarValue};
use vx_tree::{ArrayRef, Layout, Validity};

/// Compares down to some depth: what lies deeper is not alike.
pub trait Compare {
    /// Whether arrays have the same data type, length and layout, with parts that are alike.
    fn is_alike(&self, one: &ArrayRef, other: &ArrayRef) -> bool;

    /// Whether these are the same row.
    fn is_same_row(&self, one: &Option<ScalarValue>, other: &Option<ScalarValue>) -> bool;
}

/// Finds nothing alike.
#[derive(Clone, Copy)]
pub struct Floor;

impl Compare for Floor {
    fn is_alike(&self, _one: &ArrayRef, _other: &ArrayRef) -> bool {
        false
    }

    fn is_same_row(&self, _one: &Option<ScalarValue>, _other: &Option<ScalarValue>) -> bool {
        false
    }
}

/// Compares a level, and what is below it by another.
#[derive(Clone, Copy)]
pub struct Level<D> {
    below: D,
}

/// Compares as deep as the tests' arrays are.
pub type Deep = Level<Level<Level<Level<Level<Level<Floor>>>>>>;

fn above<D>(below: D) -> Level<D> {
    Level { below }
}

/// Compares as deep as the tests' arrays are.
pub fn deep() -> Deep {
    above(above(above(above(above(above(Floor))))))
}

impl<D: Compare> Compare for Level<D> {
    fn is_alike(&self, one: &ArrayRef, other: &ArrayRef) -> bool {
        one.len() == other.len()
            && one.dtype() == other.dtype()
            && self.is_same_layout(one.layout(), other.layout())
    }

    fn is_same_row(&self, one: &Option<ScalarValue>, other: &Option<ScalarValue>) -> bool {
        match (one, other) {
            (None, None) => true,
            (Some(ScalarValue::Bool(one)), Some(ScalarValue::Bool(other))) => one == other,
            (Some(ScalarValue::Int(one)), Some(ScalarValue::Int(other))) => one == other,
            (Some(ScalarValue::Text(one)), Some(ScalarValue::Text(other)))
            | (Some(ScalarValue::Bytes(one)), Some(ScalarValue::Bytes(other))) => {
                one.as_slice() == other.as_slice()
            }
            (Some(ScalarValue::List(some)), Some(ScalarValue::List(others)))
            | (Some(ScalarValue::Record(some)), Some(ScalarValue::Record(others))) => {
                self.are_same_rows(some.as_slice(), others.as_slice())
            }
            _ => false,
        }
    }
}

impl<D: Compare> Level<D> {
    // Whether the parts of a row are the same.
    fn are_same_rows(&self, some: &[Option<ScalarValue>], others: &[Option<ScalarValue>]) -> bool {
        if some.len() != others.len() {
            return false;
        }
        for (one, other) in some.iter().zip(others.iter()) {
            if !self.below.is_same_row(one, other) {
                return false;
            }
        }
        true
    }

    // Whether columns are alike, one by one.
    fn are_alike(&self, some: &[ArrayRef], others: &[ArrayRef]) -> bool {
        if some.len() != others.len() {
            return false;
        }
        for (one, other) in some.iter().zip(others.iter()) {
            if !self.below.is_alike(one, other) {
                return false;
            }
        }
        true
    }

    /// Whether validities are in the same state, with arrays that are alike.
    pub fn is_same_validity(&self, one: &Validity, other: &Validity) -> bool {
        match (one, other) {
            (Validity::NonNullable, Validity::NonNullable) => true,
            (Validity::AllValid, Validity::AllValid) => true,
            (Validity::AllInvalid, Validity::AllInvalid) => true,
            (Validity::Array(one), Validity::Array(other)) => self.below.is_alike(one, other),
            _ => false,
        }
    }

    // Whether layouts are the same, with parts that are alike.
    fn is_same_layout(&self, one: &Layout, other: &Layout) -> bool {
        match (one, other) {
            (
                Layout::Bool {
                    bits: a,
                    validity: v,
                },
                Layout::Bool {
                    bits: b,
                    validity: w,
                },
            ) => { a == b && self.is_same_validity(v, w) }
            (
                Layout::Primitive {
                    bytes: a,
                    validity: v,
                    ..
                },
                Layout::Primitive {
                    bytes: b,
                    validity: w,
                    ..
                },
            ) => a.as_slice() == b.as_slice() && self.is_same_validity(v, w),
            (Layout::Constant { scalar: a, .. }, Layout::Constant { scalar: b, .. }) => {
                self.below.is_same_row(a.value(), b.value())
            }
            (
                Layout::Dict {
                    codes: a,
                    values: c,
                    flag: f,
                },
                Layout::Dict {
                    codes: b,
                    values: d,
                    flag: g,
                },
            ) => f == g && self.below.is_alike(a, b) && self.below.is_alike(c, d),
            (
                Layout::FixedSizeList {
                    elements: a,
                    validity: v,
                    ..
                },
                Layout::FixedSizeList {
                    elements: b,
                    validity: w,
                    ..
                },
            ) => self.below.is_alike(a, b) && self.is_same_validity(v, w),
            (
                Layout::VarBinView {
                    views: a,
                    buffers: c,
                    validity: v,
                    ..
                },
                Layout::VarBinView {
                    views: b,
                    buffers: d,
                    validity: w,
                    ..
                },
            ) => {
                a.as_slice() == b.as_slice() && have_same_bytes(c, d) && self.is_same_validity(v, w)
            }
            (
                Layout::Struct {
                    columns: a,
                    validity: v,
                    ..
                },
                Layout::Struct {
                    columns: b,
                    validity: w,
                    ..
                },
            ) => self.are_alike(a, b) && self.is_same_validity(v, w),
            _ => self.is_same_list_view(one, other),
        }
    }

    // Whether layouts are list views of parts that are alike.
    fn is_same_list_view(&self, one: &Layout, other: &Layout) -> bool {
        let Layout::ListView {
            elements: a,
            offsets: c,
            sizes: e,
            validity: v,
            flag: f,
        } = one
        else {
            return false;
        };
        let Layout::ListView {
            elements: b,
            offsets: d,
            sizes: g,
            validity: w,
            flag: h,
        } = other
        else {
            return false;
        };
        f == h
            && self.below.is_alike(a, b)
            && self.below.is_alike(c, d)
            && self.below.is_alike(e, g)
            && self.is_same_validity(v, w)
    }
}

/// Whether buffers have the same bytes, one by one.
pub fn have_same_bytes(some: &[ByteBuffer], others: &[ByteBuffer]) -> bool {
    if some.len() != others.len() {
        return false;
    }
    for (one, other) in some.iter().zip(others.iter()) {
        if one.as_slice() != other.as_slice() {
            return false;
        }
    }
    true
}

/// Whether arrays are alike, one by one.
pub fn are_alike(some: &[ArrayRef], others: &[ArrayRef]) -> bool {
    if some.len() != others.len() {
        return false;
    }
    let levels = deep();
    for (one, other) in some.iter().zip(others.iter()) {
        if !levels.is_alike(one, other) {
            return false;
        }
    }
    true
}
