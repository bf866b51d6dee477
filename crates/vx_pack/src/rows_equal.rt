// Whether arrays have equal rows.

ghost use Rattle.std.specs.Prelude.{◌≡◌, ◌↔◌, IsTrue};
ghost use Rattle.vx_base.specs.DTypes.{dtype_meaning};
ghost use Rattle.vx_tree.specs.Meaning.{kind_of, rows};

use crate::parts::part_of;
use crate::same_rows::same_rows;
use vx_base::DType;
use vx_tree::ArrayRef;

/// What has rows that can be compared.
pub trait RowsEqual {
    /// Whether both have data types that mean the same and equal rows, whatever their layouts.
    /// Nullability is part of the data type, at every depth, and so are the names of records. Two
    /// nulls are equal, and null is equal to nothing else. What lies under a null row, elements of
    /// no list, bytes of no text and bits after the last row never count. Takes no memory, and so
    /// never fails. Ends at the first difference; else it looks at each row once, numbers of which
    /// none is null as bytes, all at once. Where the layouts of both say that all their rows are
    /// one, the first row of each decides, however many there are: those of a constant, of a
    /// dictionary whose codes are such, and, where the state says that none is null, of lists and
    /// records of such parts. The lists `[3, 4]`, `[1]`, null are equal wherever they lie among
    /// their elements, and differ from `[3, 4]`, `[1]`, `[]`.
    fn rows_equal(&self, other: &Self) -> bool;
}

impl RowsEqual for ArrayRef {
    fn rows_equal(&self, other: &ArrayRef) -> bool
        ensures { IsTrue result ↔ ((kind_of self.now ≡ kind_of other.now) × (rows self.now ≡ rows other.now)) }
    {
        if !same_kind(self.dtype(), other.dtype()) {
            return false;
        }
        let len = self.len();
        if other.len() != len {
            return false;
        }
        same_rows(self.dtype(), part_of(self, 0, len), part_of(other, 0, len))
    }
}

// Whether data types mean the same.
fn same_kind(a: &DType, b: &DType) -> bool
    ensures { IsTrue result ↔ (dtype_meaning a.now ≡ dtype_meaning b.now) }
{
    *a == *b
}
