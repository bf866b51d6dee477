// Steps on a list of arrays.

use vx_base::FieldName;
use vx_lists::ListViewRebuildMode;

/// One step of `run`: what it appends to the list of arrays. An array is named by its position in
/// the list, counted from 0, as it stands when the step is taken.
#[derive(Drop)]
pub enum Step {
    /// The rows from `start` up to `end`.
    Slice {
        array: usize,
        start: usize,
        end: usize,
    },
    /// The rows at the indices that an array of integers holds; a null index gives null.
    Take {
        array: usize,
        indices: usize,
    },
    /// The rows at which an array of plain booleans is true.
    Filter {
        array: usize,
        mask: usize,
    },
    /// The same rows, null where an array of plain booleans is false.
    Mask {
        array: usize,
        mask: usize,
    },
    /// The rows of several arrays, one array after another.
    Concat {
        arrays: Vec<usize>,
    },
    /// The same rows in the plain layout of their data type.
    Canonical {
        array: usize,
    },
    /// The same lists, laid out anew as the mode says. The array is a list view.
    Rebuild {
        array: usize,
        mode: ListViewRebuildMode,
    },
    /// The same numbers in the narrowest type that has them. The array has the primitive layout.
    Narrow {
        array: usize,
    },
    /// Records with the first field of each of these names. The array has the struct layout.
    Project {
        array: usize,
        names: Vec<FieldName>,
    },
    /// Records with one field more, the last: the rows of a column under the name. The array has
    /// the struct layout.
    WithColumn {
        array: usize,
        name: FieldName,
        column: usize,
    },
    /// Records without the first field of the name. The array has the struct layout.
    RemoveColumn {
        array: usize,
        name: FieldName,
    },
    /// The same records, whose fields are null where the record is; with `remove` no record is
    /// null any more, and a null one becomes a record of nulls. The array has the struct layout.
    PushValidity {
        array: usize,
        remove: bool,
    },
}
