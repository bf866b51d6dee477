// Rows of an array under a mask.

ghost use Rattle.std.specs.Prelude.{◌≡◌, length, IfOk};
ghost use Rattle.vx_base.specs.Refusals.{Gives, Refuses};
ghost use Rattle.vx_base.specs.Trues.{trues};
ghost use Rattle.vx_tree.specs.Meaning.{tree_len, kind_of, rows};
ghost use Rattle.vx_tree.specs.Shapes.{shape_of, selected_shape};
ghost use Rattle.vx_tree.specs.Faults.{length_fault};
ghost use Rattle.vx_tree.specs.Operations.{IsSelected, filtered};

use crate::array::{ArrayRef, Layout, Validity};
use crate::laws::fewer_rows_are_countable;
use std::alloc::Global;
use vx_base::{Mask, Selection, VortexError};

// How many rows runs have in the mean where bits are gathered one by one as fast as run by run.
const SHORT: usize = 3;

// How many positions are written out at most. More take longer in memory that is fresh from the system
// than they save.
const MOST: usize = 1 << 16;

impl ArrayRef {
    /// The rows at which the mask is true, in their order, in the same layout and of the same data
    /// type and state; a list view keeps its elements and a dictionary its values, but neither its
    /// flag. Refuses `LengthMismatch` where the mask has not one boolean a row. Of the lists
    /// `[3, 4]`, `[1]`, `[2, 3]` the mask true, false, true leaves `[3, 4]`, `[2, 3]`.
    pub fn filter(&self, alloc: Global, mask: &Mask) -> Result<ArrayRef, VortexError>
        ensures rows { IfOk result (λ a. rows a ≡ filtered mask.now (rows self.now)) }
        ensures kind { IfOk result (λ a. kind_of a ≡ kind_of self.now) }
        ensures shape { IfOk result (λ a. shape_of a ≡ selected_shape (shape_of self.now)) }
        ensures by_row { IfOk result (IsSelected self.now (trues mask.now)) }
        ensures refuses { Refuses result (length_fault (tree_len self.now) (length mask.now)) }
    {
        let expected = self.len();
        let found = mask.len();
        if found != expected {
            return Err(VortexError::LengthMismatch { expected, found });
        }
        if matches!(self.layout(), Layout::Constant { .. }) {
            return self.filter_constant(alloc, mask);
        }
        let filtered = self.filter_within(alloc, mask)?;
        Ok(filtered)
    }

    // The rows at which the mask, which has one boolean a row, is true. Where its runs are short,
    // their positions may be written out once for all columns of records.
    fn filter_within(&self, alloc: Global, mask: &Mask) -> Result<ArrayRef, VortexError>
        requires { length mask.now ≡ tree_len self.now }
        ensures { Gives result (IsSelected self.now (trues mask.now)) }
    {
        fewer_rows_are_countable(self);
        if self.gains_by_positions(mask) {
            let positions = mask.true_positions(alloc)?;
            return self.select_within(alloc, &Selection::at_positions(&positions));
        }
        let selection = Selection::of_runs(mask.runs(), mask.true_count());
        self.select_within(alloc, &selection)
    }

    // Whether positions are worth their memory: where two columns have bits, of which each run costs
    // several times what a position does. Runs of numbers cost no more than their positions.
    fn gains_by_positions(&self, mask: &Mask) -> bool {
        let Layout::Struct { columns, .. } = self.layout() else {
            return false;
        };
        let count = mask.true_count();
        count <= MOST && mask.runs().len() > count / SHORT && columns_with_bits(columns) > 1
    }

    // Whether the rows are truth values, or bits tell which of them are null.
    fn has_bits(&self) -> bool {
        match self.layout() {
            Layout::Bool { .. } => true,
            Layout::Primitive { validity, .. } => matches!(validity, Validity::Array(_)),
            Layout::Constant { .. } | Layout::Dict { .. } => false,
            Layout::FixedSizeList { validity, .. } => matches!(validity, Validity::Array(_)),
            Layout::ListView { validity, .. } => matches!(validity, Validity::Array(_)),
            Layout::VarBinView { validity, .. } => matches!(validity, Validity::Array(_)),
            Layout::Struct { validity, .. } => matches!(validity, Validity::Array(_)),
        }
    }
}

// How many of these columns have bits.
fn columns_with_bits(columns: &[ArrayRef]) -> usize {
    let mut count: usize = 0;
    for column in columns {
        count = count.saturating_add(usize::from(column.has_bits()));
    }
    count
}
