//! Columns whose parts a caller knows to fit, made without a test.

ghost use Rattle.std.specs.Prelude.{◌≡◌, ◌<◌, ◌+◌, ◌*◌, ◌/◌, ◌%◌, ◌∷◌, [], ℕ, false, Some, IfOk, IsOkUnless};
ghost use Rattle.vx_base.specs.Kinds.{fixed_lists};
ghost use Rattle.vx_base.specs.Rows.{list_in};
ghost use Rattle.vx_base.specs.declared.errors.VortexError.TheVariants.{Memory};
ghost use Rattle.vx_tree.specs.Meaning.{kind_of, row_at, tree_len};

use std::alloc::Global;
use vx_base::VortexError;
use vx_tree::{ArrayRef, Layout, Validity};

/// The rows of a column in pairs, as a reader of points has them: pair `i` is the list of the rows
/// `i * 2` and `i * 2 + 1`. Of 1, 2, 3, 4 the pairs `[1, 2]`, `[3, 4]`. Asks an even number of
/// rows: the parts then fit, so none is tested, and only want of memory refuses.
pub fn pairs(alloc: Global, column: ArrayRef) -> Result<ArrayRef, VortexError>
    requires { tree_len column % 2 ≡ 0 }
    ensures len { IfOk result (λ a. tree_len a ≡ tree_len column / 2) }
    ensures rows { IfOk result (λ a. (i : ℕ) → i < tree_len a →
        list_in (row_at a i) ≡ Some (row_at column (i * 2) ∷ row_at column (i * 2 + 1) ∷ [])) }
    ensures kind { IfOk result (λ a. kind_of a ≡ fixed_lists (kind_of column) 2 false) }
    ensures err { IsOkUnless result Memory }
{
    let len = column.len() / 2;
    let layout = Layout::FixedSizeList {
        elements: column,
        size: 2,
        validity: Validity::NonNullable,
        len,
    };
    Ok(ArrayRef::from_parts(alloc, layout)?)
}
