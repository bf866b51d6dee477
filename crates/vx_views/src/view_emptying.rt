//! The check of views that come from outside and are lent: what null rows say is let go.

ghost use Rattle.std.specs.Prelude.{◌≡◌, length, OnOk, IfOk, IfErr, IsTrue};
ghost use Rattle.vx_base.specs.Refusals.{Refuses, Tests};
ghost use Rattle.vx_base.specs.declared.errors.VortexError.TheVariants.{Memory};
ghost use Rattle.vx_views.specs.Alone.{alone_of, views_left, AreWholeTexts};
ghost use Rattle.vx_views.specs.Emptied.{emptied_views, AreKept};
ghost use Rattle.vx_views.specs.Faulty.{views_fault};
ghost use Rattle.vx_views.specs.Sound.{AreSoundViews};
ghost use Rattle.vx_views.specs.TextsAround.{AreTextTables};

use crate::texts_around::{TextTable, text_tables};
use crate::view::BinaryView;
use crate::view_checks::{check_view, read_ahead};
use std::alloc::Global;
use vx_base::{ByteBuffer, Mask, VortexError};

/// Checks views as `check_views_counted` does, and in the same pass empties those of null rows: each
/// becomes the view of no bytes, 16 zero bytes. What it refuses and counts is told of the views as
/// they were lent.
///
/// Where it refuses, the views of valid rows are as they were, and each of the others is as it was
/// or empty. Where memory is refused, all are as they were.
pub fn check_and_empty_views(
    alloc: Global,
    views: &mut [BinaryView],
    mask: &Mask,
    buffers: &[ByteBuffer],
    check_utf8: bool,
    budget: usize,
) -> Result<usize, VortexError>
    requires { length mask.now ≡ length views.old }
    ensures refuses { Refuses result (views_fault check_utf8 mask.now buffers.now views.old) }
    ensures sound { OnOk result (AreSoundViews views.old mask.now buffers.now check_utf8) }
    ensures left { IfOk result (λ left. left
        ≡ views_left check_utf8 budget mask.now buffers.now views.old) }

    // The views as they were at valid rows, and 16 zero bytes at null rows.
    ensures views { OnOk result (views.new ≡ emptied_views views.old mask.now) }

    // Also where it refuses.
    ensures kept { AreKept mask.now views.old views.new }
    ensures untouched { IfErr result (λ e. e ≡ Memory → views.new ≡ views.old) }
{
    if !check_utf8 {
        return check_and_empty_rows::<false>(views, mask, buffers, &[], &[]);
    }
    let texts = read_ahead(alloc, buffers, budget)?;
    let tables = text_tables(alloc, views, mask, buffers, &texts)?;
    check_and_empty_rows::<true>(views, mask, buffers, &texts, &tables)
}

// Whether each valid view may stand there, as `check_rows` tells, with how many values were checked
// alone; the views of null rows are emptied on the way.
fn check_and_empty_rows<const TEXT: bool>(
    views: &mut [BinaryView],
    mask: &Mask,
    buffers: &[ByteBuffer],
    texts: &[bool],
    tables: &[TextTable],
) -> Result<usize, VortexError>
    requires same_len { length mask.now ≡ length views.old }
    requires texts { IsTrue TEXT → AreWholeTexts buffers.now texts.now }
    requires tables { AreTextTables buffers.now tables.now }
    ensures tests { Tests result (views_fault TEXT mask.now buffers.now views.old) }
    ensures alone { IfOk result (λ alone. alone ≡ alone_of TEXT texts.now mask.now views.old) }
    ensures views { OnOk result (views.new ≡ emptied_views views.old mask.now) }
    ensures kept { AreKept mask.now views.old views.new }
{
    let mut valid = mask.rows();
    let mut alone = 0;
    for (row, view) in views.iter_mut().enumerate() {
        if valid.value(row) {
            alone += usize::from(check_view::<TEXT>(view, row, buffers, texts, tables)?);
        } else {
            *view = BinaryView::empty_view();
        }
    }
    Ok(alone)
}
