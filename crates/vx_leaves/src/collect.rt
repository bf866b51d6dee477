// The items of iterators that may be none, in lists that grow with what comes: no size hint is
// looked at.

ghost use Rattle.std.specs.Iterator.{IsFinite};
ghost use Rattle.vx_base.specs.Refusals.{Gives};
ghost use Rattle.vx_leaves.specs.Iterated.{AreOptions};

use std::alloc::Global;
use vx_base::VortexError;

// The items that may be none, in order: what they are, and whether they are there.
#[derive(Drop)]
pub(crate) struct OptionalItems<T> {
    pub items: Vec<T>,
    pub present: Vec<bool>,
}

// The items, in order, with `other` in the place of none.
pub(crate) fn collect_options<T: Copy + Drop, I: Iterator<Item = Option<T>> + Drop>(
    alloc: Global,
    items: I,
    other: T,
) -> Result<OptionalItems<T>, VortexError>
    requires can { I.can_next items }
    requires ends { IsFinite (I.remaining items) }
    ensures { Gives result (λ all. AreOptions I.next_gives items other all.items.items all.present.items) }
{
    let mut all = OptionalItems {
        items: Vec::new(alloc),
        present: Vec::new(alloc),
    };
    for item in items {
        all.items.push(item.unwrap_or(other))?;
        all.present.push(item.is_some())?;
    }
    Ok(all)
}
