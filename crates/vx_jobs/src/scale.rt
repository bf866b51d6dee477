// How much a job works on.

use crate::random::Random;
use std::ops::Range;

// How long the columns are, how many rows a batch of them has, and how many batches there are.
#[derive(Clone, Copy)]
pub(crate) struct Scale {
    pub(crate) column: usize,
    pub(crate) batch: usize,
    pub(crate) rounds: usize,
}

impl Scale {
    // Columns of four batches of 65,536 rows, and so many batches cut out of them.
    pub(crate) fn whole(rounds: usize) -> Scale {
        Scale {
            column: 262_144,
            batch: 65_536,
            rounds,
        }
    }

    // Columns of four batches of 512 rows, and two batches cut out of them.
    pub(crate) fn small() -> Scale {
        Scale {
            column: 2_048,
            batch: 512,
            rounds: 2,
        }
    }

    // The rows of a batch, which begins anywhere.
    pub(crate) fn cut(self, random: &mut Random) -> Range<usize> {
        let start = random.below(self.column.saturating_sub(self.batch));
        start..start.saturating_add(self.batch)
    }
}
