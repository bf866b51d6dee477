//! The library for C: columns that C hands over are tables of nodes, and every test of them is
//! proved. A call copies what it is given, and keeps nothing.
//!
//! Read `table` first (what C sees), with specs/Tables; then `reading`, which keeps the arrays of a
//! table on `stack` and makes each by `layouts`; and `passing`, which tells of most tables without
//! arrays, by `parts` and the loops of `lent_*`. A run is `running`: `steps` and `column_steps` are
//! what is done, `counting` tells how many nodes a result needs, `writing` makes its table
//! (`written`), and `lending` hands the blocks over. `laws` are for
//! callers.
//!
//! Three walks recurse: `#[cycle(nodes)]` (`counting`) and `write` (`writing`) down an array, and
//! `least` (`counting`) down a data type. Reading a table does not.
#![tactic(auto)]

ghost use Rattle.std.specs.List.{All};
ghost use Rattle.std.specs.Prelude.{◌≡◌, ◌<◌, List, None};
ghost use Rattle.vx_c.specs.Tables.{table_fault};
ghost use Rattle.vx_c.specs.Told.{AreToldBy, HaveOrder};
ghost use Rattle.vx_c.specs.declared.table.CodraskNode.{CodraskNode};
ghost use Rattle.vx_c.specs.Answers.{IsAnswer, TakesMemory};
ghost use Rattle.vx_c.specs.Runs.{IsMade, IsExactTable, IsToldOf, no_run_fault};

mod column_steps;
mod counting;
mod faults;
pub mod laws;
mod layouts;
mod lending;
mod lent_offsets;
mod lent_texts;
mod lent_views;
mod parts;
mod passing;
mod reading;
mod running;
mod stack;
mod steps;
mod table;
mod writing;
mod written;

use crate::faults::{told, told_of_run};
pub use crate::faults::{CodraskFault, CodraskRunFault};
use crate::passing::passes;
use crate::reading::check;
use crate::running::run_tables;
pub use crate::steps::CodraskStep;
pub use crate::table::{CodraskBytes, CodraskNode, CodraskTable, CodraskTables, CodraskView};
use std::alloc::Global;

/// The version of these calls and of the table.
#[unsafe(no_mangle)]
pub extern "C" fn codrask_version() -> u32
    ensures { result ≡ 1 }
{
    1
}

/// Whether a table of nodes is a column. Answers 0 where it is, else the number of its first fault,
/// or 1 where memory was refused. `fault` is that number, the node that has the fault, and the row
/// or position that the fault names, else 0; of 0 and 1 nothing beside the number. Too many nodes,
/// a table without any, and a last node that no kind has are told without asking for memory.
#[tactic(auto, using(crate::proofs::TableFaults::told_right, crate::proofs::EarlyFaults::memory_told))]
#[unsafe(no_mangle)]
pub extern "C" fn codrask_check(
    alloc: Global,
    nodes: &[CodraskNode<'_>],
    fault: &mut CodraskFault,
) -> u32
    ensures answer { IsAnswer fault.new (table_fault nodes.now) }
    ensures memory { result ≡ 1 → TakesMemory nodes.now }
    ensures number { result ≡ fault.new.number }
{
    *fault = told(check(alloc, nodes));
    fault.number
}

/// Whether it is known that a table is a column, without a copy of what it holds: 1, or 0 where
/// `codrask_check` has to be asked. In such a table offsets may stand for the views of values and for
/// the numbers of lists, by kinds from 15 on: of 1 each table that they tell of is a column, and the
/// offsets of values lie in order within their bytes. It is 0 too where memory was refused.
#[unsafe(no_mangle)]
pub extern "C" fn codrask_passes(alloc: Global, nodes: &[CodraskNode<'_>]) -> u32
    ensures told { result ≡ 1 → (told : List CodraskNode) → AreToldBy nodes.now told → table_fault told ≡ None }
    ensures in_order { result ≡ 1 → HaveOrder nodes.now }
{
    if passes(alloc, nodes) { 1 } else { 0 }
}

/// Runs steps on the columns of tables, and writes the tables of the arrays that are asked for, in
/// plain layouts: the arrays are the columns, then one for each step. Answers 0 where that is done.
/// `made` then has the tables, in blocks of `malloc` that are the caller's: each slice that is not
/// empty is one. The columns fix each byte of them: equal columns go out as equal bytes, and no bit
/// is set before the first of some truth values or after the last one. Else the answer is the
/// number of the first fault, and `fault` says where it is: of the tables, then of the steps, then
/// of the step that is refused, then of what is asked for. It is 1 where memory was refused, which
/// is all that `fault` says then: room for the lists of a run is asked for first. `made` is then as
/// it was. An array whose table would have more than 4096 nodes is refused before any is written,
/// and before it is made plain where its data type needs so many.
#[tactic(auto, using(crate::proofs::RunParts::told_run))]
#[unsafe(no_mangle)]
pub extern "C" fn codrask_run(
    alloc: Global,
    tables: &[CodraskTable<'_>],
    steps: &[CodraskStep<'_>],
    wanted: &[usize],
    made: &mut CodraskTables,
    fault: &mut CodraskRunFault,
) -> u32
    ensures made { result ≡ 0 → IsMade tables.now steps.now wanted.now made.new.tables.now }
    ensures bytes { result ≡ 0 → All IsExactTable made.new.tables.now }
    ensures none { result ≡ 0 → fault.new ≡ no_run_fault }
    ensures fault { 0 < result → IsToldOf tables.now steps.now wanted.now fault.new }
    ensures number { result ≡ fault.new.number }
    ensures kept { 0 < result → made.new ≡ made.old }
{
    match run_tables(alloc, tables, steps, wanted) {
        Ok(written) => {
            *made = CodraskTables { tables: written };
            *fault = CodraskRunFault::none();
            0
        }
        Err(error) => {
            let refusal = told_of_run(error);
            *fault = refusal;
            refusal.number
        }
    }
}
