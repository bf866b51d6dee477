// The scan of a dictionary's codes: which values they name, and how far it had to read.

ghost use Rattle.std.specs.Prelude.{◌≡◌, ◌≢◌, ◌<◌, ◌≤◌, ◌↔◌, ℕ, length, true, IsTrue};
ghost use Rattle.vx_base.specs.Bits.{bool_at};
ghost use Rattle.vx_base.specs.Kinds.{is_integers};
ghost use Rattle.vx_base.specs.Refusals.{Gives};
ghost use Rattle.vx_tree.specs.Formed.{IsCode};
ghost use Rattle.vx_tree.specs.Meaning.{kind_of, row_at, tree_len};
ghost use Rattle.vx_leaves.specs.Dictionaries.{AreNamed};
ghost use Rattle.vx_leaves.specs.Scan.{IsScanEnd, NameAllBefore};
ghost use Rattle.vx_leaves.specs.ValidRows.{TellsNumbers};

use crate::code_marks::{mark_numbers, mark_row};
use crate::valid_rows::ValidRows;
use std::alloc::Global;
use std::ops::Range;
use vx_base::VortexError;
use vx_tree::{ArrayRef, Layout};

// How many codes are read before the scan looks whether it may end.
const BLOCK: usize = 2048;

// How many marks are looked at together.
const STEP: usize = 32;

// Marks the places that codes name. The scan ends after the first block by which each place is
// marked, or after the last code: how many codes it read.
pub(crate) fn scan_codes(
    alloc: Global,
    codes: &ArrayRef,
    referenced: bool,
    out: &mut [bool],
) -> Result<usize, VortexError>
    requires ints { is_integers (kind_of codes.now) ≡ true }
    requires within { (i : ℕ) → i < tree_len codes.now → IsCode (length out.old) (row_at codes.now i) }
    requires none { (j : ℕ) → j < length out.old → bool_at out.old j ≢ referenced }
    ensures marks { Gives result (λ _. AreNamed codes.now (tree_len codes.now) (length out.old) referenced out.new) }
    ensures end { Gives result (IsScanEnd (tree_len codes.now) (NameAllBefore codes.now (length out.old))) }
{
    match codes.layout() {
        Layout::Primitive { validity, .. } => {
            let valid = ValidRows::new(alloc, validity, codes.len())?;
            Ok(scan_blocks(codes, &valid, referenced, out))
        }
        Layout::Constant { .. } => Ok(scan_constant(codes, referenced, out)),
        Layout::Dict { .. } => {
            let any = ValidRows::alike(true, codes.len());
            Ok(scan_blocks(codes, &any, referenced, out))
        }
        _ => unreachable!(),
    }
}

// The scan of codes that are one row, however often, of which the first alone is read.
fn scan_constant(codes: &ArrayRef, referenced: bool, out: &mut [bool]) -> usize
    requires ints { is_integers (kind_of codes.now) ≡ true }
    requires alike { (i : ℕ) → row_at codes.now i ≡ row_at codes.now 0 }
    requires within { (i : ℕ) → i < tree_len codes.now → IsCode (length out.old) (row_at codes.now i) }
    requires none { (j : ℕ) → j < length out.old → bool_at out.old j ≢ referenced }
    ensures marks { AreNamed codes.now (tree_len codes.now) (length out.old) referenced out.new }
    ensures end { IsScanEnd (tree_len codes.now) (NameAllBefore codes.now (length out.old)) result }
{
    if codes.is_empty() {
        return 0;
    }
    mark_row(codes, 0, referenced, out);
    let len = codes.len();
    if len <= BLOCK {
        return len;
    }
    if all_marked(out, &mut 0, referenced) {
        return BLOCK;
    }
    len
}

// The scan of codes by blocks, where it is told which of them are valid, if they are numbers.
fn scan_blocks(codes: &ArrayRef, valid: &ValidRows, referenced: bool, out: &mut [bool]) -> usize
    requires ints { is_integers (kind_of codes.now) ≡ true }
    requires told { TellsNumbers codes.now valid.now }
    requires within { (i : ℕ) → i < tree_len codes.now → IsCode (length out.old) (row_at codes.now i) }
    requires none { (j : ℕ) → j < length out.old → bool_at out.old j ≢ referenced }
    ensures marks { AreNamed codes.now (tree_len codes.now) (length out.old) referenced out.new }
    ensures end { IsScanEnd (tree_len codes.now) (NameAllBefore codes.now (length out.old)) result }
{
    let len = codes.len();
    let mut cursor = 0;
    let mut start = 0;
    while len - start > BLOCK {
        mark_rows(codes, valid, start..start + BLOCK, referenced, out);
        start += BLOCK;
        if all_marked(out, &mut cursor, referenced) {
            return start;
        }
    }
    mark_rows(codes, valid, start..len, referenced, out);
    len
}

// Whether each place is marked. The cursor goes on over places that are, 32 at a time.
fn all_marked(marks: &[bool], cursor: &mut usize, referenced: bool) -> bool
    requires within { cursor.old ≤ length marks.now }
    requires marked { (j : ℕ) → j < cursor.old → bool_at marks.now j ≡ referenced }
    ensures within { cursor.new ≤ length marks.now }
    ensures marked { (j : ℕ) → j < cursor.new → bool_at marks.now j ≡ referenced }
    ensures all { IsTrue result
        ↔ ((j : ℕ) → j < length marks.now → bool_at marks.now j ≡ referenced) }
{
    while *cursor < marks.len() {
        let rest = &marks[*cursor..];
        let step = &rest[..rest.len().min(STEP)];
        if step.contains(&!referenced) {
            return false;
        }
        *cursor += step.len();
    }
    true
}

// Marks the places that the codes of some rows name, where those of the rows before are marked.
fn mark_rows(
    codes: &ArrayRef,
    valid: &ValidRows,
    rows: Range<usize>,
    referenced: bool,
    out: &mut [bool],
)
    requires ints { is_integers (kind_of codes.now) ≡ true }
    requires told { TellsNumbers codes.now valid.now }
    requires within { (i : ℕ) → i < tree_len codes.now → IsCode (length out.old) (row_at codes.now i) }
    requires order { rows.start ≤ rows.end }
    requires here { rows.end ≤ tree_len codes.now }
    requires before { AreNamed codes.now rows.start (length out.old) referenced out.old }
    ensures { AreNamed codes.now rows.end (length out.old) referenced out.new }
{
    if let Layout::Primitive { ptype, bytes, .. } = codes.layout() {
        mark_numbers(*ptype, bytes.as_slice(), valid, rows, referenced, out);
        return;
    }
    for row in rows.start..rows.end {
        mark_row(codes, row, referenced, out);
    }
}
