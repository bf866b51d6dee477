// What lists of one size have beside their children, and the test of these.

ghost use Rattle.std.specs.Prelude.{◌≡◌, ◌*◌, Some, IfOk};
ghost use Rattle.vx_base.specs.Refusals.{Gives, Tests};
ghost use Rattle.vx_tree.specs.Formed.{WellFormed};
ghost use Rattle.vx_tree.specs.Parts.{valid_of};
ghost use Rattle.vx_tree.specs.Tree.{fixed_list};
ghost use Rattle.vx_lists.specs.FixedSizeLists.{degenerate_len, degenerate_len_of, degenerate_text};
ghost use Rattle.vx_lists.specs.FixedSizeLists.{element_count_fault, fixed_list_fault};

use crate::fixed_size_list::array::FixedSizeListArray;
use std::alloc::Global;
use std::fmt;
use std::marker::Model;
use vx_base::VortexError;
use vx_tree::{ArrayRef, Validity};

/// What lists of one size have beside their children: how many they are, where they are of size 0
/// and so their elements do not tell it, else 0.
#[derive(Clone, Debug, Drop)]
pub struct FixedSizeListData {
    degenerate_len: usize,
}

impl Model for FixedSizeListData {
    ghost use Rattle.std.specs.Prelude.{ℕ};

    ghost Value = { ℕ };

    ghost view = { λ d. d.degenerate_len };
}

impl FixedSizeListData {
    /// The data of lists of these parts. Asks what `FixedSizeListArray::try_new` tests.
    pub fn build(
        _elements: ArrayRef,
        list_size: u32,
        _validity: Validity,
        len: usize,
    ) -> FixedSizeListData
        requires { WellFormed (fixed_list _elements list_size (valid_of _validity) len) }
        ensures { result ≡ degenerate_len list_size len }
    {
        FixedSizeListData::of_lists(list_size, len)
    }

    // The data of so many lists of this size.
    fn of_lists(list_size: u32, len: usize) -> FixedSizeListData
        ensures { result ≡ degenerate_len list_size len }
    {
        FixedSizeListData {
            degenerate_len: if list_size == 0 { len } else { 0 },
        }
    }

    /// Whether `FixedSizeListArray::try_new` takes these parts, and so `new` and `build`: it
    /// refuses as `try_new` does, and takes no memory.
    pub fn validate(
        elements: &ArrayRef,
        len: usize,
        list_size: u32,
        validity: &Validity,
    ) -> Result<(), VortexError>
        ensures formed { IfOk result (λ _.
            WellFormed (fixed_list elements.now list_size (valid_of validity.now) len)) }
        ensures tests { Tests result
            (fixed_list_fault elements.now list_size (valid_of validity.now) len) }
    {
        validity.check(len)?;
        check_element_count(elements.len(), list_size, len)
    }
}

impl fmt::Display for FixedSizeListData {
    ghost output = { λ d. Some (degenerate_text d) };

    fn fmt<W: fmt::Write>(&self, f: &mut fmt::Formatter<W>) -> fmt::Result {
        let len = self.degenerate_len;
        write!(f, "degenerate_len: {len}")
    }
}

impl FixedSizeListArray {
    /// What the array has beside its children. Fails only for want of memory.
    pub fn to_data(&self, _alloc: Global) -> Result<FixedSizeListData, VortexError>
        ensures { Gives result (λ d. d ≡ degenerate_len_of self.now) }
    {
        let parts = self.parts();
        Ok(FixedSizeListData::of_lists(parts.list_size, parts.len))
    }
}

// Refuses so many elements where they are not those of `len` lists of this size.
fn check_element_count(found: usize, list_size: u32, len: usize) -> Result<(), VortexError>
    ensures count { IfOk result (λ _. found ≡ len * list_size) }
    ensures tests { Tests result (element_count_fault found list_size len) }
{
    if list_size == 0 {
        return match found {
            0 => Ok(()),
            _ => Err(VortexError::DegenerateElements),
        };
    }
    let Some(expected) = len.checked_mul(list_size as usize) else {
        return Err(VortexError::Overflow);
    };
    if found != expected {
        return Err(VortexError::LengthMismatch { expected, found });
    }
    Ok(())
}
