// What a dictionary has beside its codes and values, and what is written of it.

ghost use Rattle.std.specs.Prelude.{◌≡◌, Some, true, false};
ghost use Rattle.vx_base.specs.DTypes.{dtype_meaning};
ghost use Rattle.vx_base.specs.Kinds.{is_integers};
ghost use Rattle.vx_leaves.specs.Dictionaries.{data_text};

use std::fmt;
use std::marker::Model;
use vx_base::{DType, PType};

/// What a dictionary has beside its codes and values: whether it is known that every value is
/// referenced.
#[derive(Clone, Debug, Drop)]
pub struct DictData {
    all_values_referenced: bool,
}

impl Model for DictData {
    ghost use Rattle.std.specs.Prelude.{Bool};

    ghost Value = { Bool };

    ghost view = { λ d. d.all_values_referenced };
}

impl DictData {
    /// The data of a new dictionary with codes of this data type: of no value it is known that it
    /// is referenced. Asks integers.
    pub fn new(_codes: &DType) -> DictData
        requires { is_integers (dtype_meaning _codes.now) ≡ true }
        ensures { result ≡ false }
    {
        DictData::with_flag(false)
    }

    // The data of a dictionary with this flag.
    pub(crate) fn with_flag(all_values_referenced: bool) -> DictData
        ensures { result ≡ all_values_referenced }
    {
        DictData {
            all_values_referenced,
        }
    }
}

impl fmt::Display for DictData {
    ghost output = { λ d. Some (data_text d) };

    fn fmt<W: fmt::Write>(&self, f: &mut fmt::Formatter<W>) -> fmt::Result {
        f.write_str(if self.all_values_referenced {
            "all_values_referenced: true"
        } else {
            "all_values_referenced: false"
        })
    }
}

/// What is written of a dictionary beside its codes and values.
#[derive(Clone, Drop)]
pub struct DictMetadata {
    /// How many values there are.
    pub values_len: u32,
    /// The type of the codes.
    pub codes_ptype: PType,
    /// Whether null may stand among the codes, where it was written.
    pub is_nullable_codes: Option<bool>,
    /// Whether it is known that every value is referenced, where it was written.
    pub all_values_referenced: Option<bool>,
}
