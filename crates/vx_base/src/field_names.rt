// The names of the fields of a record.

ghost use Rattle.std.specs.Prelude.{◌≡◌, ◌<◌, length, bytes_eq, map, slice_get, ◌++◌, Some};
ghost use Rattle.std.specs.List.{remove};
ghost use Rattle.vx_base.specs.Fields.{place_of_name};
ghost use Rattle.vx_base.specs.Refusals.{Gives};
ghost use Rattle.std.specs.Cmp.{partial_equiv_from_equiv};
ghost use Rattle.vx_base.specs.SameKind.{name_equiv};

use crate::buffer::Buffer;
use crate::errors::VortexError;
use std::alloc::Global;
use std::marker::Model;
use std::rc::RcStr;

/// The name of a field: a text.
#[derive(Drop)]
pub struct FieldName {
    text: RcStr,
}

impl Model for FieldName {
    ghost use Rattle.std.specs.Prelude.{ℕ, List};
    ghost use Rattle.std.specs.Rc.{rc_str_bytes};

    ghost Value = { List ℕ };

    ghost view = { λ n. rc_str_bytes n.text };
}

impl FieldName {
    /// A name with a copy of this text. Fails only for want of memory.
    pub fn try_new(alloc: Global, text: &str) -> Result<FieldName, VortexError>
        ensures { Gives result (λ n. n ≡ text.now) }
    {
        let text = RcStr::from_str(alloc, text)?;
        Ok(FieldName { text })
    }

    /// The text, to be read.
    pub fn as_str(&self) -> &str
        ensures { result.now ≡ self.now }
    {
        self.text.as_str()
    }

    /// The same name, its text shared. Fails only for want of memory.
    pub fn try_clone(&self, _alloc: Global) -> Result<FieldName, VortexError>
        ensures { Gives result (λ n. n ≡ self.now) }
    {
        let text = self.text.clone()?;
        Ok(FieldName { text })
    }
}

impl PartialEq for FieldName {
    ghost eq = { bytes_eq };

    ghost laws = { partial_equiv_from_equiv name_equiv };

    fn eq(&self, other: &FieldName) -> bool {
        self.as_str() == other.as_str()
    }
}

/// The names of the fields of a record, in order. A name may stand more than once.
#[derive(Drop)]
pub struct FieldNames {
    names: Buffer<FieldName>,
}

impl Model for FieldNames {
    ghost use Rattle.std.specs.Prelude.{ℕ, List};

    ghost Value = { List (List ℕ) };

    ghost view = { λ n. n.names };
}

impl FieldNames {
    /// Names with copies of these texts, in order. Fails only for want of memory.
    pub fn try_new(alloc: Global, texts: &[&str]) -> Result<FieldNames, VortexError>
        ensures { Gives result (λ n. n ≡ map (λ text. text.now) texts.now) }
    {
        let mut names = Vec::with_capacity(alloc, texts.len())?;
        for text in texts {
            names.push(FieldName::try_new(alloc, text)?)?;
        }
        FieldNames::from_names(alloc, names)
    }

    /// These names, in order; no text is copied. The names a and b of a record, each shared by
    /// `try_clone`, and a new name c make the names a, b and c. Fails only for want of memory.
    pub fn from_names(alloc: Global, names: Vec<FieldName>) -> Result<FieldNames, VortexError>
        ensures { Gives result (λ n. n ≡ names.items) }
    {
        let names = Buffer::from_vec(alloc, names)?;
        Ok(FieldNames { names })
    }

    /// How many names there are.
    pub fn len(&self) -> usize
        ensures { result ≡ length self.now }
    {
        self.names.len()
    }

    /// The name of field `i`, counted from 0. Asks that there is one.
    pub fn get(&self, i: usize) -> &FieldName
        requires { i < length self.now }
        ensures { slice_get self.now i ≡ Some result.now }
    {
        &self.names.as_slice()[i]
    }

    /// The place of the first of the names that is this one, if one is.
    pub fn find(&self, name: &str) -> Option<usize>
        ensures { result ≡ place_of_name self.now name.now }
    {
        for (i, other) in self.as_slice().iter().enumerate() {
            if other.as_str() == name {
                return Some(i);
            }
        }
        None
    }

    /// The names without name `i`, counted from 0, each of the others shared. Asks that there is
    /// one. The names a, b and a without name 0 are b and a. Fails only for want of memory.
    pub fn without(&self, alloc: Global, i: usize) -> Result<FieldNames, VortexError>
        requires { i < length self.now }
        ensures { Gives result (λ n. n ≡ remove self.now i) }
    {
        let mut rest = Vec::with_capacity(alloc, self.len())?;
        share_names(alloc, &self.as_slice()[..i], &mut rest)?;
        share_names(alloc, &self.as_slice()[i + 1..], &mut rest)?;
        FieldNames::from_names(alloc, rest)
    }

    // The names, to be read.
    pub(crate) fn as_slice(&self) -> &[FieldName]
        ensures { result.now ≡ self.now }
    {
        self.names.as_slice()
    }

    /// The same names, shared. Fails only for want of memory.
    pub fn try_clone(&self, alloc: Global) -> Result<FieldNames, VortexError>
        ensures { Gives result (λ n. n ≡ self.now) }
    {
        let names = self.names.try_clone(alloc)?;
        Ok(FieldNames { names })
    }
}

// Adds these names at the end, shared.
fn share_names(
    alloc: Global,
    names: &[FieldName],
    out: &mut Vec<FieldName>,
) -> Result<(), VortexError>
    ensures { Gives result (λ _. out.new.items ≡ out.old.items ++ names.now) }
{
    for name in names {
        out.push(name.try_clone(alloc)?)?;
    }
    Ok(())
}
