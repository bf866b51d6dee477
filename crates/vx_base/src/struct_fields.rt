// The fields of a record: their names and data types.

ghost use Rattle.std.specs.Prelude.{◌≡◌, ◌<◌, ◌&&◌, ◌+◌, ◌++◌, length, map, take, drop, bytes_eq, IfOk};
ghost use Rattle.std.specs.List.{remove};
ghost use Rattle.vx_base.specs.Fields.{place_of_name, kind_count, kinds_without};
ghost use Rattle.vx_base.specs.Refusals.{Gives};
ghost use Rattle.vx_base.specs.DTypes.{dtype_meaning, field_names, field_kinds, kinds_of};
ghost use Rattle.std.specs.Cmp.Lexicographic.{pointwise};
ghost use Rattle.vx_base.specs.SameKind.{kinds_eq};

use crate::dtypes::{DType, same_dtypes};
use crate::errors::VortexError;
use crate::field_names::FieldNames;
use crate::named::Named;
use std::alloc::Global;
use std::rc::Rc;

/// The fields of a record, in order: their names and data types.
#[cycle(dtype)]
#[derive(Drop)]
pub struct StructFields {
    named: Named<DType>,
}

impl StructFields {
    /// Fields of these names and data types, in order. Asks that there are as many of both.
    pub fn new(names: FieldNames, dtypes: Rc<Vec<DType>>) -> StructFields
        requires { length names ≡ length dtypes.value.items }
        ensures names { field_names result ≡ names }
        ensures kinds { field_kinds result ≡ kinds_of dtypes.value.items }
    {
        StructFields {
            named: Named::new(names, dtypes),
        }
    }

    /// The names, in order.
    pub fn names(&self) -> &FieldNames
        ensures { result.now ≡ field_names self.now }
    {
        self.named.names()
    }

    /// The data types, in order, as many as names.
    pub fn fields(&self) -> &[DType]
        ensures kinds { kinds_of result.now ≡ field_kinds self.now }
        ensures count { length result.now ≡ length (field_names self.now) }
    {
        self.named.items()
    }

    /// The place of the first field of this name, if there is one.
    pub fn find(&self, name: &str) -> Option<usize>
        ensures { result ≡ place_of_name (field_names self.now) name.now }
    {
        self.names().find(name)
    }

    /// The fields without field `i`, counted from 0, shared. Asks that there is one. Fails only for
    /// want of memory.
    #[tactic(auto, using(crate::proofs::Fields::kind_count_of))]
    pub fn without_field(&self, alloc: Global, i: usize) -> Result<StructFields, VortexError>
        requires { i < length (field_names self.now) }
        ensures names { Gives result (λ f. field_names f ≡ remove (field_names self.now) i) }
        ensures kinds { IfOk result (λ f. field_kinds f ≡ kinds_without i (field_kinds self.now)) }
    {
        let names = self.names().without(alloc, i)?;
        let rest = dtypes_without(alloc, self.fields(), i)?;
        let dtypes = Rc::new(alloc, rest)?;
        Ok(StructFields::new(names, dtypes))
    }

    // Whether both have the same names and data types.
    #[cycle(same_dtype)]
    pub(crate) fn same(&self, other: &StructFields) -> bool
        ensures { result ≡ (pointwise bytes_eq (field_names self.now) (field_names other.now)
            && kinds_eq (field_kinds self.now) (field_kinds other.now)) }
    {
        self.names().as_slice() == other.names().as_slice()
            && same_dtypes(self.fields(), other.fields())
    }

    /// The same fields, shared. Fails only for want of memory.
    pub fn try_clone(&self, alloc: Global) -> Result<StructFields, VortexError>
        ensures names { Gives result (λ f. field_names f ≡ field_names self.now) }
        ensures kinds { IfOk result (λ f. field_kinds f ≡ field_kinds self.now) }
    {
        Ok(StructFields {
            named: self.named.try_clone(alloc)?,
        })
    }
}

// The data types without data type `i`, shared.
fn dtypes_without(alloc: Global, dtypes: &[DType], i: usize) -> Result<Vec<DType>, VortexError>
    requires { i < length dtypes.now }
    ensures { Gives result (λ ds. map dtype_meaning ds.items
        ≡ map dtype_meaning (take i dtypes.now) ++ map dtype_meaning (drop (i + 1) dtypes.now)) }
{
    let mut rest = Vec::with_capacity(alloc, dtypes.len())?;
    share_dtypes(alloc, &dtypes[..i], &mut rest)?;
    share_dtypes(alloc, &dtypes[i + 1..], &mut rest)?;
    Ok(rest)
}

// Adds these data types at the end, shared.
fn share_dtypes(alloc: Global, dtypes: &[DType], out: &mut Vec<DType>) -> Result<(), VortexError>
    ensures { Gives result (λ _. map dtype_meaning out.new.items ≡ map dtype_meaning out.old.items ++ map dtype_meaning dtypes.now) }
{
    for dtype in dtypes {
        out.push(dtype.try_clone(alloc)?)?;
    }
    Ok(())
}
