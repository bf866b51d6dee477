// What the rows of an array are.

ghost use Rattle.std.specs.Prelude.{◌≡◌, ◌↔◌, true, IsTrue};
ghost use Rattle.vx_base.specs.Refusals.{Gives};
ghost use Rattle.vx_base.specs.Kinds.{is_nullable_kind, or_nullable, with_nullable, is_integers, is_plain_booleans, is_plain_integers};
ghost use Rattle.vx_base.specs.Kinds.{is_records, integer_type, Kind, booleans, texts, binaries, records};
ghost use Rattle.vx_base.specs.SameKind.{kind_eq, kinds_eq};
ghost use Rattle.vx_base.specs.SameDType.{dtype_eq, dtype_equiv};
ghost use Rattle.std.specs.Cmp.{partial_equiv_from_equiv};
ghost use Rattle.vx_base.specs.DTypes.{dtype_meaning, field_names, field_kinds, kinds_of, is_nullable};

use crate::errors::VortexError;
use crate::nullability::Nullability;
use crate::ptypes::PType;
use crate::struct_fields::StructFields;
use std::alloc::Global;
use std::rc::Rc;

/// The data type of an array: the kind of its rows, and whether null may stand among them.
#[cycle(dtype)]
#[derive(Drop)]
pub enum DType {
    /// Truth values.
    Bool(Nullability),
    /// Whole numbers of a type.
    Primitive(PType, Nullability),
    /// Texts in UTF-8.
    Utf8(Nullability),
    /// Byte lists.
    Binary(Nullability),
    /// Lists of rows of a data type.
    List(Rc<DType>, Nullability),
    /// Lists of a fixed number of rows of a data type.
    FixedSizeList(Rc<DType>, u32, Nullability),
    /// Records of these fields.
    Struct(StructFields, Nullability),
}

impl DType {
    /// Whether null may stand among the rows.
    pub fn nullability(&self) -> Nullability
        ensures { is_nullable result ≡ is_nullable_kind (dtype_meaning self.now) }
    {
        match self {
            DType::Bool(nullability) => *nullability,
            DType::Primitive(_, nullability) => *nullability,
            DType::Utf8(nullability) => *nullability,
            DType::Binary(nullability) => *nullability,
            DType::List(_, nullability) => *nullability,
            DType::FixedSizeList(_, _, nullability) => *nullability,
            DType::Struct(_, nullability) => *nullability,
        }
    }

    /// Whether null may stand among the rows, as a truth value.
    pub fn is_nullable(&self) -> bool
        ensures { result ≡ is_nullable_kind (dtype_meaning self.now) }
    {
        match self.nullability() {
            Nullability::NonNullable => false,
            Nullability::Nullable => true,
        }
    }

    /// Whether the rows are whole numbers.
    pub fn is_int(&self) -> bool
        ensures { result ≡ is_integers (dtype_meaning self.now) }
    {
        match self {
            DType::Primitive(_, _) => true,
            DType::Bool(_) | DType::Utf8(_) | DType::Binary(_) => false,
            DType::List(_, _) | DType::FixedSizeList(_, _, _) | DType::Struct(_, _) => false,
        }
    }

    /// Whether the rows are truth values and none may be null: the data type of a validity array.
    pub fn is_plain_bool(&self) -> bool
        ensures { result ≡ is_plain_booleans (dtype_meaning self.now) }
    {
        match self {
            DType::Bool(nullability) => matches!(nullability, Nullability::NonNullable),
            DType::Primitive(_, _) | DType::Utf8(_) | DType::Binary(_) => false,
            DType::List(_, _) | DType::FixedSizeList(_, _, _) | DType::Struct(_, _) => false,
        }
    }

    /// Whether the rows are whole numbers and none may be null: the data type of offsets.
    pub fn is_plain_int(&self) -> bool
        ensures { result ≡ is_plain_integers (dtype_meaning self.now) }
    {
        match self {
            DType::Primitive(_, nullability) => matches!(nullability, Nullability::NonNullable),
            DType::Bool(_) | DType::Utf8(_) | DType::Binary(_) => false,
            DType::List(_, _) | DType::FixedSizeList(_, _, _) | DType::Struct(_, _) => false,
        }
    }

    /// The data type of records of these fields.
    pub fn new_struct(fields: StructFields, nullability: Nullability) -> DType
        ensures { dtype_meaning result ≡ records (field_names fields) (field_kinds fields) (is_nullable nullability) }
    {
        DType::Struct(fields, nullability)
    }

    /// The fields of the rows. Asks that they are records.
    pub fn as_struct_fields(&self) -> &StructFields
        requires { is_records (dtype_meaning self.now) ≡ true }
        ensures { dtype_meaning self.now ≡ records (field_names result.now) (field_kinds result.now)
            (is_nullable_kind (dtype_meaning self.now)) }
    {
        match self {
            DType::Struct(fields, _) => fields,
            DType::Bool(_) | DType::Primitive(_, _) | DType::Utf8(_) => unreachable!(),
            DType::Binary(_) | DType::List(_, _) => unreachable!(),
            DType::FixedSizeList(_, _, _) => unreachable!(),
        }
    }

    /// The integer type of the rows. Asks that they are whole numbers.
    pub fn as_ptype(&self) -> PType
        requires { is_integers (dtype_meaning self.now) ≡ true }
        ensures { result ≡ integer_type (dtype_meaning self.now) }
    {
        match self {
            DType::Primitive(ptype, _) => *ptype,
            DType::Bool(_) | DType::Utf8(_) | DType::Binary(_) => unreachable!(),
            DType::List(_, _) | DType::FixedSizeList(_, _, _) => unreachable!(),
            DType::Struct(_, _) => unreachable!(),
        }
    }

    /// The same data type under this nullability.
    pub fn with_nullability(self, nullability: Nullability) -> DType
        ensures { dtype_meaning result ≡ with_nullable (is_nullable nullability) (dtype_meaning self) }
    {
        match self {
            DType::Bool(_) => DType::Bool(nullability),
            DType::Primitive(ptype, _) => DType::Primitive(ptype, nullability),
            DType::Utf8(_) => DType::Utf8(nullability),
            DType::Binary(_) => DType::Binary(nullability),
            DType::List(items, _) => DType::List(items, nullability),
            DType::FixedSizeList(items, size, _) => DType::FixedSizeList(items, size, nullability),
            DType::Struct(fields, _) => DType::Struct(fields, nullability),
        }
    }

    /// The same data type, nullable where it was or where `nullability` is.
    pub fn union_nullability(self, nullability: Nullability) -> DType
        ensures { dtype_meaning result ≡ or_nullable (is_nullable nullability) (dtype_meaning self) }
    {
        match self {
            DType::Bool(own) => DType::Bool(nullability.union(own)),
            DType::Primitive(ptype, own) => DType::Primitive(ptype, nullability.union(own)),
            DType::Utf8(own) => DType::Utf8(nullability.union(own)),
            DType::Binary(own) => DType::Binary(nullability.union(own)),
            DType::List(items, own) => DType::List(items, nullability.union(own)),
            DType::FixedSizeList(items, size, own) => {
                DType::FixedSizeList(items, size, nullability.union(own))
            }
            DType::Struct(fields, own) => DType::Struct(fields, nullability.union(own)),
        }
    }

    /// The same data type, its parts shared.
    pub fn try_clone(&self, alloc: Global) -> Result<DType, VortexError>
        ensures { Gives result (λ d. dtype_meaning d ≡ dtype_meaning self.now) }
    {
        match self {
            DType::Bool(nullability) => Ok(DType::Bool(*nullability)),
            DType::Primitive(ptype, nullability) => Ok(DType::Primitive(*ptype, *nullability)),
            DType::Utf8(nullability) => Ok(DType::Utf8(*nullability)),
            DType::Binary(nullability) => Ok(DType::Binary(*nullability)),
            DType::List(items, nullability) => Ok(DType::List(items.clone()?, *nullability)),
            DType::FixedSizeList(items, size, nullability) => {
                Ok(DType::FixedSizeList(items.clone()?, *size, *nullability))
            }
            DType::Struct(fields, nullability) => {
                Ok(DType::Struct(fields.try_clone(alloc)?, *nullability))
            }
        }
    }

    // Whether the rows are truth values, of this nullability.
    fn is_bool(&self, own: Nullability) -> bool
        ensures { result ≡ kind_eq (booleans (is_nullable own)) (dtype_meaning self.now) }
    {
        match self {
            DType::Bool(nullability) => own == *nullability,
            DType::Primitive(_, _) | DType::Utf8(_) | DType::Binary(_) => false,
            DType::List(_, _) | DType::FixedSizeList(_, _, _) | DType::Struct(_, _) => false,
        }
    }

    // Whether the rows are texts, of this nullability.
    fn is_utf8(&self, own: Nullability) -> bool
        ensures { result ≡ kind_eq (texts (is_nullable own)) (dtype_meaning self.now) }
    {
        match self {
            DType::Utf8(nullability) => own == *nullability,
            DType::Bool(_) | DType::Primitive(_, _) | DType::Binary(_) => false,
            DType::List(_, _) | DType::FixedSizeList(_, _, _) | DType::Struct(_, _) => false,
        }
    }

    // Whether the rows are byte lists, of this nullability.
    fn is_binary(&self, own: Nullability) -> bool
        ensures { result ≡ kind_eq (binaries (is_nullable own)) (dtype_meaning self.now) }
    {
        match self {
            DType::Binary(nullability) => own == *nullability,
            DType::Bool(_) | DType::Primitive(_, _) | DType::Utf8(_) => false,
            DType::List(_, _) | DType::FixedSizeList(_, _, _) | DType::Struct(_, _) => false,
        }
    }

    // Whether both say the same.
    #[tactic(auto, using(crate::proofs::ValueFits::struct_depth))]
    #[cycle(same_dtype)]
    fn same(&self, other: &DType) -> bool
        ensures { result ≡ kind_eq (dtype_meaning self.now) (dtype_meaning other.now) }
    {
        match self {
            DType::Bool(own) => other.is_bool(*own),
            DType::Utf8(own) => other.is_utf8(*own),
            DType::Binary(own) => other.is_binary(*own),
            DType::Primitive(ptype, own) => match other {
                DType::Primitive(other_ptype, nullability) => {
                    own == nullability && ptype == other_ptype
                }
                DType::Bool(_) | DType::Utf8(_) | DType::Binary(_) => false,
                DType::List(_, _) | DType::FixedSizeList(_, _, _) | DType::Struct(_, _) => false,
            },
            DType::List(items, own) => match other {
                DType::List(other_items, nullability) => {
                    own == nullability && items.same(other_items)
                }
                DType::Bool(_) | DType::Primitive(_, _) | DType::Utf8(_) => false,
                DType::Binary(_) | DType::FixedSizeList(_, _, _) | DType::Struct(_, _) => false,
            },
            DType::FixedSizeList(items, size, own) => match other {
                DType::FixedSizeList(other_items, other_size, nullability) => {
                    own == nullability && size == other_size && items.same(other_items)
                }
                DType::Bool(_) | DType::Primitive(_, _) | DType::Utf8(_) => false,
                DType::Binary(_) | DType::List(_, _) | DType::Struct(_, _) => false,
            },
            DType::Struct(fields, own) => match other {
                DType::Struct(other_fields, nullability) => {
                    own == nullability && fields.same(other_fields)
                }
                DType::Bool(_) | DType::Primitive(_, _) | DType::Utf8(_) => false,
                DType::Binary(_) | DType::List(_, _) | DType::FixedSizeList(_, _, _) => false,
            },
        }
    }
}

// Whether the data types are the same, one by one.
#[tactic(auto, using(crate::proofs::ValueFits::field_depth))]
#[cycle(same_dtype)]
pub(crate) fn same_dtypes(dtypes: &[DType], others: &[DType]) -> bool
    ensures { result ≡ kinds_eq (kinds_of dtypes.now) (kinds_of others.now) }
{
    if dtypes.len() != others.len() {
        return false;
    }
    for i in 0..dtypes.len() {
        if !dtypes[i].same(&others[i]) {
            return false;
        }
    }
    true
}

impl PartialEq for DType {
    ghost eq = { dtype_eq };

    ghost laws = { partial_equiv_from_equiv dtype_equiv };

    fn eq(&self, other: &DType) -> bool {
        self.same(other)
    }
}

impl Eq for DType {
    ghost laws = { dtype_equiv };
}

/// Two data types are equal exactly where they say the same kind of rows. It does nothing.
pub fn equal_where_same_kind()
    ensures { (a b : Kind) → IsTrue (kind_eq a b) ↔ (a ≡ b) }
{}
