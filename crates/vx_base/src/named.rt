// Items with a name each.

ghost use Rattle.std.specs.Prelude.{◌≡◌, length};
ghost use Rattle.std.specs.List.{zip};
ghost use Rattle.vx_base.specs.NamedItems.{names_in, items_in};
ghost use Rattle.vx_base.specs.Refusals.{Gives};

use crate::errors::VortexError;
use crate::field_names::FieldNames;
use std::alloc::Global;
use std::marker::Model;
use std::rc::Rc;

// As many names as items, which are shared.
#[derive(Drop)]
pub(crate) struct Named<T> {
    names: FieldNames,
    items: Rc<Vec<T>>,
}

impl<T> Model for Named<T> {
    ghost use Rattle.std.specs.Prelude.{◌≡◌, ℕ, List, length};
    ghost use Rattle.std.specs.List.{zip};
    ghost use Rattle.std.specs.Coded.{coded_list, coded×, coded_ℕ};

    ghost Value = { List (List ℕ × T) };

    ghost coded = { coded_list (coded× (coded_list coded_ℕ) T.code) };

    ghost view = { λ n. zip n.names n.items.value.items };

    ghost invariant = { λ n. length n.items.value.items ≡ length n.names };
}

impl<T> Named<T> {
    // Each item under the name at its place. Asks that there are as many of both.
    pub(crate) fn new(names: FieldNames, items: Rc<Vec<T>>) -> Named<T>
        requires { length names ≡ length items.value.items }
        ensures { result ≡ zip names items.value.items }
    {
        Named { names, items }
    }

    // The names, in order.
    pub(crate) fn names(&self) -> &FieldNames
        ensures { result.now ≡ names_in self.now }
    {
        &self.names
    }

    // The items, in order.
    pub(crate) fn items(&self) -> &[T]
        ensures { result.now ≡ items_in self.now }
    {
        self.items.as_slice()
    }
}

impl<T: Drop> Named<T> {
    // The same names and items, shared.
    pub(crate) fn try_clone(&self, alloc: Global) -> Result<Named<T>, VortexError>
        ensures { Gives result (λ n. n ≡ self.now) }
    {
        let names = self.names.try_clone(alloc)?;
        let items = self.items.clone()?;
        Ok(Named { names, items })
    }
}
