// The columns of records, one after another.

ghost use Rattle.std.specs.Prelude.{◌≡◌, List, length, Some, IfSome};
ghost use Rattle.std.specs.Iterator.{at_most, UpTo, YieldsFirstRef};
ghost use Rattle.std.specs.Iterator.SizeHint.{IsWithinCount};
ghost use Rattle.vx_tree.specs.Tree.{Tree};

use std::marker::Model;
use vx_tree::ArrayRef;

/// The columns of records that are still to come, in order. How many they are is known.
#[derive(Drop)]
pub struct UnmaskedFields<'a> {
    rest: &'a [ArrayRef],
}

impl<'a> Model for UnmaskedFields<'a> {
    ghost use Rattle.std.specs.Prelude.{List};
    ghost use Rattle.std.specs.Coded.{coded_list};
    ghost use Rattle.vx_tree.specs.Tree.{Tree, tree_code};

    ghost Value = { List Tree };

    ghost coded = { coded_list tree_code };

    ghost view = { λ fields. fields.rest.now };
}

impl<'a> UnmaskedFields<'a> {
    // All of these columns.
    pub(crate) fn new(columns: &'a [ArrayRef]) -> UnmaskedFields<'a>
        ensures { result ≡ columns.now }
    {
        UnmaskedFields { rest: columns }
    }
}

impl<'a> Iterator for UnmaskedFields<'a> {
    type Item = &'a ArrayRef;

    ghost next_gives = { YieldsFirstRef (λ (columns : List Tree). columns) };

    ghost remaining = { λ columns. at_most (length columns) };

    fn next(&mut self) -> Option<&'a ArrayRef> {
        let (first, rest) = self.rest.split_first()?;
        self.rest = rest;
        Some(first)
    }

    fn size_hint(&self) -> (usize, Option<usize>)
        ensures lower { IsWithinCount result.0 (at_most (length self.now)) }
        ensures upper { IfSome result.1 (UpTo (at_most (length self.now))) }
        ensures exact { (result.0 ≡ length self.now) × (result.1 ≡ Some (length self.now)) }
    {
        let len = self.len();
        (len, Some(len))
    }
}

impl<'a> ExactSizeIterator for UnmaskedFields<'a> {
    fn len(&self) -> usize {
        self.rest.len()
    }
}
