//! A `Vec` whose value is the list of its elements. This project's own rule.

ghost use Rattle.std.specs.Prelude.{◌≡◌, ◌<◌, length, slice_set, slice_get, Some};

use std::marker::Model;
use std::mem;

/// A `Vec` that contracts see as the list of its elements, without capacity or address in memory.
#[derive(Debug, Drop)]
pub struct Listed<T> {
    items: Vec<T>,
}

impl<T> Model for Listed<T> {
    ghost use Rattle.std.specs.Prelude.{List};
    ghost use Rattle.std.specs.Coded.{coded_list};

    ghost Value = { List T };

    ghost coded = { coded_list T.code };

    ghost view = { λ it. it.items.items };
}

impl<T> Listed<T> {
    /// The list of the elements of `items`. It takes no memory.
    pub fn from_vec(items: Vec<T>) -> Listed<T>
        ensures { result ≡ items.items }
    {
        Self { items }
    }

    /// The elements, in order.
    pub fn items(&self) -> &[T]
        ensures { result.now ≡ self.now }
    {
        self.items.as_slice()
    }

    /// Replaces the element at `index`, which must be there, and returns the old one. It takes no memory.
    pub fn replace(&mut self, index: usize, item: T) -> T
        requires { index < length self.old }
        ensures list { self.new ≡ slice_set self.old index item }
        ensures old { Some result ≡ slice_get self.old index }
    {
        mem::replace(&mut self.items[index], item)
    }

    /// The elements as a `Vec` again. It takes no memory.
    pub fn into_vec(self) -> Vec<T>
        ensures { result.items ≡ self }
    {
        let Listed { items } = self;
        items
    }
}

/// Element by element. So a type that holds itself through a `Listed` may derive its comparison.
impl<T: PartialEq> PartialEq for Listed<T> {
    ghost use Rattle.std.specs.Cmp.Lexicographic.{pointwise, lists_per};

    ghost eq = { pointwise T.eq };

    ghost laws = { lists_per T.laws };

    fn eq(&self, other: &Listed<T>) -> bool {
        self.items() == other.items()
    }
}

impl<T: Eq> Eq for Listed<T> {
    ghost use Rattle.std.specs.Cmp.Lexicographic.{lists_equiv};

    ghost laws = { lists_equiv T.Eq.laws };
}
