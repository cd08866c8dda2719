//! A list in one place of memory that several values have. This project's own rule.
ghost use Rattle.std.specs.Prelude.{◌≡◌, IfOk};

use std::alloc::{AllocError, Global};
use std::marker::Model;
use std::rc::Rc;

/// A list that several values have without copies. Contracts see it as the list of its elements.
#[derive(Drop)]
pub struct SharedList<T> {
    items: Rc<Vec<T>>,
}

impl<T> Model for SharedList<T> {
    ghost use Rattle.std.specs.Prelude.{List};
    ghost use Rattle.std.specs.Coded.{coded_list};

    ghost Value = { List T };

    ghost coded = { coded_list T.code };

    ghost view = { λ it. it.items.value.items };
}

impl<T: Drop> SharedList<T> {
    /// The list of the elements of `items`. An `Err` is out of memory.
    pub fn from_vec(alloc: Global, items: Vec<T>) -> Result<SharedList<T>, AllocError>
        ensures { IfOk result (λ list. list ≡ items.items) }
    {
        match Rc::new(alloc, items) {
            Ok(items) => Ok(SharedList { items }),
            Err(_) => Err(AllocError),
        }
    }

    /// The same list, for another value. It takes no memory; an `Err` is 2^64-1 of them.
    pub fn share(&self) -> Result<SharedList<T>, AllocError>
        ensures { IfOk result (λ list. list ≡ self.now) }
    {
        let items = self.items.clone()?;
        Ok(SharedList { items })
    }
}

impl<T> SharedList<T> {
    /// The elements, in order.
    pub fn items(&self) -> &[T]
        ensures { result.now ≡ self.now }
    {
        self.items.as_ref().as_slice()
    }
}
