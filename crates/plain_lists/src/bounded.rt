//! Lists of a bounded length.
ghost use Rattle.std.specs.Prelude.{◌≡◌, ◌≤◌, length, vec_len, IfOk};

use std::alloc::AllocError;
use std::marker::Model;

/// A list of at most `MOST` elements. Contracts see it as its list.
#[derive(Debug, Drop)]
pub struct BoundedVec<T, const MOST: usize> {
    items: Vec<T>,
}

impl<T, const MOST: usize> Model for BoundedVec<T, MOST> {
    ghost use Rattle.std.specs.Prelude.{List, ◌≤◌, length};
    ghost use Rattle.std.specs.Coded.{coded_list};

    ghost Value = { List T };

    ghost coded = { coded_list T.code };

    ghost view = { λ b. b.items.items };

    ghost invariant = { λ b. length b.items.items ≤ MOST };
}

impl<T, const MOST: usize> BoundedVec<T, MOST> {
    /// The list of these elements, which must be at most `MOST`. It takes no memory.
    pub fn from_vec(items: Vec<T>) -> BoundedVec<T, MOST>
        requires { vec_len items ≤ MOST }
        ensures { result ≡ items.items }
    {
        BoundedVec { items }
    }

    /// The elements, in order.
    pub fn items(&self) -> &[T]
        ensures same { result.now ≡ self.now }
        ensures few { length self.now ≤ MOST }
    {
        self.items.as_slice()
    }
}

impl<const MOST: usize> BoundedVec<u8, MOST> {
    /// The same bytes.
    pub fn copy(&self) -> Result<BoundedVec<u8, MOST>, AllocError>
        ensures { IfOk result (λ bytes. bytes ≡ self.now) }
    {
        let items = self.items.as_slice().to_vec(*self.items.allocator())?;
        Ok(BoundedVec { items })
    }
}

/// Bytes whose number a compact number of four bytes can say.
pub type LongBytes = BoundedVec<u8, 4_294_967_295>;

/// Element by element.
impl<T: PartialEq, const MOST: usize> PartialEq for BoundedVec<T, MOST> {
    ghost use Rattle.std.specs.Cmp.Lexicographic.{pointwise, lists_per};

    ghost eq = { pointwise T.eq };

    ghost laws = { lists_per T.laws };

    fn eq(&self, other: &BoundedVec<T, MOST>) -> bool {
        self.items() == other.items()
    }
}

impl<T: Eq, const MOST: usize> Eq for BoundedVec<T, MOST> {
    ghost use Rattle.std.specs.Cmp.Lexicographic.{lists_equiv};

    ghost laws = { lists_equiv T.Eq.laws };
}
