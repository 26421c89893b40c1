// Lists as fields of public types: a contract sees the list alone, and not where it lies in memory.
ghost use Rattle.std.specs.Prelude.{◌≡◌, ◌∷◌, ◌++◌, [], List, IfOk, OnErr, OnOk, length};
ghost use Rattle.std.specs.Borrow.{sem};
ghost use Rattle.sp_base.specs.Lending.{lends_values};

use crate::{Memory, push};
use std::alloc::Global;
use std::marker::Model;

/// A list of values in their order.
#[derive(Debug, Drop)]
pub struct Listed<T> {
    items: Vec<T>,
}

/// A string of bytes.
pub type Bytes = Listed<u8>;

impl<T> Model for Listed<T> {
    ghost use Rattle.std.specs.Prelude.{List};

    ghost Value = { List T };

    ghost view = { λ l. l.items.items };
}

impl<T> Listed<T> {
    /// The values of a vector. It takes no memory.
    pub fn from_vec(items: Vec<T>) -> Self
        ensures { result ≡ items.items }
    {
        Listed { items }
    }

    /// The vector of these values. It takes no memory.
    pub fn into_vec(self) -> Vec<T>
        ensures { result.items ≡ self }
    {
        let Listed { items } = self;
        items
    }

    pub fn as_slice(&self) -> &[T]
        ensures { result.now ≡ self.now }
    {
        self.items.as_slice()
    }

    /// The values, to be changed where they stand: their number stays.
    pub fn as_mut_slice(&mut self) -> &mut [T]
        ensures* writes_back { sem 𝓛 (lends_values T.row self.entry result) }
        ensures value { result.now ≡ self.old }
    {
        self.items.as_mut_slice()
    }
}

impl<T: Drop> Listed<T> {
    /// Appends a value. Where no memory is left, the values are as before.
    pub fn push(&mut self, value: T) -> Result<(), Memory>
        ensures pushed { OnOk result (self.new ≡ self.old ++ value ∷ []) }
        ensures as_before { OnErr result (self.new ≡ self.old) }
    {
        push(&mut self.items, value)
    }
}

impl Listed<u8> {
    /// A copy of the bytes.
    pub fn copy(alloc: Global, bytes: &[u8]) -> Result<Bytes, Memory>
        ensures { IfOk result (λ copied. copied ≡ bytes.now) }
    {
        Ok(Listed {
            items: Vec::from_slice(alloc, bytes)?,
        })
    }
}
