// Elements that several lists have.

ghost use Rattle.std.specs.Prelude.{◌≡◌, IfOk};

use crate::Items;
use std::alloc::{AllocError, Global};
use std::marker::Model;
use std::rc::Rc;

/// Elements that several lists have, and that no longer change.
#[derive(Drop)]
pub struct Block<T: Drop> {
    items: Rc<Items<T>>,
}

impl<T: Drop> Model for Block<T> {
    ghost use Rattle.std.specs.Prelude.{List};

    ghost Value = { List T };

    ghost view = { λ a. a.items.value };
}

impl<T: Drop> Block<T> {
    /// The elements of the block, in their order.
    pub fn as_slice(&self) -> &[T]
        ensures { result.now ≡ self.now }
    {
        self.items.as_ref().as_slice()
    }

    /// The same elements once more. It takes no memory, but for the last of as many copies as can be counted.
    pub fn share(&self) -> Result<Block<T>, AllocError>
        ensures { IfOk result (λ block. block ≡ self.now) }
    {
        let items = self.items.clone()?;
        Ok(Block { items })
    }
}

impl<T: Copy + Drop> Block<T> {
    /// A block of copies of some elements.
    pub fn of(alloc: Global, items: &[T]) -> Result<Block<T>, AllocError>
        ensures { IfOk result (λ block. block ≡ items.now) }
    {
        let items = Items::from_slice(alloc, items)?;
        let items = Rc::new(alloc, items)?;
        Ok(Block { items })
    }
}
