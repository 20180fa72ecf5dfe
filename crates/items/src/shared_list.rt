// Lists that share blocks.

ghost use Rattle.std.specs.Prelude.{◌≡◌, [], ◌∷◌, ◌++◌, IfOk, OnOk, OnErr};
ghost use Rattle.items.specs.Joined.{joined};

use crate::Items;
use crate::block::Block;
use std::alloc::{AllocError, Global};
use std::marker::Model;

/// How many elements a block has.
const BLOCK: usize = 128;

/// A growing list, of which copies share most elements. Contracts see the list of its elements.
#[derive(Drop)]
pub struct SharedList<T: Drop> {
    alloc: Global,
    blocks: Vec<Block<T>>,
    rest: Items<T>,
}

impl<T: Drop> Model for SharedList<T> {
    ghost use Rattle.std.specs.Prelude.{List};
    ghost use Rattle.items.specs.Joined.{joined};

    ghost Value = { List T };

    ghost view = { λ a. joined a.blocks.items a.rest };
}

// The same blocks once more.
fn share_blocks<T: Drop>(alloc: Global, blocks: &[Block<T>]) -> Result<Vec<Block<T>>, AllocError>
    ensures { IfOk result (λ copies. copies.items ≡ blocks.now) }
{
    let mut copies = Vec::with_capacity(alloc, blocks.len())?;
    for block in blocks {
        let copy = block.share()?;
        copies.push(copy)?;
    }
    Ok(copies)
}

// The elements of some blocks.
fn items_of<T: Copy + Drop>(alloc: Global, blocks: &[Block<T>]) -> Result<Items<T>, AllocError>
    ensures { IfOk result (λ items. items ≡ joined blocks.now []) }
{
    let mut items = Vec::with_capacity(
        alloc,
        blocks.len().saturating_add(1).saturating_mul(BLOCK),
    )?;
    for block in blocks {
        items.extend_from_slice(block.as_slice())?;
    }
    Ok(Items::from_vec(items))
}

impl<T: Drop> SharedList<T> {
    /// The empty list. It takes no memory.
    pub fn new(alloc: Global) -> SharedList<T>
        ensures { result ≡ [] }
    {
        SharedList {
            alloc,
            blocks: Vec::new(alloc),
            rest: Items::new(alloc),
        }
    }
}

impl<T: Copy + Drop> SharedList<T> {
    // The elements behind the blocks become a block.
    fn set_aside(&mut self) -> Result<(), AllocError>
        ensures { self.new ≡ self.old }
    {
        let block = Block::of(self.alloc, self.rest.as_slice())?;
        self.blocks.push(block)?;
        self.rest.clear();
        Ok(())
    }

    // There is room behind the blocks.
    fn make_way(&mut self) -> Result<(), AllocError>
        ensures { self.new ≡ self.old }
    {
        if self.rest.len() < BLOCK {
            return Ok(());
        }
        self.set_aside()
    }

    // Adds an element behind the blocks.
    fn add(&mut self, item: T) -> Result<(), AllocError>
        ensures ok { OnOk result (self.new ≡ self.old ++ item ∷ []) }
        ensures err { OnErr result (self.new ≡ self.old) }
    {
        self.rest.push(item)
    }

    /// Adds an element at the end. A refused one leaves the list as it was.
    pub fn push(&mut self, item: T) -> Result<(), AllocError>
        ensures ok { OnOk result (self.new ≡ self.old ++ item ∷ []) }
        ensures err { OnErr result (self.new ≡ self.old) }
    {
        self.make_way()?;
        self.add(item)
    }

    /// A copy.
    pub fn share(&self) -> Result<SharedList<T>, AllocError>
        ensures { IfOk result (λ copy. copy ≡ self.now) }
    {
        let blocks = share_blocks(self.alloc, self.blocks.as_slice())?;
        let rest = Items::from_slice(self.alloc, self.rest.as_slice())?;
        Ok(SharedList {
            alloc: self.alloc,
            blocks,
            rest,
        })
    }

    /// The elements side by side.
    pub fn to_items(&self) -> Result<Items<T>, AllocError>
        ensures { IfOk result (λ items. items ≡ self.now) }
    {
        let mut items = items_of(self.alloc, self.blocks.as_slice())?;
        items.extend_from_slice(self.rest.as_slice())?;
        Ok(items)
    }

    /// A list of copies of some elements.
    pub fn from_slice(alloc: Global, items: &[T]) -> Result<SharedList<T>, AllocError>
        ensures { IfOk result (λ list. list ≡ items.now) }
    {
        let rest = Items::from_slice(alloc, items)?;
        Ok(SharedList {
            alloc,
            blocks: Vec::new(alloc),
            rest,
        })
    }
}
