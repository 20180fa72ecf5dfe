// A stock of goods, in version 2 of the language. What lacks memory, and what is no specification, ends the test.

use crate::specifications::read;
use spec_core::Name;
use spec_from_bytes::Reading;
use std::alloc::Global;
use std::process::Abort;

pub fn name(rt: &impl Abort, alloc: Global, text: &[u8]) -> Name {
    assert!(rt; !text.is_empty() && text.len() <= 32);
    Name::new(alloc, text).expect(rt, "memory")
}

/// Goods are delivered, sold and counted, and sellers know of one another.
fn text() -> &'static [u8] {
    b"cise 2
counter stock
token shop
conflict shop shop
operation deliver ( n : int ) add stock n end
operation sell ( n : int ) requires ( stock >= n ) add stock - n takes shop end
operation report ( n : int ) observes ( stock = n ) add stock 0 * n end"
}

/// What the text is read as.
pub fn goods(rt: &impl Abort, alloc: Global) -> Reading {
    read(rt, alloc, text())
}
