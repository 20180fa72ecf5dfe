// The specification of the tests that no other crate's tests need, as a text of the language.

/// A flag, and an operation that asks for what no whole numbers give.
pub const ODD: &[u8] = b"cise 1
relation up
initially up true
invariant alive up
operation odd ( x : int , y : int )
  requires ( 2 * x - 2 * y = 1 )
  remove up
end";
