// The specifications of the tests, as texts of the language.
//
// A proof looks into a constant wherever the constant is named, so each text is named once, in a function of its own.

use example_specs::{DEPOSITS, MANY, PURSES, RAISED, SETS, SHOP, TOURNAMENTS, VAST, WITHDRAWALS};

/// A flag that is raised, and stays up.
pub fn flag() -> &'static [u8] {
    RAISED
}

/// Four constants, and five invariants of three variables each. Two calls have twelve parameters.
pub fn wide() -> &'static [u8] {
    MANY
}

/// A set of elements, which are put in and dropped.
pub fn set() -> &'static [u8] {
    SETS
}

/// A set that stays empty, but for an operation that puts elements in. One element has a name.
pub fn guarded() -> &'static [u8] {
    b"cise 1
sort A
const a : A
relation r ( A )
invariant none forall x : A . not r ( x )
operation put ( x : A )
  insert r ( x )
end"
}

/// Accounts whose balance grows.
pub fn deposits() -> &'static [u8] {
    DEPOSITS
}

/// Accounts whose balance grows and shrinks.
pub fn withdrawals() -> &'static [u8] {
    WITHDRAWALS
}

/// The same, where withdrawals of one account exclude one another.
pub fn purses() -> &'static [u8] {
    PURSES
}

/// Numbers beyond the range of a state.
pub fn far() -> &'static [u8] {
    VAST
}

/// Orders at a price that changes, and a note that is no precondition.
pub fn shop() -> &'static [u8] {
    SHOP
}

/// Two relations, of which the later needs the earlier; the generated specification of two.
pub fn chain() -> &'static [u8] {
    b"cise 1
sort Item
relation r0 ( Item )
relation r1 ( Item )
token t ( Item )
conflict t ( x ) t ( x )
invariant needs1 forall x : Item . ( r1 ( x ) implies r0 ( x ) )
operation add0 ( x : Item )
  insert r0 ( x )
  takes t ( x )
end
operation del0 ( x : Item )
  requires not r1 ( x )
  remove r0 ( x )
  takes t ( x )
end
operation add1 ( x : Item )
  requires r0 ( x )
  insert r1 ( x )
  takes t ( x )
end
operation del1 ( x : Item )
  remove r1 ( x )
  takes t ( x )
end"
}

/// Players enroll in tournaments, whose seats are counted.
pub fn tournaments() -> &'static [u8] {
    TOURNAMENTS
}

/// A relation that is transitive, whose pairs are linked one by one and removed at once.
pub fn friends() -> &'static [u8] {
    b"cise 1
sort A
relation r ( A , A )
invariant transitive forall x : A , y : A , z : A . ( ( r ( x , y ) and r ( y , z ) ) implies r ( x , z ) )
operation link ( x : A , y : A )
  requires forall z : A . ( r ( y , z ) implies r ( x , z ) )
  requires forall z : A . ( r ( z , x ) implies r ( z , y ) )
  insert r ( x , y )
end
operation empty
  remove r ( * , * )
end"
}
