// The specifications of the tests, as texts of the language.
//
// A proof looks into a constant wherever the constant is named, so each text is named once, in a function of its own.

use example_specs::{DEPOSITS, FLAG, PURSES, ROOMS, SETS, SHOP, TOURNAMENTS, WITHDRAWALS};

/// A flag that begins up, and stays up.
pub fn flag() -> &'static [u8] {
    FLAG
}

/// Two counters whose values are swapped.
pub fn swap() -> &'static [u8] {
    b"cise 1
counter c
counter d
initially c 1
initially d 2
operation swap set c d set d c end"
}

/// A set of elements, which are put in and dropped.
pub fn set() -> &'static [u8] {
    SETS
}

/// Rooms that are free at first, one of which has to be.
pub fn rooms() -> &'static [u8] {
    ROOMS
}

/// Lamps, all of which are put out where that of one room is lit.
pub fn lamps() -> &'static [u8] {
    b"cise 1
sort Room
relation lit ( Room )
counter hours ( Room )
operation night ( r : Room )
  remove lit ( * ) when lit ( r )
  add hours ( * ) 1 when lit ( r )
end"
}

/// People, two of them with names, and robots, with an operation for each line that is tried.
pub fn people() -> &'static [u8] {
    b"cise 1
sort Person
sort Robot
const ada : Person
const bob : Person
relation member ( Person )
operation same ( x : Person , y : Person ) requires ( x = y ) end
operation differ ( x : Person , y : Person ) requires ( x != y ) end
operation is_ada ( x : Person , y : Person ) requires ( x = ada ) end
operation is_not_bob ( x : Person , y : Person ) requires ( bob != x ) end
operation always ( x : Person , y : Person ) requires true end
operation never ( x : Person , y : Person ) requires false end
operation one_is_member ( x : Person , y : Person ) requires ( member ( x ) or member ( y ) ) end
operation some_member ( x : Person , y : Person ) requires exists p : Person . member ( p ) end
operation some_robot ( x : Person , y : Person ) requires exists r : Robot . true end
operation no_robot ( x : Person , y : Person ) requires forall r : Robot . false end"
}

/// A shop in version 2 of the language. `reprice` sets the price and takes the shop exclusively; `order` requires the price, adds to
/// what is sold and takes the shop shared; `note` observes what is sold.
pub fn shop() -> &'static [u8] {
    SHOP
}

/// Accounts with deposits, whose balances may not fall below 0.
pub fn deposits() -> &'static [u8] {
    DEPOSITS
}

/// The same with withdrawals.
pub fn withdrawals() -> &'static [u8] {
    WITHDRAWALS
}

/// The same, where two withdrawals from one account conflict.
pub fn purses() -> &'static [u8] {
    PURSES
}

/// Players who enroll in tournaments with ten seats each.
pub fn tournaments() -> &'static [u8] {
    TOURNAMENTS
}
