// The specifications of the tests, as texts of the language.
//
// A proof looks into a constant wherever the constant is named, so each text is named once, in a function of its own.

use example_specs::{PURSES, SHOP, TOURNAMENTS};

/// Accounts with deposits and withdrawals, whose balances may not fall below 0. Two withdrawals from one account conflict.
pub fn purses() -> &'static [u8] {
    PURSES
}

/// Players who enroll in tournaments with ten seats each.
pub fn tournaments() -> &'static [u8] {
    TOURNAMENTS
}

/// A shop in version 2 of the language. `reprice` sets the price and takes the shop exclusively; `order` requires the price, adds to
/// what is sold and takes the shop shared; `note` observes what is sold.
pub fn shop() -> &'static [u8] {
    SHOP
}
