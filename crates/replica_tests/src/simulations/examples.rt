// The specifications of the tests, as texts of the language.
//
// A proof looks into a constant wherever the constant is named, so each text is named once, in a function of its own.

use example_specs::{NO_FLAG, PURSES, WITHDRAWALS};

/// Accounts with deposits and withdrawals, whose balances may not fall below 0. Two withdrawals from one account conflict.
pub fn purses() -> &'static [u8] {
    PURSES
}

/// The same without tokens: nothing orders two withdrawals.
pub fn withdrawals() -> &'static [u8] {
    WITHDRAWALS
}

/// A flag that is to be up and isn't.
pub fn no_flag() -> &'static [u8] {
    NO_FLAG
}
