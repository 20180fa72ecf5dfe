// The bank's own code for the effect of a call: it changes one balance of a copy.

ghost use Rattle.std.specs.Prelude.{◌≡◌, ◌<◌, ◌≤◌, ◌^◌, ◌+ℤ◌, ℕ, ℤ, List, [], ◌∷◌, true, false};
ghost use Rattle.std.specs.Prelude.{length, unsigned_abs, Err, IfOk, OnOk};
ghost use Rattle.spec_core.specs.declared.world.World.{World as WorldValue};
ghost use Rattle.spec_core.specs.Specification.{Specification, counter_keys};
ghost use Rattle.spec_core.specs.State.{reads, with_count};
ghost use Rattle.spec_core.specs.Fits.{fits_places, in_state_range, is_state};
ghost use Rattle.spec_core.specs.Limits.{greatest_value};
ghost use Rattle.effectors.specs.Beyond.{Beyond};
ghost use Rattle.replica_host.specs.Native.{IsEffect};
ghost use Rattle.bank_host.specs.Bank.{bank, balance};
ghost use Rattle.bank_host.specs.Calls.{FitIn, Fit, account_of, amount_of, change_of};

use effectors::ApplyRefused;
use items::Items;
use replica_host::Effect;
use spec_core::Call;
use spec_states::State;
use std::alloc::{AllocError, Global};

/// The place of the one counter.
pub const BALANCE: u8 = 0;

/// The place of the first operation, deposit; the other one is withdraw.
pub const DEPOSIT: u8 = 0;

/// The size of a value in a state.
const GREATEST_VALUE: u128 = 1_000_000_000_000_000;

/// The bank's own code.
#[derive(Drop)]
pub struct BankCode {
    pub alloc: Global,
}

/// Whether a value is in the range of a state.
fn in_range(value: i128) -> bool
    ensures { result ≡ in_state_range value }
{
    value.unsigned_abs() <= GREATEST_VALUE
}

/// A copy of a state with another value at a balance.
fn with_balance(state: &State, key: &[u32], value: i128) -> Result<State, AllocError>
    requires counter { 0 < length state.now.counters }
    requires value { in_state_range value ≡ true }
    ensures reads { IfOk result
        (λ s. reads s ≡ with_count (reads state.now) balance key.now value) }
    ensures fits { IfOk result
        (λ s. (d : Specification) (w : WorldValue) → is_state d w state.now ≡ true
        → fits_places w (counter_keys d balance) key.now ≡ true → is_state d w s ≡ true) }
{
    let mut next = state.copy()?;
    next.set_count(BALANCE, key, value as i64)?;
    Ok(next)
}

/// A balance with a change added.
fn value_after(state: &State, key: &[u32], change: i64) -> i128
    ensures { result ≡ (reads state.now).count balance key.now +ℤ change }
{
    state.stays_in_range();
    state.count(BALANCE, key) + change as i128
}

/// The refusal of a value beyond the range of a state.
fn beyond(alloc: Global, key: &[u32], value: i128) -> ApplyRefused
    ensures { (b : Beyond) → result ≡ ApplyRefused.Range b.counter b.key b.value
        → b ≡ record { counter = balance; key = key.now; value = value } }
{
    match Items::from_slice(alloc, key) {
        Ok(key) => ApplyRefused::Range {
            counter: BALANCE,
            key,
            value,
        },
        Err(_) => ApplyRefused::Memory,
    }
}

/// A copy of a state with one balance changed, where it stays in the range of a state.
fn change_balance(
    alloc: Global,
    state: &State,
    key: &[u32],
    change: i64,
) -> Result<State, ApplyRefused>
    requires { 0 < length state.now.counters }
    ensures reads { IfOk result
        (λ s. reads s
        ≡ with_count (reads state.now) balance key.now
        ((reads state.now).count balance key.now +ℤ change)) }
    ensures in_range { OnOk result
        (in_state_range ((reads state.now).count balance key.now +ℤ change) ≡ true) }
    ensures fits { IfOk result
        (λ s. (d : Specification) (w : WorldValue) → is_state d w state.now ≡ true
        → fits_places w (counter_keys d balance) key.now ≡ true → is_state d w s ≡ true) }
    ensures range { (b : Beyond) → result ≡ Err (ApplyRefused.Range b.counter b.key b.value)
        → (b
        ≡ record {
          counter = balance;
          key = key.now;
          value = (reads state.now).count balance key.now +ℤ change;
        })
        × (in_state_range ((reads state.now).count balance key.now +ℤ change) ≡ false) }
{
    let value = value_after(state, key, change);
    if in_range(value) {
        Ok(with_balance(state, key, value)?)
    } else {
        Err(beyond(alloc, key, value))
    }
}

/// The account of a call.
pub fn account_of(call: &Call) -> u32
    requires { account_of call.now < 2 ^ 32 }
    ensures { result ≡ account_of call.now }
{
    call.args
        .as_slice()
        .get(0)
        .copied()
        .unwrap_or(0)
        .unsigned_abs() as u32
}

/// The amount of a call.
pub fn amount_of(call: &Call) -> i64
    ensures { result ≡ amount_of call.now }
{
    call.args.as_slice().get(1).copied().unwrap_or(0)
}

/// How a call changes the balance of its account.
fn change_of(call: &Call) -> i64
    requires { unsigned_abs (amount_of call.now) ≤ greatest_value }
    ensures { result ≡ change_of call.now }
{
    let amount = amount_of(call);
    if call.op == DEPOSIT { amount } else { -amount }
}

impl Effect for BankCode {
    ghost may_run = { λ f s call. Fit s call };

    ghost gives = { λ f s call answer. (w : WorldValue) → FitIn w s call
        → IsEffect bank w s call answer };

    fn run(&self, state: &State, call: &Call) -> Result<State, ApplyRefused> {
        state.stays_in_range();
        change_balance(self.alloc, state, &[account_of(call)], change_of(call))
    }
}
