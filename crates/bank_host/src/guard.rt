// The bank's own code for the requires lines of a call: it tests them by hand.

ghost use Rattle.std.specs.Prelude.{◌≡◌, ◌<◌, ◌^◌, int_lt, [], ◌∷◌};
ghost use Rattle.spec_core.specs.{declared.world.World.{World as WorldValue}, State.{reads}};
ghost use Rattle.replica_host.specs.Native.{IsGuard};
ghost use Rattle.bank_host.specs.Bank.{bank, balance};
ghost use Rattle.bank_host.specs.Calls.{FitIn, Fit, account_of as account_of_call};
ghost use Rattle.bank_host.specs.Calls.{amount_of as amount_of_call, false_line as false_line_of};

use crate::effect::{BALANCE, BankCode, account_of, amount_of};
use replica_host::Guard;
use spec_core::Call;
use spec_states::State;
use std::alloc::AllocError;

/// The place of the second operation, withdraw.
const WITHDRAW: u8 = 1;

/// Whether the balance of the account of a call is less than its amount.
fn is_overdrawn(state: &State, call: &Call) -> bool
    requires { account_of_call call.now < 2 ^ 32 }
    ensures { result
        ≡ int_lt ((reads state.now).count balance (account_of_call call.now ∷ []))
        (amount_of_call call.now) }
{
    state.count(BALANCE, &[account_of(call)]) < amount_of(call) as i128
}

/// The first requires line of a call that is false, counted from 1.
fn false_line(state: &State, call: &Call) -> Option<u32>
    requires { account_of_call call.now < 2 ^ 32 }
    ensures { result ≡ false_line_of (reads state.now) call.now }
{
    if amount_of(call) < 0 {
        Some(1)
    } else if call.op == WITHDRAW && is_overdrawn(state, call) {
        Some(2)
    } else {
        None
    }
}

impl Guard for BankCode {
    ghost may_ask = { λ f s call. Fit s call };

    ghost tells = { λ f s call answer. (w : WorldValue) → FitIn w s call
        → IsGuard bank w s call answer };

    fn ask(&self, state: &State, call: &Call) -> Result<Option<u32>, AllocError> {
        Ok(false_line(state, call))
    }
}
