// An effect and a guard that always lack memory.

ghost use Rattle.std.specs.Prelude.{◌≡◌, ⊤, Err};
ghost use Rattle.effectors.specs.declared.applying.ApplyRefused.TheVariants as refusal;

use effectors::ApplyRefused;
use replica_host::{Effect, Guard};
use spec_core::Call;
use spec_states::State;
use std::alloc::AllocError;

/// Code that always lacks memory.
#[derive(Drop)]
pub struct NoMemory {}

impl Effect for NoMemory {
    ghost may_run = { λ f s call. ⊤ };

    ghost gives = { λ f s call answer. answer ≡ Err refusal.Memory };

    fn run(&self, _state: &State, _call: &Call) -> Result<State, ApplyRefused> {
        Err(ApplyRefused::Memory)
    }
}

impl Guard for NoMemory {
    ghost use Rattle.std.specs.Prelude.{alloc_error};

    ghost may_ask = { λ f s call. ⊤ };

    ghost tells = { λ f s call answer. answer ≡ Err alloc_error };

    fn ask(&self, _state: &State, _call: &Call) -> Result<Option<u32>, AllocError> {
        Err(AllocError)
    }
}
