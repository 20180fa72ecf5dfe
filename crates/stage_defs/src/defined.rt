// A reading after a call, with all that its definition speaks of.
ghost use Rattle.std.specs.Prelude.{◌≡◌};
ghost use Rattle.stage_defs.specs.Settings.{has_definition, count_definition};
ghost use Rattle.stage_defs.specs.Settings.{has_defined, count_defined};

use crate::setting::{Setting, Stage};
use crate::stages::{latest_call, stage_before};
use ground_atoms::GroundCall;
use spec_core::{Spec, Update};

/// A reading at a stage that a call led to: what the stage before it reads, the stage, the number of the relation or counter, its
/// tuple or key, and the updates of the call's operation.
#[derive(Clone, Copy)]
pub struct Defined<'a> {
    pub before: Setting<'a>,
    pub stage: u8,
    pub number: u8,
    pub tuple: &'a [u32],
    pub updates: &'a [Update],
}

impl<'a> Defined<'a> {
    /// The reading of the relation or counter of this number at a stage after this call.
    pub fn after(
        spec: &'a Spec,
        call: &'a GroundCall,
        stage: u8,
        number: u8,
        tuple: &'a [u32],
    ) -> Defined<'a>
        ensures has { has_defined result
            ≡ has_definition spec.now call.now stage number tuple.now }
        ensures count { count_defined result
            ≡ count_definition spec.now call.now stage number tuple.now }
    {
        Defined {
            before: Setting {
                spec,
                stage: Stage::Numbered(stage_before(stage)),
                call: latest_call(stage),
                args: call.args.as_slice(),
            },
            stage,
            number,
            tuple,
            updates: spec.updates_of(call.op),
        }
    }
}
