// What is asked of an obligation.

ghost use Rattle.std.specs.Prelude.{◌≤◌};

use obligation_list::Obligation;
use spec_core::Spec;

/// An obligation of a specification, which is to be decided with logs of at most `budget` lines.
#[derive(Drop)]
pub struct Question<'a> {
    pub spec: &'a Spec,
    pub ob: &'a Obligation,
    pub budget: u32,
    ghost least: { 1 ≤ budget },
}
