// The names of sorts and constants, as the lines of a witness have them.

ghost use Rattle.std.specs.Prelude.{◌≡◌, get_or, []};
ghost use Rattle.proof_report.specs.Verdicts.{const_at};

use spec_core::Spec;

/// The name of the sort at a place; empty where there is none.
pub fn sort_name(spec: &Spec, place: usize) -> &[u8]
    ensures { result.now ≡ get_or spec.now.sorts place [] }
{
    match spec.sorts.as_slice().get(place) {
        Some(name) => name.bytes(),
        None => &[],
    }
}

/// The name of the constant at a place; empty where there is none.
pub fn const_name(spec: &Spec, place: usize) -> &[u8]
    ensures { result.now ≡ (const_at spec.now place).name }
{
    match spec.consts.as_slice().get(place) {
        Some(constant) => constant.name.bytes(),
        None => &[],
    }
}
