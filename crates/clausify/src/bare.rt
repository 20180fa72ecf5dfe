// Plain formulas: those without truth values, each of whose parts stands apart in memory.
ghost use Rattle.std.specs.Prelude.{◌≡◌};
ghost use Rattle.proof_lines.specs.Clauses.{same_bool, lit_of};
ghost use Rattle.clausify.specs.Formulas.{is_plain};

use ground_atoms::GroundFormula;
use proof_lines::Lit;

/// A formula once its truth values are folded: a truth value, or a plain formula.
#[derive(Drop)]
pub enum Folded {
    Settled(bool),
    Unsettled(GroundFormula),
}

/// Whether no part of the formula is a truth value, and each stands apart in memory.
pub fn is_plain(form: &GroundFormula) -> bool
    ensures { result ≡ is_plain form.now }
{
    match form {
        GroundFormula::Truth(_) => false,
        GroundFormula::Lit(_, _) => true,
        GroundFormula::NotAtom(_) => true,
        GroundFormula::BothAtoms(_, _) => true,
        GroundFormula::AtomImplies(_, _) => true,
        GroundFormula::Implied(_, _, _) => false,
        GroundFormula::Congruent { .. } => false,
        GroundFormula::Not(inner) => is_plain(inner),
        GroundFormula::And(parts) => is_plain(&parts.0) && is_plain(&parts.1),
        GroundFormula::Or(parts) => is_plain(&parts.0) && is_plain(&parts.1),
    }
}

/// A literal of an atom.
pub fn literal(atom: u32, positive: bool) -> Lit
    ensures { result ≡ lit_of atom positive }
{
    Lit { atom, positive }
}

/// The value, or its negation where `sign` is false.
pub fn signed(sign: bool, value: bool) -> bool
    ensures { result ≡ same_bool sign value }
{
    if sign { value } else { !value }
}
