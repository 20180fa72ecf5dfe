// Literals as numbers, which are places of lists: twice the atom, and one more where the literal is positive.
use proof_lines::Lit;

/// The number of a literal. Atoms are below 2^31.
pub fn code(lit: Lit) -> u32 {
    let double = lit.atom.saturating_mul(2);
    if lit.positive {
        double.saturating_add(1)
    } else {
        double
    }
}

/// The literal of the same atom with the other sign.
pub fn opposite(code: u32) -> u32 {
    code ^ 1
}

/// The atom of a literal.
pub fn atom_of(code: u32) -> u32 {
    code / 2
}

/// Whether a literal is its atom, and not the negation of it.
pub fn is_positive(code: u32) -> bool {
    code % 2 == 1
}
