// Formulas over numbered atoms.

/// At which places two tuples hold different constants: at their only place, at the first or the second of two, or at both.
#[derive(Clone, Copy)]
pub enum Places {
    Only,
    First,
    Second,
    Both,
}

/// How two readings are said to be one: those of a relation, which are atoms, by an implication each way; those of a counter by two
/// rows.
#[derive(Clone, Copy)]
pub enum Agreement {
    Relation,
    Counter,
}

/// A formula whose atoms are numbers. A literal is an atom, or its negation where it isn't positive. `NotAtom` is "not" of an atom,
/// as `Not` of that literal would be, and takes no memory of its own. Nor do those that most lines of a specification and most
/// formulas on equality are: `BothAtoms`, which says that two atoms are true; `AtomImplies`, which says that the second is true where
/// the first is; `Implied`, which says that the third atom is true where the first two are; and `Congruent`, which says that two
/// readings are one where the equalities of `places` are true; `also` counts where these are two.
#[derive(Drop)]
pub enum GroundFormula {
    Truth(bool),
    Lit(u32, bool),
    NotAtom(u32),
    BothAtoms(u32, u32),
    AtomImplies(u32, u32),
    Implied(u32, u32, u32),
    Congruent {
        places: Places,
        agreement: Agreement,
        equal: u32,
        also: u32,
        left: u32,
        right: u32,
    },
    Not(Box<GroundFormula>),
    And(Box<(GroundFormula, GroundFormula)>),
    Or(Box<(GroundFormula, GroundFormula)>),
}
