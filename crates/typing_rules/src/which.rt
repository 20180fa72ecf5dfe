// What a specification may have too much of.

/// What there is too much of; `spec_core::limits` says how many there may be.
#[derive(Clone, Copy, PartialEq, Eq, Debug)]
pub enum Which {
    Sorts,
    /// Constants of one sort.
    Constants,
    Relations,
    Counters,
    Tokens,
    /// Conflict rules.
    Conflicts,
    Invariants,
    Operations,
    /// Parameters of an operation.
    Parameters,
    /// Variables of a prefix.
    Variables,
    /// Places of a relation or a token, or keys of a counter.
    Places,
    /// Requires lines of an operation.
    Requires,
    /// Updates of an operation.
    Updates,
    /// Takes lines of an operation.
    Takes,
    /// Observes lines of an operation.
    Observes,
    /// Summands of a term.
    Summands,
    /// Parts of a formula: truth values, `not`, connectives, atoms and comparisons.
    Nodes,
    /// The size of a literal or a coefficient.
    Literal,
}
