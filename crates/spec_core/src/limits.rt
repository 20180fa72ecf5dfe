// The limits of the language: how many things of each kind there may be, and how large numbers may be.
//
// specs/Limits.antt has the same numbers for the definitions.

/// Sorts of a specification.
pub const MOST_SORTS: usize = 8;

/// Constants of one sort.
pub const MOST_CONSTANTS: usize = 4;

/// Relations of a specification.
pub const MOST_RELATIONS: usize = 16;

/// Places of a relation or a token.
pub const MOST_PLACES: usize = 3;

/// Counters of a specification.
pub const MOST_COUNTERS: usize = 8;

/// Keys of a counter.
pub const MOST_KEYS: usize = 2;

/// Tokens of a specification.
pub const MOST_TOKENS: usize = 16;

/// Conflict rules.
pub const MOST_RULES: usize = 32;

/// Invariants of a specification.
pub const MOST_INVARIANTS: usize = 16;

/// Operations of a specification.
pub const MOST_OPERATIONS: usize = 24;

/// Parameters of an operation.
pub const MOST_PARAMETERS: usize = 6;

/// Lines of the precondition of an operation.
pub const MOST_REQUIRES: usize = 8;

/// Updates of an operation.
pub const MOST_UPDATES: usize = 16;

/// Takings of tokens by an operation.
pub const MOST_TAKES: usize = 4;

/// Lines of the observation of an operation.
pub const MOST_OBSERVES: usize = 8;

/// Variables of a line.
pub const MOST_VARIABLES: usize = 3;

/// Summands of a term.
pub const MOST_SUMMANDS: usize = 16;

/// Parts of a formula.
pub const MOST_NODES: u32 = 200;

/// How deep the parts of a formula nest.
pub const MOST_DEPTH: u32 = 200;

/// Bytes of a name.
pub const MOST_NAME_BYTES: usize = 32;

/// The size of a literal or a coefficient.
pub const GREATEST_LITERAL: u64 = 1_000_000_000;

/// The size of a value in a state, and of an argument.
pub const GREATEST_VALUE: u64 = 1_000_000_000_000_000;

/// The elements of a sort in a world.
pub const MOST_ELEMENTS: u32 = 100;
