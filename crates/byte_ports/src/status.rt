// The statuses with which a program ends.

/// All is well: each verdict is proved, each step was carried out.
pub const ACCEPTED: u8 = 0;
/// A verdict is refuted, or a state breaks an invariant.
pub const REJECTED: u8 = 1;
/// The words aren't accepted.
pub const WORDS: u8 = 2;
/// The bytes of the specification are none.
pub const SPECIFICATION: u8 = 3;
/// The bytes of an input aren't what they have to be, or a step is refused.
pub const REFUSED: u8 = 4;
/// No verdict is refuted, and one is undecided.
pub const UNDECIDED: u8 = 5;
/// A source has failed.
pub const READ_FAULT: u8 = 6;
/// The sink has failed.
pub const WRITE_FAULT: u8 = 7;
/// Out of memory.
pub const MEMORY: u8 = 8;
/// The words can't be had from the system.
pub const NO_WORDS: u8 = 9;
