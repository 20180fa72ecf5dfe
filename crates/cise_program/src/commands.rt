// The commands: each writes the text of its answer, and ends with a status.
pub mod check;
pub mod replay;
pub mod sample;
pub mod simulate;
pub mod spell;
pub mod suggestion;
pub mod upgrade;
pub mod verify;
