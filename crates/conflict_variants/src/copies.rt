// Copies of the parts of a specification, for a specification that is made of another one: each is the same plain data, or refused for
// want of memory.

pub mod declarations;
pub mod formulas;
pub mod operations;
