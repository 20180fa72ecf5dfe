// Tests of the search on watched literals beside the plain one.
//
// The contract of both searches is one, and says what each answer promises, but not which of them comes. Here both are asked of
// problems as text, and it is seen that they answer the same one of Unsat and Sat. `problems` reads a text, `asked` asks both searches;
// `early` has problems whose rows are refuted before all atoms have values, `unneeded_rows` such as have rows that no clause needs,
// `orders` such as one of the two orders of decisions refutes in fewer lines, and `lookahead` one that lookahead refutes in fewer.
mod agreement;
pub mod asked;
mod early;
mod learned;
mod lookahead;
mod orders;
mod problems;
mod unneeded_rows;
