// Tests of the solvers of rows through the trait that a search asks them by, each worked outside of them.
//
// The contract of a solver says what each answer promises; here it is seen which answer comes, and that it isn't always want of
// memory. They stand in a crate of their own so that the solvers stay small. `asked` makes rows and asks the elimination solver,
// `singles` has single systems worked by hand, `systems` a table of small systems with what another program says of them, and
// `searches` gives systems to the search. `planes` has systems for the solver that cutting planes guide. `differences` asks the solver of
// difference rows, and `bounds` has systems for it.
pub mod asked;
mod bounds;
mod differences;
mod planes;
mod proposed;
pub mod searches;
mod singles;
mod systems;
mod trimmed;
mod vertices;
