// Implicants: how little of a trail makes all clauses of a problem true.
//
// Where all atoms have values, a search asks whether whole numbers satisfy rows. The rows of the whole trail are more than it needs. An
// implicant of a formula is a choice of literals, none with its opposite, from which the formula follows; here each clause is to
// have one of its literals among them. Whatever numbers satisfy the rows of the implicant, the formula is true by them: an atom with
// a row outside of the implicant may have either value. So numbers for few rows answer for all clauses, and rows that no clause needs
// neither contradict others nor bring numbers beyond their range.
//
// Which literals are taken. Literals over plain atoms cost nothing, so an implicant has a value for each plain atom, and a clause that
// is true by one of these values needs no row. A plain atom may name a part of a formula, as where clauses say "r or p" and "not p or
// q": if p is true, the row q is needed, though r alone makes the formula true. So `relaxed` changes values of the trail. The plain
// atoms of a clause that needs a row are free to change. Where a clause is true by free atoms alone, its other plain atoms become free,
// too, since a change of one of them makes it true in any case. So a name within the part that another names is reached. Then the
// clauses are gone through again. One that would not be true after all changes keeps the value of one atom. This goes on until each
// clause that was true by plain atoms is so after the changes of all atoms that are still free.
//
// Of the clauses that still need a row, those with only one candidate come first, since theirs is needed in any case. Each other
// clause takes a candidate that was chosen already, or else the one that stands first on the trail, which is the likeliest to be
// needed elsewhere. This isn't the least choice, which is as hard to find as a least hitting set, but it takes two passes over the clauses.
// The atoms beyond those of the problem, at which whole numbers were split, are in no clause. Their literals are always chosen: without them
// a solver would ask for the same split again.
//
// The layer stands on `proof_lines`, whose problems it reads, and on `sat_core`, whose trails it takes literals from. Definitions, in the
// order in which a reader needs them: specs/Implicants (what an implicant is), specs/Choosing (how the choice goes on, which a reader of
// the contracts passes by). Nothing is promised of `relaxed`: whoever uses an implicant learns from `choose` that it is one.
#![tactic(auto)]

ghost use Rattle.std.specs.Prelude.{◌≡◌, ℕ, Bool, List, true};
ghost use Rattle.proof_lines.specs.{declared.clause.Lit.{Lit as PlainLit}, Clauses.{all_true}};
ghost use Rattle.proof_lines.specs.Problems.{PlainProblem};
ghost use Rattle.implicants.specs.Implicants.{IsImplicant, Agrees};

pub mod choosing;
pub mod values;

pub use choosing::choose;
pub use values::relaxed;

/// Truth values that agree with an implicant make all clauses true, whatever values they give the other atoms.
pub fn law_implicant()
    ensures { (p : PlainProblem) (values : List Bool) (lits : List PlainLit) (v : ℕ → Bool)
        → IsImplicant p.atoms p.clauses values lits → Agrees p.atoms values lits v
        → all_true v p.clauses ≡ true }
{}
