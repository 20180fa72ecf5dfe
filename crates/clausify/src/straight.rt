// The clauses of formulas on equality, which take no memory of their own. Each is written straight from its numbers.
ghost use Rattle.std.specs.Prelude.{◌≡◌, ◌+◌, ◌++◌, ◌∷◌, [], true, false, OnOk, IfOk};
ghost use Rattle.proof_lines.specs.Clauses.{join, lit_of};
ghost use Rattle.clausify.specs.Straight.{differing, agreeing};

use crate::bare::literal;
use ground_atoms::{Agreement, Places};
use items::Items;
use proof_lines::{Clause, Lit};
use std::alloc::{AllocError, Global};

// Appends the clause of these literals.
fn write_literals(alloc: Global, lits: &[Lit], out: &mut Items<Clause>) -> Result<(), AllocError>
    ensures { OnOk result (out.new ≡ out.old ++ join [] lits.now ∷ []) }
{
    let clause = Clause::of(alloc, lits)?;
    out.push(clause)
}

/// Appends the clause that the third atom is true where the first two are.
pub fn write_implied(
    alloc: Global,
    first: u32,
    second: u32,
    third: u32,
    out: &mut Items<Clause>,
) -> Result<(), AllocError>
    ensures { OnOk result
        (out.new
        ≡ out.old
        ++ join [] (lit_of first false ∷ lit_of second false ∷ lit_of third true ∷ []) ∷ []) }
{
    let lits = [
        literal(first, false),
        literal(second, false),
        literal(third, true),
    ];
    write_literals(alloc, &lits, out)
}

/// What a formula `Congruent` holds.
#[derive(Clone, Copy)]
pub struct Congruence {
    pub places: Places,
    pub agreement: Agreement,
    pub equal: u32,
    pub also: u32,
    pub left: u32,
    pub right: u32,
}

// Appends the clause that two tuples differ or an atom is true, which names that their readings are one.
fn write_premise(
    alloc: Global,
    name: u32,
    said: Congruence,
    out: &mut Items<Clause>,
) -> Result<(), AllocError>
    ensures { OnOk result (out.new ≡ out.old
        ++ differing name said.places said.equal said.also ∷ []) }
{
    let named = literal(name, true);
    let lit = literal(said.equal, false);
    match said.places {
        Places::Only | Places::First | Places::Second => write_literals(alloc, &[lit, named], out),
        Places::Both => write_literals(alloc, &[lit, literal(said.also, false), named], out),
    }
}

// Appends the clauses that two readings are one where the atom is true that names it.
fn write_agreement(
    alloc: Global,
    name: u32,
    said: Congruence,
    out: &mut Items<Clause>,
) -> Result<(), AllocError>
    ensures { OnOk result (out.new ≡ out.old
        ++ agreeing name said.agreement said.left said.right) }
{
    let front = literal(name, false);
    let first = literal(said.left, true);
    let second = literal(said.right, true);
    match said.agreement {
        Agreement::Relation => {
            write_literals(alloc, &[front, literal(said.left, false), second], out)?;
            write_literals(alloc, &[front, first, literal(said.right, false)], out)
        }
        Agreement::Counter => {
            write_literals(alloc, &[front, first], out)?;
            write_literals(alloc, &[front, second], out)
        }
    }
}

/// Appends the clauses of `Congruent`. `name` names that the readings are one, and the answer is the next naming atom.
pub fn write_congruent(
    alloc: Global,
    name: u32,
    said: Congruence,
    out: &mut Items<Clause>,
) -> Result<u32, AllocError>
    ensures made { OnOk result
        (out.new
        ≡ out.old
        ++ differing name said.places said.equal said.also
        ∷ agreeing name said.agreement said.left said.right) }
    ensures next { IfOk result (λ n. n ≡ name + 1) }
{
    write_premise(alloc, name, said, out)?;
    write_agreement(alloc, name, said, out)?;
    name.checked_add(1).ok_or(AllocError)
}
