// The atoms of a kernel, with an index of the rows `place <= at` among theirs, so that a Split line's test for its own row takes
// no look at each atom.
ghost use Rattle.std.specs.Prelude.{◌≡◌, ℕ, ℤ, ◌<◌, ◌||◌, ◌++◌, ◌∷◌, [], true, IfOk, OnOk, OnErr, length, option_copied, slice_get};
ghost use Rattle.std.specs.List.{list_any};
ghost use Rattle.proof_lines.specs.declared.problem.AtomKind.TheVariants.{Row as OfRow};
ghost use Rattle.line_rows.specs.Splits.{is_at_most};
ghost use Rattle.proof_kernel.specs.Atoms.{has_pair, is_pair, pair_of, room};

use items::Items;
use lin_rows::Row;
use proof_lines::problem::AtomKind;
use std::alloc::{AllocError, Global};
use std::collections::HashSet;
use std::marker::Model;

/// A list of atoms. Contracts see the list.
#[derive(Drop)]
pub struct Atoms {
    list: Items<AtomKind>,
    pairs: HashSet<(u32, i128)>,
}

impl Model for Atoms {
    ghost use Rattle.std.specs.{Prelude.{List, ℕ, ℤ, ◌≡◌}, List.{list_any}};
    ghost use Rattle.proof_lines.specs.declared.problem.AtomKind.{AtomKind};
    ghost use Rattle.line_rows.specs.Splits.{is_at_most};
    ghost use Rattle.proof_kernel.specs.Atoms.{has_pair};

    ghost Value = { List AtomKind };

    ghost view = { λ a. a.list };

    ghost invariant = { λ a. (p : ℕ) (k : ℤ) → has_pair a.pairs p k ≡ list_any (is_at_most p k) a.list };
}

impl Atoms {
    /// Atoms with an index of the rows that bound one place from above.
    pub fn of(alloc: Global, list: Items<AtomKind>) -> Result<Atoms, AllocError>
        ensures { IfOk result (λ atoms. atoms ≡ list) }
    {
        let pairs = pairs_of(alloc, list.as_slice())?;
        Ok(Atoms { list, pairs })
    }

    /// All atoms, in the order of their numbers.
    pub fn as_slice(&self) -> &[AtomKind]
        ensures { result.now ≡ self.now }
    {
        self.list.as_slice()
    }

    /// How many atoms there are.
    pub fn len(&self) -> usize
        ensures { result ≡ length self.now }
    {
        self.list.len()
    }

    /// The atom of a number, counted from 0; none where there is no such number.
    pub fn get(&self, number: usize) -> Option<&AtomKind>
        ensures { option_copied result ≡ slice_get self.now number }
    {
        self.list.get(number)
    }

    /// Whether one of the atoms has exactly the row `place <= at`.
    pub fn has_at_most(&self, place: u32, at: &i128) -> bool
        ensures { result ≡ list_any (is_at_most place at.now) self.now }
    {
        has_pair(&self.pairs, place, at)
    }

    /// Adds an atom for a row.
    pub fn push(&mut self, row: Row) -> Result<(), AllocError>
        ensures ok { OnOk result (self.new ≡ self.old ++ OfRow row ∷ []) }
        ensures err { OnErr result (self.new ≡ self.old) }
    {
        let atom = AtomKind::Row(row);
        let pair = pair_of(&atom);
        make_room(&mut self.pairs)?;
        self.list.push(atom)?;
        note(&mut self.pairs, pair);
        Ok(())
    }
}

// The place and the bound of an atom whose row is `place <= at`.
fn pair_of(atom: &AtomKind) -> Option<(u32, i128)>
    ensures { result ≡ pair_of atom.now }
{
    let AtomKind::Row(row) = atom else {
        return None;
    };
    match row.terms() {
        [term] if term.coef == 1 => Some((term.place, row.bound())),
        _ => None,
    }
}

fn has_pair(pairs: &HashSet<(u32, i128)>, place: u32, at: &i128) -> bool
    ensures { result ≡ has_pair pairs.now place at.now }
{
    pairs.contains(&(place, *at))
}

// Room for one pair more.
fn make_room(pairs: &mut HashSet<(u32, i128)>) -> Result<(), AllocError>
    ensures same { (p : ℕ) (k : ℤ) → has_pair pairs.new p k ≡ has_pair pairs.old p k }
    ensures room { OnOk result (0 < room pairs.new) }
{
    pairs.reserve(1)
}

fn note(pairs: &mut HashSet<(u32, i128)>, pair: Option<(u32, i128)>)
    requires { 0 < room pairs.old }
    ensures { (p : ℕ) (k : ℤ) → has_pair pairs.new p k
        ≡ (has_pair pairs.old p k || is_pair pair p k) }
{
    if let Some(pair) = pair {
        let _ = pairs.insert(pair);
    }
}

fn pairs_of(alloc: Global, atoms: &[AtomKind]) -> Result<HashSet<(u32, i128)>, AllocError>
    ensures { IfOk result (λ pairs. (p : ℕ) (k : ℤ)
        → has_pair pairs p k ≡ list_any (is_at_most p k) atoms.now) }
{
    let mut pairs = HashSet::new(alloc);
    for atom in atoms {
        make_room(&mut pairs)?;
        note(&mut pairs, pair_of(atom));
    }
    Ok(pairs)
}
