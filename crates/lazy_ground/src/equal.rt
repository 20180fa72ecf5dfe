// The equality of two constants and of two tuples, over numbers that are known.
ghost use Rattle.std.specs.{Prelude.{◌≡◌, IfOk, IfSome}, List.{list_all}};
ghost use Rattle.ground_problem.specs.Symbols as symbols;
ghost use Rattle.ground_problem.specs.Equality as equality;
ghost use Rattle.ground_numbers.specs.{Numbered.{conjunction}, Numbers.{numbered}};
ghost use Rattle.ground_atoms.specs.Formulas.{form_of, tuples_equal};
ghost use Rattle.lazy_ground.specs.Equal.{equality_form, equality_known, all_known, fits};

use ground_atoms::{Atom, Atoms, GroundFormula, Places};
use items::Items;
use stage_defs::both;
use std::alloc::{AllocError, Global};

/// The equality of two constants: true where they are one, and else an atom by its number.
#[derive(Clone, Copy)]
pub enum ConstEquality {
    Same,
    Atom(u32),
}

/// At which places two tuples differ, and the numbers of the equalities there; `also` counts where there are two.
#[derive(Clone, Copy)]
pub struct TupleEquality {
    pub places: Places,
    pub equal: u32,
    pub also: u32,
}

// The atom of the equality of two constants, the lesser first.
fn number_of(atoms: &Atoms, lesser: u32, greater: u32) -> Option<ConstEquality>
    ensures { IfSome result (λ e. equality_form e
        ≡ numbered atoms.now.table (symbols.same lesser greater)) }
{
    match atoms.known_number(&Atom::Same(lesser, greater)) {
        Some(number) => Some(ConstEquality::Atom(number)),
        None => None,
    }
}

// The equality of two constants; nothing where it has no number.
fn consts_equal(atoms: &Atoms, left: u32, right: u32) -> Option<ConstEquality>
    ensures { IfSome result (λ e. equality_form e
        ≡ numbered atoms.now.table (symbols.same_const left right)) }
{
    if left == right {
        return Some(ConstEquality::Same);
    }
    if left < right {
        number_of(atoms, left, right)
    } else {
        number_of(atoms, right, left)
    }
}

// The equality of tuples of one place.
fn one_equal(atoms: &Atoms, a: u32, b: u32) -> Option<TupleEquality>
    ensures { IfSome result (λ e. tuples_equal e.places e.equal e.also
        ≡ numbered atoms.now.table (symbols.same_const a b)) }
{
    match consts_equal(atoms, a, b) {
        Some(ConstEquality::Atom(equal)) => Some(TupleEquality {
            places: Places::Only,
            equal,
            also: 0,
        }),
        _ => None,
    }
}

// The equality of two places.
fn both_places(first: ConstEquality, second: ConstEquality) -> Option<TupleEquality>
    ensures { IfSome result (λ e. tuples_equal e.places e.equal e.also
        ≡ conjunction (equality_form first) (equality_form second)) }
{
    let (places, equal, also) = match (first, second) {
        (ConstEquality::Atom(equal), ConstEquality::Atom(also)) => (Places::Both, equal, also),
        (ConstEquality::Atom(equal), ConstEquality::Same) => (Places::First, equal, 0),
        (ConstEquality::Same, ConstEquality::Atom(equal)) => (Places::Second, equal, 0),
        (ConstEquality::Same, ConstEquality::Same) => return None,
    };
    Some(TupleEquality {
        places,
        equal,
        also,
    })
}

// The equality of tuples of two places.
fn two_equal(atoms: &Atoms, a: u32, b: u32, c: u32, d: u32) -> Option<TupleEquality>
    ensures { IfSome result (λ e. tuples_equal e.places e.equal e.also
        ≡ conjunction (numbered atoms.now.table (symbols.same_const a b))
        (numbered atoms.now.table (symbols.same_const c d))) }
{
    let first = consts_equal(atoms, a, b)?;
    let second = consts_equal(atoms, c, d)?;
    both_places(first, second)
}

/// The equality of two tuples of one or two places; nothing where they are one tuple, or an equality of theirs has no number.
pub fn tuples_equality(atoms: &Atoms, left: &[u32], right: &[u32]) -> Option<TupleEquality>
    ensures { IfSome result (λ e. tuples_equal e.places e.equal e.also
        ≡ numbered atoms.now.table (symbols.all_parts (equality.tuples_same left.now right.now))) }
{
    match (left, right) {
        ([a], [b]) => one_equal(atoms, *a, *b),
        ([a, c], [b, d]) => two_equal(atoms, *a, *b, *c, *d),
        _ => None,
    }
}

// The equality of two constants, as a formula; nothing where it has no number.
fn place_equality(atoms: &Atoms, left: u32, right: u32) -> Option<GroundFormula>
    ensures { IfSome result (λ f. form_of f
        ≡ numbered atoms.now.table (symbols.same_const left right)) }
{
    match consts_equal(atoms, left, right) {
        Some(ConstEquality::Same) => Some(GroundFormula::Truth(true)),
        Some(ConstEquality::Atom(number)) => Some(GroundFormula::Lit(number, true)),
        None => None,
    }
}

// The same, joined to a formula before it.
fn with_place(
    atoms: &Atoms,
    alloc: Global,
    before: GroundFormula,
    left: u32,
    right: u32,
) -> Result<Option<GroundFormula>, AllocError>
    ensures { IfOk result (λ found. IfSome found (λ f. form_of f ≡ conjunction (form_of before)
        (numbered atoms.now.table (symbols.same_const left right)))) }
{
    match place_equality(atoms, left, right) {
        Some(part) => Ok(Some(both(alloc, before, part)?)),
        None => {
            drop(before);
            Ok(None)
        }
    }
}

/// The equality of two tuples of one length, place by place, joined from the left as the whole problem has it; nothing where they have
/// no places, or an equality of theirs has no number.
pub fn places_equality(
    atoms: &Atoms,
    alloc: Global,
    left: &[u32],
    right: &[u32],
) -> Result<Option<GroundFormula>, AllocError>
    ensures { IfOk result (λ found. IfSome found (λ f. form_of f
        ≡ numbered atoms.now.table (symbols.all_parts (equality.tuples_same left.now right.now)))) }
{
    let count = left.len();
    if count == 0 || count != right.len() {
        return Ok(None);
    }
    let mut done = place_equality(atoms, left[0], right[0]);
    for place in 1..count {
        let Some(before) = done else {
            return Ok(None);
        };
        done = with_place(atoms, alloc, before, left[place], right[place])?;
    }
    Ok(done)
}

// Whether the equality of two constants has a number; that of a constant with itself needs none.
fn is_equality_known(atoms: &Atoms, left: u32, right: u32) -> bool
    ensures { result ≡ equality_known atoms.now.table left right }
{
    if left == right {
        return true;
    }
    if left < right {
        atoms.is_known(&Atom::Same(left, right))
    } else {
        atoms.is_known(&Atom::Same(right, left))
    }
}

// Whether those of a constant with these have numbers.
fn are_known_with(atoms: &Atoms, constant: u32, constants: &[u32]) -> bool
    ensures { result ≡ list_all (equality_known atoms.now.table constant) constants.now }
{
    for other in constants {
        if !is_equality_known(atoms, constant, *other) {
            return false;
        }
    }
    true
}

/// Whether those of each two of these have numbers.
pub fn are_known(atoms: &Atoms, constants: &[u32]) -> bool
    ensures { result ≡ all_known atoms.now.table constants.now }
{
    for place in 0..constants.len() {
        let next = place + 1;
        if !are_known_with(atoms, constants[place], &constants[next..]) {
            return false;
        }
    }
    true
}

/// Whether at each place the equalities of each two of its constants have numbers.
pub fn are_all_known(atoms: &Atoms, columns: &[Items<u32>]) -> bool
    ensures { result ≡ list_all (all_known atoms.now.table) columns.now }
{
    for column in columns {
        if !are_known(atoms, column.as_slice()) {
            return false;
        }
    }
    true
}

// Whether a tuple has a constant of each place's at that place.
fn is_within(columns: &[Items<u32>], tuple: &[u32]) -> bool
    ensures { result ≡ fits columns.now tuple.now }
{
    if columns.len() != tuple.len() {
        return false;
    }
    for place in 0..columns.len() {
        if !columns[place].as_slice().contains(&tuple[place]) {
            return false;
        }
    }
    true
}

/// Whether each of these tuples has.
pub fn are_within(columns: &[Items<u32>], tuples: &[Items<u32>]) -> bool
    ensures { result ≡ list_all (fits columns.now) tuples.now }
{
    for tuple in tuples {
        if !is_within(columns, tuple.as_slice()) {
            return false;
        }
    }
    true
}
