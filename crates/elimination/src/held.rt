// The rows that are held, with an index by which a row is found among them, and one by which the rows of a place are found.
//
// A row has a fingerprint, and the index has the number of a row for each fingerprint of a held row. A row whose fingerprint isn't there
// isn't held; one whose fingerprint is there is mostly the row of that number. Where two rows have one fingerprint, which is rare,
// all rows are compared. The other index has for each place the numbers of the rows that name it.
ghost use Rattle.std.specs.Prelude.{◌≡◌, ℕ, ◌<◌, ◌||◌, ◌==◌, cond, true, length, OnErr, OnOk, Some};
ghost use Rattle.std.specs.{Prelude.{is_some, [], ◌∷◌, ◌++◌}, List.{list_any}};
ghost use Rattle.line_rows.specs.{Evidence.{same_row}, Steps.{row_at}};
ghost use Rattle.proof_lines.specs.Numbers.{stands_in};
ghost use Rattle.elimination.specs.Fingerprints.{fingerprint, fingerprint_limit, found, mixed};
ghost use Rattle.elimination.specs.{Fingerprints.{number_part}, Naming.{KeepsLists, lists}};
ghost use Rattle.elimination.specs.Places.{names};

use crate::counts::Counts;
use crate::naming::{list_all, numbers_at};
use items::Items;
use lin_rows::{Row, RowTerm};
use line_rows::evidence::same_row;
use line_rows::splitting::is_negative;
use std::alloc::{AllocError, Global};
use std::collections::HashMap;
use std::marker::Model;

/// A list of rows. Contracts see the list.
#[derive(Drop)]
pub struct Held {
    rows: Items<Row>,
    numbers: HashMap<u64, u32>,
    by_place: Vec<Items<u32>>,
    counts: Counts,
}

impl Model for Held {
    ghost use Rattle.std.specs.Prelude.{List, ℕ, ◌≡◌, ◌<◌, true, length, is_some};
    ghost use Rattle.lin_rows.specs.Rows.{Row};
    ghost use Rattle.line_rows.specs.Steps.{row_at};
    ghost use Rattle.elimination.specs.{Fingerprints.{fingerprint, found}, Naming.{IsNaming}};

    ghost Value = { List Row };

    ghost view = { λ a. a.rows };

    ghost invariant = { λ a. ((i : ℕ) → i < length a.rows
        → is_some (found a.numbers (fingerprint (row_at a.rows i))) ≡ true)
        × IsNaming a.rows a.by_place.items };
}

impl Held {
    /// No rows.
    pub fn new(alloc: Global) -> Held
        ensures { result ≡ [] }
    {
        Held {
            rows: Items::new(alloc),
            numbers: HashMap::new(alloc),
            by_place: Vec::new(alloc),
            counts: Counts::new(alloc),
        }
    }

    /// The rows, in the order in which they were added.
    pub fn as_slice(&self) -> &[Row]
        ensures { result.now ≡ self.now }
    {
        self.rows.as_slice()
    }

    /// How many rows there are.
    pub fn len(&self) -> usize
        ensures { result ≡ length self.now }
    {
        self.rows.len()
    }

    /// Adds a row at the end.
    pub fn push(&mut self, alloc: Global, row: Row) -> Result<(), AllocError>
        ensures { OnOk result (self.new ≡ self.old ++ row ∷ []) }
    {
        let number = self.rows.len();
        if number > u32::MAX as usize {
            return Err(AllocError);
        }
        enter(
            alloc,
            &mut self.numbers,
            &mut self.by_place,
            &mut self.counts,
            number as u32,
            &row,
        )?;
        self.rows.push(row)
    }

    /// Numbers of rows, among them that of each row that names a place.
    pub fn naming(&self, place: u32) -> &[u32]
        ensures { (i : ℕ) → i < length self.now → names place (row_at self.now i) ≡ true
            → stands_in result.now i ≡ true }
    {
        numbers_at(self.by_place.as_slice(), place)
    }

    // How many pairs of an upper and a lower row a place has, of those that aren't set aside.
    pub(crate) fn pairs(&self, place: u32) -> u64 {
        self.counts.pairs(place)
    }

    /// Rows of a place that is eliminated no longer count for the pairs of another one.
    pub fn set_aside(&mut self, numbers: &[u32])
        ensures { self.new ≡ self.old }
    {
        self.counts.set_aside(self.rows.as_slice(), numbers);
    }

    /// Whether a row is among them.
    pub fn has(&self, row: &Row) -> bool
        ensures { result ≡ list_any (λ r. same_row r row.now) self.now }
    {
        let rows = self.rows.as_slice();
        match find(&self.numbers, fingerprint(row)) {
            None => false,
            Some(number) => is_at(rows, number, row) || is_among(rows, row),
        }
    }
}

fn is_among(rows: &[Row], row: &Row) -> bool
    ensures { result ≡ list_any (λ r. same_row r row.now) rows.now }
{
    rows.iter().any(|other| same_row(other, row))
}

// Whether a row is the one of a number; then it is among all.
fn is_at(rows: &[Row], number: u32, row: &Row) -> bool
    ensures { result ≡ true → list_any (λ r. same_row r row.now) rows.now ≡ true }
{
    match rows.get(number as usize) {
        Some(other) => same_row(other, row),
        None => false,
    }
}

fn find(numbers: &HashMap<u64, u32>, key: u64) -> Option<u32>
    ensures { result ≡ found numbers.now key }
{
    numbers.get(&key).copied()
}

fn note(numbers: &mut HashMap<u64, u32>, key: u64, number: u32) -> Result<(), AllocError>
    ensures noted { OnOk result ((q : ℕ) → found numbers.new q
        ≡ cond (key == q) (Some number) (found numbers.old q)) }
    ensures kept { OnErr result ((q : ℕ) → found numbers.new q ≡ found numbers.old q) }
{
    numbers.insert(key, number)?;
    Ok(())
}

// Enters a row into the indexes.
fn enter(
    alloc: Global,
    numbers: &mut HashMap<u64, u32>,
    by_place: &mut Vec<Items<u32>>,
    counts: &mut Counts,
    number: u32,
    row: &Row,
) -> Result<(), AllocError>
    ensures numbers_kept { (q : ℕ) → is_some (found numbers.old q) ≡ true
        → is_some (found numbers.new q) ≡ true }
    ensures lists_kept { KeepsLists by_place.old.items by_place.new.items }
    ensures numbered { OnOk result (is_some (found numbers.new (fingerprint row.now)) ≡ true) }
    ensures listed { OnOk result ((q : ℕ) → names q row.now ≡ true
        → lists by_place.new.items q number ≡ true) }
{
    note(numbers, fingerprint(row), number)?;
    list_all(alloc, by_place, row.terms(), number)?;
    counts.add(row.terms())
}

fn number_part(a: &i128) -> u64
    ensures value { result ≡ number_part a.now }
    ensures few { result < 4294967296 }
{
    let part = (a.unsigned_abs() % 2_147_483_647) as u64;
    if is_negative(a) {
        part + 1_000_003
    } else {
        part
    }
}

fn mixed(so_far: u64, term: &RowTerm) -> u64
    requires { so_far < fingerprint_limit }
    ensures value { result ≡ mixed so_far term.now }
    ensures below { result < fingerprint_limit }
{
    (so_far * 65_599 + (u64::from(term.place) + number_part(&term.coef))) % 2_147_483_647
}

// A number that equal rows share, and different ones seldom.
#[tactic(auto, unfolding(crate::specs::Fingerprints::fingerprint))]
fn fingerprint(row: &Row) -> u64
    ensures { result ≡ fingerprint row.now }
{
    let mut so_far = number_part(&row.bound()) % 2_147_483_647;
    for term in row.terms() {
        so_far = mixed(so_far, term);
    }
    so_far
}
