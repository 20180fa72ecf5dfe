// What a state lists: a set of tuples for a relation, keys with values for a counter.
//
// Both are ordered maps, so a reading is a look-up, and going through them gives tuples and keys in rising order.

ghost use Rattle.std.specs.Prelude.{◌≡◌, [], OnOk, OnErr, IfOk, List, ℕ, ◌++◌, ◌||◌, cond, true};
ghost use Rattle.std.specs.{Prelude.{false, map}, Str.{bytes_eq}, List.{list_all, flat_map}};
ghost use Rattle.spec_core.specs.{State.{is_in, count_in, is_rising, listed_keys}, Truth.{int_eq}};
ghost use Rattle.spec_core.specs.Fits.{fits_places, in_state_range, is_counts};
ghost use Rattle.spec_states.specs.{StateText.{true_line, count_line}, Same.{agrees_at_keys}};

use crate::lines::{write_tuples, write_values};
use spec_core::World;
use std::alloc::{AllocError, Global};
use std::collections::{BTreeMap, BTreeSet};
use std::marker::Model;

/// A set of tuples.
#[derive(Drop)]
pub struct Tuples {
    keys: BTreeSet<Vec<u32>>,
    alloc: Global,
}

impl Model for Tuples {
    ghost use Rattle.std.specs.Prelude.{◌≡◌, List, ℕ, map, true};
    ghost use Rattle.spec_core.specs.State.{is_rising};

    ghost Value = { List (List ℕ) };

    ghost view = { λ a. map (λ k. k.items) a.keys.keys };

    ghost invariant = { λ a. is_rising (map (λ k. k.items) a.keys.keys) ≡ true };
}

fn all_tuples_fit(tuples: &BTreeSet<Vec<u32>>, world: &World, places: &[u8]) -> bool
    ensures { result ≡ list_all (λ k. fits_places world.now places.now k.items) tuples.now.keys }
{
    tuples
        .iter()
        .all(|tuple| world.has_tuple(places, tuple.as_slice()))
}

fn all_within(tuples: &BTreeSet<Vec<u32>>, other: &Tuples) -> bool
    ensures { result ≡ list_all (λ k. is_in k.items other.now) tuples.now.keys }
{
    tuples.iter().all(|tuple| other.has(tuple.as_slice()))
}

impl Tuples {
    /// No tuple.
    pub fn new(alloc: Global) -> Self
        ensures { result ≡ [] }
    {
        Tuples {
            keys: BTreeSet::new(alloc),
            alloc,
        }
    }

    /// Whether a tuple is listed.
    pub fn has(&self, tuple: &[u32]) -> bool
        ensures { result ≡ is_in tuple.now self.now }
    {
        self.keys.contains(tuple)
    }

    /// Whether the other set lists all these tuples.
    pub fn is_within(&self, other: &Tuples) -> bool
        ensures { result ≡ list_all (λ t. is_in t other.now) self.now }
    {
        all_within(&self.keys, other)
    }

    /// Whether all tuples hold elements of these sorts.
    pub fn fits(&self, world: &World, places: &[u8]) -> bool
        ensures { result ≡ list_all (λ t. fits_places world.now places.now t) self.now }
    {
        all_tuples_fit(&self.keys, world, places)
    }

    /// Appends a line for each tuple.
    pub fn write(&self, alloc: Global, name: &[u8], out: &mut Vec<u8>) -> Result<(), AllocError>
        ensures { OnOk result (out.new.items ≡ out.old.items
            ++ flat_map (true_line name.now) self.now) }
    {
        write_tuples(alloc, name, &self.keys, out)
    }

    /// Lists a tuple, or takes it from the list.
    pub fn set(&mut self, tuple: &[u32], value: bool) -> Result<(), AllocError>
        ensures rising { is_rising self.new ≡ true }
        ensures ok { OnOk result ((q : List ℕ)
            → is_in q self.new ≡ cond (bytes_eq q tuple.now) value (is_in q self.old)) }
        ensures err { OnErr result (self.new ≡ self.old) }
    {
        if value {
            self.add(tuple)
        } else {
            self.take(tuple);
            Ok(())
        }
    }

    fn add(&mut self, tuple: &[u32]) -> Result<(), AllocError>
        ensures rising { is_rising self.new ≡ true }
        ensures ok { OnOk result ((q : List ℕ)
            → is_in q self.new ≡ cond (bytes_eq q tuple.now) true (is_in q self.old)) }
        ensures err { OnErr result (self.new ≡ self.old) }
    {
        let own = Vec::from_slice(self.alloc, tuple)?;
        self.keys.insert(own)?;
        Ok(())
    }

    fn take(&mut self, tuple: &[u32])
        ensures rising { is_rising self.new ≡ true }
        ensures readings { (q : List ℕ) → is_in q self.new
            ≡ cond (bytes_eq q tuple.now) false (is_in q self.old) }
    {
        let _count = self.keys.len();
        let _was = self.keys.remove(tuple);
    }

    /// The same tuples again.
    pub fn copy(&self) -> Result<Tuples, AllocError>
        ensures { IfOk result (λ t. t ≡ self.now) }
    {
        Ok(Tuples {
            keys: self.keys.clone()?,
            alloc: self.alloc,
        })
    }
}

/// Keys with values, each from -10^15 to 10^15.
#[derive(Drop)]
pub struct Counts {
    entries: BTreeMap<Vec<u32>, i64>,
    alloc: Global,
}

impl Model for Counts {
    ghost use Rattle.std.specs.Prelude.{◌≡◌, List, ℕ, ℤ, map, true};
    ghost use Rattle.spec_core.specs.Fits.{is_counts};

    ghost Value = { List (List ℕ × ℤ) };

    ghost view = { λ a. map (λ e. (e.0.items, e.1)) a.entries.entries };

    ghost invariant = { λ a. is_counts (map (λ e. (e.0.items, e.1)) a.entries.entries) ≡ true };
}

fn all_keys_fit(entries: &BTreeMap<Vec<u32>, i64>, world: &World, sorts: &[u8]) -> bool
    ensures { result ≡ list_all (λ k. fits_places world.now sorts.now k.items)
        (map (λ e. e.0) entries.now.entries) }
{
    entries
        .keys()
        .all(|key| world.has_tuple(sorts, key.as_slice()))
}

fn is_same(a: i64, b: i64) -> bool
    ensures { result ≡ int_eq a b }
{
    a == b
}

fn have_one_value(one: &Counts, other: &Counts, key: &[u32]) -> bool
    ensures { result ≡ int_eq (count_in one.now key.now) (count_in other.now key.now) }
{
    is_same(one.count(key), other.count(key))
}

fn all_agree(entries: &BTreeMap<Vec<u32>, i64>, one: &Counts, other: &Counts) -> bool
    ensures { result ≡ list_all (λ k. int_eq (count_in one.now k.items)
        (count_in other.now k.items)) (map (λ e. e.0) entries.now.entries) }
{
    entries
        .keys()
        .all(|key| have_one_value(one, other, key.as_slice()))
}

impl Counts {
    /// No key.
    pub fn new(alloc: Global) -> Self
        ensures { result ≡ [] }
    {
        Counts {
            entries: BTreeMap::new(alloc),
            alloc,
        }
    }

    /// The value at a key; 0 where it isn't listed.
    pub fn count(&self, key: &[u32]) -> i64
        ensures { result ≡ count_in self.now key.now }
    {
        self.entries.get(key).copied().unwrap_or(0)
    }

    /// Whether both have one value at each of these keys.
    pub fn agrees(&self, other: &Counts) -> bool
        ensures { result ≡ agrees_at_keys self.now other.now }
    {
        all_agree(&self.entries, self, other)
    }

    /// Whether all keys hold elements of these sorts.
    pub fn fits(&self, world: &World, sorts: &[u8]) -> bool
        ensures { result ≡ list_all (λ e. fits_places world.now sorts.now e.0) self.now }
    {
        all_keys_fit(&self.entries, world, sorts)
    }

    /// Appends a line for each key whose value isn't 0.
    pub fn write(&self, alloc: Global, name: &[u8], out: &mut Vec<u8>) -> Result<(), AllocError>
        ensures { OnOk result (out.new.items ≡ out.old.items
            ++ flat_map (count_line name.now) self.now) }
    {
        write_values(alloc, name, &self.entries, out)
    }

    /// A fact for proofs: the keys rise, and the values are in range.
    pub fn stays_in_range(&self)
        ensures { is_counts self.now ≡ true }
    {
        let _entries = &self.entries;
    }

    /// Sets the value at a key.
    pub fn set(&mut self, key: &[u32], value: i64) -> Result<(), AllocError>
        requires { in_state_range value ≡ true }
        ensures counts { is_counts self.new ≡ true }
        ensures ok { OnOk result ((q : List ℕ)
            → count_in self.new q ≡ cond (bytes_eq q key.now) value (count_in self.old q)) }
        ensures listed { OnOk result ((q : List ℕ)
            → is_in q (listed_keys self.new) ≡ (bytes_eq q key.now
            || is_in q (listed_keys self.old))) }
        ensures err { OnErr result (self.new ≡ self.old) }
    {
        let own = Vec::from_slice(self.alloc, key)?;
        self.entries.insert(own, value)?;
        Ok(())
    }

    /// The same keys and values again.
    pub fn copy(&self) -> Result<Counts, AllocError>
        ensures { IfOk result (λ c. c ≡ self.now) }
    {
        Ok(Counts {
            entries: self.entries.clone()?,
            alloc: self.alloc,
        })
    }
}
