// What names mean: an ordered map, so that a name is looked up without going through all.

ghost use Rattle.std.specs.Prelude.{◌≡◌, [], OnOk};
ghost use Rattle.typing_rules.specs.Scope.{with_name, sort_meant, const_meant, relation_meant};
ghost use Rattle.typing_rules.specs.Scope.{counter_meant, token_meant};
ghost use Rattle.spec_types.specs.faults.Names.{meaning_in};

use std::alloc::{AllocError, Global};
use std::collections::BTreeMap;
use std::marker::Model;
use typing_rules::Meaning;

/// Names, each with what it means.
#[derive(Drop)]
pub struct Names {
    entries: BTreeMap<Vec<u8>, Meaning>,
    alloc: Global,
}

impl Model for Names {
    ghost use Rattle.std.specs.Prelude.{List, ℕ, map};
    ghost use Rattle.typing_rules.specs.declared.meaning.Meaning.{Meaning};

    ghost Value = { List (List ℕ × Meaning) };

    ghost view = { λ a. map (λ e. (e.0.items, e.1)) a.entries.entries };
}

impl Names {
    /// No name.
    pub fn new(alloc: Global) -> Self
        ensures { result ≡ [] }
    {
        Names {
            entries: BTreeMap::new(alloc),
            alloc,
        }
    }

    /// What a name means, where it is there.
    pub fn get(&self, name: &[u8]) -> Option<Meaning>
        ensures { result ≡ meaning_in self.now name.now }
    {
        self.entries.get(name).copied()
    }

    /// Adds a name with what it means.
    pub fn add(&mut self, name: &[u8], meaning: Meaning) -> Result<(), AllocError>
        ensures { OnOk result (meaning_in self.new
            ≡ with_name (meaning_in self.old) name.now meaning) }
    {
        let own = Vec::from_slice(self.alloc, name)?;
        self.entries.insert(own, meaning)?;
        Ok(())
    }

    /// The place of the sort of this name.
    pub fn sort(&self, name: &[u8]) -> Option<u8>
        ensures { result ≡ sort_meant (meaning_in self.now name.now) }
    {
        match self.get(name) {
            Some(Meaning::Sort(place)) => Some(place),
            _ => None,
        }
    }

    /// The place of the constant of this name.
    pub fn constant(&self, name: &[u8]) -> Option<u8>
        ensures { result ≡ const_meant (meaning_in self.now name.now) }
    {
        match self.get(name) {
            Some(Meaning::Const(place)) => Some(place),
            _ => None,
        }
    }

    /// The place of the relation of this name.
    pub fn relation(&self, name: &[u8]) -> Option<u8>
        ensures { result ≡ relation_meant (meaning_in self.now name.now) }
    {
        match self.get(name) {
            Some(Meaning::Relation(place)) => Some(place),
            _ => None,
        }
    }

    /// The place of the counter of this name.
    pub fn counter(&self, name: &[u8]) -> Option<u8>
        ensures { result ≡ counter_meant (meaning_in self.now name.now) }
    {
        match self.get(name) {
            Some(Meaning::Counter(place)) => Some(place),
            _ => None,
        }
    }

    /// The place of the token of this name.
    pub fn token(&self, name: &[u8]) -> Option<u8>
        ensures { result ≡ token_meant (meaning_in self.now name.now) }
    {
        match self.get(name) {
            Some(Meaning::Token(place)) => Some(place),
            _ => None,
        }
    }
}
