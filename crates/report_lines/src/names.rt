// Names, found by the place from which they are due.

ghost use Rattle.std.specs.Prelude.{◌≡◌, ◌<◌, ◌≤◌, List, ℕ, map, drop, length};
ghost use Rattle.report_lines.specs.{Formats.{place_from, among}, Words.{left, Gives}};

use crate::words::{ReadError, Words, next};
use spec_core::{Counter, Operation, Relation};

/// What has a name.
pub trait Named {
    ghost named: { Self → List ℕ };

    /// The bytes of its name.
    fn name(&self) -> &[u8]
        ensures { result.now ≡ named self.now };
}

impl Named for Relation {
    ghost named = { λ r. r.name };

    fn name(&self) -> &[u8] {
        self.name.bytes()
    }
}

impl Named for Counter {
    ghost named = { λ c. c.name };

    fn name(&self) -> &[u8] {
        self.name.bytes()
    }
}

impl Named for Operation {
    ghost named = { λ o. o.name };

    fn name(&self) -> &[u8] {
        self.name.bytes()
    }
}

// The first place, from one on, at which a thing has this name.
fn find<T: Named>(things: &[T], from: usize, name: &[u8]) -> Option<usize>
    ensures { result ≡ place_from from (drop from (map T.named things.now)) name.now }
{
    'places: for place in from..things.len() {
        if name == things[place].name() {
            return Some(place);
        }
    }
    None
}

/// One of some things by its name, from a place on.
pub fn name_among<'a, T: Named>(
    words: Words<'a>,
    things: &[T],
    from: u8,
) -> Result<(u8, Words<'a>), ReadError>
    requires few { length things.now ≤ 255 }
    ensures { Gives (λ x. (x.0, left x.1)) result
        ((among from (map T.named things.now)).get (left words.entry)) }
{
    let (word, rest) = next(words)?;
    match find(things, from as usize, word) {
        Some(place) => Ok((place as u8, rest)),
        None => Err(ReadError::Form),
    }
}
