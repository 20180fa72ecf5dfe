// Where the literals of a trail stand: by atom, the place of the oldest entry with the atom's literal of one sign.
ghost use Rattle.std.specs.Prelude.{◌≡◌, ◌<◌, ◌∷◌, ◌++◌, [], ℕ, true, false, None, OnOk, OnErr};
ghost use Rattle.std.specs.Prelude.{length, reverse, slice_index_or};
ghost use Rattle.sat_core.specs.{Trails.{in_trail}, Places.{lies_before, lies_from, ArePlaces}};

use crate::trail::Entry;
use std::alloc::AllocError;

/// The place of an atom's literal, if it has one.
pub(crate) fn place_at(places: &[Option<usize>], atom: u32) -> Option<usize>
    ensures { result ≡ slice_index_or places.now atom None }
{
    match places.get(atom as usize) {
        Some(place) => *place,
        None => None,
    }
}

/// Whether there is a place, and it lies before a number.
pub(crate) fn lies_before(end: usize, place: Option<usize>) -> bool
    ensures { result ≡ lies_before end place }
{
    match place {
        Some(place) => place < end,
        None => false,
    }
}

fn lies_from(start: usize, place: Option<usize>) -> bool
    ensures { result ≡ lies_from start place }
{
    match place {
        Some(place) => start <= place,
        None => false,
    }
}

// Makes room for the place of an atom's literal.
fn widen(places: &mut Vec<Option<usize>>, atom: u32) -> Result<(), AllocError>
    ensures kept { (a : ℕ) → slice_index_or places.new.items a None
        ≡ slice_index_or places.old.items a None }
    ensures wide { OnOk result (atom < length places.new.items) }
{
    while places.len() <= atom as usize {
        places.push(None)?;
    }
    Ok(())
}

// Adds an entry whose literal is new. A refused one leaves entries and places as they were.
fn enter_new(
    entries: &mut Vec<Entry>,
    places: &mut Vec<Option<usize>>,
    entry: Entry,
) -> Result<(), AllocError>
    requires new { in_trail (reverse entries.old.items) entry.lit ≡ false }
    requires places { ArePlaces places.old.items entry.lit.positive (reverse entries.old.items) }
    ensures ok { OnOk result ((entries.new.items ≡ entries.old.items ++ entry ∷ [])
        × ArePlaces places.new.items entry.lit.positive (entry ∷ reverse entries.old.items)) }
    ensures err { OnErr result ((entries.new.items ≡ entries.old.items)
        × ArePlaces places.new.items entry.lit.positive (reverse entries.old.items)) }
{
    widen(places, entry.lit.atom)?;
    let place = entries.len();
    entries.push(entry)?;
    places[entry.lit.atom as usize] = Some(place);
    Ok(())
}

/// Adds an entry. A refused one leaves entries and places as they were.
pub(crate) fn enter(
    entries: &mut Vec<Entry>,
    places: &mut Vec<Option<usize>>,
    entry: Entry,
) -> Result<(), AllocError>
    requires { ArePlaces places.old.items entry.lit.positive (reverse entries.old.items) }
    ensures ok { OnOk result ((entries.new.items ≡ entries.old.items ++ entry ∷ [])
        × ArePlaces places.new.items entry.lit.positive (entry ∷ reverse entries.old.items)) }
    ensures err { OnErr result ((entries.new.items ≡ entries.old.items)
        × ArePlaces places.new.items entry.lit.positive (reverse entries.old.items)) }
{
    if place_at(places.as_slice(), entry.lit.atom).is_some() {
        entries.push(entry)?;
        return Ok(());
    }
    enter_new(entries, places, entry)
}

/// Forgets the place of the literal of an entry that was the newest, where it has no older one.
pub(crate) fn leave(places: &mut Vec<Option<usize>>, rest: &[Entry], entry: Entry)
    requires { ArePlaces places.old.items entry.lit.positive (entry ∷ reverse rest.now) }
    ensures { ArePlaces places.new.items entry.lit.positive (reverse rest.now) }
{
    if lies_from(rest.len(), place_at(places.as_slice(), entry.lit.atom)) {
        places[entry.lit.atom as usize] = None;
    }
}
