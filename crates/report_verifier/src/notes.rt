// What is noted of the lines of a report that is held, so that they needn't be read again.
ghost use Rattle.std.specs.Prelude.{◌≡◌, List, ℕ, Some};
ghost use Rattle.report_verifier.specs.Notes.{IsPair};

use std::marker::Model;

/// The two clauses that a line of a log resolves.
#[derive(Clone, Copy)]
pub struct ResolvedPair {
    pub left: u32,
    pub right: u32,
}

/// What is noted of a line: the clauses that it resolves, where it was taken as such a line, and how long it is without its line feed.
/// It takes eight bytes: two clauses are noted of a line of 1 to 127 bytes whose first one is below 33,554,432. Contracts see it as a
/// `NoteForm`.
#[derive(Drop)]
pub struct LineNote {
    first: u32,
    second: u32,
}

impl Model for LineNote {
    ghost use Rattle.report_verifier.specs.Notes.{NoteForm, note_of};

    ghost Value = { NoteForm };

    ghost view = { λ n. note_of n.first n.second };
}

// The note of a line that resolves these clauses.
#[inline(always)]
fn pair_note(left: u32, right: u32, len: u32) -> LineNote
    ensures len { result.len ≡ len }
    ensures pair { (line : List ℕ) → IsPair (Some (record { left = left; right = right })) line
        → IsPair result.pair line }
{
    if len == 0 || len >= 128 || left >= 33_554_432 {
        return LineNote {
            first: 0,
            second: len,
        };
    }
    LineNote {
        first: left * 128 + len,
        second: right,
    }
}

impl LineNote {
    /// A note of a line that is so long, and of the clauses that it resolves.
    #[inline(always)]
    pub fn new(pair: Option<ResolvedPair>, len: u32) -> LineNote
        ensures len { result.len ≡ len }
        ensures pair { (line : List ℕ) → IsPair pair line → IsPair result.pair line }
    {
        match pair {
            Some(pair) => pair_note(pair.left, pair.right, len),
            None => LineNote {
                first: 0,
                second: len,
            },
        }
    }

    /// The clauses that it resolves, where they were noted.
    #[inline(always)]
    pub fn pair(&self) -> Option<ResolvedPair>
        ensures { result ≡ self.now.pair }
    {
        if self.first % 128 == 0 {
            return None;
        }
        Some(ResolvedPair {
            left: self.first / 128,
            right: self.second,
        })
    }

    /// How long it is.
    #[inline(always)]
    pub fn len(&self) -> usize
        ensures { result ≡ self.now.len }
    {
        if self.first % 128 == 0 {
            return self.second as usize;
        }
        (self.first % 128) as usize
    }
}
