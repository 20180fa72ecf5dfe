// The bank's specification, which its program makes as a record, beside a text of it.

use crate::reading::{reading_of, spec_of};
use crate::sameness::same_spec;
use bank_host::bank_spec;
use std::alloc::{AllocError, Global};
use std::process::Abort;

/// The text of examples/bank/accepted.cise.
const BANK: &[u8] =
    b"# The same bank, where a withdrawal takes the purse of its account, and two takings of one purse conflict: the later one has to know of the
# earlier one.
cise 1

sort Account
counter balance ( Account )
token purse ( Account )
conflict purse ( x ) purse ( x )

invariant solvent forall a : Account . ( balance ( a ) >= 0 )

operation deposit ( a : Account , n : int )
  requires ( n >= 0 )
  add balance ( a ) n
end

operation withdraw ( a : Account , n : int )
  requires ( n >= 0 )
  requires ( balance ( a ) >= n )
  add balance ( a ) - n
  takes purse ( a )
end
";

/// A line of that text, counted from 0, with another one in its place.
#[derive(Clone, Copy)]
struct Changed {
    line: usize,
    to: &'static [u8],
}

const CHANGED: [Changed; 8] = [
    Changed {
        line: 5,
        to: b"counter balance ( Account ) initially balance 1",
    },
    Changed {
        line: 7,
        to: b"conflict purse ( x ) purse ( y )",
    },
    Changed {
        line: 9,
        to: b"invariant solvent forall a : Account . ( balance ( a ) > 0 )",
    },
    Changed {
        line: 11,
        to: b"operation deposit ( a : Account , m : int , n : int )",
    },
    Changed {
        line: 13,
        to: b"  add balance ( a ) 2 * n",
    },
    Changed {
        line: 18,
        to: b"  requires ( balance ( a ) >= 2 * n )",
    },
    Changed {
        line: 19,
        to: b"  add balance ( a ) n",
    },
    Changed { line: 20, to: b"" },
];

/// The text with that line in place of its own.
fn text_with(alloc: Global, changed: Changed) -> Result<Vec<u8>, AllocError> {
    let mut text = Vec::new(alloc);
    let mut number = 0usize;
    for line in BANK.split(|byte| *byte == b'\n') {
        text.extend_from_slice(if number == changed.line {
            changed.to
        } else {
            line
        })?;
        text.push(b'\n')?;
        number = number.saturating_add(1);
    }
    Ok(text)
}

/// Whether the bank's record is what a text says.
fn is_the_bank(rt: &impl Abort, alloc: Global, text: &[u8]) -> bool {
    let reading = reading_of(rt, alloc, text);
    let written = spec_of(rt, &reading);
    let made = bank_spec(alloc).expect(rt, "memory");
    let same = same_spec(written, &made);
    reading.let_go();
    drop(made);
    same
}

#[test]
fn the_record_is_what_the_text_says(rt: HostRuntime) {
    let same = is_the_bank(&rt, rt.alloc(), BANK);
    assert!(rt; same);
}

#[test]
fn with_another_line_it_is_not(rt: HostRuntime) {
    for changed in &CHANGED {
        let text = text_with(rt.alloc(), *changed).expect(&rt, "memory");
        let same = is_the_bank(&rt, rt.alloc(), text.as_slice());
        assert!(rt; !same);
    }
}
