// What is suggested for specifications, and what the bare and the keyed ones are.

ghost use Rattle.std.specs.Prelude.{◌≡◌};
ghost use Rattle.spec_core.specs.Typed.{same_sort as same_sort_of, sort_of_kind as sort_of_kind_of};
ghost use Rattle.conflict_variants.specs.Keyed.{sort_of_parameter as sort_of_parameter_of};

use crate::examples::{
    BANK_SUGGESTION, KEPT, KEPT_BEFORE, KEPT_BEHIND, NAMED, NAMED_SUGGESTION, SETS_SUGGESTION,
    SHOP_SUGGESTION, TOURNAMENTS_SUGGESTION, VAST,
};
use crate::running::{reading_of, spec_of, suggested};
use conflict_variants::{bare, keyed};
use example_specs::{PURSES, SETS, SHOP, TOURNAMENTS, WITHDRAWALS};
use spec_core::{Elem, Kind, Spec};
use std::alloc::Global;
use std::process::Abort;
use suggest::{PairAnswer, SuggestTally, pairs};

/// Whether this text is suggested for a specification, and so many pairs are needed, free and unknown.
fn is_suggested(
    rt: &impl Abort,
    alloc: Global,
    text: &[u8],
    counts: SuggestTally,
    suggestion: &[u8],
) -> bool {
    let reading = reading_of(rt, alloc, text);
    let spec = spec_of(rt, &reading);
    let (found, tally) = suggested(rt, alloc, spec, 10_000);
    reading.let_go();
    let same = found.as_slice() == suggestion && tally == counts;
    drop(found);
    same
}

const ONE_OF_THREE: SuggestTally = SuggestTally {
    needed: 1,
    free: 2,
    unknown: 0,
};

/// A specification, how many of its pairs are needed, free and unknown, and the suggestion for it.
type Row = (&'static [u8], SuggestTally, &'static [u8]);

static ROWS: &[Row] = &[
    (WITHDRAWALS, ONE_OF_THREE, BANK_SUGGESTION),
    // the same with tokens
    (PURSES, ONE_OF_THREE, BANK_SUGGESTION),
    (SETS, ONE_OF_THREE, SETS_SUGGESTION),
    // names that are in use
    (NAMED, ONE_OF_THREE, NAMED_SUGGESTION),
    (
        TOURNAMENTS,
        SuggestTally {
            needed: 6,
            free: 15,
            unknown: 0,
        },
        TOURNAMENTS_SUGGESTION,
    ),
    // modes
    (
        SHOP,
        SuggestTally {
            needed: 2,
            free: 4,
            unknown: 0,
        },
        SHOP_SUGGESTION,
    ),
];

#[test]
fn suggests_what_must_conflict(rt: HostRuntime) {
    for (text, counts, suggestion) in ROWS {
        let same = is_suggested(&rt, rt.alloc(), text, *counts, suggestion);
        assert!(rt; same);
    }
}

/// Whether what is suggested begins and ends so, and so many pairs are needed, free and unknown.
fn is_between(
    rt: &impl Abort,
    alloc: Global,
    text: &[u8],
    counts: SuggestTally,
    before: &[u8],
    behind: &[u8],
) -> bool {
    let reading = reading_of(rt, alloc, text);
    let spec = spec_of(rt, &reading);
    let (found, tally) = suggested(rt, alloc, spec, 10_000);
    reading.let_go();
    let same = tally == counts
        && found.as_slice().starts_with(before)
        && found.as_slice().ends_with(behind);
    drop(found);
    same
}

#[test]
fn leaves_a_pair_unknown(rt: HostRuntime) {
    let counts = SuggestTally {
        needed: 0,
        free: 2,
        unknown: 1,
    };
    let before = b"cise suggest 1
pairs 3
free big big
unknown big less
stable big 2 less
undecided range ";
    let behind = b"
free less less
summary needed 0 free 2 unknown 1
undecided
";
    assert!(rt; is_between(&rt, rt.alloc(), VAST, counts, before, behind));
}

#[test]
fn leaves_it_open_whether_parameters_are_enough(rt: HostRuntime) {
    let (before, behind) = (KEPT_BEFORE, KEPT_BEHIND);
    assert!(rt; is_between(&rt, rt.alloc(), KEPT, ONE_OF_THREE, before, behind));
}

/// Whether the answers are for three pairs, of which the second alone is tried at parameters, once.
fn are_keyed_once(answers: &[PairAnswer]) -> bool {
    match answers {
        [first, second, third] => {
            first.keys.is_empty() && second.keys.len() == 1 && third.keys.is_empty()
        }
        _ => false,
    }
}

#[test]
fn answers_each_pair(rt: HostRuntime) {
    let alloc = rt.alloc();
    let reading = reading_of(&rt, alloc, SETS);
    let spec = spec_of(&rt, &reading);
    let answers = pairs(alloc, spec, 10_000).expect(&rt, "memory");
    let good = are_keyed_once(answers.as_slice());
    drop(answers);
    reading.let_go();
    assert!(rt; good);
}

/// Whether the operation at a place has so many takes lines and observes lines.
fn has_lines(spec: &Spec, place: usize, takes: usize, observes: usize) -> bool {
    match spec.operations.as_slice().get(place) {
        Some(operation) => operation.takes.len() == takes && operation.observes.len() == observes,
        None => false,
    }
}

#[test]
fn makes_bare_specifications(rt: HostRuntime) {
    let alloc = rt.alloc();
    let reading = reading_of(&rt, alloc, SHOP);
    let shop = spec_of(&rt, &reading);
    let none = bare(alloc, shop).expect(&rt, "memory");
    reading.let_go();
    let is_bare = none.version == 2
        && none.tokens.is_empty()
        && none.rules.is_empty()
        && has_lines(&none, 0, 0, 0)
        && has_lines(&none, 1, 0, 0)
        && has_lines(&none, 2, 0, 1);
    drop(none);
    assert!(rt; is_bare);
}

fn sort_of_kind(kind: Kind) -> Option<u8>
    ensures { result ≡ sort_of_kind_of kind }
{
    match kind {
        Kind::Sort(sort) => Some(sort),
        Kind::Int => None,
    }
}

/// The sort of a parameter of an operation; none where there is no such parameter or it is a number.
fn sort_of_parameter(spec: &Spec, op: u8, param: u8) -> Option<u8>
    ensures { result ≡ sort_of_parameter_of spec.now op param }
{
    match spec.operations.as_slice().get(op as usize) {
        Some(operation) => match operation.params.as_slice().get(param as usize) {
            Some(found) => sort_of_kind(found.kind),
            None => None,
        },
        None => None,
    }
}

/// Whether there is a first sort, and it is the second.
fn same_sort(one: Option<u8>, other: Option<u8>) -> bool
    ensures { result ≡ same_sort_of one other }
{
    match one {
        Some(sort) => match other {
            Some(found) => found == sort,
            None => false,
        },
        None => false,
    }
}

/// Whether the first parameters of two operations have one sort.
fn have_one_sort(spec: &Spec, first: u8, second: u8) -> bool
    ensures { result ≡ same_sort_of (sort_of_parameter_of spec.now first 0)
        (sort_of_parameter_of spec.now second 0) }
{
    same_sort(
        sort_of_parameter(spec, first, 0),
        sort_of_parameter(spec, second, 0),
    )
}

/// Whether the operation at a place has one takes line: this token, alone, at the first parameter.
fn takes_first(spec: &Spec, place: usize, token: u8) -> bool {
    let Some(operation) = spec.operations.as_slice().get(place) else {
        return false;
    };
    match operation.takes.as_slice() {
        [take] => {
            let at_first = match take.args.as_slice() {
                [Elem::Param(param)] => *param == 0,
                _ => false,
            };
            at_first && take.token == token && !take.shared
        }
        _ => false,
    }
}

#[test]
fn makes_keyed_specifications(rt: HostRuntime) {
    let alloc = rt.alloc();
    let reading = reading_of(&rt, alloc, PURSES);
    let bank = spec_of(&rt, &reading);
    assert!(rt; 1 < bank.operations.len());
    assert!(rt; have_one_sort(bank, 0, 1));
    let both = keyed(alloc, bank, 0, 0, 1, 0).expect(&rt, "memory");
    reading.let_go();
    let is_keyed = both.tokens.len() == 2
        && both.rules.len() == 1
        && takes_first(&both, 0, 0)
        && takes_first(&both, 1, 1);
    drop(both);
    assert!(rt; is_keyed);
}
