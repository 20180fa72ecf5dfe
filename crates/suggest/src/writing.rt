// The text of an answer.

ghost use Rattle.std.specs.Prelude.{◌≡◌, ◌++◌, ◌∷◌, [], suc, length, codes, OnOk, IfOk};
ghost use Rattle.std.specs.List.{Contains};
ghost use Rattle.obligation_list.specs.Obligations.{IsObligation};
ghost use Rattle.proof_report.specs.Texts.{block_text, CanStand};
ghost use Rattle.conflict_variants.specs.{Bare.{bare as bare_of}, Keyed.{CanBeKeyed}};
ghost use Rattle.report_lines.specs.Words.{line_text};
ghost use Rattle.suggest.specs.Pairs.{pairs_of, keys_of};
ghost use Rattle.suggest.specs.Answers.{HaveLogs, is_refuted as is_refuted_of, keys_after};
ghost use Rattle.suggest.specs.Answers.{with_answer};
ghost use Rattle.suggest.specs.Texts.{param_name as param_name_of, found_text};
ghost use Rattle.suggest.specs.Texts.{pair_word as pair_word_of, key_word as key_word_of};
ghost use Rattle.suggest.specs.Texts.{head_text, end_text, last_word as last_word_of};
ghost use Rattle.suggest.specs.Writing.{CanBeWritten, IsKeyAppended, AreKeysAppended, draft};
ghost use Rattle.suggest.specs.Writing.{IsBareAppended, IsPairAppended};
ghost use Rattle.suggest.specs.{declared.answer.Key.{Key}, declared.answer.Found.{Found}};

use crate::answer::{Found, Key, SuggestTally};
use crate::finding::{find_bare, find_in};
use crate::known::Known;
use crate::listing::list_keys;
use crate::question::{Question, keyed_at};
use items::Items;
use itoa::Buffer;
use obligation_list::Obligation;
use proof_report::{Verdict, write_verdict};
use report_lines::verdict::operation_name;
use report_lines::writing::write_words;
use spec_core::Spec;
use std::alloc::{AllocError, Global};

// ---- blocks

fn write_block(
    alloc: Global,
    spec: &Spec,
    ob: Obligation,
    verdict: Verdict,
    text: &mut Vec<u8>,
) -> Result<(), AllocError>
    requires obligation { IsObligation spec.now ob }
    requires verdict { CanStand spec.now verdict }
    ensures { OnOk result (text.new.items ≡ text.old.items ++ block_text spec.now ob verdict) }
{
    or_drop!(write_verdict(alloc, spec, ob, &verdict, text); verdict);
    drop(verdict);
    Ok(())
}

fn write_found(
    alloc: Global,
    spec: &Spec,
    found: Found,
    text: &mut Vec<u8>,
) -> Result<(), AllocError>
    requires { CanBeWritten spec.now found }
    ensures { OnOk result (text.new.items ≡ text.old.items ++ found_text spec.now found) }
{
    match found {
        Found::Proved => Ok(()),
        Found::Refuted(ob, witness) => {
            write_block(alloc, spec, ob, Verdict::Refuted(witness), text)
        }
        Found::Undecided(ob, cause) => {
            write_block(alloc, spec, ob, Verdict::Undecided(cause), text)
        }
    }
}

// ---- words

fn pair_word(found: &Found) -> &'static [u8]
    ensures { result.now ≡ pair_word_of found.now }
{
    match found {
        Found::Proved => b"free",
        Found::Refuted(_, _) => b"needed",
        Found::Undecided(_, _) => b"unknown",
    }
}

fn key_word(found: &Found) -> &'static [u8]
    ensures { result.now ≡ key_word_of found.now }
{
    match found {
        Found::Proved => b"by",
        Found::Refuted(_, _) => b"notby",
        Found::Undecided(_, _) => b"openby",
    }
}

fn param_name<'a>(spec: &'a Spec, op: u8, param: u8) -> &'a [u8]
    ensures { result.now ≡ param_name_of spec.now op param }
{
    match spec.operations.as_slice().get(op as usize) {
        Some(operation) => match operation.params.as_slice().get(param as usize) {
            Some(found) => found.name.bytes(),
            None => &[],
        },
        None => &[],
    }
}

// ---- keyed specifications

// Decides a pair at two parameters, and writes the answer.
fn write_key(
    question: &Question,
    key: Key,
    free: &[Obligation],
    known: &mut Known,
    text: &mut Vec<u8>,
) -> Result<(), AllocError>
    requires keyed { let asked = question.now in
        CanBeKeyed asked.spec.now asked.pair.first key.p asked.pair.second key.q }
    requires free { HaveLogs (bare_of question.now.spec.now) question.now.budget free.now }
    ensures { let asked = question.now in OnOk result
        (IsKeyAppended asked.spec.now asked.budget asked.pair key text.old.items text.new.items) }
{
    let pair = question.pair;
    let keyed = keyed_at(known.alloc, question, key)?;
    let found = or_drop!(find_in(&keyed, question.budget, pair, free, known); keyed);
    let first = param_name(question.spec, pair.first, key.p);
    let second = param_name(question.spec, pair.second, key.q);
    or_drop!(write_words(text, key_word(&found), &[first, second]); keyed, found);
    or_drop!(write_found(known.alloc, &keyed, found, text); keyed);
    drop(keyed);
    Ok(())
}

fn write_keys(
    question: &Question,
    keys: &[Key],
    free: &[Obligation],
    known: &mut Known,
    text: &mut Vec<u8>,
) -> Result<(), AllocError>
    requires keyed { let asked = question.now in (k : Key) → Contains keys.now k
        → CanBeKeyed asked.spec.now asked.pair.first k.p asked.pair.second k.q }
    requires free { HaveLogs (bare_of question.now.spec.now) question.now.budget free.now }
    ensures { let asked = question.now in OnOk result
        (AreKeysAppended asked.spec.now asked.budget asked.pair keys.now text.old.items
        text.new.items) }
{
    for key in keys {
        write_key(question, *key, free, known, text)?;
    }
    Ok(())
}

// Decides a needed pair at each two parameters of one sort, and writes the answers; a pair that isn't needed has none.
fn write_keys_after(
    question: &Question,
    needed: bool,
    free: &[Obligation],
    known: &mut Known,
    text: &mut Vec<u8>,
) -> Result<(), AllocError>
    requires free { HaveLogs (bare_of question.now.spec.now) question.now.budget free.now }
    ensures { let asked = question.now in OnOk result
        ((f : Found) → needed ≡ is_refuted_of f
        → AreKeysAppended asked.spec.now asked.budget asked.pair
        (keys_after f (keys_of asked.spec.now asked.pair.first asked.pair.second))
        text.old.items text.new.items) }
{
    if !needed {
        return Ok(());
    }
    let keys = list_keys(known.alloc, question.spec, question.pair)?;
    or_drop!(write_keys(question, keys.as_slice(), free, known, text); keys);
    drop(keys);
    Ok(())
}

// ---- pairs

/// Whether some obligation of a pair was refuted, so that the pair is needed, or its parameters aren't enough. One that is undecided is
/// not refuted.
pub fn is_refuted(found: &Found) -> bool
    ensures { result ≡ is_refuted_of found.now }
{
    match found {
        Found::Proved => false,
        Found::Refuted(_, _) => true,
        Found::Undecided(_, _) => false,
    }
}

// A count with one more; as want of memory where there are 2^32 - 1, which no list of pairs has.
fn one_more(count: u32) -> Result<u32, AllocError>
    ensures { IfOk result (λ n. n ≡ suc count) }
{
    match count.checked_add(1) {
        Some(more) => Ok(more),
        None => Err(AllocError),
    }
}

// A tally with one more answer.
fn with_found(tally: SuggestTally, found: &Found) -> Result<SuggestTally, AllocError>
    ensures { IfOk result (λ now. now ≡ with_answer found.now tally) }
{
    let mut now = tally;
    match found {
        Found::Proved => now.free = one_more(tally.free)?,
        Found::Refuted(_, _) => now.needed = one_more(tally.needed)?,
        Found::Undecided(_, _) => now.unknown = one_more(tally.unknown)?,
    }
    Ok(now)
}

// Writes what a pair comes to in the bare specification, and counts it. Answers whether it is needed, and the tally. Obligations that were
// proved are added to a list.
fn write_bare(
    question: &Question,
    tally: SuggestTally,
    known: &mut Known,
    proved: &mut Items<Obligation>,
    text: &mut Vec<u8>,
) -> Result<(bool, SuggestTally), AllocError>
    requires proved { HaveLogs (bare_of question.now.spec.now) question.now.budget proved.old }
    ensures text { let asked = question.now in IfOk result
        (λ x. IsBareAppended asked.spec.now asked.budget asked.pair (draft tally text.old.items) x.0
        (draft x.1 text.new.items)) }
    ensures proved { OnOk result
        (HaveLogs (bare_of question.now.spec.now) question.now.budget proved.new) }
{
    let pair = question.pair;
    let found = find_bare(question.bare, question.budget, pair, known, proved)?;
    let needed = is_refuted(&found);
    let now = or_drop!(with_found(tally, &found); found);
    let first = operation_name(question.spec, pair.first);
    let second = operation_name(question.spec, pair.second);
    or_drop!(write_words(text, pair_word(&found), &[first, second]); found);
    write_found(known.alloc, question.bare, found, text)?;
    Ok((needed, now))
}

/// Decides a pair, in the bare specification and, where it is needed, in each keyed one; appends the answer's text, and counts it.
pub fn write_pair(
    alloc: Global,
    question: &Question,
    tally: SuggestTally,
    text: &mut Vec<u8>,
) -> Result<SuggestTally, AllocError>
    ensures { let asked = question.now in IfOk result
        (λ now. IsPairAppended asked.spec.now asked.budget asked.pair (draft tally text.old.items)
        (draft now text.new.items)) }
{
    let mut known = Known::new(alloc);
    let mut proved = Items::new(alloc);
    let written = or_drop!(
        write_bare(question, tally, &mut known, &mut proved, text);
        known, proved
    );
    or_drop!(
        write_keys_after(question, written.0, proved.as_slice(), &mut known, text);
        known, proved
    );
    drop(known);
    drop(proved);
    Ok(written.1)
}

// ---- the lines before and behind

/// Appends the lines before the pairs.
pub fn write_head(spec: &Spec, pairs: usize, text: &mut Vec<u8>) -> Result<(), AllocError>
    requires { pairs ≡ length (pairs_of spec.now) }
    ensures { OnOk result (text.new.items ≡ text.old.items ++ head_text spec.now) }
{
    let mut buffer = Buffer::new();
    let count = buffer.format(pairs).as_bytes();
    write_words(text, b"cise", &[b"suggest", b"1"])?;
    write_words(text, b"pairs", &[count])
}

fn last_word(unknown: u32) -> &'static [u8]
    ensures { result.now ≡ last_word_of unknown }
{
    if unknown == 0 {
        b"complete"
    } else {
        b"undecided"
    }
}

fn write_counts(
    needed: &[u8],
    free: &[u8],
    unknown: &[u8],
    text: &mut Vec<u8>,
) -> Result<(), AllocError>
    ensures { OnOk result
        (text.new.items
        ≡ text.old.items
        ++ line_text
        (codes "summary" ∷ codes "needed" ∷ needed.now ∷ codes "free" ∷ free.now ∷ codes "unknown"
        ∷ unknown.now ∷ [])) }
{
    write_words(
        text,
        b"summary",
        &[b"needed", needed, b"free", free, b"unknown", unknown],
    )
}

/// Appends the lines behind the pairs.
pub fn write_end(tally: SuggestTally, text: &mut Vec<u8>) -> Result<(), AllocError>
    ensures { OnOk result (text.new.items ≡ text.old.items ++ end_text tally) }
{
    let mut first = Buffer::new();
    let mut second = Buffer::new();
    let mut third = Buffer::new();
    let needed = first.format(tally.needed).as_bytes();
    let free = second.format(tally.free).as_bytes();
    let unknown = third.format(tally.unknown).as_bytes();
    write_counts(needed, free, unknown, text)?;
    write_words(text, last_word(tally.unknown), &[])
}
