// Which words are accepted.
use crate::running::{ends_with, run_on};
use example_specs::{FLAG, NO_FLAG};
use std::alloc::Global;
use std::process::Abort;

/// Words that ask for nothing: other commands, and other numbers of words.
fn of_commands() -> &'static [&'static [&'static str]] {
    &[
        &[],
        &["check"],
        &["spell"],
        &["verify"],
        &["sample"],
        &["chek", "s.cise"],
        &["verify", "s.cise"],
        &["replay", "s.cise"],
        &["check", "s.cise", "s.report"],
        &["spell", "s.cise", "s.report"],
        &["sample", "1", "2"],
        &["sample", "01"],
        &["sample", "-1"],
    ]
}

/// The same with options.
fn of_options() -> &'static [&'static [&'static str]] {
    &[
        &["check", "s.cise", "--budget"],
        &["check", "s.cise", "--budget", "0"],
        &["check", "s.cise", "--budget", "1000001"],
        &["check", "s.cise", "--budget", "01"],
        &["check", "s.cise", "--budget", "+1"],
        &["check", "s.cise", "--budget", "-1"],
        &["check", "s.cise", "--budget", "1", "2"],
        &["check", "s.cise", "--limit", "1"],
        &["verify", "s.cise", "--budget", "1"],
    ]
}

#[test]
fn refuses_words(rt: HostRuntime) {
    for rows in [of_commands(), of_options()] {
        for words in rows {
            let same = ends_with(&rt, rt.alloc(), words, FLAG, b"", 2, b"refused words\n");
            assert!(rt; same);
        }
    }
}

/// Whether the report of a check with this budget says so.
fn has_budget(rt: &impl Abort, alloc: Global, budget: &str, head: &[u8]) -> bool {
    let words = &["check", "s.cise", "--budget", budget];
    let ended = run_on(rt, alloc, words, NO_FLAG, b"");
    let same = ended.text.starts_with(head);
    drop(ended);
    same
}

#[test]
fn takes_the_budget(rt: HostRuntime) {
    let least = has_budget(&rt, rt.alloc(), "1", b"cise report 1\nbudget 1\n");
    let most = has_budget(
        &rt,
        rt.alloc(),
        "1000000",
        b"cise report 1\nbudget 1000000\n",
    );
    assert!(rt; least && most);
}
