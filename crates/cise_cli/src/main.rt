// The program: `check SPEC` reads a specification and writes the report of its obligations, with `--budget N` after it with logs of at
// most N lines. `verify SPEC REPORT` says whether a report stands, and `upgrade SPEC REPORT` writes it anew. `replay SPEC SCHEDULE` and
// `simulate SPEC SCHEDULE` carry a recorded schedule out and write what comes of it. `suggest SPEC` finds which pairs of operations
// must conflict. `spell SPEC` writes a specification's words in the layout of the language, and `sample N` checks a generated
// specification.
//
// The second word names the first source, and the third the second one. Neither is opened before it is read, so a word that is no path is
// never one.
//
// This is the edge alone: the words after the program's name, files as sources, and standard output as the sink. All else is `run`
// of `cise_program`, for any sources and any sink, whose clauses say what each status means.
//
// Decisions:
// - It ends with 9 also where there is no memory for a copy of the words.
#![tactic(auto)]

use byte_ports::{FileSource, NO_WORDS, StdSink};
use cise_program::run::run;
use std::alloc::{AllocError, Global};
use std::env::Env;
use std::process::ExitCode;
use std::{env, io};

/// The words after the program's name.
fn words_of(rt: &(impl Env + AllocGlobal)) -> io::Result<Vec<String>> {
    Ok(env::args(rt)?.skip(1).collect(rt.alloc())?)
}

/// A copy of the word at this place, empty where there is none.
fn word_at(alloc: Global, words: &[String], place: usize) -> Result<String, AllocError> {
    match words.get(place) {
        Some(word) => word.clone(),
        None => Ok(String::new(alloc)),
    }
}

fn main(rt: HostRuntime) -> ExitCode {
    let alloc = rt.alloc();
    let Ok(words) = words_of(&rt) else {
        return ExitCode::from(NO_WORDS);
    };
    let (Ok(spec), Ok(extra)) = (word_at(alloc, &words, 1), word_at(alloc, &words, 2)) else {
        return ExitCode::from(NO_WORDS);
    };
    let mut spec = FileSource::new(&rt, spec);
    let mut extra = FileSource::new(&rt, extra);
    let mut out = StdSink::new(rt.stdout());
    ExitCode::from(run(alloc, &words, &mut spec, &mut extra, &mut out))
}
