// The program of the bank: `replay SCHEDULE` and `simulate SCHEDULE` carry a recorded schedule out, with the bank's own code, and write
// what comes of it.
//
// The second word names the source. It isn't opened before it is read, so a word that is no path is never one.
//
// This is the edge alone: the words after the program's name, a file as the source, and standard output as the sink. All else is
// `run_bank` of `bank_host`, for any source and any sink, whose clauses say what each status means.
#![tactic(auto)]

use bank_host::run_bank;
use byte_ports::{FileSource, NO_WORDS, StdSink};
use std::alloc::{AllocError, Global};
use std::env::Env;
use std::process::ExitCode;
use std::{env, io};

/// The words after the program's name.
fn words_of(rt: &(impl Env + AllocGlobal)) -> io::Result<Vec<String>> {
    Ok(env::args(rt)?.skip(1).collect(rt.alloc())?)
}

/// A copy of the word at this place, empty where there is none.
fn word_at(alloc: Global, words: &[String], place: usize) -> Result<String, AllocError> {
    match words.get(place) {
        Some(word) => word.clone(),
        None => Ok(String::new(alloc)),
    }
}

fn main(rt: HostRuntime) -> ExitCode {
    let alloc = rt.alloc();
    let Ok(words) = words_of(&rt) else {
        return ExitCode::from(NO_WORDS);
    };
    let Ok(schedule) = word_at(alloc, &words, 1) else {
        return ExitCode::from(NO_WORDS);
    };
    let mut schedule = FileSource::new(&rt, schedule);
    let mut out = StdSink::new(rt.stdout());
    ExitCode::from(run_bank(alloc, &words, &mut schedule, &mut out))
}
