// The words behind the program's name, and what they ask for.
ghost use Rattle.std.specs.Prelude.{◌≡◌, map, string_bytes};
ghost use Rattle.report_lines.specs.Heads.{most_budget};
ghost use Rattle.cise_program.specs.Words.{most_sample, number_in, check_within, sample_of};
ghost use Rattle.cise_program.specs.Words.{job_of_two, job_of_three, job_of_four, job_of};

use word_cut::read_number;

/// What is done with a specification.
#[derive(Clone, Copy)]
pub enum Task {
    /// To check it, with a budget of log lines.
    Check(u32),
    /// To verify a report on it.
    Verify,
    /// To upgrade a report on it.
    Upgrade,
    /// To replay a schedule.
    Replay,
    /// To simulate the token protocol on a schedule.
    Simulate,
    /// To find which pairs of its operations must conflict.
    Suggest,
    /// To write its words in the layout of the language.
    Spell,
}

/// What the words ask for.
#[derive(Clone, Copy)]
pub enum Job {
    /// A task for the specification that the first source gives.
    OfSpec(Task),
    /// To check a generated specification.
    Sample(u8),
}

/// The budget where the words name none.
pub const DEFAULT_BUDGET: u32 = 10_000;

/// The greatest budget, and the greatest sample.
const MOST_BUDGET: u32 = 1_000_000;

const MOST_SAMPLE: u32 = 12;

/// The number from 1 to a greatest one that a word spells.
fn number_in(most: u32, word: &str) -> Option<u32>
    ensures { result ≡ number_in most word.now }
{
    match read_number(word.as_bytes()) {
        Some(number) if 1 <= number && number <= most as u128 => Some(number as u32),
        _ => None,
    }
}

/// A check with the budget that a word spells.
fn check_within(word: &str) -> Option<Job>
    ensures { result ≡ check_within (number_in most_budget word.now) }
{
    match number_in(MOST_BUDGET, word) {
        Some(budget) => Some(Job::OfSpec(Task::Check(budget))),
        None => None,
    }
}

/// The sample whose number a word spells.
fn sample_of(word: &str) -> Option<Job>
    ensures { result ≡ sample_of (number_in most_sample word.now) }
{
    match number_in(MOST_SAMPLE, word) {
        Some(number) => Some(Job::Sample(number as u8)),
        None => None,
    }
}

/// The job of a command and a word.
fn job_of_two(command: &str, word: &str) -> Option<Job>
    ensures { result ≡ job_of_two command.now word.now }
{
    if command == "check" {
        Some(Job::OfSpec(Task::Check(DEFAULT_BUDGET)))
    } else if command == "suggest" {
        Some(Job::OfSpec(Task::Suggest))
    } else if command == "spell" {
        Some(Job::OfSpec(Task::Spell))
    } else if command == "sample" {
        sample_of(word)
    } else {
        None
    }
}

/// The job of a command and two paths.
fn job_of_three(command: &str) -> Option<Job>
    ensures { result ≡ job_of_three command.now }
{
    if command == "verify" {
        Some(Job::OfSpec(Task::Verify))
    } else if command == "upgrade" {
        Some(Job::OfSpec(Task::Upgrade))
    } else if command == "replay" {
        Some(Job::OfSpec(Task::Replay))
    } else if command == "simulate" {
        Some(Job::OfSpec(Task::Simulate))
    } else {
        None
    }
}

/// The job of a command, a path, an option and its value.
fn job_of_four(command: &str, option: &str, word: &str) -> Option<Job>
    ensures { result ≡ job_of_four command.now option.now word.now }
{
    if command == "check" && option == "--budget" {
        check_within(word)
    } else {
        None
    }
}

/// The job that the words ask for, or none where they aren't accepted.
pub fn job_asked(words: &[String]) -> Option<Job>
    ensures { result ≡ job_of (map string_bytes words.now) }
{
    match words {
        [command, word] => job_of_two(command.as_str(), word.as_str()),
        [command, _, _] => job_of_three(command.as_str()),
        [command, _, option, word] => {
            job_of_four(command.as_str(), option.as_str(), word.as_str())
        }
        _ => None,
    }
}
