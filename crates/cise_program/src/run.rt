// The program but for its edge: from words, sources and a sink to a status.
ghost use Rattle.std.specs.Prelude.{◌≡◌, ◌⊎◌, ◌<◌, true, false, List, ℕ, Option, Some};
ghost use Rattle.std.specs.Prelude.{IfSome};
ghost use Rattle.byte_ports.specs.{Faults.{IsFault}, Ports.{port_of}, Told.{Tells, IsReadWithin}};
ghost use Rattle.byte_ports.specs.Ending.{Ends};
ghost use Rattle.spec_trees.specs.Form.{tree_of};
ghost use Rattle.spec_from_bytes.specs.Reading.{IsReadingOf};
ghost use Rattle.cise_program.specs.declared.words.Task.TheVariants.{Replay, Simulate, Suggest};
ghost use Rattle.cise_program.specs.declared.words.Job.TheVariants.{OfSpec};
ghost use Rattle.cise_program.specs.Outside.{told_by, failures_of, held_by};
ghost use Rattle.cise_program.specs.Words.{asked, is_task, judges, writes_report, takes_extra};
ghost use Rattle.cise_program.specs.Words.{reads_spec, reads_extra, most_extra_bytes, AreRead};
ghost use Rattle.cise_program.specs.Words.{IsInputFault};
ghost use Rattle.cise_program.specs.Answer.{IsOutcome, IsOutcomeFront, IsAnswerOf, IsFrontOfAnswer};
ghost use Rattle.cise_program.specs.Answer.{IsAnswer, IsAnswerFront, EndsWith, IsAnswered};
ghost use Rattle.cise_program.specs.Answer.{IsStopped};
ghost use Rattle.cise_program.specs.Headline.{IsProved, is_outcome, Refutes, StopsRightly};
ghost use Rattle.cise_program.specs.Headline.{IsReplayedSafely, IsSimulatedSafely, VerifiesAlike};
ghost use Rattle.cise_program.specs.Headline.{SuggestsRightly, RefusesRightly, IsComplete};

use crate::commands::check::check;
use crate::commands::replay::replay_schedule;
use crate::commands::sample::sample;
use crate::commands::simulate::simulate_schedule;
use crate::commands::spell::spell_tree;
use crate::commands::suggestion::suggest_pairs;
use crate::commands::upgrade::upgrade;
use crate::commands::verify::verify;
use crate::law::{law_headline, law_least_fault_is_answered, law_reports_are_verified};
use crate::words::{Job, Task, job_asked};
use byte_ports::{MEMORY, READ_FAULT, SPECIFICATION, Sink, Source, Stopped, WORDS, write_answer};
use spec_core::Spec;
use spec_from_bytes::{Reading, read_specification};
use spec_trees::Tree;
use std::alloc::Global;

/// Does a task for a specification and its tree.
fn do_task<E: Source, K: Sink>(
    alloc: Global,
    task: Task,
    tree: &Tree,
    spec: &Spec,
    extra: &mut E,
    out: &mut K,
) -> u8
    requires { is_task task ≡ true }
    ensures ends { EndsWith (E.left extra.old) (IsOutcome task (tree_of tree.now) spec.now)
        (IsOutcomeFront task (tree_of tree.now) spec.now) result
        (port_of K.held K.faults out.old) (port_of K.held K.faults out.new) }
    ensures read_fault { result ≡ 6
        → (takes_extra task ≡ true) × IsFault (E.faults extra.old) (E.faults extra.new) }
    ensures unwritten { result ≡ 6 → out.new ≡ out.old }
    ensures unread { takes_extra task ≡ false → extra.new ≡ extra.old }
    ensures end { result < 6 → takes_extra task ≡ true
        → IsReadWithin (most_extra_bytes task) (E.left extra.old) (E.left extra.new) }
{
    match task {
        Task::Check(budget) => check(alloc, budget, spec, out),
        Task::Verify => verify(alloc, spec, extra, out),
        Task::Upgrade => upgrade(alloc, spec, extra, out),
        Task::Replay => replay_schedule(alloc, spec, extra, out),
        Task::Simulate => simulate_schedule(alloc, spec, extra, out),
        Task::Suggest => suggest_pairs(alloc, spec, out),
        Task::Spell => spell_tree(alloc, tree, out),
    }
}

/// Does a task for what the bytes of a specification are.
fn answer_reading<E: Source, K: Sink>(
    alloc: Global,
    task: Task,
    reading: &Reading,
    extra: &mut E,
    out: &mut K,
) -> u8
    requires { is_task task ≡ true }
    ensures ends { (bytes : List ℕ) → IsReadingOf bytes reading.now
        → EndsWith (E.left extra.old) (IsAnswerOf task bytes) (IsFrontOfAnswer task bytes) result
        (port_of K.held K.faults out.old) (port_of K.held K.faults out.new) }
    ensures read_fault { result ≡ 6
        → (takes_extra task ≡ true) × IsFault (E.faults extra.old) (E.faults extra.new) }
    ensures unwritten { result ≡ 6 → out.new ≡ out.old }
    ensures unread { takes_extra task ≡ false → extra.new ≡ extra.old }
    ensures end { result < 6 → takes_extra task ≡ true → (result ≡ 3 → ⊥)
        → IsReadWithin (most_extra_bytes task) (E.left extra.old) (E.left extra.new) }
{
    match reading {
        Reading::Specified(tree, spec) => do_task(alloc, task, tree, spec, extra, out),
        Reading::Refused(text) => write_answer(out, SPECIFICATION, text.as_slice()),
    }
}

/// Does a task for the bytes that a source gives.
fn answer_task<S: Source, E: Source, K: Sink>(
    alloc: Global,
    task: Task,
    spec: &mut S,
    extra: &mut E,
    out: &mut K,
) -> u8
    requires { is_task task ≡ true }
    ensures ends { Ends (IsAnswer (Some (OfSpec task)) (S.left spec.old) (E.left extra.old))
        (IsAnswerFront (Some (OfSpec task)) (S.left spec.old) (E.left extra.old)) result
        (port_of K.held K.faults out.old) (port_of K.held K.faults out.new) }
    ensures read_fault { result ≡ 6
        → IsInputFault (Some (OfSpec task)) (failures_of S.faults E.faults spec.old extra.old)
        (failures_of S.faults E.faults spec.new extra.new) }
    ensures unwritten { result ≡ 6 → out.new ≡ out.old }
    ensures unread { takes_extra task ≡ false → extra.new ≡ extra.old }
    ensures read { result < 6
        → AreRead (Some (OfSpec task)) result (told_by S.left E.left spec.old extra.old)
        (told_by S.left E.left spec.new extra.new) }
{
    match read_specification(alloc, spec) {
        Ok(reading) => {
            let status = answer_reading(alloc, task, &reading, extra, out);
            reading.let_go();
            status
        }
        Err(Stopped::Fault) => READ_FAULT,
        Err(Stopped::Memory) => MEMORY,
    }
}

/// Answers the words, those behind the program's name, from the bytes of the two inputs, and writes the answer's text.
///
/// The statuses: 0, all verdicts are proved, of a check or of a report that is verified or upgraded, no pair is unknown, the specification
/// was spelled, or all steps were accepted and no state broke; 1, a verdict is refuted, or a state breaks an invariant; 2, the words
/// aren't accepted; 3, the bytes are no specification; 4, the bytes of the second input are no report or no schedule, or a line or a step
/// breaks its rule; 5, no verdict is refuted and one is undecided, or a pair is unknown; 6, a source that is read for the job has failed;
/// 7, the sink has failed; 8, out of memory.
pub fn run<S: Source, E: Source, K: Sink>(
    alloc: Global,
    words: &[String],
    spec: &mut S,
    extra: &mut E,
    out: &mut K,
) -> u8
    // What is answered: the text that belongs to the words and to the bytes of the inputs, as far as these are told. Where the
    // specification is read, and no input and no write fails, there is an answer, or memory ran out.
    ensures known { result < 9 }
    ensures answered { result < 6
        → IsAnswered (asked words.now) (told_by S.left E.left spec.old extra.old) result
        (held_by K.held out.old out.new) }
    ensures complete { (IsInputFault (asked words.now)
        (failures_of S.faults E.faults spec.old extra.old)
        (failures_of S.faults E.faults spec.new extra.new) → ⊥)
        → (IsFault (K.faults out.old) (K.faults out.new) → ⊥)
        → IsComplete (asked words.now) (S.left spec.old) result }

    // When nothing is answered: a source that is read for the job has failed, and then nothing was written, or the sink has.
    ensures read_fault { result ≡ 6
        → IsInputFault (asked words.now) (failures_of S.faults E.faults spec.old extra.old)
        (failures_of S.faults E.faults spec.new extra.new) }
    ensures unwritten { result ≡ 6 → out.new ≡ out.old }
    ensures write_fault { result ≡ 7 → IsFault (K.faults out.old) (K.faults out.new) }

    // What is left of an answer that was stopped. Each refutation in what a stopped check, upgrade or suggestion has written breaks its
    // obligation.
    ensures front { 6 < result
        → IsStopped (asked words.now) (told_by S.left E.left spec.old extra.old)
        (held_by K.held out.old out.new) }
    ensures stopped { 6 < result
        → StopsRightly (asked words.now) (S.left spec.old) (held_by K.held out.old out.new) }

    // What is read: what is read for the job was read to its end, and what isn't stays as it was.
    ensures read { result < 6
        → AreRead (asked words.now) result (told_by S.left E.left spec.old extra.old)
        (told_by S.left E.left spec.new extra.new) }
    ensures unread { reads_spec (asked words.now) ≡ false → spec.new ≡ spec.old }
    ensures unread_extra { reads_extra (asked words.now) ≡ false → extra.new ≡ extra.old }

    // The headline: a specification converges where its check, or the verification or the upgrade of a report on it, ends with status 0.
    ensures proved { result ≡ 0 → judges (asked words.now) ≡ true
        → IfSome (S.left spec.old) IsProved }

    // And what else an answer says. Each refutation that is written or verified breaks its obligation.
    ensures refuted { is_outcome result ≡ true
        → Refutes (asked words.now) (told_by S.left E.left spec.old extra.old)
        (held_by K.held out.old out.new) }

    // What a check or an upgrade wrote is verified with the status that it ended with.
    ensures verified { is_outcome result ≡ true → writes_report (asked words.now) ≡ true
        → VerifiesAlike (S.left spec.old) result (held_by K.held out.old out.new) }

    // A safe specification is never replayed to a state that breaks an invariant, nor simulated to one.
    ensures safe { asked words.now ≡ Some (OfSpec Replay)
        → IfSome (S.left spec.old) (λ bytes. IsReplayedSafely bytes (E.left extra.old) result) }
    ensures simulated { asked words.now ≡ Some (OfSpec Simulate)
        → IfSome (S.left spec.old) (λ bytes. IsSimulatedSafely bytes (E.left extra.old) result) }

    // A suggestion says which pairs of operations have to conflict: where nothing conflicts, each block under `needed` breaks its
    // obligation, so every set of pairs that is enough contains the needed pairs; with status 0 they are enough; and where `by P Q` stands,
    // a conflict on equal arguments for P and Q is enough for the pair.
    ensures suggested { asked words.now ≡ Some (OfSpec Suggest) → is_outcome result ≡ true
        → SuggestsRightly (S.left spec.old) result (held_by K.held out.old out.new) }

    // Bytes that are no specification are refused for one reason, which is written; where that is a fault of their tree, it is the least.
    ensures least { reads_spec (asked words.now) ≡ true → result ≡ 3
        → RefusesRightly (S.left spec.old) (held_by K.held out.old out.new) }
{
    law_headline();
    law_reports_are_verified();
    law_least_fault_is_answered();
    match job_asked(words) {
        Some(Job::OfSpec(task)) => answer_task(alloc, task, spec, extra, out),
        Some(Job::Sample(number)) => sample(alloc, number, out),
        None => write_answer(out, WORDS, b"refused words\n"),
    }
}
