// The command `sample`: the verdicts on a generated specification, counted.
ghost use Rattle.std.specs.Prelude.{◌≡◌, ◌≢◌, ◌++◌, [], ◌∷◌, true, IfOk, codes, decimal};
ghost use Rattle.byte_ports.specs.{Ports.{port_of}, Ending.{Ends}};
ghost use Rattle.proof_report.specs.{Verdicts.{obligation_count}, Texts.{end_text}};
ghost use Rattle.spec_from_bytes.specs.Lines.{line};
ghost use Rattle.check_run.specs.Reports.{IsDecided};
ghost use Rattle.cise_program.specs.Words.{default_budget, most_sample, is_within};
ghost use Rattle.cise_program.specs.commands.Sample.{IsSampled, IsSampleFront};

use crate::outcome::status_of;
use crate::words::DEFAULT_BUDGET;
use byte_ports::{Answer, MEMORY, Sink, write_answer};
use check_run::decide_all;
use obligation_list::list;
use proof_report::write_end;
use report_lines::head::Tally;
use sample_specs::sample_spec;
use spec_core::Spec;
use spec_from_bytes::texts::{push_numbered, push_placed};
use std::alloc::{AllocError, Global};

/// How many obligations there are, and how many verdicts of each kind.
#[derive(Clone, Copy)]
struct Count {
    obligations: usize,
    tally: Tally,
}

/// Decides the obligations of a specification, with the default budget, and counts.
fn count_verdicts(alloc: Global, spec: &Spec) -> Result<Count, AllocError>
    ensures obligations { IfOk result (λ count. count.obligations ≡ obligation_count spec.now) }
    ensures decided { IfOk result (λ count. IsDecided spec.now default_budget count.tally) }
{
    let obligations = list(alloc, spec)?.len();
    let tally = decide_all(alloc, spec, DEFAULT_BUDGET)?;
    Ok(Count { obligations, tally })
}

/// The lines that tell a count.
fn text_of(alloc: Global, number: u8, count: Count) -> Result<Vec<u8>, AllocError>
    ensures { IfOk result
        (λ text. text.items ≡ line (codes "cise" ∷ codes "sample" ∷ decimal number ∷ [])
        ++ (line (codes "obligations" ∷ decimal count.obligations ∷ []) ++ end_text count.tally)) }
{
    let mut text = Vec::new(alloc);
    push_placed(alloc, &mut text, b"cise", b"sample", number as usize)?;
    push_numbered(alloc, &mut text, b"obligations", count.obligations)?;
    write_end(alloc, count.tally, &mut text)?;
    Ok(text)
}

/// What the verdicts on a generated specification come to.
fn answer_of(alloc: Global, number: u8) -> Result<Answer, AllocError>
    requires { is_within most_sample number ≡ true }
    ensures { IfOk result (λ answer. IsSampled number answer.status answer.text.items) }
{
    let spec = sample_spec(alloc, number)?;
    let count = count_verdicts(alloc, &spec);
    drop(spec);
    let count = count?;
    let text = text_of(alloc, number, count)?;
    Ok(Answer {
        status: status_of(count.tally),
        text,
    })
}

/// Checks a generated specification, and writes how many verdicts of each kind there are: 0 where every obligation is proved, 1 where
/// one is refuted, 5 where none is refuted and one is undecided.
pub fn sample<K: Sink>(alloc: Global, number: u8, out: &mut K) -> u8
    requires { is_within most_sample number ≡ true }
    ensures ends { Ends (IsSampled number) (IsSampleFront number) result
        (port_of K.held K.faults out.old) (port_of K.held K.faults out.new) }
    ensures no_source { result ≢ 6 }
{
    match answer_of(alloc, number) {
        Ok(answer) => write_answer(out, answer.status, answer.text.as_slice()),
        Err(_) => MEMORY,
    }
}
