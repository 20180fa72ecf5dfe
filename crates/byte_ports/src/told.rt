// What is answered to the bytes that a source gives.
ghost use Rattle.std.specs.Prelude.{◌≡◌, ℕ, List, ◌<◌, ◌≤◌, length, Ok, IfOk, OnOk, IsErrOf};
ghost use Rattle.std.specs.Fn.{FnReturnsAt};
ghost use Rattle.byte_ports.specs.{Faults.{IsFault}, Ports.{port_of}};
ghost use Rattle.byte_ports.specs.{declared.ending.Answer.{Answer}, Ending.{EndsIn}};
ghost use Rattle.byte_ports.specs.Told.{Tells, IsReadWithin, IsAnswerWithin, IsAnswerFrom};

use crate::ending::{Answer, write_answer};
use crate::sink::Sink;
use crate::source::{ReadRefused, Source, read_up_to};
use crate::status::{MEMORY, READ_FAULT, REFUSED};
use std::alloc::{AllocError, Global};

/// Why a source gave nothing to answer.
#[derive(Clone, Copy, Debug)]
pub enum Stopped {
    /// The source failed.
    Fault,
    Memory,
}

/// The answer to more bytes than the limit.
fn too_long(alloc: Global, long: &[u8]) -> Result<Answer, AllocError>
    ensures status { IfOk result (λ answer. answer.status ≡ 4) }
    ensures text { IfOk result (λ answer. answer.text.items ≡ long.now) }
{
    let text = Vec::from_slice(alloc, long)?;
    Ok(Answer {
        status: REFUSED,
        text,
    })
}

/// Answers the bytes that a source gives: by the job where there are at most `most` of them, else with the text `long` and status 4. Of
/// more bytes than that it reads one, and no further.
pub fn answer_source<S: Source, F: Fn(&[u8]) -> Result<Answer, AllocError>>(
    alloc: Global,
    source: &mut S,
    most: usize,
    long: &[u8],
    job: F,
) -> Result<Answer, Stopped>
    requires { (bytes : _) → length bytes.now ≤ most → F.pre job bytes }
    ensures ok { IfOk result
        (λ answer. IsAnswerFrom (S.left source.old) most long.now (FnReturnsAt F.Fn job)
        answer.status answer.text.items) }
    ensures fault { IsErrOf result Stopped.Fault
        → IsFault (S.faults source.old) (S.faults source.new) }
    ensures end { OnOk result (IsReadWithin most (S.left source.old) (S.left source.new)) }
{
    match read_up_to(alloc, source, most) {
        Ok(bytes) => match job(bytes.as_slice()) {
            Ok(answer) => Ok(answer),
            Err(_) => Err(Stopped::Memory),
        },
        Err(ReadRefused::TooLong) => match too_long(alloc, long) {
            Ok(answer) => Ok(answer),
            Err(_) => Err(Stopped::Memory),
        },
        Err(ReadRefused::Fault) => Err(Stopped::Fault),
        Err(ReadRefused::Memory) => Err(Stopped::Memory),
    }
}

/// Answers the bytes that a source gives, as `answer_source` does, and writes the answer. It ends with 6 where the source has failed, and
/// with 8 where memory is lacking.
pub fn write_answer_from<S: Source, K: Sink, F: Fn(&[u8]) -> Result<Answer, AllocError>>(
    alloc: Global,
    source: &mut S,
    out: &mut K,
    most: usize,
    long: &[u8],
    job: F,
) -> u8
    requires callable { (bytes : _) → length bytes.now ≤ most → F.pre job bytes }
    requires low { (bytes : List ℕ) (answer : Answer) → length bytes ≤ most
        → FnReturnsAt F.Fn job bytes (Ok answer) → answer.status < 6 }
    ensures ends { (bytes : List ℕ) × Tells (S.left source.old) bytes
        × EndsIn (IsAnswerWithin most long.now (FnReturnsAt F.Fn job) bytes) result
        (port_of K.held K.faults out.old) (port_of K.held K.faults out.new) }
    ensures read_fault { result ≡ 6 → IsFault (S.faults source.old) (S.faults source.new) }
    ensures unwritten { result ≡ 6 → out.new ≡ out.old }
    ensures end { result < 6 → IsReadWithin most (S.left source.old) (S.left source.new) }
{
    match answer_source(alloc, source, most, long, job) {
        Ok(answer) => write_answer(out, answer.status, answer.text.as_slice()),
        Err(Stopped::Fault) => READ_FAULT,
        Err(Stopped::Memory) => MEMORY,
    }
}
