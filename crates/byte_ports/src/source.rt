// Sources, and reading one to its end.
//
// `read_up_to` asks for one byte more than may still come, so that a source with too many bytes is found without a read past
// them: each read but the last gives at least one byte, which bounds their number by the limit and one.
ghost use Rattle.std.specs.Prelude.{◌≡◌, ℕ, ◌+◌, ◌<◌, ◌≤◌, List, ◌++◌, length, Option, IfSome};
ghost use Rattle.std.specs.{Prelude.{IfOk, OnOk, OnErr, IsErrOf, vec_len}, Io.{ReadsAtMost}};
ghost use Rattle.std.specs.Io.KnownBytes.{ReadConsumes, Consumes, IsAtEnd};
ghost use Rattle.byte_ports.specs.Faults.{IsFault};

use crate::Failed;
use std::alloc::Global;
use thiserror::Error;

/// Where bytes come from.
pub trait Source {
    /// The bytes that are left, where the source tells them.
    ghost left: { Self → Option (List ℕ) };

    /// How often it has failed.
    ghost faults: { Self → ℕ };

    /// How often it has been read, where it counts that.
    ghost reads: { Self → ℕ };

    /// `Ok(n)` means that the next n bytes stand at the front of `buf`; `Ok(0)` for a `buf` that isn't empty is the end of
    /// the input. `Failed` leaves the bytes.
    fn read(&mut self, buf: &mut [u8]) -> Result<usize, Failed>
        ensures within { ReadsAtMost result buf.new }
        ensures bytes { ReadConsumes (left self.old) (left self.new) result buf.new }
        ensures failed { OnErr result (IsFault (faults self.old) (faults self.new)) }
        ensures never_falls { faults self.old ≤ faults self.new }
        ensures counted { reads self.new ≤ reads self.old + 1 };
}

/// Why a source wasn't read to its end.
#[derive(Clone, Copy, Debug, PartialEq, Eq, Error)]
pub enum ReadRefused {
    #[error("more bytes than the limit")]
    TooLong,
    #[error("a read failed")]
    Fault,
    #[error("out of memory")]
    Memory,
}

/// The most bytes that one read asks for.
const PIECE: usize = 4096;

/// Reads a source to its end, where at most `limit` bytes come. After a refusal the source has given up some of its bytes,
/// from the front. A source that never ends is refused as too long.
pub fn read_up_to<S: Source>(
    alloc: Global,
    src: &mut S,
    limit: usize,
) -> Result<Vec<u8>, ReadRefused>
    ensures ok { IfOk result (λ v. IfSome (S.left src.old) (λ bytes. v.items ≡ bytes)) }
    ensures end { OnOk result (IsAtEnd (S.left src.new)) }
    ensures within { IfOk result (λ v. vec_len v ≤ limit) }
    ensures too_long { IsErrOf result ReadRefused.TooLong
        → IfSome (S.left src.old) (λ bytes. limit < length bytes) }
    ensures fault { IsErrOf result ReadRefused.Fault
        → IsFault (S.faults src.old) (S.faults src.new) }
    ensures given_up { (given : List ℕ) × Consumes (S.left src.old) (S.left src.new) given }
    ensures never_falls { S.faults src.old ≤ S.faults src.new }
    ensures reads { S.reads src.new ≤ S.reads src.old + limit + 1 }
{
    let mut bytes = Vec::new(alloc);
    let mut piece = [0u8; PIECE];
    loop {
        let room = (limit - bytes.len()).min(PIECE - 1) + 1;
        let given = match src.read(&mut piece[..room]) {
            Ok(given) => given,
            Err(_) => return Err(ReadRefused::Fault),
        };
        if given == 0 {
            return Ok(bytes);
        }
        if bytes.extend_from_slice(&piece[..given]).is_err() {
            return Err(ReadRefused::Memory);
        }
        if bytes.len() > limit {
            return Err(ReadRefused::TooLong);
        }
    }
}
