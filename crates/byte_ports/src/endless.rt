// A source that never ends, by which a test shows that a program stops at its limit.
ghost use Rattle.std.specs.Prelude.{◌≡◌, length, replicate, None, Ok};

use crate::{Failed, Source};

/// Gives the letter `a` for ever, and never fails. It doesn't tell its bytes, and doesn't count its reads.
#[derive(Clone, Copy, Debug, Default)]
pub struct EndlessSource;

impl EndlessSource {
    /// A source without end.
    pub fn new() -> EndlessSource {
        EndlessSource
    }
}

impl Source for EndlessSource {
    ghost left = { λ _. None };

    ghost faults = { λ _. 0 };

    ghost reads = { λ _. 0 };

    fn read(&mut self, buf: &mut [u8]) -> Result<usize, Failed>
        ensures full { result ≡ Ok (length buf.old) }
        ensures letters { buf.new ≡ replicate (length buf.old) 97 }
    {
        buf.fill(b'a');
        Ok(buf.len())
    }
}
