// A source and a sink in memory, which tell all, fail at the calls that they are told to, and give or take only a few bytes at
// a time where they are told that: by them a test shows what a program does when the outside fails.
//
// Calls are numbered from 0, those that fail too, in a count that stops at 2^64 - 1. A full sink
// fails also at a write of no bytes.
ghost use Rattle.std.specs.Prelude.{◌≡◌, ◌-◌, ◌≤◌, ◌<◌, [], if◌then◌else◌, length, take, min, IfOk};
ghost use Rattle.std.specs.Io.{ReadsAtMost, WritesAtMost};
ghost use Rattle.std.specs.Io.KnownBytes.{ReadConsumes, WriteAppends};
ghost use Rattle.byte_ports.specs.{Faults.{IsFault}, Memory.{fails_at}};

use crate::{Failed, Sink, Source, count_up};
use std::alloc::{AllocError, Global};
use std::marker::Model;

/// A source that holds its bytes.
#[derive(Drop)]
pub struct MemSource {
    bytes: Vec<u8>,
    at: usize,
    piece: usize,
    fail_at: Vec<u32>,
    calls: u64,
    faults: u64,
}

impl Model for MemSource {
    ghost use Rattle.std.specs.Prelude.{◌≤◌, ◌<◌, drop, vec_len};
    ghost use Rattle.byte_ports.specs.Memory.{MemReader};

    ghost Value = { MemReader };

    ghost view = { λ s. record {
      left = drop s.at s.bytes.items;
      piece = s.piece;
      fail_at = s.fail_at.items;
      calls = s.calls;
      faults = s.faults;
    } };

    ghost invariant = { λ s. (s.at ≤ vec_len s.bytes) × (0 < s.piece) };
}

impl MemSource {
    /// A source of these bytes. It gives at most `piece` of them at a call, and the calls whose numbers, from 0, stand in
    /// `fail_at` fail.
    pub fn new(bytes: Vec<u8>, piece: usize, fail_at: Vec<u32>) -> MemSource
        requires { 0 < piece }
        ensures { result ≡ record {
          left = bytes.items;
          piece = piece;
          fail_at = fail_at.items;
          calls = 0;
          faults = 0;
        } }
    {
        MemSource {
            bytes,
            at: 0,
            piece,
            fail_at,
            calls: 0,
            faults: 0,
        }
    }
}

impl Source for MemSource {
    ghost use Rattle.std.specs.Prelude.{OnErr, Some, Ok, Err, drop, ◌+◌};
    ghost use Rattle.byte_ports.specs.Memory.{failure, read_fails, read_count, after_read};

    ghost left = { λ s. Some s.left };

    ghost faults = { λ s. s.faults };

    ghost reads = { λ s. s.calls };

    fn read(&mut self, buf: &mut [u8]) -> Result<usize, Failed>
        ensures within { ReadsAtMost result buf.new }
        ensures bytes { ReadConsumes (Some self.old.left) (Some self.new.left) result buf.new }
        ensures failed { OnErr result (IsFault self.old.faults self.new.faults) }
        ensures never_falls { self.old.faults ≤ self.new.faults }
        ensures counted { self.new.calls ≤ self.old.calls + 1 }
        ensures answer { result ≡ (if read_fails self.old then Err failure
            else Ok (read_count self.old (length buf.old))) }
        ensures after { self.new ≡ after_read self.old (length buf.old) }
    {
        let fails = stands_in(self.calls, self.fail_at.as_slice());
        self.calls = count_up(self.calls);
        if fails {
            self.faults = count_up(self.faults);
            return Err(Failed);
        }
        let count = copy_front(&self.bytes[self.at..], buf, self.piece);
        self.at += count;
        Ok(count)
    }
}

/// A sink that holds its bytes.
#[derive(Drop)]
pub struct MemSink {
    bytes: Vec<u8>,
    room: usize,
    piece: usize,
    fail_at: Vec<u32>,
    calls: u64,
    faults: u64,
}

impl Model for MemSink {
    ghost use Rattle.std.specs.Prelude.{◌≤◌, ◌<◌, vec_len, vec_capacity};
    ghost use Rattle.byte_ports.specs.Memory.{MemWriter};

    ghost Value = { MemWriter };

    ghost view = { λ k. record {
      held = k.bytes.items;
      room = k.room;
      piece = k.piece;
      fail_at = k.fail_at.items;
      calls = k.calls;
      faults = k.faults;
    } };

    ghost invariant = { λ k. (vec_len k.bytes ≤ k.room) × (k.room ≤ vec_capacity k.bytes)
        × (0 < k.piece) };
}

impl MemSink {
    /// An empty sink with room for so many bytes, whose memory is taken here. It takes at most `piece` bytes at a call; the
    /// calls whose numbers, from 0, stand in `fail_at` fail, and so does each call that finds it full.
    pub fn new(
        alloc: Global,
        room: usize,
        piece: usize,
        fail_at: Vec<u32>,
    ) -> Result<MemSink, AllocError>
        requires { 0 < piece }
        ensures { IfOk result
            (λ k. k
            ≡ record {
              held = [];
              room = room;
              piece = piece;
              fail_at = fail_at.items;
              calls = 0;
              faults = 0;
            }) }
    {
        Ok(MemSink {
            bytes: Vec::with_capacity(alloc, room)?,
            room,
            piece,
            fail_at,
            calls: 0,
            faults: 0,
        })
    }

    /// The bytes that were written.
    pub fn held(&self) -> &[u8]
        ensures { result.now ≡ self.now.held }
    {
        self.bytes.as_slice()
    }
}

impl Sink for MemSink {
    ghost use Rattle.std.specs.Prelude.{OnErr, Some, Ok, Err, ◌+◌};
    ghost use Rattle.byte_ports.specs.Memory.{failure, write_fails, write_count, after_write};

    ghost held = { λ k. Some k.held };

    ghost faults = { λ k. k.faults };

    ghost writes = { λ k. k.calls };

    fn write(&mut self, piece: &[u8]) -> Result<usize, Failed>
        ensures within { WritesAtMost result piece.now }
        ensures some { IfOk result (λ n. 0 < length piece.now → 0 < n) }
        ensures bytes { WriteAppends (Some self.old.held) (Some self.new.held) result piece.now }
        ensures failed { OnErr result (IsFault self.old.faults self.new.faults) }
        ensures never_falls { self.old.faults ≤ self.new.faults }
        ensures counted { self.new.calls ≤ self.old.calls + 1 }
        ensures answer { result ≡ (if write_fails self.old then Err failure
            else Ok (write_count self.old (length piece.now))) }
        ensures after { self.new ≡ after_write self.old piece.now }
    {
        let fails = stands_in(self.calls, self.fail_at.as_slice()) || self.room <= self.bytes.len();
        self.calls = count_up(self.calls);
        if fails {
            self.faults = count_up(self.faults);
            return Err(Failed);
        }
        let count = self
            .piece
            .min(piece.len().min(self.room - self.bytes.len()));
        self.bytes.extend_from_slice(&piece[..count]).unwrap();
        Ok(count)
    }
}

/// Whether a call's number stands among these.
fn stands_in(call: u64, numbers: &[u32]) -> bool
    ensures { result ≡ fails_at numbers.now call }
{
    numbers.iter().any(|number| u64::from(*number) == call)
}

/// Copies the front of `bytes` to the front of `buf`, at most `piece` of them, and says how many.
fn copy_front(bytes: &[u8], buf: &mut [u8], piece: usize) -> usize
    ensures count { result ≡ min piece (min (length buf.old) (length bytes.now)) }
    ensures copied { take result buf.new ≡ take result bytes.now }
{
    let count = piece.min(buf.len().min(bytes.len()));
    buf[..count].copy_from_slice(&bytes[..count]);
    count
}
