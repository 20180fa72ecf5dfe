// The outside: a file as a source, and a writer, as standard output, as a sink.
//
// This is the trusted edge. What a file holds and what reaches a terminal is told by no contract; these count each error that
// the system gives, so that a failure shows in the count.
//
// A file is opened again at a read that follows a failed one. Every error that the system gives is
// a fault, an interrupted call too, and so is a flush that fails after its bytes were written.
ghost use Rattle.std.specs.Prelude.{◌≡◌, ◌+◌, ◌<◌, ◌≤◌, None, length, IfOk, OnOk, OnErr};
ghost use Rattle.std.specs.Io.{ReadsAtMost, WritesAtMost};
ghost use Rattle.std.specs.Io.KnownBytes.{ReadConsumes, WriteAppends};
ghost use Rattle.byte_ports.specs.Faults.{IsFault, one_more};

use crate::{Failed, Sink, Source, count_up};
use std::io::{Read, Write};
use std::marker::Model;
use std::rt::Files;
use std::{fs, io};

/// A file, opened at the first read. A file that can't be opened is a failed read.
#[derive(Drop)]
pub struct FileSource<'a, R: Files> {
    rt: &'a R,
    path: String,
    file: Option<R::File>,
    faults: u64,
}

impl<'a, R: Files> Model for FileSource<'a, R> {
    ghost use Rattle.std.specs.Prelude.{ℕ};

    ghost Value = { ℕ };

    ghost view = { λ s. s.faults };
}

impl<'a, R: Files> FileSource<'a, R> {
    /// The file at this path, which isn't opened yet.
    pub fn new(rt: &'a R, path: String) -> FileSource<'a, R>
        ensures { result ≡ 0 }
    {
        FileSource {
            rt,
            path,
            file: None,
            faults: 0,
        }
    }

    /// Reads from the file, and opens it first where that wasn't done.
    fn read_file(&mut self, buf: &mut [u8]) -> io::Result<usize>
        ensures within { ReadsAtMost result buf.new }
        ensures same { self.new ≡ self.old }
    {
        if let Some(file) = &mut self.file {
            return file.read(buf);
        }
        let mut file = fs::open(self.rt, self.path.as_str())?;
        let count = file.read(buf);
        self.file = Some(file);
        count
    }
}

impl<'a, R: Files> Source for FileSource<'a, R> {
    ghost left = { λ _. None };

    ghost faults = { λ s. s };

    ghost reads = { λ _. 0 };

    fn read(&mut self, buf: &mut [u8]) -> Result<usize, Failed>
        ensures within { ReadsAtMost result buf.new }
        ensures bytes { ReadConsumes None None result buf.new }
        ensures failed { OnErr result (IsFault self.old self.new) }
        ensures never_falls { self.old ≤ self.new }
        ensures counted { 0 ≤ 0 + 1 }
        ensures no_fault { OnOk result (self.new ≡ self.old) }
        ensures one_fault { OnErr result (self.new ≡ one_more self.old) }
    {
        match self.read_file(buf) {
            Ok(count) => Ok(count),
            Err(_) => {
                self.faults = count_up(self.faults);
                Err(Failed)
            }
        }
    }
}

/// A writer, as standard output. Each piece is written and flushed.
#[derive(Drop)]
pub struct StdSink<W: Write> {
    writer: W,
    faults: u64,
}

impl<W: Write> Model for StdSink<W> {
    ghost use Rattle.std.specs.Prelude.{ℕ};

    ghost Value = { ℕ };

    ghost view = { λ k. k.faults };
}

impl<W: Write> StdSink<W> {
    /// A sink over a writer, none of whose writes has failed yet.
    pub fn new(writer: W) -> StdSink<W>
        ensures { result ≡ 0 }
    {
        StdSink { writer, faults: 0 }
    }

    /// Writes a piece and flushes it. A writer that takes nothing of a piece that isn't empty has failed.
    fn write_and_flush(&mut self, piece: &[u8]) -> io::Result<usize>
        ensures within { WritesAtMost result piece.now }
        ensures same { self.new ≡ self.old }
    {
        let count = self.writer.write(piece)?;
        self.writer.flush()?;
        Ok(count)
    }
}

impl<W: Write> Sink for StdSink<W> {
    ghost held = { λ _. None };

    ghost faults = { λ k. k };

    ghost writes = { λ _. 0 };

    fn write(&mut self, piece: &[u8]) -> Result<usize, Failed>
        ensures within { WritesAtMost result piece.now }
        ensures some { IfOk result (λ n. 0 < length piece.now → 0 < n) }
        ensures bytes { WriteAppends None None result piece.now }
        ensures failed { OnErr result (IsFault self.old self.new) }
        ensures never_falls { self.old ≤ self.new }
        ensures counted { 0 ≤ 0 + 1 }
        ensures no_fault { OnOk result (self.new ≡ self.old) }
        ensures one_fault { OnErr result (self.new ≡ one_more self.old) }
    {
        match self.write_and_flush(piece) {
            Ok(count) if 0 < count || piece.is_empty() => Ok(count),
            _ => {
                self.faults = count_up(self.faults);
                Err(Failed)
            }
        }
    }
}
