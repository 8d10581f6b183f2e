//! std's reader and writer as a source and a sink. A source and a sink tell no bytes here, because a reader that tells
//! none may begin to tell. Where the reader or the writer tells, clauses of `read` and `write` speak of its bytes.
ghost use Rattle.std.specs.Prelude.{◌≡◌, ◌≤◌, ◌<◌, None, length, IfOk, OnOk, OnErr};
ghost use Rattle.std.specs.Io.KnownBytes.{ReadConsumes, WriteAppends};
ghost use Rattle.agg_base.specs.Outside.{one_more, Rose};

use crate::sink::Sink;
use crate::source::{Failed, Source};
use std::io::{Read, Write};

/// A source over a reader. Each error of the reader is a fault, `ErrorKind::Interrupted` too: nothing is tried again.
#[derive(Drop)]
pub struct StdSource<T> {
    reader: T,
    faults: u64,
}

impl<T: Read> StdSource<T> {
    /// A source that has not failed yet.
    pub fn new(reader: T) -> StdSource<T>
        ensures reader { result.reader ≡ reader }
        ensures faults { result.faults ≡ 0 }
    {
        StdSource { reader, faults: 0 }
    }
}

impl<T: Read> Source for StdSource<T> {
    ghost left = { λ _. None };

    ghost faults = { λ s. s.faults };

    fn read(&mut self, buf: &mut [u8]) -> Result<usize, Failed>
        requires { 0 < length buf.old }
        ensures reader { ReadConsumes (T.remaining self.old.reader) (T.remaining self.new.reader) result buf.new }
        ensures counted { OnErr result (self.new.faults ≡ one_more self.old.faults) }
        ensures not_counted { OnOk result (self.new.faults ≡ self.old.faults) }
        ensures within { IfOk result (λ n. n ≤ length buf.old) }
        ensures never_falls { self.old.faults ≤ self.new.faults }
        ensures fault { OnErr result (Rose self.old.faults self.new.faults) }
    {
        match self.reader.read(buf) {
            Ok(given) => Ok(given),
            Err(_) => {
                self.faults = self.faults.saturating_add(1);
                Err(Failed)
            }
        }
    }
}

/// A sink over a writer. Each error of the writer, and each write that takes no byte, is a fault: nothing is tried again.
#[derive(Drop)]
pub struct StdSink<T> {
    writer: T,
    faults: u64,
}

impl<T: Write> StdSink<T> {
    /// A sink that has not failed yet.
    pub fn new(writer: T) -> StdSink<T>
        ensures writer { result.writer ≡ writer }
        ensures faults { result.faults ≡ 0 }
    {
        StdSink { writer, faults: 0 }
    }
}

impl<T: Write> Sink for StdSink<T> {
    ghost written = { λ _. None };

    ghost faults = { λ s. s.faults };

    fn write(&mut self, buf: &[u8]) -> Result<usize, Failed>
        requires { 0 < length buf.now }
        ensures writer { WriteAppends (T.contents self.old.writer) (T.contents self.new.writer) result buf.now }
        ensures counted { OnErr result (self.new.faults ≡ one_more self.old.faults) }
        ensures not_counted { OnOk result (self.new.faults ≡ self.old.faults) }
        ensures some { IfOk result (λ n. 1 ≤ n) }
        ensures within { IfOk result (λ n. n ≤ length buf.now) }
        ensures never_falls { self.old.faults ≤ self.new.faults }
        ensures fault { OnErr result (Rose self.old.faults self.new.faults) }
    {
        match self.writer.write(buf) {
            Ok(taken) if taken > 0 => Ok(taken),
            _ => {
                self.faults = self.faults.saturating_add(1);
                Err(Failed)
            }
        }
    }
}
