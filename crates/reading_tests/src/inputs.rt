//! Lines of an input, whole and with faults, and what a sink takes.
ghost use Rattle.std.specs.Prelude.{◌≤◌};

use agg_base::{
    Block, Failed, LineFault, Lines, MemorySink, MemorySource, Sink, Source, StdSink, StdSource,
    write_all,
};
use agg_model::{Bytes, List as Numbers};
use std::alloc::{AllocError, Global};
use std::io;
use std::io::{Read, Write};
use std::process::Abort;
use std::test::Fail;

fn source_of(
    alloc: Global,
    text: &[u8],
    piece: usize,
    failing: &[u64],
) -> Result<MemorySource, AllocError>
    requires { 1 ≤ piece }
{
    let failing = Numbers::from_vec(Vec::from_slice(alloc, failing)?);
    Ok(MemorySource::new(Bytes::of(alloc, text)?, piece, failing))
}

/// The lines, each with a bar behind it, up to the end or the first fault.
fn barred<S: Source>(alloc: Global, source: &mut S) -> Result<(Vec<u8>, Option<LineFault>), Fail> {
    let mut lines = Lines::new(alloc, source, Block::new(alloc)?);
    let mut all = Vec::new(alloc);
    for _ in 0..9u8 {
        match lines.next_line(alloc) {
            Ok(Some(line)) => {
                all.extend_from_slice(line.as_slice())?;
                all.extend_from_slice(b"|")?;
            }
            Ok(None) => return Ok((all, None)),
            Err(fault) => return Ok((all, Some(fault))),
        }
    }
    Ok((all, None))
}

/// Asserts the lines of a source, each with a bar behind it, and the fault that ends them.
fn expect_lines(
    rt: &impl Abort,
    alloc: Global,
    mut source: MemorySource,
    wanted: &[u8],
    fault: Option<LineFault>,
) -> Result<(), Fail> {
    let (all, found) = barred(alloc, &mut source)?;
    assert!(rt; all.as_slice() == wanted);
    assert_eq!(rt; found, fault);
    Ok(())
}

#[test]
fn pieces_of_any_length_give_the_same_lines(rt: HostRuntime) -> Result<(), Fail> {
    let text = b"one\n\r\n\nlast";
    let wanted = b"one|\r||last|";
    let alloc = rt.alloc();
    let by_one = source_of(alloc, text, 1, &[])?;
    expect_lines(&rt, alloc, by_one, wanted, None)?;
    let by_seven = source_of(alloc, text, 7, &[])?;
    expect_lines(&rt, alloc, by_seven, wanted, None)?;
    let by_block = source_of(alloc, text, 65_536, &[])?;
    expect_lines(&rt, alloc, by_block, wanted, None)
}

#[test]
fn a_failed_read_ends_the_lines(rt: HostRuntime) -> Result<(), Fail> {
    let source = source_of(rt.alloc(), b"one\ntwo\n", 4, &[1])?;
    expect_lines(&rt, rt.alloc(), source, b"one|", Some(LineFault::Read))
}

#[test]
fn no_read_fails_behind_the_end(rt: HostRuntime) -> Result<(), Fail> {
    let source = source_of(rt.alloc(), b"one\ntwo", 7, &[2])?;
    expect_lines(&rt, rt.alloc(), source, b"one|two|", None)
}

#[test]
fn a_sink_takes_what_it_has_room_for(rt: HostRuntime) -> Result<(), Fail> {
    let mut sink = MemorySink::new(rt.alloc(), 5, 2, Numbers::new(rt.alloc()))?;
    assert_eq!(rt; write_all(&mut sink, b"abc"), Ok(()));
    assert_eq!(rt; write_all(&mut sink, b"def"), Err(Failed));
    assert_eq!(rt; sink.written(), b"abcde".as_slice());
    Ok(())
}

/// A reader and writer that fails once, and then gives or takes one byte.
#[derive(Drop)]
struct FailsOnce {
    calls: u8,
}

impl FailsOnce {
    fn call(&mut self) -> io::Result<()> {
        if self.calls == 0 {
            self.calls = 1;
            return Err(io::Error::from(io::ErrorKind::Other));
        }
        Ok(())
    }
}

impl Read for FailsOnce {
    fn read(&mut self, buf: &mut [u8]) -> io::Result<usize> {
        self.call()?;
        if buf.is_empty() {
            return Ok(0);
        }
        buf[0] = b'x';
        Ok(1)
    }
}

impl Write for FailsOnce {
    fn write(&mut self, buf: &[u8]) -> io::Result<usize> {
        self.call()?;
        Ok(buf.len().min(1))
    }

    fn flush(&mut self) -> io::Result<()> {
        Ok(())
    }
}

#[test]
fn an_error_of_a_reader_is_a_fault_and_is_not_tried_again(rt: HostRuntime) {
    let mut source = StdSource::new(FailsOnce { calls: 0 });
    let mut buf = [0; 2];
    assert_eq!(rt; source.read(&mut buf), Err(Failed));
    assert_eq!(rt; source.read(&mut buf), Ok(1));
    assert_eq!(rt; buf, [b'x', 0]);
}

#[test]
fn an_error_of_a_writer_is_a_fault_and_is_not_tried_again(rt: HostRuntime) {
    let mut sink = StdSink::new(FailsOnce { calls: 0 });
    assert_eq!(rt; sink.write(b"ab"), Err(Failed));
    assert_eq!(rt; sink.write(b"ab"), Ok(1));
}
