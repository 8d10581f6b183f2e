//! Headers, settings lines and lines that a script lacks.
ghost use Rattle.std.specs.Prelude.{◌≡◌, None, OnOk};
ghost use Rattle.agg_base.specs.Lines.{kept};

use agg_base::{Block, Lines, MemorySource, Source};
use agg_model::script_refusal::{BAD_HEADER, MISSING_SECTION};
use agg_model::{Bytes, List as Numbers, Text};
use script_lines::{
    Header, ScriptFault, ScriptRefusal, header_of, is_empty_line, next_line, take_line,
};
use std::alloc::{AllocError, Global};
use std::process::Abort;
use std::test::Fail;

/// A refusal with this number at this line.
pub(crate) fn refusal(alloc: Global, number: u8, line: u64) -> ScriptFault {
    ScriptFault::Refused(ScriptRefusal {
        number,
        line,
        path: Text::from_string(String::new(alloc)),
    })
}

/// What a header line is: `s` for a search, `c` for a settings line, `r` for one refused with `BAD_HEADER` at line 7.
fn kind_of(alloc: Global, line: &[u8]) -> Result<u8, AllocError> {
    match header_of(alloc, 7, line) {
        Ok(Header::Search) => Ok(b's'),
        Ok(Header::Settings(_change)) => Ok(b'c'),
        Err(fault) => {
            let bad_header = refusal(alloc, BAD_HEADER, 7);
            if fault == bad_header {
                Ok(b'r')
            } else {
                Err(AllocError)
            }
        }
    }
}

/// Asserts what each header line is.
fn expect_kinds(rt: &impl Abort, alloc: Global, rows: &[(&str, u8)]) -> Result<(), Fail> {
    for &(line, kind) in rows {
        assert!(rt; kind_of(alloc, line.as_bytes())? == kind, "{line}");
    }
    Ok(())
}

#[test]
fn headers_are_told_from_settings_lines(rt: HostRuntime) -> Result<(), Fail> {
    let rows = &[
        ("{}", b's'),
        ("{\"index\":\"i\"}", b's'),
        ("{\"persistent\":{}}", b'c'),
        ("{\"transient\":5}", b'c'),
        ("{\"persistent\":{},\"transient\":{}}", b's'),
        ("[]", b'r'),
        ("{", b'r'),
    ];
    expect_kinds(&rt, rt.alloc(), rows)
}

/// Asserts that there is a next line, which is not empty.
fn expect_line<S: Source>(
    rt: &impl Abort,
    alloc: Global,
    lines: &mut Lines<'_, S>,
) -> Result<(), Fail>
    requires { kept lines.old ≡ None }
    ensures { OnOk result (kept lines.new ≡ None) }
{
    match next_line(alloc, lines) {
        Ok(Some(line)) => {
            assert!(rt; !is_empty_line(line.as_slice()));
            Ok(())
        }
        _ => Err(Fail::new("no line")),
    }
}

/// Asserts that the line which has to be there is empty.
fn expect_empty_line<S: Source>(
    rt: &impl Abort,
    alloc: Global,
    lines: &mut Lines<'_, S>,
) -> Result<(), Fail>
    requires { kept lines.old ≡ None }
    ensures { OnOk result (kept lines.new ≡ None) }
{
    match take_line(alloc, lines, MISSING_SECTION) {
        Ok(line) => {
            assert!(rt; is_empty_line(line.as_slice()));
            Ok(())
        }
        Err(_) => Err(Fail::new("no line")),
    }
}

/// Asserts that the line which has to be there is missing behind this one.
fn expect_missing<S: Source>(
    rt: &impl Abort,
    alloc: Global,
    lines: &mut Lines<'_, S>,
    last: u64,
) -> Result<(), Fail>
    requires { kept lines.old ≡ None }
{
    match take_line(alloc, lines, MISSING_SECTION) {
        Ok(_) => Err(Fail::new("one more line")),
        Err(fault) => {
            assert!(rt; fault == refusal(alloc, MISSING_SECTION, last));
            Ok(())
        }
    }
}

#[test]
fn a_missing_line_is_refused_at_the_last_one(rt: HostRuntime) -> Result<(), Fail> {
    let alloc = rt.alloc();
    let mut source = MemorySource::new(Bytes::of(alloc, b"a\n\r\n")?, 1, Numbers::new(alloc));
    let mut lines = Lines::new(alloc, &mut source, Block::new(alloc)?);
    expect_line(&rt, alloc, &mut lines)?;
    expect_empty_line(&rt, alloc, &mut lines)?;
    expect_missing(&rt, alloc, &mut lines, 2)
}
