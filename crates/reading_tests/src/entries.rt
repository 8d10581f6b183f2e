//! Bodies, settings lines and refusals in the third section of a script.
ghost use Rattle.std.specs.Prelude.{◌≡◌, None, OnOk};
ghost use Rattle.agg_base.specs.Lines.{kept};

use crate::headers::refusal;
use agg_base::{Block, Lines, MemorySource, Source};
use agg_model::script_refusal::{BAD_HEADER, MISSING_BODY};
use agg_model::{Bytes, List as Numbers};
use script_lines::{Entry, next_entry};
use std::alloc::Global;
use std::process::Abort;
use std::test::Fail;

/// Asserts that the next entry is this body.
fn expect_body<S: Source>(
    rt: &impl Abort,
    alloc: Global,
    lines: &mut Lines<'_, S>,
    wanted: &[u8],
) -> Result<(), Fail>
    requires { kept lines.old ≡ None }
    ensures { OnOk result (kept lines.new ≡ None) }
{
    match next_entry(alloc, lines) {
        Ok(Some(Entry::Body(body))) => {
            assert!(rt; body.as_slice() == wanted);
            Ok(())
        }
        _ => Err(Fail::new("no body")),
    }
}

/// Asserts that the next entry is a settings line, which is an object.
fn expect_settings_line<S: Source>(
    rt: &impl Abort,
    alloc: Global,
    lines: &mut Lines<'_, S>,
) -> Result<(), Fail>
    requires { kept lines.old ≡ None }
    ensures { OnOk result (kept lines.new ≡ None) }
{
    match next_entry(alloc, lines) {
        Ok(Some(Entry::Settings(line))) => {
            assert!(rt; line.as_object().is_some());
            Ok(())
        }
        _ => Err(Fail::new("no settings line")),
    }
}

/// Asserts that the next entry is refused with this number at this line.
fn expect_refused<S: Source>(
    rt: &impl Abort,
    alloc: Global,
    lines: &mut Lines<'_, S>,
    number: u8,
    line: u64,
) -> Result<(), Fail>
    requires { kept lines.old ≡ None }
{
    match next_entry(alloc, lines) {
        Ok(_) => Err(Fail::new("one more entry")),
        Err(fault) => {
            assert!(rt; fault == refusal(alloc, number, line));
            Ok(())
        }
    }
}

#[test]
fn bodies_and_settings_lines_are_told_apart(rt: HostRuntime) -> Result<(), Fail> {
    let alloc = rt.alloc();
    let script = b"\r\n{}\n\n{\"persistent\":{}}\n\n[]\n".as_slice();
    let mut source = MemorySource::new(Bytes::of(alloc, script)?, 3, Numbers::new(alloc));
    let mut lines = Lines::new(alloc, &mut source, Block::new(alloc)?);
    expect_body(&rt, alloc, &mut lines, b"")?;
    expect_settings_line(&rt, alloc, &mut lines)?;
    expect_refused(&rt, alloc, &mut lines, BAD_HEADER, 6)
}

#[test]
fn a_missing_body_is_refused_at_its_header(rt: HostRuntime) -> Result<(), Fail> {
    let alloc = rt.alloc();
    let script = b"{}\n\r\n{}".as_slice();
    let mut source = MemorySource::new(Bytes::of(alloc, script)?, 7, Numbers::new(alloc));
    let mut lines = Lines::new(alloc, &mut source, Block::new(alloc)?);
    expect_body(&rt, alloc, &mut lines, b"\r")?;
    expect_refused(&rt, alloc, &mut lines, MISSING_BODY, 3)
}
