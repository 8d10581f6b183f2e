ghost use Rattle.std.specs.Prelude.{◌≡◌, ◌≢◌, ◌≤◌, ◌<◌, ◌+◌, ◌^◌, ◌↔◌, ◌∷◌, ◌++◌, [], None, Some, Ok, Err, true, false, ℕ, List, length, vec_len, IfOk, IfErr, IfNone, IfSome, OnErr, OnOk, OnSome, IsTrue, option_map};
ghost use Rattle.std.specs.Result.{result_err};
ghost use Rattle.std.specs.Io.KnownBytes.{prepend_known, IsAtEnd};
ghost use Rattle.agg_base.specs.Cut.{IsPlain, Answers, IsLine, lines_of, first_line, next_of, fault_of, as_result, whole_of};
ghost use Rattle.agg_base.specs.Outside.{Rose};
ghost use Rattle.agg_base.specs.declared.limits.TheConstants.{BLOCK};
ghost use Rattle.agg_model.specs.declared.limits.TheConstants.{MAX_INPUT, MAX_LINE};
ghost use Rattle.agg_base.specs.declared.lines.LineFault.TheVariants.{Memory};

use crate::limits::BLOCK;
use crate::source::{Failed, Source};
use agg_model::Bytes;
use agg_model::limits::{MAX_INPUT, MAX_LINE};
use memchr::memchr;
use std::alloc::{AllocError, Global};
use std::mem;

const NEWLINE: u8 = b'\n';

/// Why there is no next line.
#[derive(Clone, Copy, Debug, PartialEq, Eq)]
pub enum LineFault {
    /// The source failed.
    Read,
    /// The line has more than `MAX_LINE` bytes.
    LineTooLong,
    /// The line holds byte `MAX_INPUT` + 1 of the input, at or before its own byte `MAX_LINE` + 1. Its newline is one of
    /// its bytes here.
    InputTooLong,
    /// There was no memory for the line.
    Memory,
}

impl From<AllocError> for LineFault {
    ghost from_gives = { λ _ fault. fault ≡ Memory };

    fn from(_error: AllocError) -> LineFault {
        LineFault::Memory
    }
}

/// Where a line ends.
#[derive(Clone, Copy, PartialEq, Eq)]
enum LineEnd {
    Newline,
    Input,
}

/// The number of bytes before the first newline, or of all.
fn before_newline(bytes: &[u8]) -> usize
    ensures place { result ≡ length (first_line bytes.now) }
    ensures within { result ≤ length bytes.now }
{
    memchr(NEWLINE, bytes).unwrap_or(bytes.len())
}

/// The memory that a reader of lines reads into: 65,536 bytes. It is taken before the source is lent.
#[derive(Drop)]
pub struct Block {
    bytes: Vec<u8>,
    ghost whole: { length bytes.items ≡ BLOCK },
}

impl Block {
    /// A block that nothing was read into yet.
    pub fn new(alloc: Global) -> Result<Block, AllocError> {
        Ok(Block {
            bytes: vec![in alloc; 0; BLOCK]?,
        })
    }
}

/// Whether a line, `bytes` long so far and ended by a newline or not, is still within the limits.
fn check_limits(position: u64, bytes: usize, is_ended: bool) -> Result<(), LineFault>
    requires position { position ≤ MAX_INPUT }
    requires bytes { bytes < 2 ^ 63 }
    ensures answer { result ≡ as_result (fault_of position bytes (whole_of bytes is_ended)) }
    ensures short { OnOk result (bytes ≤ MAX_LINE) }
    ensures within { OnOk result (position + whole_of bytes is_ended ≤ MAX_INPUT) }
    ensures line_too_long { result ≡ Err LineFault.LineTooLong → MAX_LINE < bytes }
    ensures input_too_long { result ≡ Err LineFault.InputTooLong → MAX_INPUT < position + whole_of bytes is_ended }
    ensures no_other { IfErr result (λ fault. fault ≢ LineFault.Read) }
{
    let whole = bytes + usize::from(is_ended);
    if position + whole.min(MAX_LINE + 1) as u64 > MAX_INPUT {
        return Err(LineFault::InputTooLong);
    }
    if bytes > MAX_LINE {
        return Err(LineFault::LineTooLong);
    }
    Ok(())
}

/// Appends to the front of a line what `ahead` has of it, and answers the number of these bytes: it is less than all
/// where a newline stands behind them.
fn take_piece(position: u64, line: &mut Vec<u8>, ahead: &[u8]) -> Result<usize, LineFault>
    requires plain { IsPlain line.old.items }
    requires within { position + vec_len line.old ≤ MAX_INPUT }
    requires block { length ahead.now ≤ BLOCK }
    ensures place { IfOk result (λ place. place ≡ length (first_line ahead.now)) }
    ensures line { OnOk result (line.new.items ≡ line.old.items ++ first_line ahead.now) }
    ensures grown { IfOk result (λ place. vec_len line.new ≡ vec_len line.old + place) }
    ensures plain { OnOk result (IsPlain line.new.items) }
    ensures ended { IfOk result (λ place. place < length ahead.now → fault_of position (vec_len line.new) (vec_len line.new + 1) ≡ None) }
    ensures short { OnOk result (vec_len line.new ≤ MAX_LINE) }
    ensures still_within { OnOk result (position + vec_len line.new ≤ MAX_INPUT) }
    ensures same { OnErr result (line.new.items ≡ line.old.items) }
    ensures refused { IfErr result (λ fault. (rest : List ℕ) → Answers (next_of position (line.old.items ++ (ahead.now ++ rest))) (Err fault)) }
    ensures no_read { IfErr result (λ fault. fault ≢ LineFault.Read) }
    ensures line_too_long { result ≡ Err LineFault.LineTooLong → MAX_LINE < vec_len line.old + length ahead.now }
    ensures input_too_long { result ≡ Err LineFault.InputTooLong → MAX_INPUT < position + vec_len line.old + length ahead.now }
{
    let place = before_newline(ahead);
    check_limits(position, line.len() + place, place < ahead.len())?;
    line.extend_from_slice(&ahead[..place])?;
    Ok(place)
}

/// The lines of a source, one after another. The first fault is kept, and there is no line after it.
///
/// The place of a line in the input is the number of bytes that were handed out before it, each line with its newline.
#[derive(Drop)]
pub struct Lines<'a, S: Source> {
    source: &'a mut S,
    // The block that was read last, of which `start..end` is not yet used.
    buffer: Vec<u8>,
    start: usize,
    end: usize,
    // The front of the next line, as far as it was taken from blocks before.
    line: Vec<u8>,
    position: u64,
    handed: u64,
    kept: Option<LineFault>,
    // The source said that nothing more comes, and is not asked again.
    is_ended: bool,
    ghost ordered: { start ≤ end },
    ghost inside: { end ≤ length buffer.items },
    ghost block: { length buffer.items ≡ BLOCK },
    ghost plain: { IsPlain line.items },
    ghost short: { vec_len line ≤ MAX_LINE },
    ghost within: { position + vec_len line ≤ MAX_INPUT },
    ghost counted: { handed ≤ position },
    ghost used_up: { is_ended ≡ true → start ≡ end },
    ghost ended: { is_ended ≡ true → (rest : List ℕ) → S.left source.now ≡ Some rest → rest ≡ [] },
}

impl<'a, S: Source> Lines<'a, S> {
    ghost use Rattle.agg_base.specs.Lines.{source_of, source_name, to_come, unread, position, bytes_read, handed, kept, has_ended};
    ghost use Rattle.agg_base.specs.Lines.{Gave, IsFrontOfLine, Stays, Took, KeepsCounts};

    /// The lines of what `source` has left, of which nothing is read yet. It takes no memory.
    pub fn new(alloc: Global, source: &'a mut S, block: Block) -> Lines<'a, S>
        ensures same_source { source_name result ≡ source.entry.ghost_name }
        ensures source { source_of result ≡ source.old }
        ensures unread { unread result ≡ S.left source.old }
        ensures position { position result ≡ 0 }
        ensures bytes_read { bytes_read result ≡ 0 }
        ensures handed { handed result ≡ 0 }
        ensures kept { kept result ≡ None }
        ensures not_ended { has_ended result ≡ false }
    {
        let Block { bytes } = block;
        Lines {
            source,
            buffer: bytes,
            start: 0,
            end: 0,
            line: Vec::new(alloc),
            position: 0,
            handed: 0,
            kept: None,
            is_ended: false,
        }
    }

    /// The source again, with what it has left. What was read ahead is dropped.
    pub fn into_source(self) -> &'a mut S
        ensures same_source { result.ghost_name ≡ source_name self.entry }
        ensures source { result.now ≡ source_of self.entry }
    {
        let Lines { source, .. } = self;
        source
    }

    /// How many lines were handed out.
    pub fn line_number(&self) -> u64
        ensures { result ≡ handed self.now }
    {
        self.handed
    }

    /// The next line, without its newline, or none at the end of the input. A last line needs no newline.
    ///
    /// A fault is kept: it is the answer of every later call, which reads nothing more. Nothing is lost by it: the bytes
    /// that are not handed out stay as they were. Nor is anything read once the source has said that nothing more comes,
    /// so no read fails behind a last line without newline.
    pub fn next_line(&mut self, alloc: Global) -> Result<Option<Bytes>, LineFault>
        // What is answered, where no fault is kept and the source tells what it has left.
        ensures answer { kept self.old ≡ None → IfSome (unread self.old) (λ rest. Answers (next_of (position self.old) rest) result) }
        ensures lines { IfOk result (λ next. IfSome next (λ line. option_map lines_of (unread self.old) ≡ option_map (λ rest. line ∷ lines_of rest) (unread self.new))) }
        ensures line { IfOk result (λ next. IfSome next (λ line. IsLine line (unread self.old) (position self.old) (unread self.new) (position self.new))) }
        ensures short { IfOk result (λ next. IfSome next (λ line. length line ≤ MAX_LINE)) }
        ensures end { IfOk result (λ next. IfNone next (IsAtEnd (S.left (source_of self.new)))) }

        // Why a fault comes, where none is kept, and whether the source tells or not.
        ensures read { kept self.old ≡ None → result ≡ Err LineFault.Read → Rose (S.faults (source_of self.old)) (S.faults (source_of self.new)) }
        ensures line_too_long { kept self.old ≡ None → result ≡ Err LineFault.LineTooLong → position self.old + MAX_LINE < bytes_read self.new }
        ensures input_too_long { kept self.old ≡ None → result ≡ Err LineFault.InputTooLong → MAX_INPUT < bytes_read self.new }

        // Where the source failed, all whole lines of what was read are handed out.
        ensures front { kept self.old ≡ None → result ≡ Err LineFault.Read → IsFrontOfLine self.new }
        ensures not_ended { kept self.old ≡ None → result ≡ Err LineFault.Read → has_ended self.old ≡ false }
        ensures last_line { IfOk result (λ next. IfSome next (λ line. position self.new ≡ position self.old + length line → has_ended self.new ≡ true)) }
        ensures ended { IfOk result (λ next. IfNone next (has_ended self.new ≡ true)) }
        ensures stays_ended { has_ended self.old ≡ true → has_ended self.new ≡ true }

        // A fault is kept and answered again.
        ensures kept { kept self.new ≡ result_err result }
        ensures repeated { IfSome (kept self.old) (λ fault. result ≡ Err fault) }
        ensures untouched { OnSome (kept self.old) (self.new ≡ self.old) }

        // What else changes.
        ensures handed { IfOk result (λ next. OnSome next (handed self.new ≡ handed self.old + 1)) }
        ensures none { IfOk result (λ next. IfNone next (Stays self.old self.new)) }
        ensures err { OnErr result (Stays self.old self.new) }
        ensures never_falls { S.faults (source_of self.old) ≤ S.faults (source_of self.new) }
        ensures gave { Gave self.old self.new }
        ensures bytes_read { bytes_read self.old ≤ bytes_read self.new }
        ensures within { position self.new ≤ MAX_INPUT }
        ensures same_source { source_name self.new ≡ source_name self.old }
    {
        if let Some(fault) = self.kept {
            return Err(fault);
        }
        match self.gather() {
            Ok(LineEnd::Newline) => Ok(Some(self.hand_out(alloc, true))),
            Ok(LineEnd::Input) if self.line.is_empty() => Ok(None),
            Ok(LineEnd::Input) => Ok(Some(self.hand_out(alloc, false))),
            Err(fault) => {
                self.kept = Some(fault);
                Err(fault)
            }
        }
    }

    /// Hands the gathered line out.
    fn hand_out(&mut self, alloc: Global, is_ended: bool) -> Bytes
        requires some { 0 < whole_of (vec_len self.old.line) is_ended }
        requires within { self.old.position + whole_of (vec_len self.old.line) is_ended ≤ MAX_INPUT }
        ensures line { result ≡ self.old.line.items }
        ensures short { length result ≤ MAX_LINE }
        ensures empty { self.new.line.items ≡ [] }
        ensures to_come { to_come self.new ≡ to_come self.old }
        ensures ahead { (self.new.start ≡ self.old.start) × (self.new.end ≡ self.old.end) }
        ensures source { self.new.source ≡ self.old.source }
        ensures position { self.new.position ≡ self.old.position + whole_of (vec_len self.old.line) is_ended }
        ensures handed { self.new.handed ≡ self.old.handed + 1 }
        ensures kept { self.new.kept ≡ self.old.kept }
        ensures ended { has_ended self.new ≡ has_ended self.old }
    {
        let line = mem::replace(&mut self.line, Vec::new(alloc));
        self.position += line.len() as u64 + u64::from(is_ended);
        self.handed += 1;
        Bytes::from_vec(line)
    }

    /// Brings the next line into `line`, and goes over its newline.
    fn gather(&mut self) -> Result<LineEnd, LineFault>
        ensures took { IfOk result (λ end. Took self.old self.new (Some end)) }
        ensures used_up { result ≡ Err LineFault.Read → self.new.start ≡ self.new.end }
        ensures not_ended { result ≡ Err LineFault.Read → has_ended self.old ≡ false }
        ensures stays_ended { has_ended self.old ≡ true → has_ended self.new ≡ true }
        ensures err { OnErr result (unread self.new ≡ unread self.old) }
        ensures gave { OnErr result (Gave self.old self.new) }
        ensures answer { IfErr result (λ fault. IfSome (unread self.old) (λ rest. Answers (next_of (position self.old) rest) (Err fault))) }
        ensures read { result ≡ Err LineFault.Read → Rose (S.faults (source_of self.old)) (S.faults (source_of self.new)) }
        ensures line_too_long { result ≡ Err LineFault.LineTooLong → position self.old + MAX_LINE < bytes_read self.new }
        ensures input_too_long { result ≡ Err LineFault.InputTooLong → MAX_INPUT < bytes_read self.new }
        ensures never_falls { S.faults (source_of self.old) ≤ S.faults (source_of self.new) }
        ensures counts { KeepsCounts self.old self.new }
    {
        loop {
            if let Some(end) = self.step()? {
                return Ok(end);
            }
        }
    }

    /// Takes the next piece of the line from the block, and answers how the line ends, if the piece is its last.
    fn step(&mut self) -> Result<Option<LineEnd>, LineFault>
        ensures took { IfOk result (Took self.old self.new) }
        ensures used_up { result ≡ Err LineFault.Read → self.new.start ≡ self.new.end }
        ensures not_ended { result ≡ Err LineFault.Read → has_ended self.old ≡ false }
        ensures stays_ended { has_ended self.old ≡ true → has_ended self.new ≡ true }
        ensures err { OnErr result (unread self.new ≡ unread self.old) }
        ensures gave { OnErr result (Gave self.old self.new) }
        ensures answer { IfErr result (λ fault. IfSome (unread self.old) (λ rest. Answers (next_of (position self.old) rest) (Err fault))) }
        ensures read { result ≡ Err LineFault.Read → Rose (S.faults (source_of self.old)) (S.faults (source_of self.new)) }
        ensures line_too_long { result ≡ Err LineFault.LineTooLong → position self.old + MAX_LINE < bytes_read self.new }
        ensures input_too_long { result ≡ Err LineFault.InputTooLong → MAX_INPUT < bytes_read self.new }
        ensures never_falls { S.faults (source_of self.old) ≤ S.faults (source_of self.new) }
        ensures counts { KeepsCounts self.old self.new }
    {
        if !self.fill()? {
            return Ok(Some(LineEnd::Input));
        }
        let ahead = &self.buffer.as_slice()[self.start..self.end];
        let place = take_piece(self.position, &mut self.line, ahead)?;
        let is_ended = place < ahead.len();
        self.start += place;
        if is_ended {
            self.start += 1;
            return Ok(Some(LineEnd::Newline));
        }
        Ok(None)
    }

    /// Reads the next block where the last one is used up, and answers whether there is a byte ahead.
    fn fill(&mut self) -> Result<bool, LineFault>
        ensures ahead { IfOk result (λ is_ahead. IsTrue is_ahead ↔ (self.new.start < self.new.end)) }
        ensures end { result ≡ Ok false → IsAtEnd (to_come self.new) × IsAtEnd (S.left (source_of self.new)) }
        ensures to_come { to_come self.new ≡ to_come self.old }
        ensures read { IfErr result (λ fault. fault ≡ LineFault.Read) }
        ensures fault { OnErr result (Rose (S.faults (source_of self.old)) (S.faults (source_of self.new))) }
        ensures used_up { OnErr result (self.new.start ≡ self.new.end) }
        ensures not_ended { OnErr result (has_ended self.old ≡ false) }
        ensures ended { result ≡ Ok false → has_ended self.new ≡ true }
        ensures goes_on { IfOk result (λ is_ahead. IsTrue is_ahead → has_ended self.new ≡ has_ended self.old) }
        ensures stays_ended { has_ended self.old ≡ true → has_ended self.new ≡ true }
        ensures never_falls { S.faults (source_of self.old) ≤ S.faults (source_of self.new) }
        ensures line { self.new.line ≡ self.old.line }
        ensures counts { KeepsCounts self.old self.new }
        ensures gave { Gave self.old self.new }
    {
        if self.start < self.end {
            return Ok(true);
        }
        if self.is_ended {
            return Ok(false);
        }
        match self.source.read(self.buffer.as_mut_slice()) {
            Ok(given) => {
                self.start = 0;
                self.end = given;
                self.is_ended = given == 0;
                Ok(given > 0)
            }
            Err(Failed) => Err(LineFault::Read),
        }
    }
}
