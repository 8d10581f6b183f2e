//! A log of large answers.
ghost use Rattle.std.specs.Prelude.{◌≡◌, None, true};

use crate::listener::{Keep, Listener, Told};
use std::io::Write;

/// From so many bytes on an answer is logged.
const LARGE: u64 = 1_048_576;

/// A steady listener that writes a line for each answer of 1,048,576 bytes or more to a writer. It keeps nothing, and passes
/// over a write that fails: a log must not end a run.
#[derive(Drop)]
pub struct LargeAnswers<W> {
    log: W,
}

impl<W: Write + Drop> LargeAnswers<W> {
    /// One that logs to this writer.
    pub fn new(log: W) -> LargeAnswers<W>
        ensures { result.log ≡ log }
    {
        LargeAnswers { log }
    }

    /// The writer, with what was logged.
    pub fn into_log(self) -> W
        ensures { result ≡ self.log }
    {
        self.log
    }
}

impl<W: Write + Drop> Listener for LargeAnswers<W> {
    ghost standing = { λ _. record { heard = None; steady = true; room = 0 } };

    fn hear(&mut self, told: Told) -> Keep {
        if told.bytes >= LARGE {
            let _written = writeln!(
                self.log,
                "large answer: line {}, {} bytes",
                told.line, told.bytes
            );
        }
        Keep::Stay
    }

    fn entry(&self, _place: usize) -> Option<Told> {
        None
    }
}
