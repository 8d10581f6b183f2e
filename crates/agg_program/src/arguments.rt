//! The words of the command line, as the system tells them.
ghost use Rattle.std.specs.Prelude.{◌≡◌, IfOk, Some, map, string_bytes};
ghost use Rattle.std.specs.Vec.Iter.{into_iter_items};
ghost use Rattle.agg_program.specs.Arguments.{no_text as no_text_of, words_given};

use agg_model::{List, Text};
use std::alloc::{AllocError, Global};
use std::env::Args;
use std::io;
use std::io::ErrorKind;

// One word that is outside the grammar.
fn no_text(alloc: Global) -> Result<List<Text>, AllocError>
    ensures { IfOk result (λ words. words ≡ no_text_of) }
{
    let mut words = List::new(alloc);
    words.push(Text::of(alloc, "")?)?;
    Ok(words)
}

fn texts_of(alloc: Global, arguments: Args) -> Result<List<Text>, AllocError>
    ensures { IfOk result (λ words. words ≡ map string_bytes (into_iter_items arguments)) }
{
    let mut words = List::new(alloc);
    for argument in arguments {
        words.push(Text::from_string(argument))?;
    }
    Ok(words)
}

/// The words behind the program's name, which are moved. Where they are not text, one word that is outside the grammar stands for
/// them; where the system had no memory for them, that is the answer.
pub(crate) fn words_of(alloc: Global, arguments: io::Result<Args>) -> Result<List<Text>, AllocError>
    ensures { IfOk result (λ words. words_given arguments ≡ Some words) }
{
    match arguments {
        Ok(mut all) => {
            let _name = all.next();
            texts_of(alloc, all)
        }
        Err(error) => match error.kind() {
            ErrorKind::OutOfMemory => Err(AllocError),
            _ => no_text(alloc),
        },
    }
}
