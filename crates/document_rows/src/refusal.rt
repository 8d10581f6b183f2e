//! The refusal of a document at the path of one of its members.

ghost use Rattle.agg_reading.specs.Reading.{refuse};
ghost use Rattle.document_rows.specs.Faults.{Gives};

use crate::fault::ItemFault;
use agg_model::{ItemRefusal, Text};
use std::alloc::Global;

/// The refusal of this number at this path, which is empty where the document as a whole is refused. `Memory` comes in
/// its place where there is no memory for the path.
pub fn refuse<T>(alloc: Global, number: u8, path: &str) -> Result<T, ItemFault>
    ensures { Gives (λ x. x) result (refuse number path.now) }
{
    Err(ItemFault::Refused(ItemRefusal {
        number,
        path: Text::of(alloc, path)?,
    }))
}
