//! Why there is no mapping.

ghost use Rattle.agg_mapping.specs.Faults.{place_of, StandsAt};

use agg_model::Text;
use agg_reading::RequestFault;
use std::alloc::Global;

/// Why there is no mapping, or no index line.
#[derive(Drop, PartialEq, Eq)]
pub enum MapFault {
    /// A rule of index lines is broken.
    Refused {
        /// The JSON pointer of the first thing refused (RFC 6901); empty for the line itself.
        path: Text,
    },
    /// Memory ran out.
    Memory,
}

/// The same refusal without its number, which is one number for all of a mapping.
pub(crate) fn map_fault(alloc: Global, fault: RequestFault) -> MapFault
    ensures { StandsAt (place_of fault) result }
{
    match fault {
        RequestFault::NotJson => MapFault::Refused {
            path: Text::from_string(String::new(alloc)),
        },
        RequestFault::Bad { code: _, path } => MapFault::Refused { path },
        RequestFault::Memory => MapFault::Memory,
    }
}
