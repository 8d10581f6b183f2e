//! Why pipelines give no answer.
ghost use Rattle.std.specs.Prelude.{◌≡◌};
ghost use Rattle.pipeline_agg.specs.declared.fault.PipeFault.TheVariants.{Memory as OutOfMemory};

use agg_model::Text;
use std::alloc::{AllocError, AllocFailed};

/// Why pipelines give no answer.
#[derive(Drop, PartialEq, Eq)]
pub enum PipeFault {
    /// The value of a pipeline lies outside signed 64 bits.
    SumRange {
        /// `/` before each name of the aggregations on the way, and before that of the pipeline.
        path: Text,
    },
    /// Memory ran out.
    Memory,
}

impl From<AllocError> for PipeFault {
    ghost from_gives = { λ _ fault. fault ≡ OutOfMemory };

    fn from(_error: AllocError) -> Self {
        PipeFault::Memory
    }
}

impl<T: Drop> From<AllocFailed<T>> for PipeFault {
    ghost from_gives = { λ _ fault. fault ≡ OutOfMemory };

    fn from(_error: AllocFailed<T>) -> Self {
        PipeFault::Memory
    }
}
