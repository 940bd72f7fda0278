// Why there are no least tables.
ghost use Rattle.std.specs.Prelude.{◌≡◌};
ghost use Rattle.kasa_worklist.specs.declared.fault.SolveFault.TheVariants.{NoMemory as no_memory};

use kasa_num::NoMemory;
use std::alloc::{AllocError, AllocFailed};
use thiserror::Error;

/// Why there are no least tables.
#[derive(Debug, Drop, PartialEq, Eq, Error)]
pub enum SolveFault {
    /// All closed tables have more rows than there may be.
    #[error("too many rows")]
    TooManyRows,
    /// There is no memory for the tables.
    #[error("no memory")]
    NoMemory,
}

impl From<NoMemory> for SolveFault {
    ghost from_gives = { λ _ fault. fault ≡ no_memory };

    fn from(_: NoMemory) -> SolveFault {
        SolveFault::NoMemory
    }
}
