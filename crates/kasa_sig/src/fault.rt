// Why a text has no signature.
ghost use Rattle.std.specs.Prelude.{◌≡◌};
ghost use Rattle.kasa_sig.specs.declared.fault.SigFault.TheVariants.{NoMemory as no_memory};

use kasa_num::{NoMemory, Place};
use thiserror::Error;

/// Why a text has no signature. A place is that of the first name, in text order, that is refused.
#[derive(Debug, Drop, PartialEq, Eq, Error)]
pub enum SigFault {
    /// There is no memory for the signature.
    #[error("no memory")]
    NoMemory,
    /// A type, a site of its type or a state of its site is declared a second time.
    #[error("the name is declared already")]
    Twice(Place),
    /// The 501st type.
    #[error("there are more than 500 types")]
    TooManyTypes(Place),
    /// The 33rd site of its type.
    #[error("the type has more than 32 sites")]
    TooManySites(Place),
    /// The 33rd state of its site.
    #[error("the site has more than 32 states")]
    TooManyStates(Place),
}

impl From<NoMemory> for SigFault {
    ghost from_gives = { λ _ e. e ≡ no_memory };

    fn from(_: NoMemory) -> SigFault {
        SigFault::NoMemory
    }
}
