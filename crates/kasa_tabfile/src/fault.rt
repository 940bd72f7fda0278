// Why a text isn't the text of tables.
ghost use Rattle.std.specs.Prelude.{◌≡◌};
ghost use Rattle.kasa_tabfile.specs.declared.fault.TabFault.TheVariants.{NoMemory as no_memory};

use kasa_num::NoMemory;
use thiserror::Error;

/// Why a text isn't the text of tables. A number is that of the line, from 1.
#[derive(Clone, Copy, Debug, PartialEq, Eq, Error)]
pub enum TabFault {
    /// The line has no form of a line, or stands where no such line may.
    #[error("not a line of tables")]
    BadLine(u32),
    /// The line is none of a family over the signature.
    #[error("not a family")]
    BadFamily(u32),
    /// The family was there.
    #[error("a family twice")]
    FamilyTwice(u32),
    /// The family is the 8,001st.
    #[error("too many families")]
    TooManyFamilies(u32),
    /// No family was there, or the line is none of a row of it over the signature.
    #[error("not a row")]
    BadRow(u32),
    /// The row was there in its family.
    #[error("a row twice")]
    RowTwice(u32),
    /// The row is the 200,001st.
    #[error("too many rows")]
    TooManyRows(u32),
    /// All lines are right, and the last one isn't among them.
    #[error("no end")]
    NoEnd,
    /// There is no memory for the tables.
    #[error("no memory")]
    NoMemory,
}

impl From<NoMemory> for TabFault {
    ghost from_gives = { λ _ fault. fault ≡ no_memory };

    fn from(_: NoMemory) -> TabFault {
        TabFault::NoMemory
    }
}
