// Why a text has no model.
ghost use Rattle.std.specs.Prelude.{◌≡◌};
ghost use Rattle.kasa_compile.specs.declared.fault.CompileFault.TheVariants.{NoMemory as no_memory};

use kasa_lexer::LexFault;
use kasa_num::{NoMemory, Place};
use kasa_parser::ParseFault;
use kasa_sig::SigFault;
use thiserror::Error;

/// Why an init, an addition or a rule is refused: the causes in the order in which they are tried within one declaration, each with
/// the place where it comes first.
#[derive(Debug, Drop, PartialEq, Eq, Error)]
pub enum CompileFault {
    /// There is no memory for the model.
    #[error("no memory")]
    NoMemory,
    /// A type that the signature doesn't have; the place is that of the name.
    #[error("the type is not declared")]
    UnknownType(Place),
    /// A site that its type doesn't have; the place is that of the name.
    #[error("the type has no such site")]
    UnknownSite(Place),
    /// A state that its site doesn't have; the place is that of the name.
    #[error("the site has no such state")]
    UnknownState(Place),
    /// A site that stands in its agent already; the place is that of its second name.
    #[error("the site stands twice")]
    SiteTwice(Place),
    /// A label that doesn't stand exactly twice on a side of a rule, or in a complex; the place is that of the label.
    #[error("the label does not stand exactly twice")]
    LabelNotTwice(Place),
    /// Two agents of different types that belong together; the place is that of the right name.
    #[error("the agents have different types")]
    TypeMismatch(Place),
    /// A bond on the left of which one end is touched and the other isn't; the place is that of the site that isn't.
    #[error("one end of the bond is touched and the other is not")]
    HalfBond(Place),
    /// What can't stand on the right; the place is that of the site's name.
    #[error("this cannot stand on the right")]
    BadRight(Place),
    /// A site of an init or addition whose state or link is left open; the place is that of the site's name.
    #[error("an init cannot leave this open")]
    PartialInit(Place),
    /// The 13th agent of a side of a rule, or the 201st of an init or addition; the place is that of its name.
    #[error("there are too many agents")]
    TooManyNodes(Place),
    /// The 2,001st rule; the place is that of its declaration.
    #[error("there are more than 2,000 rules")]
    TooManyRules(Place),
    /// The 1,001st init or addition, both counted together; the place is that of an init's declaration, or of the `$ADD`.
    #[error("there are more than 1,000 inits and additions")]
    TooManyInits(Place),
}

impl From<NoMemory> for CompileFault {
    ghost from_gives = { λ _ e. e ≡ no_memory };

    fn from(_: NoMemory) -> CompileFault {
        CompileFault::NoMemory
    }
}

/// Why a text has no model: the first fault of its bytes, else of its tokens, else of its signature, else of its
/// inits, additions and rules in text order.
#[derive(Debug, Drop, PartialEq, Eq, Error)]
pub enum ModelFault {
    /// There is no memory for the model, or for what it is read from.
    #[error("no memory")]
    NoMemory,
    #[error("{0}")]
    Lex(LexFault),
    #[error("{0}")]
    Parse(ParseFault),
    #[error("{0}")]
    Sig(SigFault),
    #[error("{0}")]
    Compile(CompileFault),
}
