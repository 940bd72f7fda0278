// The lines that a file may have.
use kasa_families::{Family, Row};

/// The version of the format that a header names.
#[derive(Clone, Copy, Debug, PartialEq, Eq)]
pub enum Version {
    One,
    Two,
}

/// A line that has a form. `None` stands for a family or a row that is none over any signature, since it is too long or
/// has a number too large.
#[derive(Debug, Drop)]
pub enum Line {
    Header(Version),
    Family(Option<Family>),
    /// A family that files of version 1 don't have.
    Chain(Option<Family>),
    Row(Option<Row>),
    End,
}
