// Runs of words that are read and not used.

/// Where a run stands.
#[derive(Clone, Copy, Debug, PartialEq, Eq)]
pub enum Run {
    /// The links of a site of an agent declaration.
    Links,
    /// Behind a word with `$` of a `%mod` declaration, or before the first of them.
    Mod,
    /// A rate, or another declaration that is skipped.
    Rate,
}

/// What a word with `$` begins in a `%mod` declaration.
#[derive(Clone, Copy, Debug, PartialEq, Eq)]
pub enum DollarWord {
    /// An addition, which begins at an offset.
    Addition(u32),
    /// Words that are skipped.
    Other,
}

/// What a declaration that begins with `%` is.
#[derive(Clone, Copy, Debug, PartialEq, Eq)]
pub enum Keyword {
    Agent,
    Init,
    Mod,
    /// `%var`, `%obs`, `%plot` or `%def`.
    Skipped,
}
