// Kinds of families.
ghost use Rattle.std.specs.Prelude.{◌≡◌};
ghost use Rattle.kasa_choose.specs.Kind.{is_left_out as is_one_of};

/// A kind of families, which a flag may leave out.
#[derive(Clone, Copy, Debug, PartialEq, Eq)]
pub enum Kind {
    /// The local states of some sites of one agent.
    Views,
    /// The local states of two sites at the ends of a bond.
    Across,
    /// Whether two bonds of an agent lead to one partner or to two.
    Parallel,
    /// The local states of two sites at the ends of two bonds of one agent.
    Chains,
}

// The kind is one of those that are left out.
pub(crate) fn is_left_out(kind: Kind, without: &[Kind]) -> bool
    ensures { result ≡ is_one_of without.now kind }
{
    without.iter().any(|other| kind == *other)
}
