// The calls that are told to fail.
ghost use Rattle.std.specs.Prelude.{IsTrue, ◌↔◌, Contains};

// Whether the list names the call of this number.
pub fn is_listed(fails: &[u32], call: u64) -> bool
    ensures { IsTrue result ↔ Contains fails.now call }
{
    fails.iter().any(|n| u64::from(*n) == call)
}
