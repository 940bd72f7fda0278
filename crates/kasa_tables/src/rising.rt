// Lists of numbers that rise.
ghost use Rattle.std.specs.Prelude.{◌≡◌, ◌≤◌, ◌<◌, ◌↔◌, ℕ, Some, None, slice_get};
ghost use Rattle.kasa_graph.specs.Lists.{Has};
ghost use Rattle.kasa_families.specs.First.{IsLeastFrom};
ghost use Rattle.kasa_tables.specs.Index.{IsRising, lesser};

// The least number of the list at or after `from`.
pub(crate) fn first_from(list: &[u32], from: usize) -> Option<usize>
    requires { IsRising list.now }
    ensures { IsLeastFrom (Has list.now) from result }
{
    let start = start_in(list, from);
    if start < list.len() {
        Some(list[start] as usize)
    } else {
        None
    }
}

// The first place of the list with a number at or after `from`.
fn start_in(list: &[u32], from: usize) -> usize
    requires { IsRising list.now }
    ensures { (i k : ℕ) → slice_get list.now i ≡ Some k → (k < from ↔ i < result) }
{
    list.partition_point(|k| (*k as usize) < from)
}

// The lesser of two numbers, either of which may be missing.
pub(crate) fn lesser(a: Option<usize>, b: Option<usize>) -> Option<usize>
    ensures { result ≡ lesser a b }
{
    match a {
        None => b,
        Some(j) => match b {
            None => Some(j),
            Some(k) => Some(j.min(k)),
        },
    }
}
