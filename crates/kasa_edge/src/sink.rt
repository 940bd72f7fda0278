// A sink of bytes.
ghost use Rattle.std.specs.Prelude.{◌≡◌, ◌≤◌, ◌<◌, ◌^◌, ◌++◌, List, ℕ, Option, length, take, OnErr, IfOk, option_map};
ghost use Rattle.kasa_edge.specs.Causes.{Rose};

use thiserror::Error;

/// A write failed, and nothing was taken.
#[derive(Debug, Drop, PartialEq, Eq, Error)]
#[error("write fault")]
pub struct Failed;

/// What takes bytes, as standard output.
pub trait Sink {
    /// The bytes taken, where it tells them.
    ghost taken: { Self → Option (List ℕ) };

    /// How many writes have failed, up to 2^64 - 1, where the count stays.
    ghost faults: { Self → ℕ };

    /// Takes some first bytes of the piece, at least one, and gives their number. `Failed` comes
    /// only where the count of faults rose in this call. It takes no memory.
    fn write(&mut self, piece: &[u8]) -> Result<usize, Failed>
        requires { 0 < length piece.now }
        ensures some { IfOk result (λ n. 0 < n) }
        ensures within { IfOk result (λ n. n ≤ length piece.now) }
        ensures taken { IfOk result (λ n.
            taken self.new ≡ option_map (λ t. t ++ take n piece.now) (taken self.old)) }
        ensures err { OnErr result (taken self.new ≡ taken self.old) }
        ensures failed { OnErr result (Rose (faults self.old) (faults self.new)) }
        ensures later { faults self.old ≤ faults self.new };

    ghost faults_fit: { (sink : Self) → faults sink < 2 ^ 64 };
}
