// A shelf of texts by their names.
ghost use Rattle.std.specs.Prelude.{◌≡◌, ◌⊎◌, ◌≤◌, ◌<◌, ◌+◌, ◌^◌, ℕ, length, take, Some, None, IfOk, IfSome, IsErrOf, option_map};
ghost use Rattle.kasa_edge.specs.Causes.{Rose};
ghost use Rattle.kasa_edge.specs.Shelf.{Held, held_at};

use thiserror::Error;

/// Why a shelf gave no text.
#[derive(Debug, Drop, PartialEq, Eq, Error)]
pub enum FetchFault {
    /// There is no memory for the text.
    #[error("no memory")]
    NoMemory,
    /// Reading failed, or nothing is held under the name.
    #[error("read fault")]
    Failed,
}

/// Texts under names, as files in a folder.
pub trait Shelf {
    /// What it holds, where it tells that.
    ghost held: { Self → Held };

    /// How many reads have failed, up to 2^64 - 1, where the count stays.
    ghost read_faults: { Self → ℕ };

    /// The first `most + 1` bytes under a name, or all where there are fewer: who wants at most
    /// `most` bytes can so see that there are more. `Failed` comes only where the count of read
    /// faults rose in this call, or where the shelf tells what it holds and the name is not held.
    fn fetch(&mut self, name: &str, most: usize) -> Result<Vec<u8>, FetchFault>
        requires { most < 2 ^ 31 }
        ensures few { IfOk result (λ bytes. length bytes.items ≤ most + 1) }
        ensures bytes { IfOk result (λ bytes. IfSome (held_at (held self.old) name.now)
            (λ text. option_map (take (most + 1)) text ≡ Some bytes.items)) }
        ensures failed { IsErrOf result FetchFault.Failed →
            Rose (read_faults self.old) (read_faults self.new)
            ⊎ (held_at (held self.old) name.now ≡ Some None) }
        ensures same { held self.new ≡ held self.old }
        ensures reads { read_faults self.old ≤ read_faults self.new };

    ghost read_faults_fit: { (shelf : Self) → read_faults shelf < 2 ^ 64 };
}
