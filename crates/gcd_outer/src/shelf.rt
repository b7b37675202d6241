// Named contents, each loaded whole.
ghost use Rattle.std.specs.Prelude.{◌≡◌, ◌≤◌, ◌<◌, List, ℕ, Bool, Some, None, [], true, length, OnOk, OnErr, IsErrOf};
ghost use Rattle.gcd_outer.specs.Outside.{Rises, ShelfState, next_count};

/// Why a load gave no content.
#[derive(Clone, Copy, PartialEq, Eq)]
pub enum LoadFault {
    /// The shelf failed, and counted it.
    Failed,
    /// The shelf tells what it holds, and has nothing under this name.
    Missing,
    /// The content is longer than was asked for: so many bytes of it were seen, more than `most`.
    /// Of a shelf that tells what it holds this number is the length of the content.
    TooLong(usize),
    /// There was not the memory to hold the content.
    Memory,
}

/// A map from names to bytes.
pub trait Shelf {
    /// Whether it tells what it holds. If it does not, `content` and `loads` of its state claim nothing.
    ghost tells: { Bool };

    /// What it holds under each name, the number of loads so far, and how often it has failed.
    ghost state: { Self → ShelfState };

    /// Puts the content of that name, of at most `most` bytes, into `into` in place of what it held.
    /// Each fault leaves `into` empty; `LoadFault` names their causes. So of a shelf that tells what
    /// it holds, a name that it lacks is answered `Missing` and a content of more than `most` bytes
    /// `TooLong`, but for `Failed` and `Memory`. No load changes what the shelf holds.
    fn load(&mut self, name: &str, most: usize, into: &mut Vec<u8>) -> Result<(), LoadFault>
        ensures fits { OnOk result (length into.new.items ≤ most) }
        ensures content { tells ≡ true → OnOk result ((state self.old).content name.now ≡ Some into.new.items) }
        ensures missing_told { IsErrOf result LoadFault.Missing → tells ≡ true }
        ensures missing { IsErrOf result LoadFault.Missing → (state self.old).content name.now ≡ None }
        ensures seen { (n : ℕ) → IsErrOf result (LoadFault.TooLong n) → most < n }
        ensures longer { (n : ℕ) → tells ≡ true → IsErrOf result (LoadFault.TooLong n)
            → (bytes : List ℕ) × ((state self.old).content name.now ≡ Some bytes) × (length bytes ≡ n) }
        ensures empty { OnErr result (into.new.items ≡ []) }
        ensures failed { IsErrOf result LoadFault.Failed → Rises (state self.old).faults (state self.new).faults }
        ensures faults { (state self.old).faults ≤ (state self.new).faults }
        ensures same { (state self.new).content ≡ (state self.old).content }
        ensures loads { tells ≡ true → (state self.new).loads ≡ next_count (state self.old).loads };
}
