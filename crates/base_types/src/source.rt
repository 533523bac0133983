ghost use Rattle.std.specs.Prelude.{◌≡◌, ◌≤◌, ◌<◌, ◌++◌, ℕ, List, [], length, take, IfOk, OnErr};
ghost use Rattle.base_types.specs.Faults.{RoseBy};

use crate::errors::Failed;

/// Where input comes from.
pub trait Source {
    /// Whether a source of this type tells its bytes. If not, nothing is said of them.
    ghost tells: { Type 0 };

    /// The bytes that are left.
    ghost left: { Self → List ℕ };

    /// How often the source has failed.
    ghost faults: { Self → ℕ };

    /// Moves bytes from the front of the input into the front of `out`, and answers how many.
    /// The answer 0 for an `out` that isn't empty is the end of the input.
    fn take(&mut self, out: &mut [u8]) -> Result<usize, Failed>
        ensures within { IfOk result (λ n. n ≤ length out.old) }
        ensures moved { tells → IfOk result (λ n. left self.old ≡ take n out.new ++ left self.new) }
        ensures end { tells → IfOk result (λ n. n ≡ 0 → 0 < length out.old → left self.new ≡ []) }
        ensures kept { tells → OnErr result (left self.new ≡ left self.old) }
        ensures counted { faults self.old ≤ faults self.new }
        ensures cause { OnErr result (RoseBy 1 (faults self.old) (faults self.new)) };
}
