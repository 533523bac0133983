ghost use Rattle.std.specs.Prelude.{◌≡◌, ◌≤◌, ◌<◌, ◌++◌, ℕ, List, length, take, IfOk, OnErr};
ghost use Rattle.base_types.specs.Faults.{RoseBy};

use crate::errors::Failed;

/// Where output goes.
pub trait Sink {
    /// Whether a sink of this type tells its bytes. If not, nothing is said of them.
    ghost tells: { Type 0 };

    /// The bytes that it got.
    ghost got: { Self → List ℕ };

    /// How often the sink has failed.
    ghost faults: { Self → ℕ };

    /// Appends the front of a piece, and answers how many bytes of it.
    /// The answer 0 for a piece that isn't empty counts as a fault.
    fn put(&mut self, piece: &[u8]) -> Result<usize, Failed>
        ensures within { IfOk result (λ n. n ≤ length piece.now) }
        ensures appended { tells → IfOk result (λ n. got self.new ≡ got self.old ++ take n piece.now) }
        ensures kept { tells → OnErr result (got self.new ≡ got self.old) }
        ensures counted { faults self.old ≤ faults self.new }
        ensures nothing { IfOk result
            (λ n. n ≡ 0 → 0 < length piece.now → RoseBy 1 (faults self.old) (faults self.new)) }
        ensures cause { OnErr result (RoseBy 1 (faults self.old) (faults self.new)) };
}
