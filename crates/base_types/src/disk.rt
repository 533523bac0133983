ghost use Rattle.std.specs.Prelude.{◌≡◌, ◌+◌, ◌≤◌, length, IfOk, OnOk};
ghost use Rattle.base_types.specs.View.{View, IsCounted};
ghost use Rattle.base_types.specs.Image.{AreBytes, bytes_from, Torn, Holds};
ghost use Rattle.base_types.specs.Crash.{IsSettled, IsQuiet, ChangesBy};

use crate::errors::Failed;
use crate::limits::DISK_END;

/// A disk of bytes. Bytes past its end read as zero. It writes at once, and a crash may undo or tear what was
/// written since the last sync that answered `Ok`.
pub trait Disk {
    /// Whether a disk of this type tells its bytes. If not, nothing is said of what a read gives, and a crash
    /// has no outcome that is told.
    ghost tells: { Type 0 };

    /// What a read gives, what a crash may leave, and the faults.
    ghost view: { Self → View };

    /// How many bytes it has.
    fn length(&mut self) -> Result<u64, Failed>
        ensures answer { tells → IfOk result (λ n. n ≡ length (view self.old).image) }
        ensures quiet { IsQuiet (view self.old) (view self.new) }
        ensures faults { IsCounted result (view self.old) (view self.new) };

    /// Fills `out` with the bytes from `at` on. After an error `out` may hold anything.
    fn read(&mut self, at: u64, out: &mut [u8]) -> Result<(), Failed>
        requires { at + length out.old ≤ DISK_END }
        ensures bytes { tells → OnOk result (out.new ≡ bytes_from (view self.old).image at (length out.old)) }
        ensures quiet { IsQuiet (view self.old) (view self.new) }
        ensures faults { IsCounted result (view self.old) (view self.new) };

    /// Writes a piece at `at`. Until a sync a crash may leave any bytes in its range, and so does an error.
    fn write_at(&mut self, at: u64, piece: &[u8]) -> Result<(), Failed>
        requires { at + length piece.now ≤ DISK_END }
        ensures written { tells → OnOk result (Holds at piece.now (view self.new).image) }
        ensures torn { tells → Torn at (length piece.now) (view self.old).image (view self.new).image }
        ensures crash { ChangesBy (Torn at (length piece.now)) (view self.old) (view self.new) }
        ensures faults { IsCounted result (view self.old) (view self.new) };

    /// After it a crash leaves what a read gives.
    fn sync(&mut self) -> Result<(), Failed>
        ensures durable { OnOk result (IsSettled (view self.new)) }
        ensures quiet { IsQuiet (view self.old) (view self.new) }
        ensures faults { IsCounted result (view self.old) (view self.new) };

    /// The disk as it reads is one of its images.
    ghost reads_one: { (disk : Self) → tells → (view disk).may_leave (view disk).image };

    /// What it holds are bytes.
    ghost has_bytes: { (disk : Self) → tells → AreBytes (view disk).image };
}
