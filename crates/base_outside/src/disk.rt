ghost use Rattle.std.specs.Prelude.{◌≡◌, ◌+◌, ◌<◌, ◌≤◌, length, IfOk, OnOk};
ghost use Rattle.base_types.specs.Crash.{IsQuiet, IsSettled};
ghost use Rattle.base_types.specs.Image.{byte_at, Torn, Holds};
ghost use Rattle.base_types.specs.View.{IsCounted};
ghost use Rattle.base_outside.specs.Runs.{LeavesOnly};

use base_types::{DISK_END, Disk, Failed};

/// Writes a piece and syncs. A crash at any moment of the call leaves the disk as it was but for the range.
pub fn write_through<D: Disk>(disk: &mut D, at: u64, piece: &[u8]) -> Result<(), Failed>
    requires range { at + length piece.now ≤ DISK_END }
    requires settled { IsSettled (D.view disk.old) }
    ensures written { D.tells → OnOk result (Holds at piece.now (D.view disk.new).image) }
    ensures torn { D.tells → Torn at (length piece.now) (D.view disk.old).image (D.view disk.new).image }
    ensures settled { OnOk result (IsSettled (D.view disk.new)) }
    ensures crash { LeavesOnly
        (Torn at (length piece.now) (D.view disk.old).image) (D.view disk.old) (D.view disk.new) }
    ensures faults { IsCounted result (D.view disk.old) (D.view disk.new) }
{
    disk.write_at(at, piece)?;
    disk.sync()
}

/// Reads one byte.
pub fn read_byte<D: Disk>(disk: &mut D, at: u64) -> Result<u8, Failed>
    requires { at < DISK_END }
    ensures byte { D.tells → IfOk result (λ byte. byte ≡ byte_at (D.view disk.old).image at) }
    ensures quiet { IsQuiet (D.view disk.old) (D.view disk.new) }
    ensures faults { IsCounted result (D.view disk.old) (D.view disk.new) }
{
    let mut byte = [0];
    disk.read(at, &mut byte)?;
    Ok(byte[0])
}
