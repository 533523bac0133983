// Bytes that are read and written anywhere, in a vector.
ghost use Rattle.std.specs.Prelude.{◌≡◌, ◌+◌, ◌<◌, ◌^◌, length, OnOk, OnErr};
ghost use Rattle.base_types.specs.Image.{bytes_from};
ghost use Rattle.disk_device.specs.Replay.{overwritten};

use std::alloc::AllocError;

// Fills `out` with the bytes from `at` on, and with zeros past the end.
pub fn copy_out(bytes: &[u8], at: usize, out: &mut [u8])
    requires { at + length out.old < 2 ^ 64 }
    ensures { out.new ≡ bytes_from bytes.now at (length out.old) }
{
    for (i, slot) in out.iter_mut().enumerate() {
        *slot = bytes.get(at + i).copied().unwrap_or(0);
    }
}

// Writes a piece at `at`, behind zeros where the bytes end before it.
pub fn overwrite(bytes: &mut Vec<u8>, at: usize, piece: &[u8]) -> Result<(), AllocError>
    requires { at + length piece.now < 2 ^ 63 }
    ensures ok { OnOk result (bytes.new.items ≡ overwritten at piece.now bytes.old.items) }
    ensures err { OnErr result (bytes.new.items ≡ bytes.old.items) }
{
    let end = at + piece.len();
    if bytes.len() < end {
        bytes.resize(end, 0)?;
    }
    bytes[at..end].copy_from_slice(piece);
    Ok(())
}
