ghost use Rattle.std.specs.Prelude.{◌≡◌, ◌≤◌, ◌<◌, ◌++◌, ℕ, List, [], length, take, drop, IfOk, OnOk, OnErr, IsErrOf};
ghost use Rattle.base_types.specs.Faults.{RoseBy};
ghost use Rattle.base_io.specs.Whole.{IsAppendedInPart, IsRestOf};
ghost use Rattle.base_io.specs.declared.whole.ReadRefused.TheVariants.{Memory};

use base_types::{Failed, Sink, Source};
use std::alloc::{AllocError, Global};
use thiserror::Error;

/// Why an input wasn't read.
#[derive(Clone, Copy, Debug, PartialEq, Eq, Error)]
pub enum ReadRefused {
    /// The source failed.
    #[error("the source failed")]
    Failed,
    /// Memory ran out.
    #[error("memory ran out")]
    Memory,
}

impl From<AllocError> for ReadRefused {
    ghost from_gives = { λ _ e. e ≡ Memory };

    fn from(_: AllocError) -> Self {
        ReadRefused::Memory
    }
}

// Bytes that are asked for at once.
const PIECE: usize = 4096;

/// Reads to the end of the input, or stops after `most` bytes. After an error the source may have lost some bytes from
/// its front.
pub fn read_all<R: Source>(alloc: Global, source: &mut R, most: u64) -> Result<Vec<u8>, ReadRefused>
    ensures bytes { R.tells → IfOk result (λ bytes. bytes.items ≡ take most (R.left source.old)) }
    ensures rest { R.tells → OnOk result (R.left source.new ≡ drop most (R.left source.old)) }
    ensures part { R.tells → OnErr result (IsRestOf (R.left source.old) (R.left source.new)) }
    ensures counted { R.faults source.old ≤ R.faults source.new }
    ensures cause { IsErrOf result ReadRefused.Failed → RoseBy 1 (R.faults source.old) (R.faults source.new) }
{
    let mut bytes = Vec::new(alloc);
    let mut piece = [0; PIECE];
    let mut room = most;
    while room > 0 {
        let asked = room.min(PIECE as u64) as usize;
        match source.take(&mut piece[..asked]) {
            Ok(0) => return Ok(bytes),
            Ok(n) => {
                bytes.extend_from_slice(&piece[..n])?;
                room -= n as u64;
            }
            Err(_) => return Err(ReadRefused::Failed),
        }
    }
    Ok(bytes)
}

/// Writes a whole piece. After an error the sink got a part of it, from its front.
pub fn write_all<K: Sink>(sink: &mut K, piece: &[u8]) -> Result<(), Failed>
    ensures written { K.tells → OnOk result (K.got sink.new ≡ K.got sink.old ++ piece.now) }
    ensures part { K.tells → OnErr result (IsAppendedInPart (K.got sink.old) piece.now (K.got sink.new)) }
    ensures counted { K.faults sink.old ≤ K.faults sink.new }
    ensures cause { OnErr result (RoseBy 1 (K.faults sink.old) (K.faults sink.new)) }
{
    let mut done = 0;
    while done < piece.len() {
        let n = sink.put(&piece[done..])?;
        if n == 0 {
            return Err(Failed);
        }
        done += n;
    }
    Ok(())
}
