// Parts of blocks.
ghost use Rattle.std.specs.Prelude.{◌≡◌, ◌<◌, ◌≤◌, ◌+◌, ◌-◌, ◌⊎◌, ◌↔◌, ℕ, IsTrue, length};
ghost use Rattle.std.proofs.Common.{get_or};

use crate::node::BLOCK;
use disk_layout::put_bytes;

// Makes the bytes of a block from n on zero.
pub fn clear_from(bytes: &mut [u8; BLOCK], n: u32)
    ensures below { (k : ℕ) → k < n → get_or bytes.new k 0 ≡ get_or bytes.old k 0 }
    ensures rest { (k : ℕ) → n ≤ k → k < 1024 → get_or bytes.new k 0 ≡ 0 }
{
    for k in n as usize..BLOCK {
        bytes[k] = 0;
    }
}

// Copies the bytes of a block, which are those from `at` on, to where they stand among those from `from` on.
pub fn copy_part(out: &mut [u8], from: u32, bytes: &[u8; BLOCK], at: u32)
    requires within { from + length out.old ≤ 65536 }
    requires low { at < from + length out.old }
    requires high { from < at + 1024 }
    ensures inside { (k : ℕ) → k < length out.old
        → at ≤ from + k → from + k < at + 1024 → get_or out.new k 0 ≡ get_or bytes.now (from + k - at) 0 }
    ensures outside { (k : ℕ)
        → k < length out.old → (from + k < at) ⊎ (at + 1024 ≤ from + k) → get_or out.new k 0 ≡ get_or out.old k 0 }
{
    let first = from.max(at);
    let end = (from + out.len() as u32).min(at + BLOCK as u32);
    put_bytes(
        out,
        (first - from) as usize,
        &bytes[(first - at) as usize..(end - at) as usize],
    );
}

// Lays the bytes of a piece, which are those from `from` on, over a block's, which are those from `at` on.
pub fn lay_over(bytes: &mut [u8; BLOCK], at: u32, from: u32, piece: &[u8])
    requires within { from + length piece.now ≤ 65536 }
    requires at { at < 65536 }
    ensures inside { (k : ℕ) → k < 1024
        → from ≤ at + k → at + k < from + length piece.now → get_or bytes.new k 0 ≡ get_or piece.now (at + k - from) 0 }
    ensures outside { (k : ℕ) → k < 1024
        → (at + k < from) ⊎ (from + length piece.now ≤ at + k) → get_or bytes.new k 0 ≡ get_or bytes.old k 0 }
{
    let first = from.max(at);
    let end = (from + piece.len() as u32).min(at + BLOCK as u32);
    if end <= first {
        return;
    }
    put_bytes(
        bytes,
        (first - at) as usize,
        &piece[(first - from) as usize..(end - from) as usize],
    );
}

// Whether all bytes of a block are zero.
pub fn is_zero(bytes: &[u8; BLOCK]) -> bool
    ensures { IsTrue result ↔ ((k : ℕ) → k < 1024 → get_or bytes.now k 0 ≡ 0) }
{
    for k in 0..BLOCK {
        if bytes[k] != 0 {
            return false;
        }
    }
    true
}
