// Words in pages and blocks.
ghost use Rattle.std.specs.Prelude.{◌≡◌, ◌≤◌, ◌+◌, length};
ghost use Rattle.base_types.specs.Image.{bytes_from};
ghost use Rattle.disk_pages.specs.Words.{are_zero, name_at as name_there, is_name_at};

use base_types::{NAME_BYTES_MAX, Name};

// n bytes from a place on.
pub fn piece(bytes: &[u8], at: usize, n: usize) -> &[u8]
    requires { at + n ≤ length bytes.now }
    ensures { result.now ≡ bytes_from bytes.now at n }
{
    &bytes[at..at + n]
}

/// Whether n bytes from a place on are zero.
#[tactic(auto, unfolding(crate::specs::Words::are_zero))]
pub fn are_zero(bytes: &[u8], at: usize, n: usize) -> bool
    requires { at + n ≤ length bytes.now }
    ensures { result ≡ are_zero at n bytes.now }
{
    piece(bytes, at, n).iter().all(|byte| *byte == 0)
}

/// The name at a place, behind its length in one byte: 60 bytes at most.
#[tactic(auto, unfolding(crate::specs::Words::name_at))]
pub fn name_at(bytes: &[u8], at: usize) -> &[u8]
    requires { at + 61 ≤ length bytes.now }
    ensures { result.now ≡ name_there at bytes.now }
{
    piece(bytes, at + 1, (bytes[at] as usize).min(NAME_BYTES_MAX))
}

/// Whether a name stands at a place: its length, 1 to 60, the name, and zeros up to 60 bytes.
#[tactic(auto, unfolding(crate::specs::Words::is_name_at))]
pub fn is_name_at(bytes: &[u8], at: usize) -> bool
    requires { at + 61 ≤ length bytes.now }
    ensures { result ≡ is_name_at at bytes.now }
{
    let size = bytes[at] as usize;
    size <= NAME_BYTES_MAX
        && Name::accepts(name_at(bytes, at))
        && are_zero(bytes, at + 1 + size, NAME_BYTES_MAX - size)
}
