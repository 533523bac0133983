ghost use Rattle.std.specs.Prelude.{◌≡◌, ◌+◌, ◌==◌, IfSome, length};
ghost use Rattle.base_types.specs.Image.{byte_at};
ghost use Rattle.disk_layout.specs.Numbers.{number_at};
ghost use Rattle.disk_layout.specs.Half.{used_of, IsPlaced};

use crate::numbers::u64_at;
use crate::places::{HALF_STARTS, OPEN};

/// What a reader of a half of the log goes by: where the half starts, its generation, and how many metadata pages the
/// aggregate has.
#[derive(Clone, Copy)]
pub struct Half {
    pub start: u64,
    pub generation: u64,
    pub pages: u32,
}

/// The words of a half's header: whether its gate is open, and its generation.
#[derive(Clone, Copy)]
pub struct Header {
    pub is_open: bool,
    pub generation: u64,
}

/// The header in these first bytes of a half.
pub fn read_header(bytes: &[u8; 16]) -> Header
    ensures opened { result.is_open ≡ (byte_at bytes.now 0 == 1) }
    ensures generation { result.generation ≡ number_at 8 8 bytes.now }
{
    Header {
        is_open: bytes[0] == OPEN,
        generation: u64_at(bytes, 8),
    }
}

/// The half that is used, by the two headers: the one that is open, or of two the one of the higher generation.
pub fn used_half(pages: u32, zeroth: Header, first: Header) -> Option<Half>
    ensures used { result ≡ used_of pages zeroth first }
    ensures placed { IfSome result (λ half. IsPlaced pages half) }
{
    let low = Half {
        start: HALF_STARTS[0],
        generation: zeroth.generation,
        pages,
    };
    let high = Half {
        start: HALF_STARTS[1],
        generation: first.generation,
        pages,
    };
    match (zeroth.is_open, first.is_open) {
        (true, true) if first.generation < zeroth.generation => Some(low),
        (true, true) if zeroth.generation < first.generation => Some(high),
        (true, false) => Some(low),
        (false, true) => Some(high),
        _ => None,
    }
}
