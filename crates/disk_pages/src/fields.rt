// Parts of pages.
ghost use Rattle.std.specs.Prelude.{◌≡◌, ◌≤◌, ◌+◌, true};
ghost use Rattle.base_types.specs.Image.{byte_at, Torn};
ghost use Rattle.disk_pages.specs.Words.{name_at, is_name_at};
ghost use Rattle.disk_pages.specs.Server.{taken_at};
ghost use Rattle.disk_pages.specs.Fields.{IsZeroFrom};

use crate::server::TakenShip;
use base_types::Name;
use disk_layout::{PAGE, put_bytes, put_u64};

// Writes one byte.
pub fn put_byte(page: &mut [u8; PAGE], at: usize, byte: u8)
    requires { at + 1 ≤ 512 }
    ensures byte { byte_at page.new at ≡ byte }
    ensures rest { Torn at 1 page.old page.new }
{
    put_bytes(page, at, &[byte]);
}

// Writes a name behind its length, over zeros.
pub fn put_name(page: &mut [u8; PAGE], at: usize, name: &Name)
    requires there { at + 61 ≤ 512 }
    requires zeros { IsZeroFrom at page.old }
    ensures name { name_at at page.new ≡ name.now }
    ensures is_name { is_name_at at page.new ≡ true }
    ensures rest { Torn at 61 page.old page.new }
{
    let bytes = name.as_bytes();
    put_byte(page, at, bytes.len() as u8);
    put_bytes(page, at + 1, bytes);
}

// Writes what was taken last from a server.
pub fn put_taken(page: &mut [u8; PAGE], at: usize, taken: TakenShip)
    requires { at + 16 ≤ 512 }
    ensures taken { taken_at at page.new ≡ taken }
    ensures rest { Torn at 9 page.old page.new }
{
    put_u64(page, at, taken.ship);
    put_byte(page, at + 8, taken.code);
}
