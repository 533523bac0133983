// Pages of call numbers.
ghost use Rattle.std.specs.Prelude.{◌≡◌, ◌≢◌, ◌≤◌, ◌<◌, ◌*◌, ℕ, length, true};
ghost use Rattle.std.specs.List.{list_all};
ghost use Rattle.disk_pages.specs.Numbers.{is_numbers_page, record_at};
ghost use Rattle.disk_pages.specs.Sound.{record_in, is_sound_record};

use disk_layout::{PAGE, put_bytes, put_u64};
use tree_calls::Record;

// Bytes of what is kept of one host.
const RECORD: usize = 24;

const CODE_AT: usize = 16;

/// Puts what is kept of a host, 0 to 16, into a page of call numbers. It is one from then on exactly where what is put
/// is sound: the code of its reply is at most 21, and the rights are below 64.
pub fn encode_record(page: &mut [u8; PAGE], host: u8, kept: Record)
    requires { host < 17 }
    ensures kept { record_at (24 * host) page.new ≡ kept }
    ensures others { (other : ℕ) → other < 17 → other ≢ host
        → record_at (24 * other) page.new ≡ record_at (24 * other) page.old }
    ensures page { is_numbers_page page.old ≡ true → is_numbers_page page.new ≡ is_sound_record kept }
{
    let at = RECORD * host as usize;
    put_u64(page, at, kept.change);
    put_u64(page, at + 8, kept.give);
    put_bytes(
        page,
        at + CODE_AT,
        &[kept.code, kept.right, 0, 0, 0, 0, 0, 0],
    );
}

/// The page of call numbers with what is kept of hosts 0, 1 and so on, 17 at most; of the others nothing is kept. It is
/// one where each of them is sound.
pub fn numbers_page(kept: &[Record]) -> [u8; PAGE]
    requires { length kept.now ≤ 17 }
    ensures kept { (host : ℕ) → host < 17 → record_at (24 * host) result ≡ record_in kept.now host }
    ensures page { list_all is_sound_record kept.now ≡ true → is_numbers_page result ≡ true }
{
    let mut page = [0; PAGE];
    for (host, one) in kept.iter().enumerate() {
        encode_record(&mut page, host as u8, *one);
    }
    page
}
