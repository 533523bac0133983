// The counts of a page.
ghost use Rattle.std.specs.Prelude.{◌≡◌, ◌≤◌, ◌<◌, ◌*◌, ℕ, MatchOption};
ghost use Rattle.disk_space.specs.Counts.{count_page, count_place, AreBothZero};

use disk_layout::{PAGE, u16_at};

// The first page of counts, and how many stand in a page.
const COUNTS_PAGE: u32 = 1_058;

pub const COUNTS: u32 = 256;

// The page of a block's count.
pub fn page_of(block: u32) -> u32
    ensures { result ≡ count_page block }
{
    COUNTS_PAGE + block / COUNTS
}

// Where the count of a block stands in its page, in bytes.
pub fn place_of(block: u32) -> usize
    ensures { result ≡ count_place block }
{
    2 * (block % COUNTS) as usize
}

// The first of so many counts that is 0 in two pages.
pub fn first_zero(now: &[u8; PAGE], settled: &[u8; PAGE], counts: u32) -> Option<u32>
    requires { counts ≤ 256 }
    ensures { MatchOption result
        ((i : ℕ) → i < counts → AreBothZero now.now settled.now i → ⊥)
        (λ found. (found < counts)
        × AreBothZero now.now settled.now found × ((i : ℕ) → i < found → AreBothZero now.now settled.now i → ⊥)) }
{
    for i in 0..counts {
        let place = 2 * i as usize;
        if u16_at(now, place) == 0 && u16_at(settled, place) == 0 {
            return Some(i);
        }
    }
    None
}
