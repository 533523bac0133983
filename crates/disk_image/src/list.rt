// The access list in a block.
ghost use Rattle.std.specs.Prelude.{◌≡◌, ◌==◌, ℕ, IfOk};
ghost use Rattle.std.specs.List.{list_all};
ghost use Rattle.disk_image.specs.Lists.{list_in as list_there};

use base_types::{AccessList, NoMemory};
use disk_pages::BLOCK;
use message_parts::{Part, Stopped};
use std::alloc::Global;

fn are_zero(bytes: &[u8]) -> bool
    ensures { result ≡ list_all (λ (byte : ℕ). byte == 0) bytes.now }
{
    bytes.iter().all(|byte| *byte == 0)
}

/// The access list in a block, spelled as in messages, where there is one: all behind it is zero.
#[tactic(auto, unfolding(crate::specs::Lists::list_in))]
pub fn list_in(alloc: Global, block: &[u8; BLOCK]) -> Result<Option<AccessList>, NoMemory>
    ensures { IfOk result (λ list. list ≡ list_there block.now) }
{
    match AccessList::read(alloc, block) {
        Ok((list, rest)) => {
            if are_zero(rest) {
                Ok(Some(list))
            } else {
                Ok(None)
            }
        }
        Err(Stopped::Bad(_)) => Ok(None),
        Err(Stopped::Memory) => Err(NoMemory),
    }
}
