//! The tokens that queued wants ask back.
ghost use Rattle.std.specs.Prelude.{◌≡◌, ◌++◌, [], IfOk, OnOk};
ghost use Rattle.token_manager.specs.Grants.{blocks_any, is_own, wanted_for, wanted_from};

use crate::grants::Grants;
use crate::want::{Want, Wanted};
use base_types::{HostId, Items, NoMemory};
use token_types::Token;

/// The granted tokens that are in the way of a queued want, but for those that are pinned and the server's own: want by
/// want, each at the first want that it is in the way of.
pub(crate) fn wanted(grants: &Grants, queue: &Items<Want>) -> Result<Items<Wanted>, NoMemory>
    ensures { IfOk result (λ wanted. wanted ≡ wanted_from grants.now [] queue.now) }
{
    let wants = queue.as_slice();
    let mut found = Items::new(queue.alloc());
    for (index, want) in wants.iter().enumerate() {
        push_wanted(&mut found, grants, &wants[..index], want)?;
    }
    Ok(found)
}

// Adds those that a want asks back and no earlier one does.
fn push_wanted(
    found: &mut Items<Wanted>,
    grants: &Grants,
    earlier: &[Want],
    want: &Want,
) -> Result<(), NoMemory>
    ensures { OnOk result (found.new ≡ found.old ++ wanted_for grants.now earlier.now want.now) }
{
    let tokens = grants.to_revoke(want)?;
    for token in tokens.as_slice() {
        if !(is_own(token) || blocks_any(earlier, token)) {
            found.push(Wanted {
                token: *token,
                revoked: grants.notes.is_revoked(token.id),
            })?;
        }
    }
    Ok(())
}

fn is_own(token: &Token) -> bool
    ensures { result ≡ is_own token.now }
{
    token.host == HostId::EXPORTER
}

fn blocks_any(wants: &[Want], token: &Token) -> bool
    ensures { result ≡ blocks_any wants.now token.now }
{
    wants
        .iter()
        .any(|want| token.blocks(want.host, want.needs.as_slice()))
}
