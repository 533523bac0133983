//! The checks that rows of the call table share.
ghost use Rattle.std.specs.Prelude.{◌≡◌, Ok, Err, MatchResult};
ghost use Rattle.tree_filesets.specs.Checks.{permission, split_path};

use base_types::{Name, Rights, User};
use tree_calls::Refusal;
use tree_objects::Object;

/// Whether a user has a right on an object.
pub(crate) fn permission(object: &Object, user: &User, right: Rights) -> Result<(), Refusal>
    ensures { result ≡ permission object.now user.now right }
{
    if object.own_rights(user).allows(right) {
        Ok(())
    } else {
        Err(Refusal::Denied(right))
    }
}

/// The last name of a path, and the names before it. An empty path is refused so.
#[tactic(auto, using(std::proofs::lemmas::Option::slice_get_read))]
pub(crate) fn split_path(path: &[Name], empty: Refusal) -> Result<(&Name, &[Name]), Refusal>
    ensures { MatchResult result (λ parts. split_path path.now empty ≡ Ok (parts.0.now, parts.1.now))
        (λ refusal. split_path path.now empty ≡ Err refusal) }
{
    if path.is_empty() {
        return Err(empty);
    }
    let last = path.len() - 1;
    Ok((&path[last], &path[..last]))
}
