//! Where paths lead.
ghost use Rattle.std.specs.Prelude.{◌≡◌, Ok, Err, MatchResult};
ghost use Rattle.base_types.specs.Outcomes.{and_then};
ghost use Rattle.tree_filesets.specs.Walk.{step, walk, target};
ghost use Rattle.store_memory.specs.Reading.{anode_led};

use base_types::{Name, User};
use tree_calls::Refusal;
use tree_filesets::{Fileset, object_at};
use tree_objects::entry_named;

// The anode that a name leads a user to, in the directory at an anode.
#[tactic(auto, unfolding(tree_filesets::specs::Walk::step))]
fn step(fileset: &Fileset, user: &User, at: u32, name: &Name) -> Result<u32, Refusal>
    ensures { result ≡ step fileset.now.anodes user.now at name.now }
{
    let Some(object) = object_at(&fileset.anodes, at) else {
        return Err(Refusal::NoEntry);
    };
    let entries = object.entered(user)?;
    match entry_named(entries, name) {
        Some(entry) => Ok(entry.anode),
        None => Err(Refusal::NoEntry),
    }
}

// The anode that names lead a user to, from the root on.
fn steps(fileset: &Fileset, user: &User, path: &[Name]) -> Result<u32, Refusal>
    ensures { result ≡ walk fileset.now.anodes user.now 1 path.now }
{
    let mut at = 1;
    for name in path {
        at = step(fileset, user, at, name)?;
    }
    Ok(at)
}

/// The anode of the object that a path leads a user to.
#[tactic(auto, unfolding(tree_filesets::specs::Walk::target))]
pub(crate) fn walk(fileset: &Fileset, user: &User, path: &[Name]) -> Result<u32, Refusal>
    ensures { result ≡ anode_led fileset.now user.now path.now }
{
    let anode = steps(fileset, user, path)?;
    match object_at(&fileset.anodes, anode) {
        Some(_) => Ok(anode),
        None => Err(Refusal::NoEntry),
    }
}
