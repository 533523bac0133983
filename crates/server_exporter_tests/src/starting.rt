//! The server of the rows.
ghost use Rattle.std.specs.Prelude.{◌≡◌, length, IfOk};
ghost use Rattle.server_exporter_tests.specs.Serving.{HasTwo};

use anyhow::Result;
use base_types::{Items, ServerId, User};
use std::alloc::Global;
use tree_calls::{HostLine, Roster};
use tree_test_words::user;

/// The server whose machine it is.
pub const SERVER: ServerId = ServerId(1);

/// Ann and bob of dev, for whom hosts 1 and 2 act, and two servers.
pub fn roster(alloc: Global) -> Result<Roster>
    ensures { IfOk result HasTwo }
{
    let ann = HostLine { user: 0, limit: 64 };
    let bob = HostLine { user: 1, limit: 64 };
    Ok(Roster {
        hosts: Items::from_slice(alloc, &[ann, bob])?,
        capacity: Items::from_slice(alloc, &[65_536, 65_536])?,
        users: users(alloc)?,
    })
}

fn users(alloc: Global) -> Result<Items<User>>
    ensures { IfOk result (λ users. length users ≡ 2) }
{
    let mut users = Items::new(alloc);
    users.push(user(alloc, "ann", "dev")?)?;
    users.push(user(alloc, "bob", "dev")?)?;
    Ok(users)
}
