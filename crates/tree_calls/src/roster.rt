ghost use Rattle.std.specs.Prelude.{◌≡◌, ◌-◌, slice_get, codes, IfOk};
ghost use Rattle.tree_calls.specs.Rosters.{admin, user_of};

use base_types::{HostId, Items, Name, NameRefused, NoMemory, Plain, User};
use std::alloc::Global;

/// A client host: for whom it acts, and how many tokens it caches.
#[derive(Clone, Copy)]
pub struct HostLine {
    /// The place of its user among the users, from 0.
    pub user: u32,
    /// How many tokens it caches that aren't in use, at most: `CACHED_TOKENS_MIN` to `CACHED_TOKENS_MAX`.
    pub limit: u32,
}

impl Plain for HostLine {
    fn copy(&self) -> Result<HostLine, NoMemory> {
        Ok(*self)
    }
}

/// Who takes part in the service.
pub struct Roster {
    /// The users.
    pub users: Items<User>,
    /// The client hosts, from number 1 on.
    pub hosts: Items<HostLine>,
    /// The capacity of each server in blocks, from number 1 on.
    pub capacity: Items<u32>,
}

impl Drop for Roster {
    fn drop(self) {
        let Roster {
            users: _,
            hosts: _,
            capacity: _,
        } = self;
    }
}

impl Plain for Roster {
    fn copy(&self) -> Result<Roster, NoMemory> {
        Ok(Roster {
            users: self.users.copy()?,
            hosts: self.hosts.copy()?,
            capacity: Items::from_slice(self.capacity.alloc(), self.capacity.as_slice())?,
        })
    }
}

impl Roster {
    /// The user for whom a host acts, where it is declared; the setup host acts for the user `admin`.
    pub fn user_of(&self, host: HostId) -> Result<Option<User>, NoMemory>
        ensures { IfOk result (λ user. user ≡ user_of self.now host) }
    {
        if host == HostId::SETUP {
            return Ok(Some(admin(self.users.alloc())?));
        }
        let Some(line) = self.line_of(host) else {
            return Ok(None);
        };
        match self.users.at(line.user as usize) {
            Some(user) => Ok(Some(user.copy()?)),
            None => Ok(None),
        }
    }

    fn line_of(&self, host: HostId) -> Option<HostLine>
        ensures { result ≡ slice_get self.now.hosts (host.0 - 1) }
    {
        self.hosts.at(host.0.saturating_sub(1) as usize).copied()
    }
}

fn admin(alloc: Global) -> Result<User, NoMemory>
    ensures { IfOk result (λ user. user ≡ admin) }
{
    let mut groups = Items::new(alloc);
    groups.push(admin_name(alloc)?)?;
    Ok(User {
        name: admin_name(alloc)?,
        groups,
    })
}

fn admin_name(alloc: Global) -> Result<Name, NoMemory>
    ensures { IfOk result (λ name. name ≡ codes "admin") }
{
    match Name::new(alloc, b"admin") {
        Ok(name) => Ok(name),
        Err(NameRefused::Memory) => Err(NoMemory),
        Err(NameRefused::BadName) => unreachable!(),
    }
}
