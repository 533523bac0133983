ghost use Rattle.std.specs.Prelude.{◌≡◌, option_copied, OnOk, OnErr};
ghost use Rattle.std.specs.List.{find, position};
ghost use Rattle.host_tables.specs.Tables.{home_of};
ghost use Rattle.host_tables.specs.Updates.{is_home, with_home};

use base_types::{FilesetId, Items, Name, NoMemory, Plain, ServerId};
use message_types::{Change, Fetch};

/// The request that is outstanding.
#[derive(Drop)]
pub enum Request {
    Fetch(Fetch),
    /// A Change, and the server that decides it.
    Change(ServerId, Change),
}

/// A fileset that the host has entered.
#[derive(Drop)]
pub struct Home {
    pub server: ServerId,
    pub name: Name,
    pub id: FilesetId,
}

/// The fileset to which a server and a name lead; None where the host hasn't entered it.
pub fn home_of(homes: &[Home], server: ServerId, name: &Name) -> Option<FilesetId>
    ensures { result ≡ home_of homes.now server name.now }
{
    home_at(homes, server, name).map(|home| home.id)
}

fn home_at<'a>(homes: &'a [Home], server: ServerId, name: &Name) -> Option<&'a Home>
    ensures { option_copied result ≡ find (is_home server name.now) homes.now }
{
    homes.iter().find(|home| is_at(home, server, name))
}

/// Notes a fileset that the host has entered. The only error is that memory ran out; then nothing changes.
pub fn put_home(
    homes: &mut Items<Home>,
    server: ServerId,
    name: &Name,
    id: FilesetId,
) -> Result<(), NoMemory>
    ensures after { OnOk result (homes.new ≡ with_home server name.now id homes.old) }
    ensures err { OnErr result (homes.new ≡ homes.old) }
{
    let place = place_of(homes.as_slice(), server, name);
    let name = name.copy()?;
    let home = Home { server, name, id };
    match place {
        Some(place) => homes.put(place, home),
        None => homes.push(home)?,
    }
    Ok(())
}

fn place_of(homes: &[Home], server: ServerId, name: &Name) -> Option<usize>
    ensures { result ≡ position (is_home server name.now) homes.now }
{
    homes.iter().position(|home| is_at(home, server, name))
}

fn is_at(home: &Home, server: ServerId, name: &Name) -> bool
    ensures { result ≡ is_home server name.now home.now }
{
    home.server == server && home.name == *name
}
