ghost use Rattle.std.specs.Prelude.{◌≡◌, OnOk};
ghost use Rattle.std.specs.Option.{option_copied};
ghost use Rattle.script_words.specs.Outcome.{Gives, GivesBy, Becomes};
ghost use Rattle.script_lines.specs.Context.{server_at};
ghost use Rattle.script_lines.specs.Headers.{header_of, groups_at, limit_at, user_named, is_capped, has_fileset_at};
ghost use Rattle.script_lines.specs.Headers.{owner_at, setup_line, with_fileset, servers_line, user_line, host_line};
ghost use Rattle.script_lines.specs.Headers.{capacity_line, fileset_line, net_line, begin_line, header_by};
ghost use Rattle.script_lines.specs.Headers.{header_line};

use crate::context::{Context, Placed, host_named, server_named};
use crate::script::{Deed, Line, NET_MAX, Net};
use base_types::{
    CACHED_TOKENS_DEFAULT, CACHED_TOKENS_MAX, CACHED_TOKENS_MIN, CAPACITY_DEFAULT, CAPACITY_MAX,
    CAPACITY_MIN, GROUPS_MAX, HostId, Items, Name, NoMemory, Node, OBJECTS_MAX, Plain, SERVERS_MAX,
    ServerId, User,
};
use script_words::{
    BadWhy, Fault, Words, all_named, end_at, is_word, known, name_at, number_at, small_at, unless,
    word_at,
};
use tree_calls::{Call, HostLine};

/// What the first word of a header says.
#[derive(Clone, Copy)]
pub(crate) enum Header {
    Servers,
    User,
    Host,
    Capacity,
    Fileset,
    Net,
    Plan,
    Begin,
}

/// The header that a first word begins.
#[tactic(auto, unfolding(crate::specs::Headers::header_of))]
pub(crate) fn header_of(word: &[u8]) -> Option<Header>
    ensures { result ≡ header_of word.now }
{
    if is_word(word, b"servers") {
        Some(Header::Servers)
    } else if is_word(word, b"user") {
        Some(Header::User)
    } else if is_word(word, b"host") {
        Some(Header::Host)
    } else if is_word(word, b"capacity") {
        Some(Header::Capacity)
    } else if is_word(word, b"fileset") {
        Some(Header::Fileset)
    } else if is_word(word, b"net") {
        Some(Header::Net)
    } else if is_word(word, b"plan") {
        Some(Header::Plan)
    } else if is_word(word, b"begin") {
        Some(Header::Begin)
    } else {
        None
    }
}

// The words of a user's groups, at most `GROUPS_MAX` of them.
fn groups_at(words: &Words) -> Result<&[Items<u8>], Fault>
    ensures { GivesBy (λ groups. groups.now) result (groups_at words.now) }
{
    if words.len() <= 2 {
        return Err(Fault::Bad(BadWhy::Word));
    }
    Ok(&words.as_slice()[2..words.len().min(GROUPS_MAX + 2)])
}

fn limit_at(words: &Words) -> Result<u32, Fault>
    ensures { Gives result (limit_at words.now) }
{
    if words.len() <= 3 {
        Ok(CACHED_TOKENS_DEFAULT)
    } else {
        small_at(words, 3, CACHED_TOKENS_MIN, CACHED_TOKENS_MAX)
    }
}

fn find_user<'a>(users: &'a Items<User>, name: &Name) -> Option<&'a User>
    ensures { option_copied result ≡ user_named users.now name.now }
{
    users.as_slice().iter().find(|user| user.name == *name)
}

fn is_capped(capped: &Items<ServerId>, server: ServerId) -> bool
    ensures { result ≡ is_capped capped.now server }
{
    capped.as_slice().iter().any(|other| other.0 == server.0)
}

fn has_fileset_at(placed: &Items<Placed>, server: ServerId) -> bool
    ensures { result ≡ has_fileset_at placed.now server }
{
    placed
        .as_slice()
        .iter()
        .any(|other| other.server.0 == server.0)
}

// The call of the setup host that makes a fileset.
fn setup_line(number: u32, server: ServerId, name: Name, objects: u32, owner: User) -> Line
    ensures { result ≡ setup_line number server name objects owner }
{
    Line {
        number,
        node: Node::Host(HostId::SETUP),
        deed: Deed::Call(Call::NewFileset {
            server,
            name,
            objects,
            owner,
        }),
    }
}

impl Context {
    /// A server that is declared. `Word` where the word is none, `Undeclared` where it isn't.
    #[tactic(auto, unfolding(crate::specs::Context::server_at))]
    pub(crate) fn server_at(&self, words: &Words, i: usize) -> Result<ServerId, Fault>
        ensures { Gives result (server_at self.now.script words.now i) }
    {
        let server = server_named(words, i)?;
        self.node_declared(Node::Server(server))?;
        Ok(server)
    }

    #[tactic(auto, unfolding(crate::specs::Headers::servers_line))]
    fn servers_line(&mut self, disks: u32, words: &Words) -> Result<(), Fault>
        ensures { Becomes result self.new (servers_line self.old disks words.now) }
    {
        unless(self.script.servers != 0, BadWhy::Order)?;
        let servers = small_at(words, 1, 1, SERVERS_MAX as u32)?;
        unless(servers < disks, BadWhy::Disks)?;
        end_at(words, 2)?;
        let blocks = [CAPACITY_DEFAULT; SERVERS_MAX as usize];
        self.script.roster.capacity = Items::copied(words.alloc(), &blocks[..servers as usize])?;
        self.script.servers = servers;
        Ok(())
    }

    #[tactic(auto, unfolding(crate::specs::Headers::user_line))]
    fn user_line(&mut self, words: &Words) -> Result<(), Fault>
        ensures { Becomes result self.new (user_line self.old words.now) }
    {
        let name = name_at(words, 1)?;
        unless(self.user_place(&name).is_some(), BadWhy::Repeated)?;
        let groups = all_named(words.alloc(), groups_at(words)?)?;
        end_at(words, GROUPS_MAX + 2)?;
        self.script.roster.users.push(User { name, groups })?;
        Ok(())
    }

    #[tactic(auto, unfolding(crate::specs::Headers::host_line))]
    fn host_line(&mut self, words: &Words) -> Result<(), Fault>
        ensures { Becomes result self.new (host_line self.old words.now) }
    {
        let host = host_named(words, 1)?;
        unless(
            host.0 as usize != self.script.roster.hosts.len().saturating_add(1),
            BadWhy::Repeated,
        )?;
        let place = self.user_place(&name_at(words, 2)?);
        let Some(place) = place else {
            return Err(Fault::Bad(BadWhy::Undeclared));
        };
        let limit = limit_at(words)?;
        end_at(words, 4)?;
        // Memory doesn't hold so many users.
        if place > u32::MAX as usize {
            return Err(Fault::Memory);
        }
        let user = place as u32;
        self.script.roster.hosts.push(HostLine { user, limit })?;
        Ok(())
    }

    #[tactic(auto, unfolding(crate::specs::Headers::capacity_line))]
    fn capacity_line(&mut self, words: &Words) -> Result<(), Fault>
        ensures { Becomes result self.new (capacity_line self.old words.now) }
    {
        let server = self.server_at(words, 1)?;
        unless(is_capped(&self.capped, server), BadWhy::Repeated)?;
        unless(has_fileset_at(&self.placed, server), BadWhy::Order)?;
        let blocks = small_at(words, 2, CAPACITY_MIN, CAPACITY_MAX)?;
        end_at(words, 3)?;
        self.capped.push(server)?;
        let index = server.0.saturating_sub(1) as usize;
        self.script.roster.capacity.put(index, blocks);
        Ok(())
    }

    #[tactic(auto, unfolding(crate::specs::Headers::fileset_line))]
    fn fileset_line(&mut self, number: u32, words: &Words) -> Result<(), Fault>
        ensures { Becomes result self.new (fileset_line self.old number words.now) }
    {
        let name = name_at(words, 1)?;
        let server = self.server_at(words, 2)?;
        unless(self.is_elsewhere(&name, server), BadWhy::Repeated)?;
        let objects = small_at(words, 3, 1, OBJECTS_MAX)?;
        let owner = self.owner_at(words)?;
        end_at(words, 5)?;
        self.add_fileset(number, server, name, objects, owner)?;
        Ok(())
    }

    // Adds a fileset: where it is placed, and the call that makes it.
    fn add_fileset(
        &mut self,
        number: u32,
        server: ServerId,
        name: Name,
        objects: u32,
        owner: User,
    ) -> Result<(), NoMemory>
        ensures { OnOk result
            (self.new ≡ with_fileset self.old (setup_line number server name objects owner) name server) }
    {
        let placed = name.copy()?;
        self.placed.push(Placed {
            name: placed,
            server,
        })?;
        let setup = setup_line(number, server, name, objects, owner);
        self.script.setup.push(setup)
    }

    #[tactic(auto, unfolding(crate::specs::Headers::owner_at))]
    fn owner_at(&self, words: &Words) -> Result<User, Fault>
        ensures { Gives result (owner_at self.now.script.roster.users words.now) }
    {
        let name = name_at(words, 4)?;
        match find_user(&self.script.roster.users, &name) {
            Some(user) => Ok(user.copy()?),
            None => Err(Fault::Bad(BadWhy::Undeclared)),
        }
    }

    #[tactic(auto, unfolding(crate::specs::Headers::net_line))]
    fn net_line(&mut self, words: &Words) -> Result<(), Fault>
        ensures { Becomes result self.new (net_line self.old words.now) }
    {
        unless(self.script.net.is_some(), BadWhy::Repeated)?;
        let seed = number_at(words, 1, 0, u64::MAX)?;
        let losses = small_at(words, 2, 0, NET_MAX)?;
        let repeats = small_at(words, 3, 0, NET_MAX)?;
        let delays = small_at(words, 4, 0, NET_MAX)?;
        end_at(words, 5)?;
        self.script.net = Some(Net {
            seed,
            losses,
            repeats,
            delays,
        });
        Ok(())
    }

    #[tactic(auto, unfolding(crate::specs::Headers::begin_line))]
    fn begin_line(&mut self, words: &Words) -> Result<(), Fault>
        ensures { Becomes result self.new (begin_line self.old words.now) }
    {
        unless(self.script.roster.hosts.is_empty(), BadWhy::Order)?;
        end_at(words, 1)?;
        self.begun = true;
        Ok(())
    }

    #[tactic(auto, unfolding(crate::specs::Headers::header_by))]
    fn header_by(
        &mut self,
        header: Header,
        disks: u32,
        number: u32,
        words: &Words,
    ) -> Result<(), Fault>
        ensures { Becomes result self.new (header_by self.old header disks number words.now) }
    {
        match header {
            Header::Servers => self.servers_line(disks, words),
            Header::User => self.user_line(words),
            Header::Host => self.host_line(words),
            Header::Capacity => self.capacity_line(words),
            Header::Fileset => self.fileset_line(number, words),
            Header::Net => self.net_line(words),
            Header::Plan => self.plan_line(words),
            Header::Begin => self.begin_line(words),
        }
    }

    /// Takes a header. `Word` where the first word is none, `Order` where it isn't `servers` and none was before.
    #[tactic(auto, unfolding(crate::specs::Headers::header_line))]
    pub(crate) fn header_line(
        &mut self,
        disks: u32,
        number: u32,
        words: &Words,
    ) -> Result<(), Fault>
        ensures { Becomes result self.new (header_line self.old disks number words.now) }
    {
        let word = word_at(words, 0)?;
        let header = known(header_of(word.as_slice()))?;
        unless(
            self.script.servers == 0 && !matches!(header, Header::Servers),
            BadWhy::Order,
        )?;
        self.header_by(header, disks, number, words)
    }
}
