ghost use Rattle.std.specs.Prelude.{◌≡◌, true, IfSome, ◌<◌, length};
ghost use Rattle.std.specs.Option.{option_copied};
ghost use Rattle.base_types.specs.Name.{same_name};
ghost use Rattle.script_words.specs.Outcome.{Gives};
ghost use Rattle.script_lines.specs.Context.{find_placed, server_of, is_elsewhere, has_stopped, user_place, place_of};
ghost use Rattle.script_lines.specs.Context.{place_at, host_named, server_named, node_declared};

use crate::flags::Flags;
use crate::script::Script;
use base_types::{HostId, Items, Name, Node, ServerId, User};
use script_words::{BadWhy, Fault, Words, names_of, node_of, word_at};
use tree_calls::Place;

/// A fileset's name, and the server where it is.
#[derive(Drop)]
pub(crate) struct Placed {
    /// The name.
    pub name: Name,
    /// The server.
    pub server: ServerId,
}

/// What the lines so far have said.
#[derive(Drop)]
pub struct Context {
    /// The script that they make.
    pub script: Script,
    /// Whether the headers have ended.
    pub begun: bool,
    /// The servers whose capacity a line gave.
    pub(crate) capped: Items<ServerId>,
    /// Where filesets are: those of the headers, and after `begin` also those of clones.
    pub(crate) placed: Items<Placed>,
    /// The flags that a line raises.
    pub(crate) raised: Flags,
    /// The hosts that have stopped.
    pub(crate) stopped: Items<HostId>,
}

impl Context {
    /// The server of the fileset with this name.
    pub(crate) fn server_of(&self, name: &Name) -> Option<ServerId>
        ensures { result ≡ server_of self.now.placed name.now }
    {
        match find_placed(&self.placed, name) {
            Some(placed) => Some(placed.server),
            None => None,
        }
    }

    /// Whether the fileset with this name is at another server.
    pub(crate) fn is_elsewhere(&self, name: &Name, server: ServerId) -> bool
        ensures { result ≡ is_elsewhere (server_of self.now.placed name.now) server }
    {
        match self.server_of(name) {
            Some(other) => other.0 != server.0,
            None => false,
        }
    }

    /// Whether a line of this host was its last.
    pub(crate) fn has_stopped(&self, host: HostId) -> bool
        ensures { result ≡ has_stopped self.now.stopped host }
    {
        self.stopped
            .as_slice()
            .iter()
            .any(|other| other.0 == host.0)
    }

    /// The place of a path. `BadName` where it is none, `Undeclared` where no fileset of its first name is placed.
    #[tactic(auto, unfolding(crate::specs::Context::place_at))]
    pub(crate) fn place_at(&self, words: &Words, i: usize) -> Result<Place, Fault>
        ensures { Gives result (place_at self.now.placed words.now i) }
    {
        let names = names_of(words.alloc(), word_at(words, i)?.as_slice())?;
        self.place_of(names)
    }

    fn place_of(&self, names: Items<Name>) -> Result<Place, Fault>
        ensures { Gives result (place_of self.now.placed names) }
    {
        let mut names = names.into_vec();
        if names.is_empty() {
            return Err(Fault::Bad(BadWhy::BadName));
        }
        let fileset = names.remove(0);
        match self.server_of(&fileset) {
            Some(server) => Ok(Place {
                server,
                fileset,
                path: Items::from_vec(names),
            }),
            None => Err(Fault::Bad(BadWhy::Undeclared)),
        }
    }

    /// The place of the user with this name.
    pub(crate) fn user_place(&self, name: &Name) -> Option<usize>
        ensures value { result ≡ user_place self.now.script.roster.users name.now }
        ensures within { IfSome result (λ i. i < length self.now.script.roster.users) }
    {
        position_of(self.script.roster.users.as_slice(), name)
    }

    /// A node that is declared; `Undeclared` where it isn't.
    pub(crate) fn node_declared(&self, node: Node) -> Result<Node, Fault>
        ensures { Gives result (node_declared self.now.script node) }
    {
        let declared = match node {
            Node::Host(host) => host.0 as usize <= self.script.roster.hosts.len(),
            Node::Server(server) => server.0 as u32 <= self.script.servers,
        };
        if declared {
            Ok(node)
        } else {
            Err(Fault::Bad(BadWhy::Undeclared))
        }
    }
}

fn position_of(users: &[User], name: &Name) -> Option<usize>
    ensures { result ≡ user_place users.now name.now }
{
    users.iter().position(|user| user.name == *name)
}

/// Whether two names are the same. Names that are numbered begin alike, so their ends are compared first.
#[tactic(auto, using(crate::proofs::Ends::ends_tell))]
pub(crate) fn is_same(a: &Name, b: &Name) -> bool
    ensures { result ≡ same_name a.now b.now }
{
    end_alike(a.as_bytes(), b.as_bytes()) && *a == *b
}

// Whether these are as long and have the same last two bytes; so it is where they are the same.
fn end_alike(a: &[u8], b: &[u8]) -> bool
    ensures { a.now ≡ b.now → result ≡ true }
{
    let len = a.len();
    len == b.len() && (len < 2 || (a[len - 1] == b[len - 1] && a[len - 2] == b[len - 2]))
}

/// Where the fileset with this name is placed.
pub(crate) fn find_placed<'a>(placed: &'a Items<Placed>, name: &Name) -> Option<&'a Placed>
    ensures { option_copied result ≡ find_placed placed.now name.now }
{
    placed
        .as_slice()
        .iter()
        .find(|other| is_same(&other.name, name))
}

/// A host's number, declared or not; `Word` where the word is none.
#[tactic(auto, unfolding(crate::specs::Context::host_named))]
pub(crate) fn host_named(words: &Words, i: usize) -> Result<HostId, Fault>
    ensures { Gives result (host_named words.now i) }
{
    match node_of(word_at(words, i)?.as_slice()) {
        Some(Node::Host(host)) => Ok(host),
        _ => Err(Fault::Bad(BadWhy::Word)),
    }
}

/// A server's number, declared or not; `Word` where the word is none.
#[tactic(auto, unfolding(crate::specs::Context::server_named))]
pub(crate) fn server_named(words: &Words, i: usize) -> Result<ServerId, Fault>
    ensures { Gives result (server_named words.now i) }
{
    match node_of(word_at(words, i)?.as_slice()) {
        Some(Node::Server(server)) => Ok(server),
        _ => Err(Fault::Bad(BadWhy::Word)),
    }
}
