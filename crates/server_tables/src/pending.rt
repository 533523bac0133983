ghost use Rattle.std.specs.Prelude.{◌≡◌, is_none};
ghost use Rattle.need_host.specs.Questions.{fileset_of};
ghost use Rattle.run_rules.specs.Wants.{asker, has_effect, is_use, locks_nothing, moves_fileset};
ghost use Rattle.server_tables.specs.Queue.{is_for, is_meant_so, is_same_number};

use base_types::HostId;
use message_types::Change;
use run_rules::{Request, Wanted};
use tree_calls::Call;

/// A want that waits.
#[derive(Drop)]
pub struct Pending {
    /// The number of its want at the token manager; wants that were made later have greater numbers.
    pub number: u64,
    pub wanted: Wanted,
}

impl Pending {
    /// Whether it is of a host, and known by the same number as a request: a Fetch by its fileset and number, a Change
    /// by the fileset under which it is numbered, of which one waits.
    pub(crate) fn is_for(&self, host: HostId, request: &Request) -> bool
        ensures { result ≡ is_for self.now host request.now }
    {
        self.wanted.host == host && is_same_number(&self.wanted.request, request)
    }
}

fn is_same_number(one: &Request, other: &Request) -> bool
    ensures { result ≡ is_same_number one.now other.now }
{
    match (one, other) {
        (Request::Fetch(one), Request::Fetch(other)) => {
            one.fid.fileset == other.fid.fileset && one.number == other.number
        }
        (Request::Change(one), Request::Change(other)) => one.fileset == other.fileset,
        _ => false,
    }
}

/// For whom tokens are wanted: the host for a Fetch, a lock or an open, and the server's exporter for the other calls.
pub(crate) fn asker(wanted: &Wanted) -> HostId
    ensures { result ≡ asker wanted.now }
{
    match &wanted.request {
        Request::Fetch(_) => wanted.host,
        Request::Change(change) if is_use(&change.call) => wanted.host,
        Request::Change(_) => HostId::EXPORTER,
    }
}

/// Whether a call takes a lock or opens a file.
pub fn is_use(call: &Call) -> bool
    ensures { result ≡ is_use call.now }
{
    matches!(call, Call::Lock { .. } | Call::OpenFile { .. })
}

/// Whether a call moves a fileset.
fn is_move(call: &Call) -> bool
    ensures { result ≡ moves_fileset call.now }
{
    matches!(call, Call::MoveFileset { .. })
}

/// Whether a Change is decided on what the server keeps, and changes it.
pub fn is_effect(change: &Change) -> bool
    ensures { result ≡ has_effect change.now }
{
    !change.enter && !is_use(&change.call) && !is_move(&change.call)
}

fn names_none(call: &Call) -> bool
    ensures { result ≡ is_none (fileset_of call.now) }
{
    matches!(
        call,
        Call::NewFileset { .. }
            | Call::CloneFileset { .. }
            | Call::Unlock { .. }
            | Call::CloseFile { .. }
    )
}

fn locks_nothing(call: &Call) -> bool
    ensures { result ≡ locks_nothing call.now }
{
    matches!(call, Call::Lock { len: 0, .. })
}

/// Whether a Change can be answered: one that enters a fileset has a call that names one, a lock or an open is numbered
/// under the fileset of its file, and a lock is of some bytes.
pub fn is_meant_so(change: &Change) -> bool
    ensures { result ≡ is_meant_so change.now }
{
    !(change.enter && names_none(&change.call))
        && (!is_use(&change.call) || change.fid.fileset == change.fileset)
        && !locks_nothing(&change.call)
}
