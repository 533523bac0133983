ghost use Rattle.std.specs.Prelude.{◌≡◌, ◌++◌, not, option_map, IfOk};
ghost use Rattle.std.specs.List.{find};
ghost use Rattle.std.specs.Option.{option_copied};
ghost use Rattle.token_manager.specs.Wants.{is_ahead, first_ahead, without_want, not_wants_of};
ghost use Rattle.token_manager.specs.Wants.{is_want_in, wants_in, not_wants_in};

use base_types::{FilesetId, HostId, Items, NoMemory, Plain};
use token_types::{Need, Token, wants_conflict};

/// What a host asks for: a token for each of its needs, all at once. One want has at most `NEEDS_MAX` needs. A want
/// without needs conflicts with nothing.
#[derive(Drop)]
pub struct Want {
    /// Chosen by whoever asks; later wants have greater numbers.
    pub number: u64,
    pub host: HostId,
    pub needs: Items<Need>,
}

/// The answer to a want that is asked.
#[derive(Drop)]
pub enum Asked {
    /// The want is granted: a token for each of its needs, in their order.
    Granted(Items<Token>),
    /// The want is queued.
    Waits {
        /// The granted tokens of other hosts that conflict with it, but for those that are pinned.
        revoke: Items<Token>,
        /// The number of the first queued want that conflicts with it.
        behind: Option<u64>,
    },
}

/// The decision on a queued want, with its number. The want leaves the queue.
#[derive(Drop)]
pub enum Ready {
    /// The want is granted: a token for each of its needs, in their order.
    Granted(u64, Items<Token>),
    /// This pinned token conflicts with the want.
    Refused(u64, Token),
}

/// What can become of a queued want as things are.
#[derive(Clone, Copy, PartialEq)]
pub enum Outlook {
    /// It has to wait.
    Waits,
    /// It can be granted: no granted token of another host and no earlier queued want conflicts with it.
    Granted,
    /// It can be refused: no earlier queued want conflicts with it, and this pinned token does.
    Refused(Token),
}

/// A granted token that queued wants ask back.
#[derive(Clone, Copy, PartialEq)]
pub struct Wanted {
    pub token: Token,
    /// Whether its host was asked for it before.
    pub revoked: bool,
}

impl Plain for Wanted {
    fn copy(&self) -> Result<Wanted, NoMemory> {
        Ok(*self)
    }
}

impl Plain for Want {
    fn copy(&self) -> Result<Want, NoMemory> {
        Ok(Want {
            number: self.number,
            host: self.host,
            needs: self.needs.copy()?,
        })
    }
}

impl Want {
    /// Whether one of its needs is of a fileset.
    pub(crate) fn is_in(&self, fileset: FilesetId) -> bool
        ensures { result ≡ is_want_in fileset self.now }
    {
        self.needs
            .as_slice()
            .iter()
            .any(|need| need.fid.fileset == fileset)
    }

    /// Whether another want was asked before this one and conflicts with it.
    pub(crate) fn is_behind(&self, other: &Want) -> bool
        ensures { result ≡ is_ahead self.now other.now }
    {
        let needs = self.needs.as_slice();
        other.number < self.number
            && wants_conflict(self.host, needs, other.host, other.needs.as_slice())
    }
}

/// The first of the queued wants that was asked before this one and conflicts with it.
pub(crate) fn first_ahead<'a>(queue: &'a [Want], want: &Want) -> Option<&'a Want>
    ensures { option_copied result ≡ first_ahead queue.now want.now }
{
    queue.iter().find(|other| want.is_behind(other))
}

/// Takes the want of a number out of the queue.
pub(crate) fn drop_want(queue: &mut Items<Want>, number: u64)
    ensures { queue.new ≡ without_want queue.old number }
{
    queue.retain(|want| want.number != number);
}

/// Takes the wants of a host out of the queue.
pub(crate) fn drop_wants_of(queue: &mut Items<Want>, host: HostId)
    ensures { queue.new ≡ not_wants_of queue.old host }
{
    queue.retain(|want| want.host != host);
}

/// The queued wants of a fileset.
pub(crate) fn wants_in(queue: &Items<Want>, fileset: FilesetId) -> Result<Items<Want>, NoMemory>
    ensures { IfOk result (λ wants. wants ≡ wants_in queue.now fileset) }
{
    let mut wants = Items::new(queue.alloc());
    for want in queue.as_slice() {
        if want.is_in(fileset) {
            wants.push(want.copy()?)?;
        }
    }
    Ok(wants)
}

/// Takes the wants of a fileset out of the queue.
pub(crate) fn drop_wants_in(queue: &mut Items<Want>, fileset: FilesetId)
    ensures { queue.new ≡ not_wants_in queue.old fileset }
{
    queue.retain(|want| !want.is_in(fileset));
}
