//! What hosts hold under labels: locks and open files.
ghost use Rattle.std.specs.Prelude.{◌≡◌, ◌==◌, nat_eq, ◌<◌, ◌≤◌, length, IfSome, OnOk, OnErr};
ghost use Rattle.std.specs.List.{position};
ghost use Rattle.base_types.specs.Ids.{same_fid};
ghost use Rattle.tree_answers.specs.Uses.{label_before, is_under, has_label, label_count, label_place};
ghost use Rattle.tree_answers.specs.Uses.{with_one, without_label, is_held, is_fileset_held, is_used};

use crate::tree::{LockUse, OpenUse};
use base_types::{Fid, FilesetId, HostId, Items, Name, NoMemory};
use tree_filesets::InUse;

/// What a host holds under a label: a lock, or an open file.
pub(crate) trait Held: Drop {
    ghost use Rattle.tree_answers.specs.Uses.{Hold};

    ghost hold: { Self → Hold };

    /// The host that holds it.
    fn host(&self) -> HostId
        ensures { result ≡ (hold self.now).host };

    /// The host's label of it.
    fn label(&self) -> &Name
        ensures { result.now ≡ (hold self.now).label };

    /// The file.
    fn fid(&self) -> Fid
        ensures { result ≡ (hold self.now).fid };
}

impl Held for LockUse {
    ghost use Rattle.tree_answers.specs.Uses.{lock_hold};

    ghost hold = { lock_hold };

    fn host(&self) -> HostId {
        self.host
    }

    fn label(&self) -> &Name {
        &self.label
    }

    fn fid(&self) -> Fid {
        self.fid
    }
}

impl Held for OpenUse {
    ghost use Rattle.tree_answers.specs.Uses.{open_hold};

    ghost hold = { open_hold };

    fn host(&self) -> HostId {
        self.host
    }

    fn label(&self) -> &Name {
        &self.label
    }

    fn fid(&self) -> Fid {
        self.fid
    }
}

/// The locks and open files of all hosts.
#[derive(Clone, Copy)]
pub(crate) struct Uses<'a> {
    pub(crate) locks: &'a Items<LockUse>,
    pub(crate) opens: &'a Items<OpenUse>,
}

impl InUse for Uses<'_> {
    ghost is_in_use = { λ uses fid. is_used uses.locks.now uses.opens.now fid };

    fn is_in_use(&self, fid: Fid) -> bool {
        is_held(self.locks, fid) || is_held(self.opens, fid)
    }
}

// Whether a host's label comes before another: by host, and then by label.
fn label_before(host: HostId, label: &Name, other: HostId, other_label: &Name) -> bool
    ensures { result ≡ label_before host label.now other other_label.now }
{
    host.0 < other.0 || (host == other && label.is_before(other_label))
}

// Whether this is what a host holds under a label.
fn is_under<U: Held>(one: &U, host: HostId, label: &Name) -> bool
    ensures { result ≡ is_under U.hold host label.now one.now }
{
    one.host() == host && *one.label() == *label
}

/// Whether a host holds something under a label.
pub(crate) fn has_label<U: Held>(all: &Items<U>, host: HostId, label: &Name) -> bool
    ensures { result ≡ has_label U.hold all.now host label.now }
{
    all.as_slice().iter().any(|one| is_under(one, host, label))
}

/// How many labels a host has.
pub(crate) fn label_count<U: Held>(all: &Items<U>, host: HostId) -> usize
    ensures { result ≡ label_count U.hold all.now host }
{
    all.as_slice()
        .iter()
        .filter(|one| one.host() == host)
        .count()
}

/// Whether some host holds a file.
pub(crate) fn is_held<U: Held>(all: &Items<U>, fid: Fid) -> bool
    ensures { result ≡ is_held U.hold all.now fid }
{
    all.as_slice().iter().any(|one| one.fid() == fid)
}

/// Whether some host holds a file of a fileset.
pub(crate) fn is_fileset_held<U: Held>(all: &Items<U>, id: FilesetId) -> bool
    ensures { result ≡ is_fileset_held U.hold all.now id }
{
    all.as_slice().iter().any(|one| one.fid().fileset == id)
}

/// Adds one more, at the place of its label.
pub(crate) fn add_one<U: Held>(all: &mut Items<U>, one: U) -> Result<(), NoMemory>
    ensures ok { OnOk result (all.new ≡ with_one U.hold all.old one) }
    ensures err { OnErr result (all.new ≡ all.old) }
{
    let place = label_place(all, one.host(), one.label());
    all.insert(place, one)
}

/// Lets what a host holds under a label go.
pub(crate) fn drop_label<U: Held>(all: &mut Items<U>, host: HostId, label: &Name)
    ensures { all.new ≡ without_label U.hold all.old host label.now }
{
    all.retain(|one| !is_under(one, host, label));
}

// The first that comes after a host's label.
fn first_after<U: Held>(all: &Items<U>, host: HostId, label: &Name) -> Option<usize>
    ensures value { result ≡
        position (λ one. label_before host label.now (U.hold one).host (U.hold one).label) all.now }
    ensures within { IfSome result (λ place. place < length all.now) }
{
    all.as_slice()
        .iter()
        .position(|one| label_before(host, label, one.host(), one.label()))
}

// Where a host's label goes.
fn label_place<U: Held>(all: &Items<U>, host: HostId, label: &Name) -> usize
    ensures value { result ≡ label_place U.hold all.now host label.now }
    ensures within { result ≤ length all.now }
{
    match first_after(all, host, label) {
        Some(place) => place,
        None => all.len(),
    }
}
