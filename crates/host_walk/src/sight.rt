ghost use Rattle.std.specs.Prelude.{◌≡◌, true, false, IfOk, OnOk, Ok, Some, MatchResult, option_copied};
ghost use Rattle.std.specs.Option.{option_map};
ghost use Rattle.base_types.specs.Access.{allows};
ghost use Rattle.token_types.specs.Covers.{Covers};
ghost use Rattle.tree_objects.specs.Entries.{entry_named};
ghost use Rattle.need_host.specs.Looks.{outcome};
ghost use Rattle.need_host.specs.Walks.{fid_in, rights_on, nature_look, step_look, walk_look, target_look, file_look};
ghost use Rattle.need_host.specs.Walks.{permitted_look};
ghost use Rattle.host_cache.specs.Seen.{seen};
ghost use Rattle.host_walk.specs.Trying.{Tries, TriesNeed, status_need};
ghost use Rattle.host_walk.specs.Views.{nature_told, held_by, view_of};
ghost use Rattle.host_walk.specs.Walks.{entries_look};

use crate::needs::{status_need, whole_need};
use base_types::{Fid, Name, Rights, User, rights_of};
use host_cache::{Cache, Shown};
use token_types::{Need, covers};
use tree_calls::{DirEntry, Refusal, Status};

/// Why a look ends before it found what it looks for.
#[derive(Clone, Copy)]
pub enum Stop {
    /// This is the first need that the held tokens don't cover.
    Lacks(Need),
    /// The tokens cover all that was looked at, and the call is refused.
    Refused(Refusal),
}

/// What a host sees for its user.
#[derive(Clone, Copy)]
pub struct Sight<'a> {
    pub cache: &'a Cache,
    pub user: &'a User,
}

impl<'a> Sight<'a> {
    /// Whether the tokens cover a need.
    pub fn covered(&self, need: Need) -> Result<(), Stop>
        ensures { TriesNeed self.now.cache.now need result }
    {
        if self.cache.covers(&need) {
            return Ok(());
        }
        Err(Stop::Lacks(need))
    }

    // What is shown of the object of a need, where the tokens cover that.
    fn shown(&self, need: Need) -> Result<Shown<'a>, Stop>
        ensures tried { TriesNeed self.now.cache.now need result }
        ensures status { IfOk result (λ shown. option_copied shown.status
            ≡ (seen self.now.cache.now).status need.fid) }
        ensures entries { IfOk result (λ shown. shown.entries.now ≡ (seen self.now.cache.now).entries need.fid) }
    {
        let shown = self.cache.at(need.fid);
        if covers(shown.tokens, &need) {
            return Ok(shown);
        }
        Err(Stop::Lacks(need))
    }

    /// The status of an object.
    pub fn status(&self, fid: Fid) -> Result<&'a Status, Stop>
        ensures tried { Tries self.now.cache.now (nature_look fid) (λ status. nature_told status.now) result }
        ensures covered { OnOk result (Covers (held_by self.now.cache.now) (status_need fid)) }
        ensures seen { IfOk result (λ status. (seen self.now.cache.now).status fid ≡ Some status.now) }
    {
        let shown = self.shown(status_need(fid))?;
        match shown.status {
            Some(status) => Ok(status),
            None => Err(Stop::Refused(Refusal::NoEntry)),
        }
    }

    /// The entries of a directory of this status, where the user has this right on it.
    pub(crate) fn entries(
        &self,
        fid: Fid,
        status: &Status,
        right: Rights,
    ) -> Result<&'a [DirEntry], Stop>
        ensures { Tries self.now.cache.now (entries_look self.now.user.now right fid (nature_told status.now))
            (λ entries. entries.now) result }
    {
        if !status.dir {
            return Err(Stop::Refused(Refusal::NotDir));
        }
        self.permitted(status, right)?;
        let shown = self.shown(whole_need(fid))?;
        Ok(shown.entries)
    }

    /// Whether the user has this right on an object.
    pub fn permitted(&self, status: &Status, right: Rights) -> Result<(), Stop>
        ensures { MatchResult result
            (λ _. allows (rights_on (nature_told status.now) self.now.user.now) right ≡ true)
            (λ stop. (allows (rights_on (nature_told status.now) self.now.user.now) right ≡ false)
            × (stop ≡ Stop.Refused (Refusal.Denied right))) }
    {
        if rights_on(status, self.user).allows(right) {
            return Ok(());
        }
        Err(Stop::Refused(Refusal::Denied(right)))
    }

    // The object that a name leads to, in a directory.
    fn step(&self, at: Fid, name: &Name) -> Result<Fid, Stop>
        ensures { Tries self.now.cache.now (step_look self.now.user.now at name.now) (λ fid. fid) result }
    {
        let status = self.status(at)?;
        let entries = self.entries(at, status, Rights::EXECUTE)?;
        match child(entries, at, name) {
            Some(fid) => Ok(fid),
            None => Err(Stop::Refused(Refusal::NoEntry)),
        }
    }

    // The object that a path leads to from another, of which nothing has been seen yet.
    fn walk(&self, at: Fid, path: &[Name]) -> Result<Fid, Stop>
        ensures { Tries self.now.cache.now (walk_look self.now.user.now at path.now) (λ fid. fid) result }
    {
        let Some((name, rest)) = path.split_first() else {
            return Ok(at);
        };
        match self.step(at, name) {
            Ok(next) => self.walk(next, rest),
            Err(stop) => Err(stop),
        }
    }

    /// The object that a path leads to from the root of a fileset, and its status.
    pub fn target(&self, root: Fid, path: &[Name]) -> Result<(Fid, &'a Status), Stop>
        ensures tried { Tries self.now.cache.now (target_look self.now.user.now root path.now)
            (λ found. (found.0, nature_told found.1.now)) result }
        ensures walked { IfOk result (λ found.
            outcome (view_of self.now.cache.now) (walk_look self.now.user.now root path.now) ≡ Ok found.0) }
        ensures covered { IfOk result (λ found. Covers (held_by self.now.cache.now) (status_need found.0)) }
        ensures seen { IfOk result (λ found. (seen self.now.cache.now).status found.0 ≡ Some found.1.now) }
    {
        let fid = self.walk(root, path)?;
        let status = self.status(fid)?;
        Ok((fid, status))
    }

    /// The file that a path leads to, and its status.
    pub fn file(&self, root: Fid, path: &[Name]) -> Result<(Fid, &'a Status), Stop>
        ensures tried { Tries self.now.cache.now (file_look self.now.user.now root path.now)
            (λ found. (found.0, nature_told found.1.now)) result }
        ensures walked { IfOk result (λ found.
            outcome (view_of self.now.cache.now) (walk_look self.now.user.now root path.now) ≡ Ok found.0) }
        ensures covered { IfOk result (λ found. Covers (held_by self.now.cache.now) (status_need found.0)) }
        ensures seen { IfOk result (λ found. (seen self.now.cache.now).status found.0 ≡ Some found.1.now) }
    {
        let (fid, status) = self.target(root, path)?;
        if status.dir {
            return Err(Stop::Refused(Refusal::IsDir));
        }
        Ok((fid, status))
    }

    /// The file that a path leads to, on which the user has this right, and its status.
    pub(crate) fn file_for(
        &self,
        root: Fid,
        path: &[Name],
        right: Rights,
    ) -> Result<(Fid, &'a Status), Stop>
        ensures tried { Tries self.now.cache.now (permitted_look self.now.user.now root path.now right)
            (λ found. (found.0, nature_told found.1.now)) result }
        ensures walked { IfOk result (λ found.
            outcome (view_of self.now.cache.now) (walk_look self.now.user.now root path.now) ≡ Ok found.0) }
        ensures covered { IfOk result (λ found. Covers (held_by self.now.cache.now) (status_need found.0)) }
        ensures seen { IfOk result (λ found. (seen self.now.cache.now).status found.0 ≡ Some found.1.now) }
    {
        let (fid, status) = self.file(root, path)?;
        self.permitted(status, right)?;
        Ok((fid, status))
    }
}

/// The rights that a user has on an object.
pub fn rights_on(status: &Status, user: &User) -> Rights
    ensures { result ≡ rights_on (nature_told status.now) user.now }
{
    match status.lists.at(0) {
        Some(list) => rights_of(list, &status.owner, &status.group, user),
        None => Rights::NONE,
    }
}

/// The object that a name leads to, among the entries of a directory.
pub(crate) fn child(entries: &[DirEntry], at: Fid, name: &Name) -> Option<Fid>
    ensures { result ≡ option_map (fid_in at) (entry_named entries.now name.now) }
{
    let entry = named(entries, name)?;
    Some(Fid {
        fileset: at.fileset,
        anode: entry.anode,
        unique: entry.unique,
    })
}

fn named<'a>(entries: &'a [DirEntry], name: &Name) -> Option<&'a DirEntry>
    ensures { option_copied result ≡ entry_named entries.now name.now }
{
    entries.iter().find(|entry| entry.name == *name)
}
