//! What an answered call used, marked in the order of use: the object that it found first, and the root last, so that
//! what the next call needs least is evicted first.
ghost use Rattle.std.specs.Prelude.{◌≡◌, ◌∷◌, ◌++◌, [], true};
ghost use Rattle.host_cache.specs.Seen.{seen, after_used};
ghost use Rattle.host_walk.specs.Marks.{marks_of, used_all, way_of};
ghost use Rattle.host_walk.specs.Trying.{status_need, whole_need};
ghost use Rattle.host_walk.specs.Views.{view_of};

use crate::needs::{status_need, whole_need};
use crate::sight::{child, rights_on};
use base_types::{Fid, Name, Rights, User};
use host_cache::Cache;
use std::marker::Model;
use token_types::Need;

// So many needs of one walk are marked at once, at most.
const MARKS_MAX: usize = 12;

/// How a walk goes on from an object.
enum Onward {
    /// Only its status was looked at.
    Ends,
    /// Its entries were looked at, and the name isn't among them.
    Misses,
    /// They lead here.
    Leads(Fid),
}

/// Marks what a need uses.
pub fn mark(cache: &mut Cache, need: Need)
    ensures { seen cache.new ≡ after_used (seen cache.old) need }
{
    cache.used(&need);
}

/// Marks what a walk from an object along a path used; and at its end some needs, in their order.
pub fn mark_way(cache: &mut Cache, user: &User, at: Fid, path: &[Name], needs: &[Need])
    ensures { seen cache.new
        ≡ used_all (marks_of (view_of cache.old) user.now needs.now path.now at) (seen cache.old) }
{
    let mut marks = Marks::none(at);
    if marks.are_of(cache, user, at, path, needs) {
        cache.mark_all(marks.all());
        return;
    }
    mark_each(cache, user, at, path, needs);
}

/// The needs that a walk marks, in their order: so many that they lie in the place of a call.
#[derive(Drop)]
struct Marks {
    needs: [Need; MARKS_MAX],
    count: usize,
}

impl Model for Marks {
    ghost use Rattle.std.specs.Prelude.{List, take, ◌≤◌};
    ghost use Rattle.token_types.specs.declared.token.Need.{Need};

    ghost Value = { List Need };

    ghost view = { λ m. take m.count m.needs };

    ghost invariant = { λ m. m.count ≤ 12 };
}

impl Marks {
    // None yet; the object is of no matter.
    fn none(at: Fid) -> Marks
        ensures { result ≡ [] }
    {
        Marks {
            needs: [status_need(at); MARKS_MAX],
            count: 0,
        }
    }

    fn all(&self) -> &[Need]
        ensures { result.now ≡ self.now }
    {
        &self.needs[..self.count]
    }

    // One more. Answers whether there was room for it.
    fn push(&mut self, need: Need) -> bool
        ensures { result ≡ true → self.new ≡ self.old ++ need ∷ [] }
    {
        if self.count >= MARKS_MAX {
            return false;
        }
        self.needs[self.count] = need;
        self.count += 1;
        true
    }

    fn push_dir(&mut self, at: Fid) -> bool
        ensures { result ≡ true → self.new ≡ self.old ++ status_need at ∷ whole_need at ∷ [] }
    {
        self.push(status_need(at)) && self.push(whole_need(at))
    }

    #[tactic(auto, using(crate::proofs::Marking::put_more))]
    fn push_end(&mut self, at: Fid, needs: &[Need]) -> bool
        ensures { result ≡ true → self.new ≡ self.old ++ status_need at ∷ needs.now }
    {
        if !self.push(status_need(at)) {
            return false;
        }
        for need in needs {
            if !self.push(*need) {
                return false;
            }
        }
        true
    }

    // Puts down what a walk from an object along a path marks. Answers whether there was room for all.
    fn are_of(&mut self, cache: &Cache, user: &User, at: Fid, path: &[Name], needs: &[Need]) -> bool
        ensures { result ≡ true → self.new
            ≡ self.old ++ marks_of (view_of cache.now) user.now needs.now path.now at }
    {
        let Some((name, rest)) = path.split_first() else {
            return self.push_end(at, needs);
        };
        match way(cache, user, at, name) {
            Onward::Ends => self.push(status_need(at)),
            Onward::Misses => self.push_dir(at),
            Onward::Leads(fid) => {
                self.are_of(cache, user, fid, rest, needs) && self.push_dir(at)
            }
        }
    }
}

// Marks them one by one.
fn mark_each(cache: &mut Cache, user: &User, at: Fid, path: &[Name], needs: &[Need])
    ensures { seen cache.new
        ≡ used_all (marks_of (view_of cache.old) user.now needs.now path.now at) (seen cache.old) }
{
    let Some((name, rest)) = path.split_first() else {
        mark_end(cache, at, needs);
        return;
    };
    match way(cache, user, at, name) {
        Onward::Ends => mark(cache, status_need(at)),
        Onward::Misses => mark_dir(cache, at),
        Onward::Leads(fid) => {
            mark_each(cache, user, fid, rest, needs);
            mark_dir(cache, at);
        }
    }
}

fn mark_end(cache: &mut Cache, at: Fid, needs: &[Need])
    ensures { seen cache.new ≡ used_all (status_need at ∷ needs.now) (seen cache.old) }
{
    mark(cache, status_need(at));
    for need in needs {
        mark(cache, *need);
    }
}

fn mark_dir(cache: &mut Cache, at: Fid)
    ensures { seen cache.new ≡ used_all (status_need at ∷ whole_need at ∷ []) (seen cache.old) }
{
    mark(cache, status_need(at));
    mark(cache, whole_need(at));
}

// How a walk goes on from an object by a name.
fn way(cache: &Cache, user: &User, at: Fid, name: &Name) -> Onward
    ensures { result ≡ way_of (view_of cache.now) user.now at name.now }
{
    let shown = cache.at(at);
    let Some(status) = shown.status else {
        return Onward::Ends;
    };
    if !status.dir || !rights_on(status, user).allows(Rights::EXECUTE) {
        return Onward::Ends;
    }
    match child(shown.entries, at, name) {
        Some(fid) => Onward::Leads(fid),
        None => Onward::Misses,
    }
}
