ghost use Rattle.std.specs.Prelude.{◌≡◌, ◌∷◌, [], IfOk, OnOk, map, true, ℕ, List};
ghost use Rattle.base_types.specs.Lists.{changed_at};
ghost use Rattle.script_lines.specs.Index.{StayIn, is_in, places_of};
ghost use Rattle.hub_board.specs.Follows.{flag_for, follow_of, if_flag, mark_raised, waits_for, with_begun, with_gone};
ghost use Rattle.hub_board.specs.Follows.{place_of};
ghost use Rattle.std.specs.List.{position};
ghost use Rattle.script_lines.specs.Sound.{same_node};
ghost use Rattle.hub_board.specs.declared.follow.Follow.{Follow as FollowOf};
ghost use Rattle.hub_board.specs.Follows.{with_raised};
ghost use Rattle.hub_board.specs.Waits.{AreKnown, AreWaiting};

use crate::follow::{Follow, Mark};
use base_types::{Items, Name, NoMemory, Node};
use script_lines::{Index, Script, same_node};
use std::alloc::Global;
use std::marker::Model;

/// A node that is followed, and where its lines wait for flags. Contracts see it as the node that is followed.
#[derive(Drop)]
pub(crate) struct Follower {
    follow: Follow,
    // where its lines wait for each flag
    waits: Index,
}

impl Model for Follower {
    ghost use Rattle.hub_board.specs.Waits.{AreKnown};
    ghost use Rattle.hub_board.specs.declared.follow.Follow.{Follow as FollowOf};

    ghost Value = { FollowOf };

    ghost view = { λ f. f.follow };

    ghost invariant = { λ f. AreKnown f.follow.marks f.waits };
}

impl Follower {
    /// A node at the start of a script. The only error is that memory ran out.
    pub(crate) fn new(script: &Script, node: Node) -> Result<Follower, NoMemory>
        ensures { IfOk result (λ follower. follower ≡ follow_of script.now node) }
    {
        let follow = Follow::new(script, node)?;
        let waits = waits_of(script.lines.alloc(), follow.marks.as_slice())?;
        Ok(Follower { follow, waits })
    }

    pub(crate) fn as_follow(&self) -> &Follow
        ensures { result.now ≡ self.now }
    {
        &self.follow
    }

    /// Lets so many lines go.
    pub(crate) fn go(&mut self, count: usize)
        ensures { self.new ≡ with_gone count self.old }
    {
        self.follow.go(count);
    }

    /// It was told that the setup host has ended.
    pub(crate) fn begin(&mut self)
        ensures { self.new ≡ with_begun self.old }
    {
        self.follow.begin();
    }

    /// Takes notice of a flag.
    #[tactic(auto, using(crate::proofs::Waits::known_raised))]
    pub(crate) fn raise(&mut self, flag: &Name)
        ensures { self.new ≡ with_raised flag.now self.old }
    {
        raise_at(&mut self.follow.marks, self.waits.places(flag), flag);
    }

    /// Hands out the flag for which the next line waits, where it was raised; it is handed out once.
    #[tactic(auto, using(crate::proofs::Waits::known_told))]
    pub(crate) fn take_flag(&mut self) -> Option<Name>
        ensures flag { result ≡ flag_for self.old }
        ensures rest { self.new ≡ if_flag self.old }
    {
        self.follow.take_flag()
    }
}

// Where lines wait. The only error is that memory ran out.
#[tactic(auto, using(crate::proofs::Waits::knows))]
fn waits_of(alloc: Global, marks: &[Mark]) -> Result<Index, NoMemory>
    ensures { IfOk result (λ waits. AreKnown marks.now waits) }
{
    let mut waits = Index::new(alloc);
    for place in 0..marks.len() {
        add_wait(&mut waits, &marks[place], place)?;
    }
    Ok(waits)
}

#[tactic(auto, using(crate::proofs::Waits::added))]
fn add_wait(waits: &mut Index, mark: &Mark, place: usize) -> Result<(), NoMemory>
    ensures kept { StayIn waits.old waits.new }
    ensures added { OnOk result ((flag : List ℕ) → waits_for flag mark.now ≡ true →
        is_in (places_of waits.new flag) place ≡ true) }
{
    if let Mark::Await(flag) = mark {
        waits.add(flag, place)?;
    }
    Ok(())
}

// Takes notice of a flag, where these are the places at which lines can wait for it.
fn raise_at(marks: &mut Items<Mark>, places: &[usize], flag: &Name)
    requires { AreWaiting flag.now marks.old places.now }
    ensures { marks.new ≡ map (mark_raised flag.now) marks.old }
{
    for place in places {
        raise_mark(marks, *place, flag);
    }
}

#[tactic(auto, using(base_types::proofs::ChangedLists::changes))]
fn raise_mark(marks: &mut Items<Mark>, place: usize, flag: &Name)
    ensures { marks.new ≡ changed_at marks.old place (mark_raised flag.now) }
{
    if place < marks.len() {
        marks.get_mut(place).raise(flag);
    }
}

/// The place of a node among those that are followed, or their number.
pub(crate) fn place_of(follows: &[Follower], node: Node) -> usize
    ensures { result ≡ place_of follows.now node }
{
    match place_at(follows, node) {
        Some(place) => place,
        None => follows.len(),
    }
}

fn place_at(follows: &[Follower], node: Node) -> Option<usize>
    ensures { result ≡ position (λ (follow : FollowOf). same_node follow.node node) follows.now }
{
    follows
        .iter()
        .position(|follower| same_node(follower.as_follow().node, node))
}
