// What calls on anodes leave of the objects that these keep. Each function does nothing, and what it ensures is a law.
ghost use Rattle.std.specs.Prelude.{◌≡◌, ◌≢◌, ◌<◌, ◌≤◌, ◌+◌, ℕ, List, true, IfSome, is_none, replicate};
ghost use Rattle.std.specs.List.{sum_by};
ghost use Rattle.tree_objects.specs.declared.content.Anode.{Anode};
ghost use Rattle.tree_filesets.specs.Founding.{unused_anode};
ghost use Rattle.tree_filesets.specs.Promises.{anode_blocks, new_promise};
ghost use Rattle.disk_log.specs.State.{State};
ghost use Rattle.disk_space.specs.Counts.{count_now, count_settled};
ghost use Rattle.disk_anode.specs.Anode.{Anode as Kept, anode_in, IsBare};
ghost use Rattle.disk_anode.specs.Changes.{own_names, WritesLoose, Changed, Made, SharesBlocks};
ghost use Rattle.disk_anode.specs.Node.{node_in, no_names, HasNoBlocks};
ghost use Rattle.disk_anode.specs.Room.{free_blocks};
ghost use Rattle.disk_objects.specs.Holds.{is_anode, no_anode, sum_below, NamesApart};
ghost use Rattle.disk_objects.specs.Objects.{
  kept_of,
  page_for,
  anode_at,
  kept_anodes,
  with_anode,
  FitsObject,
  AreKept,
  IsCovered,
  KeepsNow,
};

/// Each anode of a slot is kept in a page of its own, and each page of an anode keeps one of a slot.
pub fn places_keep()
    ensures kept { (slots : ℕ → List Anode) (slot anode : ℕ) → slot < 16 → 1 ≤ anode → anode ≤ 64
        → kept_anodes slots (page_for slot anode) ≡ kept_of (anode_at (slots slot) anode) }
    ensures page { (slot anode : ℕ) → slot < 16 → 1 ≤ anode → anode ≤ 64 → is_anode (page_for slot anode) ≡ true }
    ensures place { (p : ℕ) → is_anode p ≡ true
        → (slot : ℕ) × (anode : ℕ) × (slot < 16) × (1 ≤ anode) × (anode ≤ 64) × (p ≡ page_for slot anode) }
{}

/// Where all anodes of all slots are free and unused, as in a new aggregate, no page has an anode.
pub fn empty_keeps()
    ensures { kept_anodes (λ slot. replicate 64 unused_anode) ≡ (λ (p : ℕ). no_anode) }
{}

/// A call that changes the anode in a page as the tree changes what it keeps there changes that among the objects of
/// all slots, and nothing else.
pub fn changed_keeps()
    ensures { (slots : ℕ → List Anode) (slot anode : ℕ) (update : Kept → Kept) (change : Anode → Anode)
        (old new : State) (before after : List ℕ)
        → slot < 16 → 1 ≤ anode → anode ≤ 64 → KeepsNow slots old before → new ≡ record old { puts = new.puts }
        → Changed (page_for slot anode) update old before new after
        → WritesLoose (own_names old before (node_in old before (page_for slot anode))) old before before after
        → update (kept_of (anode_at (slots slot) anode)) ≡ kept_of (change (anode_at (slots slot) anode))
        → ((kept_of (change (anode_at (slots slot) anode))).kind ≡ 0
        → HasNoBlocks (node_in new after (page_for slot anode)))
        → IfSome (change (anode_at (slots slot) anode)).object FitsObject
        → KeepsNow (with_anode slot anode change slots) new after }
{}

/// So does a call that makes an anode in the page of a free one.
pub fn made_keeps()
    ensures { (slots : ℕ → List Anode) (slot anode : ℕ) (made : Kept) (change : Anode → Anode)
        (old new : State) (before after : List ℕ)
        → slot < 16 → 1 ≤ anode → anode ≤ 64 → KeepsNow slots old before → new ≡ record old { puts = new.puts }
        → (kept_of (anode_at (slots slot) anode)).kind ≡ 0 → after ≡ before
        → Made (page_for slot anode) made old before new after
        → IsBare after (node_in new after (page_for slot anode))
        → made ≡ kept_of (change (anode_at (slots slot) anode))
        → IfSome (change (anode_at (slots slot) anode)).object FitsObject
        → KeepsNow (with_anode slot anode change slots) new after }
{}

/// And one that copies an anode, of which this slot then keeps what the other one keeps, where no other anode of this
/// slot names a block of the copied one.
pub fn copied_keeps()
    ensures { (slots : ℕ → List Anode) (from one slot anode : ℕ) (old new : State) (before after : List ℕ)
        → from < 16 → 1 ≤ one → one ≤ 64 → slot < 16 → 1 ≤ anode → anode ≤ 64
        → page_for from one ≢ page_for slot anode → KeepsNow slots old before → new ≡ record old { puts = new.puts }
        → (kept_of (anode_at (slots slot) anode)).kind ≡ 0
        → Made (page_for slot anode) (anode_in old before (page_for from one)) old before new after
        → SharesBlocks (page_for slot anode) (node_in old before (page_for from one)) old before new after
        → WritesLoose no_names old before before after
        → NamesApart (page_for slot anode) (node_in old before (page_for from one)) old before
        → KeepsNow (with_anode slot anode (λ free. anode_at (slots from) one) slots) new after }
{}

/// Room by promises: objects with so many anodes have at most what a writable fileset of that limit is promised. Where
/// each block that no pointer names now is free, as after a force, and 1,024 blocks are beyond what covers slots, as
/// promises do, so many are free at least.
pub fn room_keeps()
    ensures promise { (anodes : List Anode) (objects : ℕ) → AreKept anodes
        → ((anode : ℕ) → objects < anode → anode ≤ 64 → is_none (anode_at anodes anode).object ≡ true)
        → sum_by anode_blocks anodes ≤ new_promise objects }
    ensures beyond { (slots : ℕ → List Anode) (promised : ℕ → ℕ) (state : State) (image : List ℕ)
        → KeepsNow slots state image
        → ((b : ℕ) → b < state.superblock.blocks → count_now state image b ≡ 0 → count_settled state image b ≡ 0)
        → ((slot : ℕ) → slot < 16 → IsCovered (slots slot) slot state image (promised slot))
        → sum_below promised 16 + 1024 ≤ state.superblock.blocks
        → 1024 ≤ free_blocks state image }
{}
