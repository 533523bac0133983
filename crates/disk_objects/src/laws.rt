// What each call on an anode leaves of all anodes.
ghost use Rattle.std.specs.Prelude.{◌≡◌, ◌≢◌, ◌<◌, ◌≤◌, ◌==◌, ◌+◌, ℕ, List, [], true, if◌then◌else◌, take, drop};
ghost use Rattle.disk_layout.specs.Numbers.{number_at};
ghost use Rattle.disk_layout.specs.Places.{pages_of, SameBlocks};
ghost use Rattle.disk_layout.specs.Pages.{ends_in, pages_in, HasWhole, LeftFirst};
ghost use Rattle.disk_log.specs.Recovered.{blank_page};
ghost use Rattle.disk_log.specs.Contents.{Contents, stage_in, last_stage, AppendsStage, KeepsLast};
ghost use Rattle.disk_log.specs.Puts.{without};
ghost use Rattle.disk_log.specs.State.{State};
ghost use Rattle.disk_space.specs.Counts.{count_page, count_place, count_now, count_settled};
ghost use Rattle.disk_anode.specs.Anode.{Anode, anode_in, IsTrimmed, IsBare};
ghost use Rattle.disk_anode.specs.Node.{names, no_names, node_in, HasNoBlocks};
ghost use Rattle.disk_anode.specs.Room.{free_blocks};
ghost use Rattle.disk_anode.specs.Changes.{own_names, SameBlock, WritesLoose, AreCounted, AreFew};
ghost use Rattle.disk_anode.specs.Changes.{Changed, Made, SharesBlocks};
ghost use Rattle.tree_calls.specs.declared.part.DirEntry.{DirEntry};
ghost use Rattle.disk_lists.specs.Entries.{with_entries, IsDirectory};
ghost use Rattle.disk_objects.specs.Holds.{is_anode, set_at, Holds, HoldsNow, stage_of, no_anode};
ghost use Rattle.disk_objects.specs.Holds.{NamesApart, pointers_set, all_pointers, blocks_most};

/// A new aggregate, whose pages are zero but for the server's, has no anodes.
pub fn new_holds()
    ensures { (blocks : ℕ) (pages : ℕ → List ℕ) (image : List ℕ)
        → ((p : ℕ) → 1 ≤ p → p < pages_of blocks → pages p ≡ blank_page)
        → Holds (λ p. no_anode) blocks pages image }
{}

/// What a call on an anode asks of its pointers holds where all anodes are held.
pub fn asked_holds()
    ensures { (anodes : ℕ → Anode) (page : ℕ) (state : State) (image : List ℕ)
        → is_anode page ≡ true → HoldsNow anodes state image
        → AreCounted (names (node_in state image page)) state image
        × AreFew (names (node_in state image page)) state image }
{}

/// A call that changes the anode in a page changes it among all, and no other one. Where the page has no anode then, no
/// block is left to it.
pub fn changed_holds()
    ensures { (anodes : ℕ → Anode) (page : ℕ) (update : Anode → Anode) (old new : State) (before after : List ℕ)
        → is_anode page ≡ true → HoldsNow anodes old before → new ≡ record old { puts = new.puts }
        → Changed page update old before new after
        → WritesLoose (own_names old before (node_in old before page)) old before before after
        → ((update (anodes page)).kind ≡ 0 → HasNoBlocks (node_in new after page))
        → HoldsNow (set_at page (update (anodes page)) anodes) new after }
{}

/// A directory among all anodes is one of the same entries in the log, as `find`, `list`, `add` and `drop_name` ask. A
/// call that changes its entries, as the last two do, changes them among all anodes, and nothing else.
pub fn entries_holds()
    ensures asked { (anodes : ℕ → Anode) (page : ℕ) (entries : List DirEntry) (state : State) (image : List ℕ)
        → is_anode page ≡ true → HoldsNow anodes state image → IsDirectory entries (anodes page)
        → IsDirectory entries (anode_in state image page) }
    ensures changed { (anodes : ℕ → Anode) (page : ℕ) (entries others : List DirEntry)
        (old new : State) (before after : List ℕ)
        → is_anode page ≡ true → HoldsNow anodes old before → new ≡ record old { puts = new.puts }
        → IsDirectory entries (anodes page)
        → Changed page (with_entries others) old before new after
        → WritesLoose (own_names old before (node_in old before page)) old before before after
        → HoldsNow (set_at page (with_entries others (anodes page)) anodes) new after }
    ensures entries { (anodes : ℕ → Anode) (page : ℕ) (others : List DirEntry)
        (old new : State) (before after : List ℕ)
        → is_anode page ≡ true → HoldsNow anodes old before
        → Changed page (with_entries others) old before new after → IsDirectory others (anode_in new after page)
        → IsDirectory others (with_entries others (anodes page)) }
{}

/// A call that makes an anode in the page of a free one adds it to all.
pub fn made_holds()
    ensures { (anodes : ℕ → Anode) (page : ℕ) (anode : Anode) (old new : State) (before after : List ℕ)
        → is_anode page ≡ true → HoldsNow anodes old before → new ≡ record old { puts = new.puts }
        → (anodes page).kind ≡ 0 → after ≡ before
        → Made page anode old before new after → IsBare after (node_in new after page)
        → HoldsNow (set_at page anode anodes) new after }
{}

/// A call that copies an anode into the page of a free one adds the copy to all, where no other anode of its slot names
/// a block that the source names.
pub fn copied_holds()
    ensures { (anodes : ℕ → Anode) (from page : ℕ) (old new : State) (before after : List ℕ)
        → is_anode from ≡ true → is_anode page ≡ true → from ≢ page
        → HoldsNow anodes old before → new ≡ record old { puts = new.puts } → (anodes page).kind ≡ 0
        → Made page (anode_in old before from) old before new after
        → SharesBlocks page (node_in old before from) old before new after
        → WritesLoose no_names old before before after
        → NamesApart page (node_in old before from) old before
        → HoldsNow (set_at page (anodes from) anodes) new after }
{}

/// A stage of the log, which is what its pages are after the first `k` transactions that ended since the last force,
/// holds the same anodes after a call that changes pages and free blocks alone.
pub fn staged_holds()
    ensures { (anodes : ℕ → Anode) (named : ℕ → ℕ) (old new : State) (before after : List ℕ) (k : ℕ)
        → Holds anodes old.superblock.blocks (stage_of old before k) before
        → new ≡ record old { puts = new.puts } → WritesLoose named old before before after
        → Holds anodes new.superblock.blocks (stage_of new after k) after }
{}

/// So do the blocks that a crash leaves under the pages of a stage.
pub fn crashed_holds()
    ensures { (anodes : ℕ → Anode) (named : ℕ → ℕ) (state : State) (image before after : List ℕ) (k : ℕ)
        → Holds anodes state.superblock.blocks (stage_of state image k) before
        → WritesLoose named state image before after
        → Holds anodes state.superblock.blocks (stage_of state image k) after }
{}

/// The end of the only open transaction makes a stage of the log that holds what is held now.
pub fn ended_holds()
    ensures { (anodes : ℕ → Anode) (old new : State) (image : List ℕ) (slot : ℕ)
        → HoldsNow anodes old image
        → HasWhole (take old.forced old.entries) (drop old.forced old.entries) image
        → without slot old.puts ≡ []
        → AppendsStage slot (record { state = old; image = image }) (record { state = new; image = image })
        → Holds anodes old.superblock.blocks (stage_of new image (ends_in (drop new.forced new.entries))) image }
{}

/// After a force, stage 0 holds what the last stage held.
pub fn forced_holds()
    ensures { (anodes : ℕ → Anode) (old new : Contents)
        → old.state.half.pages ≡ pages_of old.state.superblock.blocks
        → Holds anodes old.state.superblock.blocks (stage_in old (last_stage old)) old.image
        → KeepsLast old new → SameBlocks (pages_of old.state.superblock.blocks) old.image new.image
        → Holds anodes old.state.superblock.blocks (stage_in new 0) new.image }
{}

/// What a crash in a force leaves in stage `k` holds, after redo and undo, what this stage held.
pub fn left_holds()
    ensures { (anodes : ℕ → ℕ → Anode) (told : Contents) (generation : ℕ) (d c : List ℕ) (k : ℕ)
        → (left : LeftFirst told.state.superblock generation (take told.state.forced told.state.entries)
        (drop told.state.forced told.state.entries) told.image d c k)
        → Holds (anodes 0) told.state.superblock.blocks (stage_in told 0) d
        → ((j : ℕ) → j ≤ last_stage told
        → Holds (anodes j) told.state.superblock.blocks (stage_in told j) told.image)
        → Holds (anodes k) told.state.superblock.blocks (λ p. pages_in left.log.half c p) c }
{}

/// Room by one law: where each block that no pointer names now is free, as after a force, all blocks are free but one
/// for each pointer of an anode at most. An anode has 68 pointers at most, and a free one none. One that has none past
/// its length has 4 and those of its bytes at most.
pub fn room_holds()
    ensures room { (anodes : ℕ → Anode) (state : State) (image : List ℕ)
        → HoldsNow anodes state image
        → ((b : ℕ) → b < state.superblock.blocks → count_now state image b ≡ 0 → count_settled state image b ≡ 0)
        → state.superblock.blocks ≤ free_blocks state image + all_pointers state image }
    ensures few { (anodes : ℕ → Anode) (page : ℕ) (state : State) (image : List ℕ)
        → is_anode page ≡ true → HoldsNow anodes state image
        → pointers_set (node_in state image page) ≤ (if (anodes page).kind == 0 then 0 else 68) }
    ensures trimmed { (anodes : ℕ → Anode) (page : ℕ) (state : State) (image : List ℕ)
        → is_anode page ≡ true → HoldsNow anodes state image → IsTrimmed (node_in state image page)
        → pointers_set (node_in state image page) ≤ blocks_most (anodes page) }
{}

/// Pages hold their anodes as long as no block changes that they count.
pub fn kept_holds()
    ensures { (anodes : ℕ → Anode) (blocks : ℕ) (old new : ℕ → List ℕ) (before after : List ℕ)
        → Holds anodes blocks old before → ((p : ℕ) → p < pages_of blocks → new p ≡ old p)
        → ((b : ℕ) → b < blocks → 1 ≤ number_at 2 (count_place b) (old (count_page b))
        → SameBlock blocks before after b)
        → Holds anodes blocks new after }
{}
