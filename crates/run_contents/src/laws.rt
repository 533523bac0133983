//! Each function does nothing, and what it ensures is a law.
ghost use Rattle.base_types.specs.declared.ids.Fid.{Fid};
ghost use Rattle.script_lines.specs.declared.script.Script.{Script};
ghost use Rattle.std.specs.Prelude.{ℕ, ◌≡◌};
ghost use Rattle.tree_laws.specs.Parts.{Part};
ghost use Rattle.run_rules.specs.Runs.{IsRun, firsts_of, past_of};
ghost use Rattle.run_rules.specs.Views.{is_dirty, sees as host_sees};
ghost use Rattle.run_tokens.specs.CacheLaws.{DroppedWithCause};
ghost use Rattle.run_rules.specs.declared.journal.Journal.{Journal};
ghost use Rattle.run_parts.specs.Uses.{LockedGranted, LocksApart, PinnedLocked, UsesStay};
ghost use Rattle.run_parts.specs.Contents.{FetchesSo, GivesShow, HostShows, TakesShow, WritesGrow, dirty, sees};
ghost use Rattle.run_contents.specs.Alike.{FilesetsAreAlike};
ghost use Rattle.run_contents.specs.Calls.{CallsInOrder, OneIsOpen};
ghost use Rattle.run_contents.specs.Gives.{GivesKeep};
ghost use Rattle.run_contents.specs.Instance.{RunsMeetContents};
ghost use Rattle.run_contents.specs.Keeping.{ServersKeepWell};
ghost use Rattle.run_contents.specs.Laws.{DonesShowNothing, GrantsBringNeeds, HoldsInRuns};
ghost use Rattle.run_contents.specs.Starts.{StartsKept};
ghost use Rattle.run_contents.specs.Tokens.{GrantedAreSound};

/// A server starts with filesets that are well formed and have nothing unsaved, where the tree has such ones and none
/// has moved away.
pub fn a_server_starts_kept()
    ensures { StartsKept }
{}

/// A give-back leaves what a server keeps well formed and with nothing unsaved. Its bytes become kept where they lie
/// below the size that is left, its length where it is above the kept one, of a file that is there and of no clone;
/// nothing else changes.
pub fn a_give_back_is_kept()
    ensures { GivesKeep }
{}

/// In a well formed tree the objects of a fileset are of a clone all of them, or none is; and a root is a directory.
pub fn filesets_are_alike()
    ensures { FilesetsAreAlike }
{}

/// In each step of a host, in every run: what the rules of contents call seen and dirty is what the host sees and has
/// dirty; what is shown is what the used Grant tells under the tokens that are taken, and nothing stays outstanding
/// then; a give-back has, once each, what is dirty as the host sees it, under tokens that it names, while all that is
/// dirty stays under a token or is given back; what is written is written when nothing is asked for, while a size only
/// grows; a Fetch is a repeat of an outstanding one, or has a new number and asks for nothing of a file that is held
/// for update, nor of one of which something is on its way back; and a token in use stays until its use ends.
pub fn hosts_show_what_they_are_told()
    ensures seen { HoldsInRuns (λ c past s. (f : Fid) (p : Part) → sees c past s f p ≡ host_sees past s f p) }
    ensures dirty { HoldsInRuns (λ c past s. (f : Fid) (at : ℕ) → dirty c past f at ≡ is_dirty past f at) }
    ensures takes { HoldsInRuns TakesShow }
    ensures gives { HoldsInRuns GivesShow }
    ensures grown { HoldsInRuns WritesGrow }
    ensures asks { HoldsInRuns FetchesSo }
    ensures uses { HoldsInRuns (λ c past s. UsesStay past s) }
{}

/// In every run each Grant that a server sends brings tokens that a Fetch asks for, which it took from the host in this
/// epoch; and each Done brings no token that shows a part of an object, but where it repeats one that was sent before.
pub fn servers_bring_what_is_asked()
    ensures grants { (script : Script) (journal : Journal)
        → IsRun script journal → GrantsBringNeeds (firsts_of journal) (past_of journal) }
    ensures dones { (script : Script) (journal : Journal)
        → IsRun script journal → DonesShowNothing (firsts_of journal) (past_of journal) }
{}

/// In every run each step of a host meets all rules of contents: what is shown is what the used Grant tells under
/// the tokens that are taken, which stay; a give-back has, once each, what is dirty as the host sees it, under tokens
/// that it names, while all that is dirty stays under a token or is given back; what is written is written when
/// nothing is asked for, under tokens for update that stay, of a file that can keep it, and below the size that the
/// host sees then, which only grows; and a Fetch asks for nothing of a file that is held for update, nor of one of
/// which something is on its way back.
pub fn hosts_meet_the_rules_of_contents()
    ensures { HoldsInRuns HostShows }
{}

/// In every run: a label that is in use in the tree has a granted token, until the server takes its host's Down or
/// Bye, once the host has reclaimed in the server's epoch. The tokens of labels of two hosts don't conflict, in a
/// grace period too. What a server has pinned isn't without a label in use in the tree, also of a host that has
/// stopped, until its Down is taken.
pub fn labels_are_coherent()
    ensures granted { (script : Script) (journal : Journal)
        → IsRun script journal → LockedGranted (firsts_of journal) (past_of journal) }
    ensures apart { (script : Script) (journal : Journal)
        → IsRun script journal → LocksApart (firsts_of journal) (past_of journal) }
    ensures pinned { (script : Script) (journal : Journal)
        → IsRun script journal → PinnedLocked (firsts_of journal) (past_of journal) }
{}

/// In every run what each server keeps is well formed, and nothing in it is unsaved.
pub fn servers_keep_well()
    ensures { ServersKeepWell }
{}

/// In every run a token leaves its host with cause alone: a Revoke asks for it, it is evicted as the one that was last
/// used longest ago, a call of the host gives it back, or the host ends or stops.
pub fn tokens_leave_with_cause()
    ensures { (script : Script) (journal : Journal) (run : IsRun script journal)
        → DroppedWithCause run.start (past_of journal) }
{}

/// In every run a call of a host begins when none of its calls is open, with the next number among its calls; and one
/// is open at a time, the one that was begun last.
pub fn calls_go_in_order()
    ensures order { (script : Script) (journal : Journal) → IsRun script journal → CallsInOrder (past_of journal) }
    ensures one { (script : Script) (journal : Journal) → IsRun script journal → OneIsOpen (past_of journal) }
{}

/// In every run each token that a server has granted is of a declared host or the setup host, so of no exporter, and of
/// no empty span.
pub fn granted_tokens_are_sound()
    ensures { GrantedAreSound }
{}

/// In every run each step of a host and of a server meets the rules of contents, for contents whose hosts' steps and
/// servers' deeds are those of the run. That there are such contents for each run isn't said here.
pub fn servers_meet_the_rules_of_contents()
    ensures { RunsMeetContents }
{}
