ghost use Rattle.run_examples.specs.Laws.{WriteIsAskedFor, WriteIsAnswered, RevokeIsAnswered, RestartIsAnswered};
ghost use Rattle.run_examples.specs.Laws.{StopIsAllowed, EndIsAllowed, LockIsKept, UseIsEnded, EvictionIsAllowed};
ghost use Rattle.run_examples.specs.Laws.{BlockedFetchIsGranted, NamelessIsIgnored, OutOfTurnIsRefused};
ghost use Rattle.run_examples.specs.Laws.{OddMessagesAreBorne, OwedIsAskedAgain, SecondChangeIsIgnored};
ghost use Rattle.run_examples.specs.Laws.{ServerReacts, TakenIsUsed};
ghost use Rattle.run_examples.specs.Late.{LateChangeIsDecidedNext};
ghost use Rattle.run_examples.specs.Laws.{FetchAsksForAll, GrantOverDirtyIsTaken, LabelsTakenTwiceEnd};

/// A Write asks for the status of a file that its host doesn't know, and then to change the status and the block that
/// it lacks; at a lapse it asks again.
pub fn a_write_is_asked_for()
    ensures { WriteIsAskedFor }
{}

/// A Write that grows its file meets all rules of a host, where the tokens come that it lacked; and so does a lapse
/// after it.
pub fn a_growing_write_is_answered()
    ensures { WriteIsAnswered }
{}

/// A Revoke of dirty and clean tokens is answered by a give-back and a Returned; a lapse sends the give-back again; its
/// Gone comes.
pub fn a_revoke_is_answered()
    ensures { RevokeIsAnswered }
{}

/// Where the server has restarted the host claims what it holds, and what stands in a give-back on its way; a lapse
/// claims again; the claim is answered.
pub fn a_restart_is_answered()
    ensures { RestartIsAnswered }
{}

/// A host stops with dirty tokens.
pub fn a_stop_is_allowed()
    ensures { StopIsAllowed }
{}

/// A host that ends gives back and returns all at once, learns that this was applied, says Bye, and hears it.
pub fn an_end_is_allowed()
    ensures { EndIsAllowed }
{}

/// A lock takes its label; its token is kept when the server asks for it; and the end of its use is given back, learnt
/// and answered.
pub fn a_lock_is_kept()
    ensures { LockIsKept }
{}

/// At the end the use of a lock is ended by the host alone where no server asked its token back, and else by a
/// give-back.
pub fn a_use_is_ended()
    ensures { UseIsEnded }
{}

/// A host that caches one token more than it may evicts one; the bytes that are dirty under it are given back, and a
/// lapse gives them back again.
pub fn an_eviction_is_allowed()
    ensures { EvictionIsAllowed }
{}

/// A label is freed and taken again, after another was taken: at the end that other goes first, and then it.
pub fn labels_taken_twice_end()
    ensures { LabelsTakenTwiceEnd }
{}

/// A Write lacks one of two blocks, and asks for both.
pub fn a_fetch_asks_for_all()
    ensures { FetchAsksForAll }
{}

/// A Grant that shows bytes that are dirty at its host is taken, and a Sync gives back what the host sees then.
pub fn a_grant_over_dirty_bytes_is_taken()
    ensures { GrantOverDirtyIsTaken }
{}

/// A server stores a give-back and answers by Gone, hears a Returned, learns once that a host is down, answers a Bye,
/// tells a restart, and admits a claim; at a lapse it tells those again that haven't reclaimed, and else does nothing.
pub fn a_server_reacts()
    ensures { ServerReacts }
{}

/// A Fetch that another host's token blocks makes its server ask the token back, and again at a lapse; when the token
/// has come back the Fetch is granted, and the Grant tells what is kept then.
pub fn a_blocked_fetch_is_granted()
    ensures { BlockedFetchIsGranted }
{}

/// A token that was asked back is asked back again at a lapse, also when the host whose want it blocked has gone down.
pub fn an_owed_token_is_asked_again()
    ensures { OwedIsAskedAgain }
{}

/// A server sends no Reclaimed for which nobody asked, no Done again where its Change isn't taken, and nothing twice in
/// a step. A host that greeted nobody isn't welcome by a Reclaimed.
pub fn out_of_turn_is_refused()
    ensures { OutOfTurnIsRefused }
{}

/// A Change that enters a fileset but names none changes nothing.
pub fn a_nameless_change_is_ignored()
    ensures { NamelessIsIgnored }
{}

/// Messages that are sound and that no honest peer sends are borne: they change nothing, or are answered.
pub fn odd_messages_are_borne()
    ensures { OddMessagesAreBorne }
{}

/// A host's Change that comes while another one of it waits under the same fileset changes nothing, and the one that
/// waits is decided in its turn.
pub fn a_second_change_is_ignored()
    ensures { SecondChangeIsIgnored }
{}

/// A Change that becomes ready after the decisions of a step, since the last claim of a grace period is admitted then,
/// is decided in the next step; no line of the server goes before it.
pub fn a_late_change_is_decided_next()
    ensures { LateChangeIsDecidedNext }
{}

/// A token that a host's step takes counts as used by that step.
pub fn what_is_taken_is_used()
    ensures { TakenIsUsed }
{}
