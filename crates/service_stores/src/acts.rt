//! The acts that a history gives to the store of a server.
ghost use Rattle.std.specs.Prelude.{
  ◌≡◌,
  ◌++◌,
  ◌↔◌,
  ℕ,
  if◌then◌else◌,
  IfOk,
  OnOk,
  IsTrue,
  MatchOption,
};
ghost use Rattle.std.specs.List.{find};
ghost use Rattle.std.specs.Option.{option_copied};
ghost use Rattle.base_types.specs.declared.ids.HostId.{HostId as HostNumber};
ghost use Rattle.tree_calls.specs.declared.call.Call.TheVariants.{Create as CreateFile};
ghost use Rattle.tree_calls.specs.declared.entry.Entry.TheVariants.{Call as Called};
ghost use Rattle.tree_calls.specs.declared.reply.Reply.TheVariants.{Ok as Accepted};
ghost use Rattle.tree_answers.specs.Finding.{has_id};
ghost use Rattle.tree_answers.specs.Histories.{IsHistory, IsLegal};
ghost use Rattle.tree_answers.specs.Stores.{content_in};
ghost use Rattle.tree_answers.specs.WellFormed.{IsWellFormed};
ghost use Rattle.store_laws.specs.Acts.{
  act_if,
  acts_of,
  call_acts,
  entry_acts,
  is_decided_at,
  number_written,
};
ghost use Rattle.store_laws.specs.HistoryLaws.{IsGiven};
ghost use Rattle.message_types.specs.Soundness.{Each};
ghost use Rattle.store_acts.specs.Sound.{IsAct};
ghost use Rattle.store_acts.specs.declared.act.Act.TheVariants.{Do as DoCall, Give as GiveBack};
ghost use Rattle.service_stores.specs.Reading.{HasBytes};
ghost use Rattle.store_laws.specs.KeptGives.{pieces_in};
ghost use Rattle.store_laws.specs.TreeKeeping.{fileset_at};

use base_types::{Fid, FilesetId, HostId, Items, NoMemory, Plain, ServerId, Span};
use std::alloc::Global;
use store_memory::Act;
use tree_answers::Tree;
use tree_calls::{Call, Entry, Piece, Place, Reply};
use tree_filesets::{Fileset, object_at};
use tree_objects::Object;

/// The acts that a history gives to the store of a server, from a tree on, in their order.
///
/// `NoMemory` comes where memory runs out.
pub(crate) fn acts_of(
    alloc: Global,
    server: ServerId,
    start: &Tree,
    history: &[Entry],
) -> Result<Items<Act>, NoMemory>
    requires formed { IsWellFormed start.now }
    requires legal { IsHistory start.now history.now }
    requires given { Each (IsGiven start.now.roster) history.now }
    ensures acts { IfOk result (λ acts. acts ≡ acts_of server start.now None history.now) }
    ensures each { IfOk result (λ acts. Each (IsAct start.now.roster server) acts) }
{
    let mut acts = Items::new(alloc);
    let mut tree = start.copy()?;
    let mut number = None;
    for entry in history {
        push_act(&mut acts, server, &tree, number, entry)?;
        number = number_written(entry);
        tree.follow(entry)?;
    }
    Ok(acts)
}

// The number of a call that leaves bytes unsaved.
fn number_written(entry: &Entry) -> Option<u32>
    ensures { result ≡ number_written entry.now }
{
    match entry {
        Entry::Call {
            host: _,
            k,
            call,
            reply,
        } => {
            if leaves_unsaved(call, reply) {
                Some(*k)
            } else {
                None
            }
        }
        Entry::Stored { .. } | Entry::Down { .. } | Entry::Left { .. } => None,
    }
}

// Whether a call that has this reply leaves bytes unsaved.
fn leaves_unsaved(call: &Call, reply: &Reply) -> bool
    ensures { (host : HostNumber) (k : ℕ)
        → number_written (Called host k call.now reply.now) ≡ (if result then Some k else None) }
{
    match call {
        Call::Write {
            place: _,
            from: _,
            bytes,
        } => !bytes.is_empty() && is_accepted(reply),
        _ => false,
    }
}

fn is_accepted(reply: &Reply) -> bool
    ensures { IsTrue result ↔ (reply.now ≡ Accepted) }
{
    matches!(reply, Reply::Ok)
}

// Adds the act of the store of a server for an entry that comes to a tree, if there is one. The number is that of the
// call before it, where that left bytes unsaved.
fn push_act(
    acts: &mut Items<Act>,
    server: ServerId,
    tree: &Tree,
    number: Option<u32>,
    entry: &Entry,
) -> Result<(), NoMemory>
    requires formed { IsWellFormed tree.now }
    requires legal { IsLegal tree.now entry.now }
    ensures { OnOk result (acts.new ≡ acts.old ++ entry_acts server tree.now number entry.now) }
{
    match entry {
        Entry::Call {
            host,
            k,
            call,
            reply,
        } => {
            if is_accepted(reply) {
                push_call(acts, server, tree, *host, *k, call)
            } else {
                Ok(())
            }
        }
        Entry::Stored {
            host,
            fid,
            spans,
            length,
        } => {
            if let (Some(k), Some(fileset)) = (number, fileset_at(tree, server, fid.fileset)) {
                let spans = spans.as_slice();
                acts.push(give_of(acts.alloc(), fileset, *host, k, *fid, spans, *length)?)?;
            }
            Ok(())
        }
        Entry::Down { .. } | Entry::Left { .. } => Ok(()),
    }
}

// Adds the act of the store of a server for a call that is accepted, if there is one.
fn push_call(
    acts: &mut Items<Act>,
    server: ServerId,
    tree: &Tree,
    host: HostId,
    k: u32,
    call: &Call,
) -> Result<(), NoMemory>
    ensures { OnOk result (acts.new ≡ acts.old ++ call_acts server tree.now host k call.now) }
{
    if is_done_at(server, tree, call) {
        acts.push(Act::Do {
            host,
            number: u64::from(k),
            call: call.copy()?,
        })?;
    }
    Ok(())
}

// Whether the store of a server does a call that is accepted.
fn is_done_at(server: ServerId, tree: &Tree, call: &Call) -> bool
    ensures { (host : HostNumber) (k : ℕ)
        → call_acts server tree.now host k call.now ≡ act_if result (DoCall host k call.now) }
{
    match call {
        Call::NewFileset { server: at, .. } | Call::CloneFileset { server: at, .. } => *at
            == server,
        Call::Create { place }
        | Call::MakeDir { place }
        | Call::Remove { place }
        | Call::Truncate { place, .. }
        | Call::SetAcl { place, .. } => leads_to(tree, place, server),
        Call::Rename { from, to } => {
            from.server == to.server && from.fileset == to.fileset && leads_to(tree, from, server)
        }
        Call::Read { .. }
        | Call::Write { .. }
        | Call::List { .. }
        | Call::Stat { .. }
        | Call::GetAcl { .. }
        | Call::Sync { .. }
        | Call::Lock { .. }
        | Call::Unlock { .. }
        | Call::OpenFile { .. }
        | Call::CloseFile { .. }
        | Call::MoveFileset { .. } => false,
    }
}

// Whether a place leads into a fileset that is at a server.
fn leads_to(tree: &Tree, place: &Place, server: ServerId) -> bool
    ensures { result ≡ is_decided_at server tree.now (CreateFile place.now) }
{
    match tree.fileset_named(place.server, &place.fileset) {
        Ok(fileset) => fileset.server == server,
        Err(_) => false,
    }
}

// What a host gives back of what it wrote by the call of this number.
fn give_of(
    alloc: Global,
    fileset: &Fileset,
    host: HostId,
    k: u32,
    fid: Fid,
    spans: &[Span],
    length: Option<u32>,
) -> Result<Act, NoMemory>
    requires { MatchOption (content_in fileset.now fid) ⊥ (λ content. HasBytes content spans.now) }
    ensures { IfOk result (λ act. act
        ≡ GiveBack host k fid (pieces_in (content_in fileset.now fid) spans.now) length) }
{
    Ok(Act::Give {
        host,
        number: u64::from(k),
        fid,
        pieces: pieces_at(alloc, fileset, fid, spans)?,
        length,
    })
}

// The fileset of an id, if it is at a server.
fn fileset_at(tree: &Tree, server: ServerId, id: FilesetId) -> Option<&Fileset>
    ensures { option_copied result ≡ fileset_at tree.now server id }
{
    match fileset_of(tree, id) {
        Some(fileset) if fileset.server == server => Some(fileset),
        _ => None,
    }
}

fn fileset_of(tree: &Tree, id: FilesetId) -> Option<&Fileset>
    ensures { option_copied result ≡ find (has_id id) tree.now.filesets }
{
    tree.filesets
        .as_slice()
        .iter()
        .find(|fileset| fileset.id == id)
}

// The bytes of a file in these spans, as its readers see them.
fn pieces_at(
    alloc: Global,
    fileset: &Fileset,
    fid: Fid,
    spans: &[Span],
) -> Result<Items<Piece>, NoMemory>
    requires { MatchOption (content_in fileset.now fid) ⊥ (λ content. HasBytes content spans.now) }
    ensures { IfOk result (λ pieces. pieces ≡ pieces_in (content_in fileset.now fid) spans.now) }
{
    match object_at(&fileset.anodes, fid.anode) {
        Some(object) => pieces_of(alloc, object, spans),
        None => Ok(Items::new(alloc)),
    }
}

fn pieces_of(alloc: Global, object: &Object, spans: &[Span]) -> Result<Items<Piece>, NoMemory>
    requires { HasBytes object.now.content spans.now }
    ensures { IfOk result (λ pieces. pieces ≡ pieces_in (Some object.now.content) spans.now) }
{
    let mut pieces = Items::new(alloc);
    for span in spans {
        pieces.push(Piece {
            from: span.from,
            bytes: object.read(span.from, span.len())?,
        })?;
    }
    Ok(pieces)
}
