//! Steps.
ghost use Rattle.std.specs.Prelude.{◌≡◌, ◌++◌, OnOk};
ghost use Rattle.json.specs.Tree.{json_tokens, members_tokens};
ghost use Rattle.run_journal.specs.Steps.{done_members, given_members, held_members, stored_json};
ghost use Rattle.run_journal.specs.Steps.{leaves_json, left_json, part_json};

use crate::line::{ToLine, put_field, put_tagged};
use base_types::{Fid, FilesetId, HostId, Items, NoMemory, Node, ServerId, Span};
use message_json::Line;
use run_rules::{
    Admission, Answer, Applied, Asked, Cause, Head, Labelled, Leave, Move, Request, Step, Wanted,
    Why, Written,
};
use tree_calls::Mover;

impl ToLine for Node {
    ghost use Rattle.run_journal.specs.Steps.{node_json};

    ghost json = { node_json };

    #[tactic(auto, unfolding(crate::specs::Steps::node_json))]
    fn put(&self, line: &mut Line) -> Result<(), NoMemory> {
        match self {
            Node::Host(host) => line.tagged("host", host),
            Node::Server(server) => line.tagged("server", server),
        }
    }
}

impl ToLine for Cause {
    ghost use Rattle.run_journal.specs.Steps.{cause_json};

    ghost json = { cause_json };

    #[tactic(auto, unfolding(crate::specs::Steps::cause_json))]
    fn put(&self, line: &mut Line) -> Result<(), NoMemory> {
        match self {
            Cause::Line(number) => line.tagged("line", number),
            Cause::Restart(number) => line.tagged("restart", number),
            Cause::Message(message) => line.tagged("message", message),
            Cause::Lapse => line.word("lapse"),
            Cause::Evict => line.word("evict"),
            Cause::End => line.word("end"),
            Cause::Flushed => line.word("flushed"),
            Cause::Freight(message) => line.tagged("freight", message),
        }
    }
}

impl ToLine for Asked {
    ghost use Rattle.run_journal.specs.Steps.{asked_json};

    ghost json = { asked_json };

    #[tactic(auto, unfolding(crate::specs::Steps::asked_json))]
    fn put(&self, line: &mut Line) -> Result<(), NoMemory> {
        line.open()?;
        line.field("k", &self.k)?;
        line.field("call", &self.call)?;
        line.close()
    }
}

impl ToLine for Answer {
    ghost use Rattle.run_journal.specs.Steps.{answer_json};

    ghost json = { answer_json };

    #[tactic(auto, unfolding(crate::specs::Steps::answer_json))]
    fn put(&self, line: &mut Line) -> Result<(), NoMemory> {
        line.open()?;
        line.field("host", &self.host)?;
        line.field("k", &self.k)?;
        line.field("call", &self.call)?;
        line.field("reply", &self.reply)?;
        line.field("first", &self.first)?;
        line.close()
    }
}

impl ToLine for Labelled {
    ghost use Rattle.run_journal.specs.Steps.{labelled_json};

    ghost json = { labelled_json };

    #[tactic(auto, unfolding(crate::specs::Steps::labelled_json))]
    fn put(&self, line: &mut Line) -> Result<(), NoMemory> {
        line.open()?;
        line.field("label", &self.label)?;
        line.field("token", &self.token)?;
        line.close()
    }
}

impl ToLine for Why {
    ghost use Rattle.run_journal.specs.Steps.{why_json};

    ghost json = { why_json };

    #[tactic(auto, unfolding(crate::specs::Steps::why_json))]
    fn put(&self, line: &mut Line) -> Result<(), NoMemory> {
        match self {
            Why::Revoked => line.word("revoked"),
            Why::Evicted => line.word("evicted"),
            Why::ForCall => line.word("for_call"),
            Why::Ended => line.word("ended"),
            Why::Stopped => line.word("stopped"),
        }
    }
}

impl ToLine for Leave {
    ghost use Rattle.run_journal.specs.Steps.{leave_json};

    ghost json = { leave_json };

    #[tactic(auto, unfolding(crate::specs::Steps::leave_json))]
    fn put(&self, line: &mut Line) -> Result<(), NoMemory> {
        line.open()?;
        line.field("token", &self.token)?;
        put_field(line, "why", &self.why)?;
        line.close()
    }
}

impl ToLine for Request {
    ghost use Rattle.run_journal.specs.Steps.{request_json};

    ghost json = { request_json };

    #[tactic(auto, unfolding(crate::specs::Steps::request_json))]
    fn put(&self, line: &mut Line) -> Result<(), NoMemory> {
        match self {
            Request::Fetch(fetch) => line.tagged("fetch", fetch),
            Request::Change(change) => line.tagged("change", change),
        }
    }
}

impl ToLine for Wanted {
    ghost use Rattle.run_journal.specs.Steps.{wanted_json};

    ghost json = { wanted_json };

    #[tactic(auto, unfolding(crate::specs::Steps::wanted_json))]
    fn put(&self, line: &mut Line) -> Result<(), NoMemory> {
        line.open()?;
        line.field("host", &self.host)?;
        put_field(line, "request", &self.request)?;
        line.field("moves", &self.moves)?;
        line.field("needs", &self.needs)?;
        line.close()
    }
}

impl ToLine for Written {
    ghost use Rattle.run_journal.specs.Steps.{written_json};

    ghost json = { written_json };

    #[tactic(auto, unfolding(crate::specs::Steps::written_json))]
    fn put(&self, line: &mut Line) -> Result<(), NoMemory> {
        line.open()?;
        line.field("fileset", &self.fileset)?;
        line.field("number", &self.number)?;
        put_field(line, "answer", &self.answer)?;
        line.close()
    }
}

impl ToLine for Head {
    ghost use Rattle.run_journal.specs.Steps.{head_json};

    ghost json = { head_json };

    #[tactic(auto, unfolding(crate::specs::Steps::head_json))]
    fn put(&self, line: &mut Line) -> Result<(), NoMemory> {
        line.open()?;
        line.field("from", &self.from)?;
        line.field("moves", &self.moves)?;
        line.field("ship", &self.ship)?;
        put_field(line, "written", &self.written)?;
        line.close()
    }
}

impl ToLine for Move {
    ghost use Rattle.run_journal.specs.Steps.{move_json};

    ghost json = { move_json };

    #[tactic(auto, unfolding(crate::specs::Steps::move_json))]
    fn put(&self, line: &mut Line) -> Result<(), NoMemory> {
        match self {
            Move::Leaves {
                fileset,
                to,
                ship,
                mover,
            } => put_leaves(line, *fileset, *to, *ship, mover),
            Move::Arrives(head) => put_tagged(line, "arrives", head),
            Move::Part { fileset, last } => put_part(line, *fileset, *last),
            Move::Back(written) => put_tagged(line, "back", written),
            Move::Left { fileset, to } => put_left(line, *fileset, *to),
        }
    }
}

// Adds that a fileset begins to leave.
#[tactic(auto, unfolding(message_json::specs::Values::tagged))]
fn put_leaves(
    line: &mut Line,
    fileset: FilesetId,
    to: ServerId,
    ship: u64,
    mover: &Mover,
) -> Result<(), NoMemory>
    ensures { OnOk result (line.new ≡ line.old ++ json_tokens (leaves_json fileset to ship mover.now)) }
{
    line.begin("leaves")?;
    line.field("fileset", &fileset)?;
    line.field("to", &to)?;
    line.field("ship", &ship)?;
    line.field("mover", mover)?;
    line.end()
}

// Adds that a part of a fileset is taken.
#[tactic(auto, unfolding(message_json::specs::Values::tagged))]
fn put_part(line: &mut Line, fileset: FilesetId, last: bool) -> Result<(), NoMemory>
    ensures { OnOk result (line.new ≡ line.old ++ json_tokens (part_json fileset last)) }
{
    line.begin("part")?;
    line.field("fileset", &fileset)?;
    line.field("last", &last)?;
    line.end()
}

// Adds that a fileset has left.
#[tactic(auto, unfolding(message_json::specs::Values::tagged))]
fn put_left(line: &mut Line, fileset: FilesetId, to: ServerId) -> Result<(), NoMemory>
    ensures { OnOk result (line.new ≡ line.old ++ json_tokens (left_json fileset to)) }
{
    line.begin("left")?;
    line.field("fileset", &fileset)?;
    line.field("to", &to)?;
    line.end()
}

impl ToLine for Applied {
    ghost use Rattle.run_journal.specs.Steps.{applied_json};

    ghost json = { applied_json };

    #[tactic(auto, unfolding(crate::specs::Steps::applied_json))]
    fn put(&self, line: &mut Line) -> Result<(), NoMemory> {
        match self {
            Applied::Stored {
                host,
                fid,
                spans,
                length,
            } => put_stored(line, *host, fid, spans, length),
            Applied::Replied(answer) => put_tagged(line, "replied", answer),
            Applied::IsDown(host) => line.tagged("is_down", host),
            Applied::Wants(wanted) => put_tagged(line, "wants", wanted),
            Applied::Done(written) => put_tagged(line, "done", written),
            Applied::Moves(of) => put_tagged(line, "moves", of),
        }
    }
}

// Adds what became kept of a host's give-back.
#[tactic(auto, unfolding(message_json::specs::Values::tagged))]
fn put_stored(
    line: &mut Line,
    host: HostId,
    fid: &Fid,
    spans: &Items<Span>,
    length: &Option<u32>,
) -> Result<(), NoMemory>
    ensures { OnOk result
        (line.new ≡ line.old ++ json_tokens (stored_json host fid.now spans.now length.now)) }
{
    line.begin("stored")?;
    line.field("host", &host)?;
    line.field("fid", fid)?;
    line.field("spans", spans)?;
    line.field("length", length)?;
    line.end()
}

impl ToLine for Admission {
    ghost use Rattle.run_journal.specs.Steps.{admission_json};

    ghost json = { admission_json };

    #[tactic(auto, unfolding(crate::specs::Steps::admission_json))]
    fn put(&self, line: &mut Line) -> Result<(), NoMemory> {
        line.open()?;
        line.field("host", &self.host)?;
        line.field("tokens", &self.tokens)?;
        line.close()
    }
}

impl ToLine for Step {
    ghost use Rattle.run_journal.specs.Steps.{step_json};

    ghost json = { step_json };

    #[tactic(auto, unfolding(crate::specs::Steps::step_json))]
    fn put(&self, line: &mut Line) -> Result<(), NoMemory> {
        line.open()?;
        put_field(line, "node", &self.node)?;
        put_field(line, "cause", &self.cause)?;
        put_field(line, "asked", &self.asked)?;
        put_held(line, self)
    }
}

// Adds what a host was given and what it answered, and then the rest of a step.
#[tactic(auto, unfolding(crate::specs::Steps::held_members))]
fn put_held(line: &mut Line, step: &Step) -> Result<(), NoMemory>
    ensures { OnOk result (line.new ≡ line.old ++ members_tokens (held_members step.now)) }
{
    line.field("taken", &step.taken)?;
    put_field(line, "answers", &step.answers)?;
    line.field("wrote", &step.wrote)?;
    put_given(line, step)
}

// Adds what a host began to use, gave back and let go of, and then the rest of a step.
#[tactic(auto, unfolding(crate::specs::Steps::given_members))]
fn put_given(line: &mut Line, step: &Step) -> Result<(), NoMemory>
    ensures { OnOk result (line.new ≡ line.old ++ members_tokens (given_members step.now)) }
{
    put_field(line, "begun", &step.begun)?;
    line.field("made", &step.made)?;
    put_field(line, "dropped", &step.dropped)?;
    put_done(line, step)
}

// Adds what a server did, and what was sent, and closes the step.
#[tactic(auto, unfolding(crate::specs::Steps::done_members))]
fn put_done(line: &mut Line, step: &Step) -> Result<(), NoMemory>
    ensures { OnOk result (line.new ≡ line.old ++ members_tokens (done_members step.now)) }
{
    put_field(line, "applied", &step.applied)?;
    put_field(line, "admitted", &step.admitted)?;
    line.field("sent", &step.sent)?;
    line.field("shipped", &step.shipped)?;
    line.field("reserved", &step.reserved)?;
    line.close()
}
