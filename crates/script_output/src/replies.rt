//! How replies are written.
ghost use Rattle.std.specs.Prelude.{◌≡◌, ◌++◌, OnOk};
ghost use Rattle.script_output.specs.Replies.{refusal_text, kind_text, facts_text, names_text, reply_text};

use crate::access::{push_letters, push_list, push_rights};
use crate::texts::{push_number, push_quoted, push_word};
use base_types::{Items, Name, NoMemory};
use tree_calls::{Facts, Refusal, Reply};

/// Adds a reply.
#[tactic(auto, unfolding(crate::specs::Replies::reply_text))]
pub(crate) fn push_reply(out: &mut Items<u8>, reply: &Reply) -> Result<(), NoMemory>
    ensures { OnOk result (out.new ≡ out.old ++ reply_text reply.now) }
{
    match reply {
        Reply::Ok => out.extend(b"ok"),
        Reply::Bytes(bytes) => {
            out.extend(b"ok ")?;
            push_quoted(out, bytes.as_slice())
        }
        Reply::Names(names) => {
            out.extend(b"ok")?;
            push_names(out, names)
        }
        Reply::Facts(facts) => {
            out.extend(b"ok ")?;
            push_facts(out, facts)
        }
        Reply::Access(list) => {
            out.extend(b"ok ")?;
            push_list(out, list)
        }
        Reply::Refused(refusal) => push_refusal(out, *refusal),
    }
}

fn push_names(out: &mut Items<u8>, names: &Items<Name>) -> Result<(), NoMemory>
    ensures { OnOk result (out.new ≡ out.old ++ names_text names.now) }
{
    for name in names.as_slice() {
        out.push(b' ')?;
        push_quoted(out, name.as_bytes())?;
    }
    Ok(())
}

#[tactic(auto, unfolding(crate::specs::Replies::facts_text))]
fn push_facts(out: &mut Items<u8>, facts: &Facts) -> Result<(), NoMemory>
    ensures { OnOk result (out.new ≡ out.old ++ facts_text facts.now) }
{
    out.extend(kind_text(facts.dir))?;
    push_number(out, facts.length as u64)?;
    out.push(b' ')?;
    push_word(out, facts.owner.as_bytes())?;
    out.push(b' ')?;
    push_letters(out, b"-", facts.rights)
}

fn kind_text(dir: bool) -> &'static [u8]
    ensures { result.now ≡ kind_text dir }
{
    if dir { b"dir " } else { b"file " }
}

#[tactic(auto, unfolding(crate::specs::Replies::refusal_text))]
fn push_refusal(out: &mut Items<u8>, refusal: Refusal) -> Result<(), NoMemory>
    ensures { OnOk result (out.new ≡ out.old ++ refusal_text refusal) }
{
    match refusal {
        Refusal::NoEntry => out.extend(b"no-entry"),
        Refusal::NotDir => out.extend(b"not-dir"),
        Refusal::IsDir => out.extend(b"is-dir"),
        Refusal::Exists => out.extend(b"exists"),
        Refusal::NotEmpty => out.extend(b"not-empty"),
        Refusal::Denied(rights) => {
            out.extend(b"denied ")?;
            push_rights(out, rights)
        }
        Refusal::TooBig => out.extend(b"too-big"),
        Refusal::TooMany => out.extend(b"too-many"),
        Refusal::NoRoom => out.extend(b"no-room"),
        Refusal::ReadOnly => out.extend(b"read-only"),
        Refusal::Locked => out.extend(b"locked"),
        Refusal::OpenConflict => out.extend(b"open-conflict"),
        Refusal::InUse => out.extend(b"in-use"),
        Refusal::Loop => out.extend(b"loop"),
        Refusal::NoFileset => out.extend(b"no-fileset"),
        Refusal::CrossFileset => out.extend(b"cross-fileset"),
        Refusal::NotLocked => out.extend(b"not-locked"),
        Refusal::NotOpened => out.extend(b"not-opened"),
        Refusal::AlreadyLocked => out.extend(b"already-locked"),
        Refusal::AlreadyOpened => out.extend(b"already-opened"),
        Refusal::NotHome => out.extend(b"not-home"),
    }
}
