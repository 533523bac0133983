ghost use Rattle.std.specs.Prelude.{◌≡◌, ◌++◌, OnOk};
ghost use Rattle.message_parts.specs.Reading.{Gives};
ghost use Rattle.message_parts.specs.Tokens.{
  span_between,
  open_code,
  open_of,
  kind_tag,
  kind_fields,
  kind_of,
  kind_bytes_at,
  kind_status_at,
  kind_lock_at,
  kind_opening_at,
};

use crate::number::{number_at, push_number};
use crate::part::{Part, Stopped};
use base_types::{
    FILE_BYTES_MAX, Fid, FilesetId, HostId, Items, NoMemory, OpenKind, ServerId, Span,
};
use std::alloc::Global;
use token_types::{Kind, Need, Token, TokenId};

impl Part for Fid {
    const BYTES_MIN: usize = 12;

    ghost use Rattle.message_parts.specs.Tokens.{spell_fid, fid_at};

    ghost spelled = { spell_fid };

    ghost reading = { fid_at };

    #[tactic(auto, unfolding(crate::specs::Tokens::spell_fid))]
    fn write(&self, out: &mut Items<u8>) -> Result<(), NoMemory> {
        self.fileset.write(out)?;
        self.anode.write(out)?;
        self.unique.write(out)
    }

    #[tactic(auto, unfolding(crate::specs::Tokens::fid_at))]
    fn read(alloc: Global, bytes: &[u8]) -> Result<(Fid, &[u8]), Stopped> {
        let (fileset, rest) = FilesetId::read(alloc, bytes)?;
        let (anode, rest) = u32::read(alloc, rest)?;
        let (unique, rest) = u32::read(alloc, rest)?;
        Ok((
            Fid {
                fileset,
                anode,
                unique,
            },
            rest,
        ))
    }
}

impl Part for TokenId {
    const BYTES_MIN: usize = 17;

    ghost use Rattle.message_parts.specs.Tokens.{spell_id, id_at};

    ghost spelled = { spell_id };

    ghost reading = { id_at };

    #[tactic(auto, unfolding(crate::specs::Tokens::spell_id))]
    fn write(&self, out: &mut Items<u8>) -> Result<(), NoMemory> {
        self.server.write(out)?;
        self.epoch.write(out)?;
        self.seq.write(out)
    }

    #[tactic(auto, unfolding(crate::specs::Tokens::id_at))]
    fn read(alloc: Global, bytes: &[u8]) -> Result<(TokenId, &[u8]), Stopped> {
        let (server, rest) = ServerId::read(alloc, bytes)?;
        let (epoch, rest) = u64::read(alloc, rest)?;
        let (seq, rest) = u64::read(alloc, rest)?;
        Ok((TokenId { server, epoch, seq }, rest))
    }
}

impl Part for Span {
    const BYTES_MIN: usize = 8;

    ghost use Rattle.message_parts.specs.Tokens.{spell_span, span_at};

    ghost spelled = { spell_span };

    ghost reading = { span_at };

    #[tactic(auto, unfolding(crate::specs::Tokens::spell_span, crate::specs::Spelled::number))]
    fn write(&self, out: &mut Items<u8>) -> Result<(), NoMemory> {
        push_number(out, 4, self.from as u64)?;
        push_number(out, 4, self.to as u64)
    }

    #[tactic(auto, unfolding(crate::specs::Tokens::span_at))]
    fn read(_alloc: Global, bytes: &[u8]) -> Result<(Span, &[u8]), Stopped> {
        let (from, rest) = number_at(bytes, 4, 0, FILE_BYTES_MAX as u64)?;
        let (to, rest) = number_at(rest, 4, from, FILE_BYTES_MAX as u64)?;
        Ok((span_between(from, to), rest))
    }
}

/// The bytes from `from` on and before `to`, none of them behind the last byte that a file can have.
fn span_between(from: u64, to: u64) -> Span
    ensures { result ≡ span_between from to }
{
    let to = to.min(FILE_BYTES_MAX as u64);
    Span {
        from: from.min(to) as u32,
        to: to as u32,
    }
}

fn open_code(how: OpenKind) -> u64
    ensures { result ≡ open_code how }
{
    match how {
        OpenKind::Reading => 0,
        OpenKind::Writing => 1,
        OpenKind::Executing => 2,
        OpenKind::Shared => 3,
        OpenKind::Exclusive => 4,
    }
}

fn open_of(code: u64) -> OpenKind
    ensures { result ≡ open_of code }
{
    match code {
        0 => OpenKind::Reading,
        1 => OpenKind::Writing,
        2 => OpenKind::Executing,
        3 => OpenKind::Shared,
        _ => OpenKind::Exclusive,
    }
}

impl Part for OpenKind {
    const BYTES_MIN: usize = 1;

    ghost use Rattle.message_parts.specs.Tokens.{spell_open, open_at};

    ghost spelled = { spell_open };

    ghost reading = { open_at };

    #[tactic(auto, unfolding(crate::specs::Words::coded, crate::specs::Spelled::number))]
    fn write(&self, out: &mut Items<u8>) -> Result<(), NoMemory> {
        push_number(out, 1, open_code(*self))
    }

    #[tactic(auto, unfolding(crate::specs::Words::coded_at))]
    fn read(_alloc: Global, bytes: &[u8]) -> Result<(OpenKind, &[u8]), Stopped> {
        let (code, rest) = number_at(bytes, 1, 0, 4)?;
        Ok((open_of(code), rest))
    }
}

/// The number of its type.
fn kind_tag(kind: &Kind) -> u64
    ensures { result ≡ kind_tag kind.now }
{
    match kind {
        Kind::Bytes { .. } => 1,
        Kind::Status { .. } => 2,
        Kind::Lock { .. } => 3,
        Kind::Opening(_) => 4,
    }
}

/// Writes its fields at the end.
#[tactic(auto, unfolding(crate::specs::Tokens::kind_fields))]
fn write_kind_fields(kind: &Kind, out: &mut Items<u8>) -> Result<(), NoMemory>
    ensures { OnOk result (out.new ≡ out.old ++ (kind_fields kind.now).bytes) }
{
    match kind {
        Kind::Bytes { update, span } => {
            update.write(out)?;
            span.write(out)
        }
        Kind::Status { update } => update.write(out),
        Kind::Lock { writing, span } => {
            writing.write(out)?;
            span.write(out)
        }
        Kind::Opening(how) => how.write(out),
    }
}

#[tactic(auto, unfolding(crate::specs::Tokens::kind_bytes_at))]
fn kind_bytes_at(alloc: Global, bytes: &[u8]) -> Result<(Kind, &[u8]), Stopped>
    ensures { Gives (λ x. (x.0, x.1.now)) result (kind_bytes_at bytes.now) }
{
    let (update, rest) = bool::read(alloc, bytes)?;
    let (span, rest) = Span::read(alloc, rest)?;
    Ok((Kind::Bytes { update, span }, rest))
}

#[tactic(auto, unfolding(crate::specs::Tokens::kind_status_at))]
fn kind_status_at(alloc: Global, bytes: &[u8]) -> Result<(Kind, &[u8]), Stopped>
    ensures { Gives (λ x. (x.0, x.1.now)) result (kind_status_at bytes.now) }
{
    let (update, rest) = bool::read(alloc, bytes)?;
    Ok((Kind::Status { update }, rest))
}

#[tactic(auto, unfolding(crate::specs::Tokens::kind_lock_at))]
fn kind_lock_at(alloc: Global, bytes: &[u8]) -> Result<(Kind, &[u8]), Stopped>
    ensures { Gives (λ x. (x.0, x.1.now)) result (kind_lock_at bytes.now) }
{
    let (writing, rest) = bool::read(alloc, bytes)?;
    let (span, rest) = Span::read(alloc, rest)?;
    Ok((Kind::Lock { writing, span }, rest))
}

#[tactic(auto, unfolding(crate::specs::Tokens::kind_opening_at))]
fn kind_opening_at(alloc: Global, bytes: &[u8]) -> Result<(Kind, &[u8]), Stopped>
    ensures { Gives (λ x. (x.0, x.1.now)) result (kind_opening_at bytes.now) }
{
    let (how, rest) = OpenKind::read(alloc, bytes)?;
    Ok((Kind::Opening(how), rest))
}

/// Reads the fields of the kind with this number.
#[tactic(auto, unfolding(crate::specs::Tokens::kind_of))]
fn kind_of(alloc: Global, tag: u64, bytes: &[u8]) -> Result<(Kind, &[u8]), Stopped>
    ensures { Gives (λ x. (x.0, x.1.now)) result (kind_of tag bytes.now) }
{
    match tag {
        1 => kind_bytes_at(alloc, bytes),
        2 => kind_status_at(alloc, bytes),
        3 => kind_lock_at(alloc, bytes),
        _ => kind_opening_at(alloc, bytes),
    }
}

impl Part for Kind {
    const BYTES_MIN: usize = 2;

    ghost use Rattle.message_parts.specs.Tokens.{spell_kind, kind_at};

    ghost spelled = { spell_kind };

    ghost reading = { kind_at };

    #[tactic(auto, unfolding(crate::specs::Tokens::spell_kind, crate::specs::Spelled::number))]
    fn write(&self, out: &mut Items<u8>) -> Result<(), NoMemory> {
        push_number(out, 1, kind_tag(self))?;
        write_kind_fields(self, out)
    }

    #[tactic(auto, unfolding(crate::specs::Tokens::kind_at))]
    fn read(alloc: Global, bytes: &[u8]) -> Result<(Kind, &[u8]), Stopped> {
        let (tag, rest) = number_at(bytes, 1, 1, 4)?;
        kind_of(alloc, tag, rest)
    }
}

impl Part for Need {
    const BYTES_MIN: usize = 14;

    ghost use Rattle.message_parts.specs.Tokens.{spell_need, need_at};

    ghost spelled = { spell_need };

    ghost reading = { need_at };

    #[tactic(auto, unfolding(crate::specs::Tokens::spell_need))]
    fn write(&self, out: &mut Items<u8>) -> Result<(), NoMemory> {
        self.fid.write(out)?;
        self.kind.write(out)
    }

    #[tactic(auto, unfolding(crate::specs::Tokens::need_at))]
    fn read(alloc: Global, bytes: &[u8]) -> Result<(Need, &[u8]), Stopped> {
        let (fid, rest) = Fid::read(alloc, bytes)?;
        let (kind, rest) = Kind::read(alloc, rest)?;
        Ok((Need { fid, kind }, rest))
    }
}

impl Part for Token {
    const BYTES_MIN: usize = 32;

    ghost use Rattle.message_parts.specs.Tokens.{spell_token, token_at};

    ghost spelled = { spell_token };

    ghost reading = { token_at };

    #[tactic(auto, unfolding(crate::specs::Tokens::spell_token))]
    fn write(&self, out: &mut Items<u8>) -> Result<(), NoMemory> {
        self.id.write(out)?;
        self.host.write(out)?;
        self.fid.write(out)?;
        self.kind.write(out)
    }

    #[tactic(auto, unfolding(crate::specs::Tokens::token_at))]
    fn read(alloc: Global, bytes: &[u8]) -> Result<(Token, &[u8]), Stopped> {
        let (id, rest) = TokenId::read(alloc, bytes)?;
        let (host, rest) = HostId::read(alloc, rest)?;
        let (fid, rest) = Fid::read(alloc, rest)?;
        let (kind, rest) = Kind::read(alloc, rest)?;
        Ok((
            Token {
                id,
                host,
                fid,
                kind,
            },
            rest,
        ))
    }
}
