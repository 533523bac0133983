//! What is needed to see a part of a file, or to change it.
ghost use Rattle.std.specs.Prelude.{◌≡◌, ◌+◌, min};
ghost use Rattle.token_types.specs.declared.token.Kind.TheVariants.{Bytes};
ghost use Rattle.tree_objects.specs.Spans.{span_between};
ghost use Rattle.need_host.specs.Looks.{rounded};
ghost use Rattle.host_walk.specs.Bytes.{read_count, written_blocks};
ghost use Rattle.host_walk.specs.Trying.{status_need, whole_need, length_need};

use base_types::{FILE_BYTES_MAX, Fid, Span, TOKEN_BYTES};
use token_types::{Kind, Need};
use tree_objects::span_between;

/// To see the status of an object.
pub fn status_need(fid: Fid) -> Need
    ensures { result ≡ status_need fid }
{
    Need {
        fid,
        kind: Kind::Status { update: false },
    }
}

/// To see the entries of a directory.
pub fn whole_need(fid: Fid) -> Need
    ensures { result ≡ whole_need fid }
{
    bytes_need(fid, false, positions(0, FILE_BYTES_MAX))
}

/// The positions from one on and before another, as far as a file can have them.
pub fn positions(from: u32, to: u32) -> Span
    ensures { result ≡ span_between from to }
{
    span_between(u64::from(from), u64::from(to))
}

/// The blocks of tokens from a position on and before another.
pub fn blocks_around(from: u32, to: u32) -> Span
    ensures { result ≡ rounded from to }
{
    let block = u64::from(TOKEN_BYTES);
    let low = u64::from(from) / block;
    let high = (u64::from(to) + (block - 1)) / block;
    span_between(low * block, high * block)
}

/// The positions that a read of so many bytes reads, of a file of this length.
pub fn bytes_to_read(from: u32, len: u32, length: u32) -> Span
    ensures { result ≡ span_between from (from + read_count from len length) }
{
    let count = len.min(length.saturating_sub(from));
    positions(from, from.saturating_add(count))
}

/// The blocks that a write from `from` on and before `to` changes, of a file of this length: from the length on, where
/// it lies behind.
pub fn bytes_to_write(from: u32, to: u32, length: u32) -> Span
    ensures { result ≡ written_blocks from to length }
{
    if length < to {
        return blocks_around(from.min(length), to);
    }
    blocks_around(from, to)
}

/// To see bytes of a file, or to change them.
pub fn bytes_need(fid: Fid, update: bool, span: Span) -> Need
    ensures { result ≡ record { fid = fid; kind = Bytes update span } }
{
    Need {
        fid,
        kind: Kind::Bytes { update, span },
    }
}

/// To change the length of a file.
pub fn length_need(fid: Fid) -> Need
    ensures { result ≡ length_need fid }
{
    Need {
        fid,
        kind: Kind::Status { update: true },
    }
}

/// The position behind so many bytes from a position on; the last number where it lies behind that.
pub fn end_of(from: u32, count: usize) -> u32
    ensures { result ≡ min (from + count) 4294967295 }
{
    from.saturating_add(u32::try_from(count).unwrap_or(u32::MAX))
}
