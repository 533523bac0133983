//! Bytes of a file from its first on, which are read and written in place.
ghost use Rattle.std.specs.Prelude.{◌≡◌, ◌+◌, ◌-◌, ◌<◌, ◌≤◌, ◌++◌, [], length, take, drop, replicate, vec_capacity, vec_len};
ghost use Rattle.std.specs.Prelude.{OnOk, OnErr};
ghost use Rattle.host_cache.specs.Bytes.{IsPut, IsCleared, IsLaid, IsLaidOver};

use base_types::{NoMemory, Span};
use std::alloc::Global;
use std::marker::Model;
use tree_calls::Piece;

/// Bytes of a file from its first on, up to the last that there is room for; those that were never written are zero, and
/// aren't there as long as none behind them was written. Contracts see all of them.
#[derive(Drop)]
pub(crate) struct Bytes {
    there: Vec<u8>,
    room: usize,
}

impl Model for Bytes {
    ghost use Rattle.std.specs.Prelude.{List, ℕ, ◌≤◌, length, vec_capacity};
    ghost use Rattle.host_cache.specs.Bytes.{padded};

    ghost Value = { List ℕ };

    ghost view = { λ b. padded b.room b.there.items };

    ghost invariant = { λ b. (length b.there.items ≤ b.room) × (b.room ≤ vec_capacity b.there) };
}

impl Bytes {
    /// There is no room. It takes no memory.
    pub(crate) fn new(alloc: Global) -> Bytes
        ensures { result ≡ [] }
    {
        Bytes {
            there: Vec::new(alloc),
            room: 0,
        }
    }

    /// How many there is room for.
    pub(crate) fn len(&self) -> usize
        ensures { result ≡ length self.now }
    {
        self.room
    }

    /// Makes room for so many; what is new is zero. On an error nothing changes.
    pub(crate) fn grow(&mut self, to: usize) -> Result<(), NoMemory>
        requires { length self.old ≤ to }
        ensures ok { OnOk result (self.new ≡ self.old ++ replicate (to - length self.old) 0) }
        ensures err { OnErr result (self.new ≡ self.old) }
    {
        self.there.reserve(to - self.there.len())?;
        self.room = to;
        Ok(())
    }
}

// Puts zeros behind the bytes that are there, so that there are so many at least. There is room for them.
fn fill_to(there: &mut Vec<u8>, to: usize)
    requires { to ≤ vec_capacity there.old }
    ensures items { there.new.items ≡ there.old.items ++ replicate (to - length there.old.items) 0 }
    ensures long { to ≤ vec_len there.new }
    ensures room { vec_capacity there.old ≤ vec_capacity there.new }
{
    if there.len() < to {
        let Ok(()) = there.resize(to, 0) else {
            unreachable!();
        };
    }
}

/// Reads the bytes from `at` on.
pub(crate) fn read(bytes: &Bytes, at: usize, out: &mut [u8])
    requires { at + length out.old ≤ length bytes.now }
    ensures { out.new ≡ take (length out.old) (drop at bytes.now) }
{
    let there = bytes.there.as_slice();
    let from = at.min(there.len());
    let to = (at + out.len()).min(there.len());
    let count = to - from;
    let (front, back) = out.split_at_mut(count);
    front.copy_from_slice(&there[from..to]);
    back.fill(0);
}

/// Writes a piece from `at` on.
pub(crate) fn put(bytes: &mut Bytes, at: usize, piece: &[u8])
    requires { at + length piece.now ≤ length bytes.old }
    ensures { IsPut at piece.now bytes.old bytes.new }
{
    let _room = bytes.len();
    let to = at + piece.len();
    fill_to(&mut bytes.there, to);
    bytes.there.as_mut_slice()[at..to].copy_from_slice(piece);
}

/// Makes all bytes of a span zero.
fn clear(bytes: &mut Bytes, span: Span)
    requires { span.to ≤ length bytes.old }
    ensures { IsCleared span bytes.old bytes.new }
{
    let count = bytes.there.len();
    let to = count.min(span.to as usize);
    let from = to.min(span.from as usize);
    bytes.there.as_mut_slice()[from..to].fill(0);
}

// Writes those bytes of a piece that lie in a span.
fn put_within(bytes: &mut Bytes, span: Span, piece: &Piece)
    requires { span.to ≤ length bytes.old }
    ensures { IsLaidOver span piece.now bytes.old bytes.new }
{
    let from = piece.from as usize;
    let piece = piece.bytes.as_slice();
    let low = from.max(span.from as usize);
    let high = (from + piece.len()).min(span.to as usize);
    if low < high {
        put(bytes, low, &piece[low - from..high - from]);
    }
}

/// Makes the bytes of a span those that pieces tell, and zero where none tells one. Of two pieces that tell a byte the
/// first counts.
pub(crate) fn lay(bytes: &mut Bytes, span: Span, pieces: &[Piece])
    requires { span.to ≤ length bytes.old }
    ensures { IsLaid span pieces.now bytes.old bytes.new }
{
    clear(bytes, span);
    for index in (0..pieces.len()).rev() {
        put_within(bytes, span, &pieces[index]);
    }
}
