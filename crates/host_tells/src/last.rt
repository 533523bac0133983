//! The file that was read last, by its place, in room that is there.
ghost use Rattle.std.specs.Prelude.{◌≡◌, ◌++◌, ◌∷◌, length, true, IfOk, IfSome, None, OnOk, Some};
ghost use Rattle.host_tells.specs.Knows.{IsWithin, name_bytes, path_bytes, place_bytes};
ghost use Rattle.host_tells.specs.declared.last.Known.{Known as KnownOf};

use base_types::{Fid, Name, NoMemory, Span};
use host_walk::{blocks_around, bytes_to_read};
use std::alloc::Global;
use tree_calls::Place;

// Places of so many bytes are kept, at most: their server, and each name behind its length.
const PLACE_BYTES_MAX: usize = 1024;

/// A file that a Read found, and what was seen of it.
#[derive(Clone, Copy)]
pub struct Known {
    /// The root from which its path goes.
    pub root: Fid,
    /// The file.
    pub fid: Fid,
    /// Its length, in bytes.
    pub length: u32,
    /// The blocks of it that were read.
    pub blocks: Span,
}

/// What is known of the file that was read last, with its place. It takes memory where it is made alone: a place that
/// is longer than its room isn't kept.
pub struct Last {
    place: Vec<u8>,
    known: Option<Known>,
}

impl Drop for Last {
    fn drop(self) {
        let Last { place: _, known: _ } = self;
    }
}

impl Last {
    /// Nothing is known. The only error is that memory ran out.
    pub fn new(alloc: Global) -> Result<Last, NoMemory>
        ensures { IfOk result (λ last. last.known ≡ None) }
    {
        let place = Vec::with_capacity(alloc, PLACE_BYTES_MAX)?;
        Ok(Last { place, known: None })
    }

    /// Forgets the file. It takes no memory, as all below.
    pub fn forget(&mut self)
        ensures { self.new ≡ record self.old { known = None } }
    {
        self.known = None;
    }

    /// What is known of the file at a place, and the bytes of it that are read; None where another was read last, or
    /// none, or other blocks, or there are no bytes to read.
    pub(crate) fn again(&self, place: &Place, from: u32, len: u32) -> Option<(Known, Span)>
        ensures known { IfSome result (λ it. self.now.known ≡ Some it.0) }
        ensures place { IfSome result (λ it. place_bytes place.now ≡ self.now.place.items) }
        ensures span { IfSome result (λ it. IsWithin it.0 from len it.1) }
    {
        let known = self.known?;
        let span = within(known, from, len)?;
        if is_place(self.place.as_slice(), place) {
            return Some((known, span));
        }
        None
    }

    /// Keeps what is known of the file at a place, where there is room for that.
    pub(crate) fn keep(&mut self, place: &Place, known: Known)
        ensures { (it : KnownOf) → self.new.known ≡ Some it →
            (it ≡ known) × (self.new.place.items ≡ place_bytes place.now) }
    {
        self.known = None;
        if put_place(&mut self.place, place).is_ok() {
            self.known = Some(known);
        }
    }
}

/// The bytes that a Read reads of a file; None where there are none, or they lie in other blocks.
pub(crate) fn within(known: Known, from: u32, len: u32) -> Option<Span>
    ensures { IfSome result (IsWithin known from len) }
{
    let span = bytes_to_read(from, len, known.length);
    if span.is_empty() || blocks_around(span.from, span.to) != known.blocks {
        return None;
    }
    Some(span)
}

// Puts down a place. An error says that there isn't room.
fn put_place(out: &mut Vec<u8>, place: &Place) -> Result<(), NoMemory>
    ensures { OnOk result (out.new.items ≡ place_bytes place.now) }
{
    out.clear();
    put(out, &[place.server.0])?;
    put_name(out, &place.fileset)?;
    put_path(out, place.path.as_slice())
}

fn put_path(out: &mut Vec<u8>, path: &[Name]) -> Result<(), NoMemory>
    ensures { OnOk result (out.new.items ≡ out.old.items ++ path_bytes path.now) }
{
    let Some((name, names)) = path.split_first() else {
        return Ok(());
    };
    put_name(out, name)?;
    put_path(out, names)
}

fn put_name(out: &mut Vec<u8>, name: &Name) -> Result<(), NoMemory>
    ensures { OnOk result (out.new.items ≡ out.old.items ++ length name.now ∷ name.now) }
{
    let bytes = name.as_bytes();
    if bytes.len() > 255 {
        return Err(NoMemory);
    }
    put(out, &[bytes.len() as u8])?;
    put(out, bytes)
}

fn put(out: &mut Vec<u8>, bytes: &[u8]) -> Result<(), NoMemory>
    ensures { OnOk result (out.new.items ≡ out.old.items ++ bytes.now) }
{
    if out.capacity() - out.len() < bytes.len() {
        return Err(NoMemory);
    }
    out.extend_from_slice(bytes)?;
    Ok(())
}

// Whether these bytes are those of a place.
fn is_place(bytes: &[u8], place: &Place) -> bool
    ensures { result ≡ true → place_bytes place.now ≡ bytes.now }
{
    let Some((server, rest)) = bytes.split_first() else {
        return false;
    };
    if *server != place.server.0 {
        return false;
    }
    match behind(rest, &place.fileset) {
        Some(rest) => is_path(rest, place.path.as_slice()),
        None => false,
    }
}

fn is_path(bytes: &[u8], path: &[Name]) -> bool
    ensures { result ≡ true → path_bytes path.now ≡ bytes.now }
{
    let Some((name, names)) = path.split_first() else {
        return bytes.is_empty();
    };
    match behind(bytes, name) {
        Some(rest) => is_path(rest, names),
        None => false,
    }
}

// What is behind a name; None where the bytes don't begin with it.
fn behind<'a>(bytes: &'a [u8], name: &Name) -> Option<&'a [u8]>
    ensures { IfSome result (λ rest. name_bytes name.now rest.now ≡ bytes.now) }
{
    let (count, rest) = bytes.split_first()?;
    let name = name.as_bytes();
    if *count as usize != name.len() || rest.len() < name.len() {
        return None;
    }
    let (front, rest) = rest.split_at(name.len());
    if front == name {
        return Some(rest);
    }
    None
}
