//! How filesets are written, object by object.
ghost use Rattle.std.specs.Prelude.{◌≡◌, ◌<◌, ◌≤◌, ◌++◌, ◌∷◌, [], flat_map, get_or, length, OnOk, IfOk};
ghost use Rattle.std.specs.Option.{option_map_or};
ghost use Rattle.script_output.specs.Dump.{
  before_zero,
  run_line,
  runs_of,
  list_line,
  nth_list_line,
  head_line,
  dir_lists,
  object_lines,
  lines_below,
  mode_text,
  fileset_head,
  fileset_lines,
};
ghost use Rattle.script_output.specs.Kept.{content_lines};

use crate::access::push_list;
use crate::texts::{push_number, push_quoted, push_word};
use base_types::{AccessList, Items, Name, NoMemory};
use memchr::memchr;
use tree_filesets::{Fileset, object_at};
use tree_objects::{Anode, Content, Object};

/// Adds the lines of a fileset: of the fileset itself, of its root, and of each directory's entries behind it.
#[tactic(auto, unfolding(crate::specs::Dump::fileset_lines))]
pub(crate) fn push_fileset(out: &mut Items<u8>, fileset: &Fileset) -> Result<(), NoMemory>
    ensures { OnOk result (out.new ≡ out.old ++ fileset_lines fileset.now) }
{
    push_fileset_head(out, fileset)?;
    if let Some(root) = object_at(&fileset.anodes, 1) {
        let path = below(&Items::new(out.alloc()), &fileset.name)?;
        push_below(out, fileset.anodes.len(), &fileset.anodes, &path, root)?;
    }
    Ok(())
}

#[tactic(auto, unfolding(crate::specs::Dump::fileset_head))]
fn push_fileset_head(out: &mut Items<u8>, fileset: &Fileset) -> Result<(), NoMemory>
    ensures { OnOk result (out.new ≡ out.old ++ fileset_head fileset.now) }
{
    out.extend(b"fileset s")?;
    push_number(out, fileset.server.0 as u64)?;
    out.push(b' ')?;
    push_word(out, fileset.name.as_bytes())?;
    out.extend(mode_text(fileset.read_only))?;
    push_number(out, fileset.objects as u64)?;
    out.push(b'\n')
}

fn mode_text(read_only: bool) -> &'static [u8]
    ensures { result.now ≡ mode_text read_only }
{
    if read_only { b" ro " } else { b" rw " }
}

// The path of a name in a directory.
fn below(path: &Items<u8>, name: &Name) -> Result<Items<u8>, NoMemory>
    ensures { IfOk result (λ longer. longer ≡ path.now ++ 47 ∷ name.now) }
{
    let mut path = Items::from_slice(path.alloc(), path.as_slice())?;
    path.push(b'/')?;
    path.extend(name.as_bytes())?;
    Ok(path)
}

// Adds the lines of an object and of those below it, down to so many levels.
#[tactic(auto, using(crate::proofs::Levels::lines_more))]
fn push_below(
    out: &mut Items<u8>,
    levels: usize,
    anodes: &Items<Anode>,
    path: &Items<u8>,
    object: &Object,
) -> Result<(), NoMemory>
    ensures { OnOk result (out.new ≡ out.old ++ lines_below levels anodes.now path.now object.now) }
{
    if levels == 0 {
        return Ok(());
    }
    push_object(out, path.as_slice(), object)?;
    if let Content::Dir { entries, lists: _ } = &object.content {
        for entry in entries.as_slice() {
            if let Some(child) = object_at(anodes, entry.anode) {
                let path = below(path, &entry.name)?;
                push_below(out, levels - 1, anodes, &path, child)?;
            }
        }
    }
    Ok(())
}

// The bytes of a file are shown by a clone of it; a directory is shown as it is.
#[tactic(auto, using(crate::proofs::Kept::kept_lines, crate::proofs::Kept::dir_lines))]
fn push_object(out: &mut Items<u8>, path: &[u8], object: &Object) -> Result<(), NoMemory>
    ensures { OnOk result (out.new ≡ out.old ++ object_lines path.now object.now) }
{
    if object.is_dir() {
        return push_content(out, path, object, &object.content);
    }
    let shown = object.as_cloned()?;
    push_content(out, path, object, &shown.content)
}

// The lines of an object that contains this, a file its kept bytes alone.
fn push_content(
    out: &mut Items<u8>,
    path: &[u8],
    object: &Object,
    content: &Content,
) -> Result<(), NoMemory>
    ensures { OnOk result (out.new ≡ out.old ++ content_lines path.now object.now content.now) }
{
    match content {
        Content::Dir { entries, lists } => {
            push_head(out, b"dir ", path, entries.len(), object)?;
            push_dir_lists(out, lists)
        }
        Content::File {
            list,
            kept,
            unsaved: _,
            length: _,
        } => {
            push_head(out, b"file ", path, kept.len(), object)?;
            push_list_line(out, b" list ", list)?;
            push_runs(out, kept.as_slice())
        }
    }
}

// The first line of an object, which has so many bytes or entries.
#[tactic(auto, unfolding(crate::specs::Dump::head_line))]
fn push_head(
    out: &mut Items<u8>,
    kind: &[u8],
    path: &[u8],
    length: usize,
    object: &Object,
) -> Result<(), NoMemory>
    ensures { OnOk result (out.new ≡ out.old ++ head_line kind.now path.now length object.now) }
{
    out.extend(kind)?;
    push_word(out, path)?;
    out.push(b' ')?;
    push_number(out, length as u64)?;
    out.push(b' ')?;
    push_word(out, object.owner.as_bytes())?;
    out.push(b' ')?;
    push_word(out, object.group.as_bytes())?;
    out.push(b'\n')
}

#[tactic(auto, unfolding(crate::specs::Dump::dir_lists))]
fn push_dir_lists(out: &mut Items<u8>, lists: &Items<AccessList>) -> Result<(), NoMemory>
    ensures { OnOk result (out.new ≡ out.old ++ dir_lists lists.now) }
{
    push_nth_list(out, b" list ", lists, 0)?;
    push_nth_list(out, b" files ", lists, 1)?;
    push_nth_list(out, b" dirs ", lists, 2)
}

fn push_nth_list(
    out: &mut Items<u8>,
    name: &[u8],
    lists: &Items<AccessList>,
    n: usize,
) -> Result<(), NoMemory>
    ensures { OnOk result (out.new ≡ out.old ++ nth_list_line name.now lists.now n) }
{
    match lists.at(n) {
        Some(list) => push_list_line(out, name, list),
        None => Ok(()),
    }
}

#[tactic(auto, unfolding(crate::specs::Dump::list_line))]
fn push_list_line(out: &mut Items<u8>, name: &[u8], list: &AccessList) -> Result<(), NoMemory>
    ensures { OnOk result (out.new ≡ out.old ++ list_line name.now list.now) }
{
    out.extend(name)?;
    push_list(out, list)?;
    out.push(b'\n')
}

// Adds a line for each run of bytes that aren't zero.
#[tactic(auto, using(crate::proofs::Runs::zero_more, crate::proofs::Runs::run_more))]
fn push_runs(out: &mut Items<u8>, bytes: &[u8]) -> Result<(), NoMemory>
    ensures { OnOk result (out.new ≡ out.old ++ flat_map run_line (runs_of bytes.now)) }
{
    let mut at = 0;
    while at < bytes.len() {
        if bytes[at] == 0 {
            at += 1;
        } else {
            let run = before_zero(&bytes[at..]);
            push_run(out, at, run)?;
            at += run.len();
        }
    }
    Ok(())
}

#[tactic(auto, unfolding(crate::specs::Dump::run_line))]
fn push_run(out: &mut Items<u8>, from: usize, bytes: &[u8]) -> Result<(), NoMemory>
    ensures { OnOk result (out.new ≡ out.old ++ run_line (record { from = from; bytes = bytes.now })) }
{
    out.push(b' ')?;
    push_number(out, from as u64)?;
    out.push(b' ')?;
    push_quoted(out, bytes)?;
    out.push(b'\n')
}

// The bytes before the first that is zero.
#[tactic(auto, using(crate::proofs::Runs::zero_found, crate::proofs::Runs::none_found, crate::proofs::Runs::some_before,))]
fn before_zero(bytes: &[u8]) -> &[u8]
    ensures value { result.now ≡ before_zero bytes.now }
    ensures within { length result.now ≤ length bytes.now }
    ensures some { 0 < get_or bytes.now 0 0 → 0 < length result.now }
{
    match memchr(0, bytes) {
        Some(at) => &bytes[..at],
        None => bytes,
    }
}
