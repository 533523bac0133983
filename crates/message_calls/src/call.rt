ghost use Rattle.std.specs.Prelude.{◌≡◌, ◌++◌, OnOk};
ghost use Rattle.message_parts.specs.Reading.{Gives, byte_at};
ghost use Rattle.message_calls.specs.Calls.{
  call_tag,
  call_fields,
  call_of,
  ends_use,
  spell_ending,
  ending_at,
  spell_call,
  call_at,
  call_new_fileset_at,
  call_create_at,
  call_make_dir_at,
  call_remove_at,
  call_rename_at,
  call_truncate_at,
  call_set_acl_at,
  call_clone_fileset_at,
  call_read_at,
  call_write_at,
  call_list_names_at,
  call_stat_at,
  call_get_acl_at,
  call_sync_at,
  call_lock_at,
  call_unlock_at,
  call_open_file_at,
  call_close_file_at,
  call_move_fileset_at,
};

use base_types::{AccessList, Items, Name, NoMemory, OpenKind, ServerId, User};
use message_parts::{Part, Stopped, bytes_at, number_at, push_number, write_bytes};
use std::alloc::Global;
use tree_calls::{Call, Place, Which};

/// The number of its kind.
fn call_tag(call: &Call) -> u64
    ensures { result ≡ call_tag call.now }
{
    match call {
        Call::NewFileset { .. } => 1,
        Call::Create { .. } => 2,
        Call::MakeDir { .. } => 3,
        Call::Remove { .. } => 4,
        Call::Rename { .. } => 5,
        Call::Truncate { .. } => 6,
        Call::SetAcl { .. } => 7,
        Call::CloneFileset { .. } => 8,
        Call::Read { .. } => 9,
        Call::Write { .. } => 10,
        Call::List { .. } => 11,
        Call::Stat { .. } => 12,
        Call::GetAcl { .. } => 13,
        Call::Sync { .. } => 14,
        Call::Lock { .. } => 15,
        Call::Unlock { .. } => 16,
        Call::OpenFile { .. } => 17,
        Call::CloseFile { .. } => 18,
        Call::MoveFileset { .. } => 19,
    }
}

// Writes two parts at the end.
fn write_two<A: Part, B: Part>(a: &A, b: &B, out: &mut Items<u8>) -> Result<(), NoMemory>
    ensures { OnOk result (out.new ≡ out.old ++ (A.spelled a.now).bytes ++ (B.spelled b.now).bytes) }
{
    a.write(out)?;
    b.write(out)
}

// Writes three parts at the end.
fn write_three<A: Part, B: Part, C: Part>(
    a: &A,
    b: &B,
    c: &C,
    out: &mut Items<u8>,
) -> Result<(), NoMemory>
    ensures { OnOk result
        (out.new ≡ out.old ++ (A.spelled a.now).bytes ++ (B.spelled b.now).bytes ++ (C.spelled c.now).bytes) }
{
    write_two(a, b, out)?;
    c.write(out)
}

/// Writes its fields at the end.
#[tactic(auto, unfolding(crate::specs::Calls::call_fields))]
fn write_call_fields(call: &Call, out: &mut Items<u8>) -> Result<(), NoMemory>
    ensures { OnOk result (out.new ≡ out.old ++ (call_fields call.now).bytes) }
{
    match call {
        Call::NewFileset {
            server,
            name,
            objects,
            owner,
        } => {
            write_two(server, name, out)?;
            write_two(objects, owner, out)
        }
        Call::Create { place } => place.write(out),
        Call::MakeDir { place } => place.write(out),
        Call::Remove { place } => place.write(out),
        Call::Rename { from, to } => write_two(from, to, out),
        Call::Truncate { place, length: len } => write_two(place, len, out),
        Call::SetAcl { place, which, list } => write_three(place, which, list, out),
        Call::CloneFileset {
            server,
            fileset,
            new,
        } => write_three(server, fileset, new, out),
        Call::Read { place, from, len } => write_three(place, from, len, out),
        Call::Write { place, from, bytes } => {
            write_two(place, from, out)?;
            write_bytes(bytes, out)
        }
        Call::List { place } => place.write(out),
        Call::Stat { place } => place.write(out),
        Call::GetAcl { place, which } => write_two(place, which, out),
        Call::Sync { place } => place.write(out),
        Call::Lock {
            label,
            place,
            writing,
            from,
            len,
        } => {
            write_two(label, place, out)?;
            write_three(writing, from, len, out)
        }
        Call::Unlock { label } => label.write(out),
        Call::OpenFile { label, place, kind } => write_three(label, place, kind, out),
        Call::CloseFile { label } => label.write(out),
        Call::MoveFileset {
            server,
            fileset,
            to,
        } => write_three(server, fileset, to, out),
    }
}

#[tactic(auto, unfolding(crate::specs::Calls::call_new_fileset_at))]
fn call_new_fileset_at(alloc: Global, bytes: &[u8]) -> Result<(Call, &[u8]), Stopped>
    ensures { Gives (λ x. (x.0, x.1.now)) result (call_new_fileset_at bytes.now) }
{
    let (server, rest) = ServerId::read(alloc, bytes)?;
    let (name, rest) = Name::read(alloc, rest)?;
    let (objects, rest) = u32::read(alloc, rest)?;
    let (owner, rest) = User::read(alloc, rest)?;
    Ok((
        Call::NewFileset {
            server,
            name,
            objects,
            owner,
        },
        rest,
    ))
}

#[tactic(auto, unfolding(crate::specs::Calls::call_create_at))]
fn call_create_at(alloc: Global, bytes: &[u8]) -> Result<(Call, &[u8]), Stopped>
    ensures { Gives (λ x. (x.0, x.1.now)) result (call_create_at bytes.now) }
{
    let (place, rest) = Place::read(alloc, bytes)?;
    Ok((Call::Create { place }, rest))
}

#[tactic(auto, unfolding(crate::specs::Calls::call_make_dir_at))]
fn call_make_dir_at(alloc: Global, bytes: &[u8]) -> Result<(Call, &[u8]), Stopped>
    ensures { Gives (λ x. (x.0, x.1.now)) result (call_make_dir_at bytes.now) }
{
    let (place, rest) = Place::read(alloc, bytes)?;
    Ok((Call::MakeDir { place }, rest))
}

#[tactic(auto, unfolding(crate::specs::Calls::call_remove_at))]
fn call_remove_at(alloc: Global, bytes: &[u8]) -> Result<(Call, &[u8]), Stopped>
    ensures { Gives (λ x. (x.0, x.1.now)) result (call_remove_at bytes.now) }
{
    let (place, rest) = Place::read(alloc, bytes)?;
    Ok((Call::Remove { place }, rest))
}

#[tactic(auto, unfolding(crate::specs::Calls::call_rename_at))]
fn call_rename_at(alloc: Global, bytes: &[u8]) -> Result<(Call, &[u8]), Stopped>
    ensures { Gives (λ x. (x.0, x.1.now)) result (call_rename_at bytes.now) }
{
    let (from, rest) = Place::read(alloc, bytes)?;
    let (to, rest) = Place::read(alloc, rest)?;
    Ok((Call::Rename { from, to }, rest))
}

#[tactic(auto, unfolding(crate::specs::Calls::call_truncate_at))]
fn call_truncate_at(alloc: Global, bytes: &[u8]) -> Result<(Call, &[u8]), Stopped>
    ensures { Gives (λ x. (x.0, x.1.now)) result (call_truncate_at bytes.now) }
{
    let (place, rest) = Place::read(alloc, bytes)?;
    let (len, rest) = u32::read(alloc, rest)?;
    Ok((Call::Truncate { place, length: len }, rest))
}

#[tactic(auto, unfolding(crate::specs::Calls::call_set_acl_at))]
fn call_set_acl_at(alloc: Global, bytes: &[u8]) -> Result<(Call, &[u8]), Stopped>
    ensures { Gives (λ x. (x.0, x.1.now)) result (call_set_acl_at bytes.now) }
{
    let (place, rest) = Place::read(alloc, bytes)?;
    let (which, rest) = Which::read(alloc, rest)?;
    let (list, rest) = AccessList::read(alloc, rest)?;
    Ok((Call::SetAcl { place, which, list }, rest))
}

#[tactic(auto, unfolding(crate::specs::Calls::call_clone_fileset_at))]
fn call_clone_fileset_at(alloc: Global, bytes: &[u8]) -> Result<(Call, &[u8]), Stopped>
    ensures { Gives (λ x. (x.0, x.1.now)) result (call_clone_fileset_at bytes.now) }
{
    let (server, rest) = ServerId::read(alloc, bytes)?;
    let (fileset, rest) = Name::read(alloc, rest)?;
    let (new, rest) = Name::read(alloc, rest)?;
    Ok((
        Call::CloneFileset {
            server,
            fileset,
            new,
        },
        rest,
    ))
}

#[tactic(auto, unfolding(crate::specs::Calls::call_read_at))]
fn call_read_at(alloc: Global, bytes: &[u8]) -> Result<(Call, &[u8]), Stopped>
    ensures { Gives (λ x. (x.0, x.1.now)) result (call_read_at bytes.now) }
{
    let (place, rest) = Place::read(alloc, bytes)?;
    let (from, rest) = u32::read(alloc, rest)?;
    let (len, rest) = u32::read(alloc, rest)?;
    Ok((Call::Read { place, from, len }, rest))
}

#[tactic(auto, unfolding(crate::specs::Calls::call_write_at))]
fn call_write_at(alloc: Global, bytes: &[u8]) -> Result<(Call, &[u8]), Stopped>
    ensures { Gives (λ x. (x.0, x.1.now)) result (call_write_at bytes.now) }
{
    let (place, rest) = Place::read(alloc, bytes)?;
    let (from, rest) = u32::read(alloc, rest)?;
    let (bytes, rest) = bytes_at(alloc, rest, u32::MAX)?;
    Ok((Call::Write { place, from, bytes }, rest))
}

#[tactic(auto, unfolding(crate::specs::Calls::call_list_names_at))]
fn call_list_names_at(alloc: Global, bytes: &[u8]) -> Result<(Call, &[u8]), Stopped>
    ensures { Gives (λ x. (x.0, x.1.now)) result (call_list_names_at bytes.now) }
{
    let (place, rest) = Place::read(alloc, bytes)?;
    Ok((Call::List { place }, rest))
}

#[tactic(auto, unfolding(crate::specs::Calls::call_stat_at))]
fn call_stat_at(alloc: Global, bytes: &[u8]) -> Result<(Call, &[u8]), Stopped>
    ensures { Gives (λ x. (x.0, x.1.now)) result (call_stat_at bytes.now) }
{
    let (place, rest) = Place::read(alloc, bytes)?;
    Ok((Call::Stat { place }, rest))
}

#[tactic(auto, unfolding(crate::specs::Calls::call_get_acl_at))]
fn call_get_acl_at(alloc: Global, bytes: &[u8]) -> Result<(Call, &[u8]), Stopped>
    ensures { Gives (λ x. (x.0, x.1.now)) result (call_get_acl_at bytes.now) }
{
    let (place, rest) = Place::read(alloc, bytes)?;
    let (which, rest) = Which::read(alloc, rest)?;
    Ok((Call::GetAcl { place, which }, rest))
}

#[tactic(auto, unfolding(crate::specs::Calls::call_sync_at))]
fn call_sync_at(alloc: Global, bytes: &[u8]) -> Result<(Call, &[u8]), Stopped>
    ensures { Gives (λ x. (x.0, x.1.now)) result (call_sync_at bytes.now) }
{
    let (place, rest) = Place::read(alloc, bytes)?;
    Ok((Call::Sync { place }, rest))
}

#[tactic(auto, unfolding(crate::specs::Calls::call_lock_at))]
fn call_lock_at(alloc: Global, bytes: &[u8]) -> Result<(Call, &[u8]), Stopped>
    ensures { Gives (λ x. (x.0, x.1.now)) result (call_lock_at bytes.now) }
{
    let (label, rest) = Name::read(alloc, bytes)?;
    let (place, rest) = Place::read(alloc, rest)?;
    let (writing, rest) = bool::read(alloc, rest)?;
    let (from, rest) = u32::read(alloc, rest)?;
    let (len, rest) = u32::read(alloc, rest)?;
    Ok((
        Call::Lock {
            label,
            place,
            writing,
            from,
            len,
        },
        rest,
    ))
}

#[tactic(auto, unfolding(crate::specs::Calls::call_unlock_at))]
fn call_unlock_at(alloc: Global, bytes: &[u8]) -> Result<(Call, &[u8]), Stopped>
    ensures { Gives (λ x. (x.0, x.1.now)) result (call_unlock_at bytes.now) }
{
    let (label, rest) = Name::read(alloc, bytes)?;
    Ok((Call::Unlock { label }, rest))
}

#[tactic(auto, unfolding(crate::specs::Calls::call_open_file_at))]
fn call_open_file_at(alloc: Global, bytes: &[u8]) -> Result<(Call, &[u8]), Stopped>
    ensures { Gives (λ x. (x.0, x.1.now)) result (call_open_file_at bytes.now) }
{
    let (label, rest) = Name::read(alloc, bytes)?;
    let (place, rest) = Place::read(alloc, rest)?;
    let (kind, rest) = OpenKind::read(alloc, rest)?;
    Ok((Call::OpenFile { label, place, kind }, rest))
}

#[tactic(auto, unfolding(crate::specs::Calls::call_close_file_at))]
fn call_close_file_at(alloc: Global, bytes: &[u8]) -> Result<(Call, &[u8]), Stopped>
    ensures { Gives (λ x. (x.0, x.1.now)) result (call_close_file_at bytes.now) }
{
    let (label, rest) = Name::read(alloc, bytes)?;
    Ok((Call::CloseFile { label }, rest))
}

#[tactic(auto, unfolding(crate::specs::Calls::call_move_fileset_at))]
fn call_move_fileset_at(alloc: Global, bytes: &[u8]) -> Result<(Call, &[u8]), Stopped>
    ensures { Gives (λ x. (x.0, x.1.now)) result (call_move_fileset_at bytes.now) }
{
    let (server, rest) = ServerId::read(alloc, bytes)?;
    let (fileset, rest) = Name::read(alloc, rest)?;
    let (to, rest) = ServerId::read(alloc, rest)?;
    Ok((
        Call::MoveFileset {
            server,
            fileset,
            to,
        },
        rest,
    ))
}

/// Reads the fields of the kind with this number.
#[tactic(auto, unfolding(crate::specs::Calls::call_of))]
fn call_of(alloc: Global, tag: u64, bytes: &[u8]) -> Result<(Call, &[u8]), Stopped>
    ensures { Gives (λ x. (x.0, x.1.now)) result (call_of tag bytes.now) }
{
    match tag {
        1 => call_new_fileset_at(alloc, bytes),
        2 => call_create_at(alloc, bytes),
        3 => call_make_dir_at(alloc, bytes),
        4 => call_remove_at(alloc, bytes),
        5 => call_rename_at(alloc, bytes),
        6 => call_truncate_at(alloc, bytes),
        7 => call_set_acl_at(alloc, bytes),
        8 => call_clone_fileset_at(alloc, bytes),
        9 => call_read_at(alloc, bytes),
        10 => call_write_at(alloc, bytes),
        11 => call_list_names_at(alloc, bytes),
        12 => call_stat_at(alloc, bytes),
        13 => call_get_acl_at(alloc, bytes),
        14 => call_sync_at(alloc, bytes),
        15 => call_lock_at(alloc, bytes),
        16 => call_unlock_at(alloc, bytes),
        17 => call_open_file_at(alloc, bytes),
        18 => call_close_file_at(alloc, bytes),
        _ => call_move_fileset_at(alloc, bytes),
    }
}

/// Writes a call at the end.
#[tactic(auto, unfolding(crate::specs::Calls::spell_call, message_parts::specs::Spelled::number))]
pub fn write_call(call: &Call, out: &mut Items<u8>) -> Result<(), NoMemory>
    ensures { OnOk result (out.new ≡ out.old ++ (spell_call call.now).bytes) }
{
    push_number(out, 1, call_tag(call))?;
    write_call_fields(call, out)
}

/// Reads a call at the front.
#[tactic(auto, unfolding(crate::specs::Calls::call_at))]
pub fn call_at(alloc: Global, bytes: &[u8]) -> Result<(Call, &[u8]), Stopped>
    ensures { Gives (λ x. (x.0, x.1.now)) result (call_at bytes.now) }
{
    let (tag, rest) = number_at(bytes, 1, 1, 19)?;
    call_of(alloc, tag, rest)
}

/// Reads the number of a call that ends a lock or an open.
fn ending_tag_at(bytes: &[u8]) -> Result<(u64, &[u8]), Stopped>
    ensures { Gives (λ x. (x.0, x.1.now)) result (byte_at ends_use bytes.now) }
{
    let Some((tag, rest)) = bytes.split_first() else {
        return Err(Stopped::Bad(0));
    };
    if *tag == 16 || *tag == 18 {
        Ok((*tag as u64, rest))
    } else {
        Err(Stopped::Bad(bytes.len()))
    }
}

/// Reads a call that ends a lock or an open.
#[tactic(auto, unfolding(crate::specs::Calls::ending_at))]
pub fn ending_at(alloc: Global, bytes: &[u8]) -> Result<(Call, &[u8]), Stopped>
    ensures { Gives (λ x. (x.0, x.1.now)) result (ending_at bytes.now) }
{
    let (tag, rest) = ending_tag_at(bytes)?;
    call_of(alloc, tag, rest)
}

/// Writes a call that ends a lock or an open.
#[tactic(auto, unfolding(crate::specs::Calls::spell_ending))]
pub fn write_ending(call: &Call, out: &mut Items<u8>) -> Result<(), NoMemory>
    ensures { OnOk result (out.new ≡ out.old ++ (spell_ending call.now).bytes) }
{
    out.push(call_tag(call) as u8)?;
    write_call_fields(call, out)
}
