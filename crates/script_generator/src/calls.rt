ghost use Rattle.std.specs.Prelude.{◌≡◌, ◌<◌, ◌≤◌, ◌^◌, true, codes, decimal, IfOk};
ghost use Rattle.base_types.specs.Name.{is_name};
ghost use Rattle.script_generator.specs.Workload.{in_work, shared_file, own_file, text_of, call_of};

use base_types::{Items, Name, NameRefused, NoMemory, Plain, ServerId};
use std::alloc::Global;
use tree_calls::{Call, Place};

/// Bytes that are a name.
pub(crate) fn name_of(alloc: Global, bytes: &[u8]) -> Result<Name, NoMemory>
    requires { is_name bytes.now ≡ true }
    ensures { IfOk result (λ name. name ≡ bytes.now) }
{
    match Name::new(alloc, bytes) {
        Ok(name) => Ok(name),
        Err(NameRefused::Memory) => Err(NoMemory),
        Err(NameRefused::BadName) => unreachable!(),
    }
}

fn in_work(alloc: Global, name: Name) -> Result<Place, NoMemory>
    ensures { IfOk result (λ place. place ≡ in_work name) }
{
    let mut path = Items::new(alloc);
    path.push(name)?;
    Ok(Place {
        server: ServerId(1),
        fileset: name_of(alloc, b"work")?,
        path,
    })
}

/// The file that all hosts share.
pub(crate) fn shared_file(alloc: Global) -> Result<Place, NoMemory>
    ensures { IfOk result (λ place. place ≡ shared_file) }
{
    in_work(alloc, name_of(alloc, b"shared")?)
}

/// A host's own file.
#[tactic(auto, using(crate::proofs::Names::file_is_name))]
pub(crate) fn own_file(alloc: Global, host: u8) -> Result<Place, NoMemory>
    ensures { IfOk result (λ place. place ≡ own_file host) }
{
    let text = format!(in alloc; "h{host}")?;
    in_work(alloc, name_of(alloc, text.as_bytes())?)
}

fn text_of(alloc: Global, host: u8, i: u32) -> Result<Items<u8>, NoMemory>
    ensures { IfOk result (λ text. text ≡ text_of host i) }
{
    let text = format!(in alloc; "{host}-{i}")?;
    Ok(Items::from_vec(text.into_bytes()))
}

/// A host, and its own file.
#[derive(Drop)]
pub(crate) struct Author {
    /// The host's number, from 1.
    pub host: u8,
    /// The file that it writes and reads alone.
    pub file: Place,
}

/// The call that a word makes of a host's call `i`; hosts and calls are counted from 1.
#[tactic(auto, unfolding(crate::specs::Workload::call_of))]
pub(crate) fn call_of(alloc: Global, author: &Author, i: u32, word: u32) -> Result<Call, NoMemory>
    requires host { 1 ≤ author.now.host }
    requires file { author.now.file ≡ own_file author.now.host }
    ensures { IfOk result (λ call. call ≡ call_of author.now.host i word) }
{
    let host = author.host;
    let v = word / 4;
    match word % 4 {
        3 => Ok(Call::Write {
            place: shared_file(alloc)?,
            from: 512 * (u32::from(host) - 1) + v % 480,
            bytes: text_of(alloc, host, i)?,
        }),
        2 => Ok(Call::Read {
            place: author.file.copy()?,
            from: v % 60_000,
            len: 64,
        }),
        _ => Ok(Call::Write {
            place: author.file.copy()?,
            from: v % 60_000,
            bytes: text_of(alloc, host, i)?,
        }),
    }
}
