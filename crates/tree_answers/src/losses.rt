//! What is lost where a server learns that a host is down.
ghost use Rattle.std.specs.Prelude.{◌≡◌, ◌<◌, ◌≤◌, ◌++◌, [], ◌∷◌, map, flat_map, length, slice_get, IfOk, IfSome, OnOk};
ghost use Rattle.std.specs.List.{position};
ghost use Rattle.std.specs.Option.{option_map_or};
ghost use Rattle.tree_answers.specs.Losses.{span_loss, file_losses, losses_below, fileset_losses, is_before_at};
ghost use Rattle.tree_answers.specs.Losses.{name_place, places_by_name, losses_of};

use crate::tree::Tree;
use base_types::{HostId, Items, Name, NoMemory, Plain, ServerId, Span};
use tree_calls::Loss;
use tree_filesets::{Fileset, object_at};
use tree_objects::{Anode, Content, Object};

/// A host that a server learns is down.
#[derive(Clone, Copy)]
struct DownHost {
    host: HostId,
    server: ServerId,
}

impl Tree {
    /// What is lost where a server learns that a host is down.
    #[tactic(auto, unfolding(crate::specs::Losses::losses_of))]
    pub(crate) fn losses_of(&self, host: HostId, server: ServerId) -> Result<Items<Loss>, NoMemory>
        ensures { IfOk result (λ losses. losses ≡ losses_of self.now host server) }
    {
        let places = places_by_name(&self.filesets, server)?;
        let mut losses = Items::new(self.filesets.alloc());
        for place in places.as_slice() {
            if let Some(fileset) = self.filesets.at(*place) {
                push_fileset_losses(&mut losses, fileset, DownHost { host, server })?;
            }
        }
        Ok(losses)
    }
}

// The places of a server's filesets in the list, in the order of their names.
fn places_by_name(filesets: &Items<Fileset>, server: ServerId) -> Result<Items<usize>, NoMemory>
    ensures { IfOk result (λ places. places ≡ places_by_name filesets.now server) }
{
    let mut places = Items::new(filesets.alloc());
    for (place, fileset) in filesets.as_slice().iter().enumerate() {
        if fileset.server == server {
            let index = name_place(filesets, &places, &fileset.name);
            places.insert(index, place)?;
        }
    }
    Ok(places)
}

// Where a fileset goes among places of filesets.
fn name_place(filesets: &Items<Fileset>, places: &Items<usize>, name: &Name) -> usize
    ensures value { result ≡ name_place filesets.now places.now name.now }
    ensures within { result ≤ length places.now }
{
    match first_above(filesets, places, name) {
        Some(index) => index,
        None => places.len(),
    }
}

// The first of the places at which there is a greater name.
fn first_above(filesets: &Items<Fileset>, places: &Items<usize>, name: &Name) -> Option<usize>
    ensures value { result ≡ position (is_before_at filesets.now name.now) places.now }
    ensures within { IfSome result (λ index. index < length places.now) }
{
    places
        .as_slice()
        .iter()
        .position(|place| is_before_at(filesets, *place, name))
}

// Whether a name comes before that of the fileset at a place.
fn is_before_at(filesets: &Items<Fileset>, place: usize, name: &Name) -> bool
    ensures { result ≡ is_before_at filesets.now name.now place }
{
    match filesets.at(place) {
        Some(fileset) => name.is_before(&fileset.name),
        None => false,
    }
}

fn push_fileset_losses(
    losses: &mut Items<Loss>,
    fileset: &Fileset,
    down: DownHost,
) -> Result<(), NoMemory>
    ensures { OnOk result (losses.new ≡ losses.old ++ fileset_losses down.host down.server fileset.now) }
{
    if let Some(root) = object_at(&fileset.anodes, 1) {
        let mut path = Items::new(fileset.anodes.alloc());
        path.push(fileset.name.copy()?)?;
        push_losses_below(
            losses,
            fileset.anodes.len(),
            &fileset.anodes,
            down,
            &path,
            root,
        )?;
    }
    Ok(())
}

// What is lost of an object and of those below it, down to so many levels.
#[tactic(auto, using(crate::proofs::Levels::losses_more))]
fn push_losses_below(
    losses: &mut Items<Loss>,
    levels: usize,
    anodes: &Items<Anode>,
    down: DownHost,
    path: &Items<Name>,
    object: &Object,
) -> Result<(), NoMemory>
    ensures { OnOk result
        (losses.new ≡ losses.old ++ losses_below levels anodes.now down.host down.server path.now object.now) }
{
    if levels == 0 {
        return Ok(());
    }
    push_file_losses(losses, down, path, object)?;
    if let Content::Dir { entries, lists: _ } = &object.content {
        for entry in entries.as_slice() {
            if let Some(child) = object_at(anodes, entry.anode) {
                let path = longer(path, &entry.name)?;
                push_losses_below(losses, levels - 1, anodes, down, &path, child)?;
            }
        }
    }
    Ok(())
}

// A path with a name more.
fn longer(path: &Items<Name>, name: &Name) -> Result<Items<Name>, NoMemory>
    ensures { IfOk result (λ longer. longer ≡ path.now ++ name.now ∷ []) }
{
    let mut path = path.copy()?;
    path.push(name.copy()?)?;
    Ok(path)
}

// What is lost of one file.
fn push_file_losses(
    losses: &mut Items<Loss>,
    down: DownHost,
    path: &Items<Name>,
    object: &Object,
) -> Result<(), NoMemory>
    ensures { OnOk result (losses.new ≡ losses.old ++ file_losses down.host down.server path.now object.now.content) }
{
    push_span_losses(losses, down, path, &object.own_spans(down.host)?)?;
    if let Some(length) = object.own_length(down.host) {
        losses.push(Loss {
            host: down.host,
            server: down.server,
            path: path.copy()?,
            span: None,
            length: Some(length),
        })?;
    }
    Ok(())
}

fn push_span_losses(
    losses: &mut Items<Loss>,
    down: DownHost,
    path: &Items<Name>,
    spans: &Items<Span>,
) -> Result<(), NoMemory>
    ensures { OnOk result (losses.new ≡ losses.old ++ map (span_loss down.host down.server path.now) spans.now) }
{
    for span in spans.as_slice() {
        losses.push(Loss {
            host: down.host,
            server: down.server,
            path: path.copy()?,
            span: Some(*span),
            length: None,
        })?;
    }
    Ok(())
}
