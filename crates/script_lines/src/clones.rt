ghost use Rattle.std.specs.Prelude.{◌≡◌, [], true, length, position, OnOk, IfOk};
ghost use Rattle.base_types.specs.Name.{same_name};
ghost use Rattle.script_words.specs.Lines.{lines_of};
ghost use Rattle.script_words.specs.Fields.{node_of};
ghost use Rattle.script_lines.specs.Clones.{is_host, name_if, clone_of, clone_in, clones_from, most_steps};
ghost use Rattle.script_lines.specs.Clones.{clone_place, placed_by, with_clones};
ghost use Rattle.script_lines.specs.Ways.{way_of, route_of, routes_of, server_in, server_by, first_of, put_first};
ghost use Rattle.script_lines.specs.Ways.{unknown, stage, stages};

use crate::context::{Context, Placed, find_placed, is_same};
use crate::leads::placed_at_once;
use base_types::{Items, Name, NameRefused, NoMemory, Node, Plain, ServerId};
use script_words::{is_word, next_line, node_of, words_asking};
use std::alloc::Global;

/// A line that clones a fileset.
#[derive(Drop)]
pub(crate) struct CloneLine {
    /// The fileset that is cloned.
    pub source: Name,
    /// The name of the clone.
    pub new: Name,
}

fn is_host(word: &[u8]) -> bool
    ensures { result ≡ is_host (node_of word.now) }
{
    matches!(node_of(word), Some(Node::Host(_)))
}

// The name with these bytes, where they are one.
fn name_if(alloc: Global, bytes: &[u8]) -> Result<Option<Name>, NoMemory>
    ensures { IfOk result (λ name. name ≡ name_if bytes.now) }
{
    match Name::new(alloc, bytes) {
        Ok(name) => Ok(Some(name)),
        Err(NameRefused::BadName) => Ok(None),
        Err(NameRefused::Memory) => Err(NoMemory),
    }
}

// The clone that these words ask for, whatever else is wrong with them.
#[tactic(auto, unfolding(crate::specs::Clones::clone_of))]
fn clone_of(alloc: Global, words: &[Items<u8>]) -> Result<Option<CloneLine>, NoMemory>
    ensures { IfOk result (λ clone. clone ≡ clone_of words.now) }
{
    match words {
        [node, verb, source, new] => {
            if !is_host(node.as_slice()) || !is_word(verb.as_slice(), b"clone") {
                return Ok(None);
            }
            let source = name_if(alloc, source.as_slice())?;
            let new = name_if(alloc, new.as_slice())?;
            match (source, new) {
                (Some(source), Some(new)) => Ok(Some(CloneLine { source, new })),
                _ => Ok(None),
            }
        }
        _ => Ok(None),
    }
}

// Of a line that clones nothing two words are read.
#[tactic(auto, using(crate::proofs::Asked::clone_asked, crate::proofs::Asked::nothing_asked))]
fn clone_in(alloc: Global, line: &[u8]) -> Result<Option<CloneLine>, NoMemory>
    ensures { IfOk result (λ clone. clone ≡ clone_in line.now) }
{
    match words_asking(alloc, line, b"clone")? {
        Some(words) => clone_of(alloc, words.as_slice()),
        None => Ok(None),
    }
}

#[tactic(auto, unfolding(script_words::specs::Lines::lines_of))]
fn clones_of(alloc: Global, bytes: &[u8]) -> Result<Items<CloneLine>, NoMemory>
    ensures { IfOk result (λ clones. clones ≡ clones_from [] (lines_of bytes.now)) }
{
    let mut clones = Items::new(alloc);
    let mut rest = bytes;
    while !rest.is_empty() {
        let (line, after) = next_line(rest);
        if let Some(clone) = clone_in(alloc, line)? {
            clones.push(clone)?;
        }
        rest = after;
    }
    Ok(clones)
}

/// Where a name leads.
#[derive(Clone, Copy, Drop)]
pub(crate) enum Way {
    /// It is placed at a server.
    At(ServerId),
    /// It is that of clones, the first of which stands here.
    Clone(usize),
    /// It is placed nowhere.
    Nowhere,
}

/// Where the names of a clone lead.
#[derive(Clone, Copy, Drop)]
pub(crate) struct Route {
    /// The name of the clone.
    pub name: Way,
    /// Its source.
    pub source: Way,
}

fn position_of(clones: &[CloneLine], name: &Name) -> Option<usize>
    ensures { result ≡ position (λ clone. same_name clone.new name.now) clones.now }
{
    clones.iter().position(|clone| is_same(&clone.new, name))
}

#[tactic(auto, unfolding(crate::specs::Ways::way_of))]
pub(crate) fn way_of(placed: &Items<Placed>, clones: &Items<CloneLine>, name: &Name) -> Way
    ensures { result ≡ way_of placed.now clones.now name.now }
{
    if let Some(found) = find_placed(placed, name) {
        return Way::At(found.server);
    }
    match position_of(clones.as_slice(), name) {
        Some(clone) => Way::Clone(clone),
        None => Way::Nowhere,
    }
}

fn route_of(placed: &Items<Placed>, clones: &Items<CloneLine>, clone: &CloneLine) -> Route
    ensures { result ≡ route_of placed.now clones.now clone.now }
{
    Route {
        name: way_of(placed, clones, &clone.new),
        source: way_of(placed, clones, &clone.source),
    }
}

#[tactic(auto, unfolding(crate::specs::Ways::routes_of))]
fn routes_of(
    alloc: Global,
    placed: &Items<Placed>,
    clones: &Items<CloneLine>,
) -> Result<Items<Route>, NoMemory>
    ensures { IfOk result (λ routes. routes ≡ routes_of placed.now clones.now) }
{
    let mut routes = Items::new(alloc);
    for clone in clones.as_slice() {
        routes.push(route_of(placed, clones, clone))?;
    }
    Ok(routes)
}

fn server_in(table: &Items<Option<ServerId>>, place: usize) -> Option<ServerId>
    ensures { result ≡ server_in table.now place }
{
    match table.at(place) {
        Some(server) => *server,
        None => None,
    }
}

fn server_by(table: &Items<Option<ServerId>>, way: Way) -> Option<ServerId>
    ensures { result ≡ server_by table.now way }
{
    match way {
        Way::At(server) => Some(server),
        Way::Clone(place) => server_in(table, place),
        Way::Nowhere => None,
    }
}

fn first_of(server: Option<ServerId>, other: Option<ServerId>) -> Option<ServerId>
    ensures { result ≡ first_of server other }
{
    match server {
        Some(server) => Some(server),
        None => other,
    }
}

// The first clone of a name that has a server decides.
fn put_first(table: &mut Items<Option<ServerId>>, name: Way, server: Option<ServerId>)
    ensures { table.new ≡ put_first table.old name server }
{
    if let Way::Clone(place) = name {
        let first = first_of(server_in(table, place), server);
        table.put(place, first);
    }
}

// A table without servers.
fn unknown(alloc: Global, n: usize) -> Result<Items<Option<ServerId>>, NoMemory>
    ensures { IfOk result (λ table. table ≡ unknown n) }
{
    let mut table = Vec::new(alloc);
    table.resize(n, None)?;
    Ok(Items::from_vec(table))
}

#[tactic(auto, unfolding(crate::specs::Ways::stage))]
fn stage(
    alloc: Global,
    routes: &Items<Route>,
    old: &Items<Option<ServerId>>,
) -> Result<Items<Option<ServerId>>, NoMemory>
    ensures { IfOk result (λ table. table ≡ stage routes.now old.now) }
{
    let mut table = unknown(alloc, routes.len())?;
    for route in routes.as_slice() {
        put_first(&mut table, route.name, server_by(old, route.source));
    }
    Ok(table)
}

fn is_same_table(a: &Items<Option<ServerId>>, b: &Items<Option<ServerId>>) -> bool
    ensures { result ≡ true → a.now ≡ b.now }
{
    *a == *b
}

// What is known after more stages than a script has lines. After one that changes nothing no other does.
#[tactic(auto, using(crate::proofs::Places::settled_then, crate::proofs::Places::stage_more, crate::proofs::Places::steps_are))]
fn settled(alloc: Global, routes: &Items<Route>) -> Result<Items<Option<ServerId>>, NoMemory>
    ensures { IfOk result (λ table. table ≡ stages most_steps routes.now) }
{
    let mut table = unknown(alloc, routes.len())?;
    for round in 0..16_384usize {
        let next = stage(alloc, routes, &table)?;
        if is_same_table(&next, &table) {
            return Ok(table);
        }
        table = next;
    }
    Ok(table)
}

// The server of each name, stage by stage.
fn servers_of(
    alloc: Global,
    placed: &Items<Placed>,
    clones: &Items<CloneLine>,
) -> Result<Items<Option<ServerId>>, NoMemory>
    ensures { IfOk result (λ table. table ≡ stages most_steps (routes_of placed.now clones.now)) }
{
    let routes = routes_of(alloc, placed, clones)?;
    settled(alloc, &routes)
}

#[tactic(auto, using(crate::proofs::Places::place_told))]
fn server_of_name(
    placed: &Items<Placed>,
    clones: &Items<CloneLine>,
    table: &Items<Option<ServerId>>,
    name: &Name,
) -> Option<ServerId>
    requires { table.now ≡ stages most_steps (routes_of placed.now clones.now) }
    ensures { result ≡ clone_place placed.now clones.now name.now }
{
    server_by(table, way_of(placed, clones, name))
}

// The names that clones place, stage by stage.
fn placed_by_stages(
    alloc: Global,
    placed: &Items<Placed>,
    clones: &Items<CloneLine>,
) -> Result<Items<Placed>, NoMemory>
    ensures { IfOk result (λ more. more ≡ placed_by placed.now clones.now) }
{
    let table = servers_of(alloc, placed, clones)?;
    let mut more = Items::new(alloc);
    for clone in clones.as_slice() {
        if let Some(server) = server_of_name(placed, clones, &table, &clone.new) {
            let name = clone.new.copy()?;
            more.push(Placed { name, server })?;
        }
    }
    Ok(more)
}

// The names that clones place, each where its source is placed. Where the first clone of each name leads to a server no
// stages are needed.
fn placed_by(
    alloc: Global,
    placed: &Items<Placed>,
    clones: &Items<CloneLine>,
) -> Result<Items<Placed>, NoMemory>
    ensures { IfOk result (λ more. more ≡ placed_by placed.now clones.now) }
{
    match placed_at_once(alloc, placed, clones)? {
        Some(more) => Ok(more),
        None => placed_by_stages(alloc, placed, clones),
    }
}

impl Context {
    /// Places the names of all clones among these lines, which come after the headers: each where its header is, else
    /// where the source of the first clone of it is whose source is placed. Lines that place each other in a circle
    /// place nothing.
    #[tactic(auto, unfolding(crate::specs::Clones::with_clones))]
    pub fn place_clones(&mut self, alloc: Global, bytes: &[u8]) -> Result<(), NoMemory>
        ensures { OnOk result (self.new ≡ with_clones self.old (lines_of bytes.now)) }
    {
        let clones = clones_of(alloc, bytes)?;
        let more = placed_by(alloc, &self.placed, &clones)?;
        self.placed.append(more)
    }
}
