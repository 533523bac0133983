//! What a host makes of a call.
ghost use Rattle.std.specs.Prelude.{◌≡◌, ◌+◌, IfOk, List, Ok, false, if◌then◌else◌, true, ℕ};
ghost use Rattle.need_host.specs.Walks.{root_of};
ghost use Rattle.need_host.specs.Calls.{access_look, list_look, lock_for, lock_look, open_look, read_look, stat_look};
ghost use Rattle.need_host.specs.Calls.{sync_look, write_look};
ghost use Rattle.host_tables.specs.Tables.{own_of};
ghost use Rattle.host_walk.specs.Views.{held_by};
ghost use Rattle.host_walk.specs.Trying.{Tries};
ghost use Rattle.token_types.specs.Covers.{Covers};
ghost use Rattle.token_types.specs.declared.token.Kind.TheVariants.{Lock};
ghost use Rattle.tree_objects.specs.Spans.{span_between};
ghost use Rattle.tree_calls.specs.declared.call.Call.{Call as CallOf};
ghost use Rattle.tree_calls.specs.declared.call.Call.TheVariants.{List as ListNames, Lock as LockCall, OpenFile, Read};
ghost use Rattle.tree_calls.specs.declared.call.Call.TheVariants.{Sync};
ghost use Rattle.tree_calls.specs.declared.place.Place.{Place as PlaceOf};
ghost use Rattle.host_calls.specs.Looking.{CanReadOn, CoversUse, CoversWrite, IsBacked, IsFresh, IsTold};
ghost use Rattle.host_calls.specs.Looking.{LeadsNowhere, LeadsOn, LeadsSo};
ghost use Rattle.host_calls.specs.Looking.{EndsPathless, JudgesOn, LabelStarts, StartsAt, StartsBacked};
ghost use Rattle.host_calls.specs.Looking.{StartsSo, Walked, bytes_of, freed_by, taken_refusal};
ghost use Rattle.tree_filesets.specs.Uses.{is_changing, right_to_open};
ghost use Rattle.tree_filesets.specs.Rights.{read_right, write_right};

use base_types::{
    FILE_BYTES_MAX, Fid, FilesetId, LABELS_MAX, Name, OpenKind, Rights, ServerId, Span,
};
use host_leaves::{gives_label, has_label, is_clean, is_own_locked, label_count};
use host_tables::{Tables, home_of};
use host_walk::{Sight, Stop, end_of, positions};
use token_types::{Kind, Need};
use tree_calls::{Call, Place, Refusal, Which};

/// What a host asks of a server about a call.
#[derive(Clone, Copy)]
pub enum Question {
    /// The number of a fileset that a place at the server names.
    Enter(ServerId),
    /// The call, which is in a fileset that the host has entered.
    In(FilesetId),
    /// The call, by which the server has a fileset more.
    At(ServerId),
}

/// What a host makes of a call, where its tokens cover all that the call looks at.
#[derive(Clone, Copy)]
pub enum Verdict {
    /// It replies ok, and nothing changes.
    Does,
    /// It replies these bytes of the file.
    Reads(Fid, Span),
    /// It replies the names in a directory.
    Lists(Fid),
    /// It replies what is told of an object.
    Tells(Fid),
    /// It replies an access list of an object.
    Shows(Fid, Which),
    /// It replies ok, and bytes from a position on and before another are its changes of the file.
    Writes(Fid, u32, u32),
    /// It replies ok, and the file is locked, or open, under the call's label.
    Uses(Fid, Kind),
    /// It replies ok, and the label is no longer in use.
    Frees,
    /// It replies ok once the server has taken its changes of the file.
    Syncs(Fid),
    /// It replies ok once the server has taken the end of the label.
    Gives,
    /// It asks a server.
    Asks(Question),
}

/// Where the look of a call begins.
#[derive(Drop)]
pub enum Start<'a> {
    /// It looks at no object.
    Ends(Result<Verdict, Refusal>),
    /// It goes from the root of a fileset along a path.
    Walks(Fid, &'a [Name]),
}

/// Where the look of a call begins: behind what is about its label and its fileset.
pub fn start_of<'a>(tables: &Tables, call: &'a Call) -> Start<'a>
    ensures starts { StartsSo tables.now call.now result }
    ensures backed { StartsBacked tables.now call.now result }
    ensures pathless { EndsPathless result }
{
    match call {
        Call::NewFileset { server, .. } | Call::CloneFileset { server, .. } => {
            Start::Ends(Ok(Verdict::Asks(Question::At(*server))))
        }
        Call::MoveFileset {
            server,
            fileset,
            ..
        } => from_root(tables, *server, fileset, &[]),
        Call::Unlock { label } => Start::Ends(freed(tables, true, label)),
        Call::CloseFile { label } => Start::Ends(freed(tables, false, label)),
        Call::Lock { label, place, .. } => labelled(tables, true, label, place),
        Call::OpenFile { label, place, .. } => labelled(tables, false, label, place),
        Call::Create { place }
        | Call::MakeDir { place }
        | Call::Remove { place }
        | Call::Rename { from: place, .. }
        | Call::Truncate { place, .. }
        | Call::SetAcl { place, .. }
        | Call::Read { place, .. }
        | Call::Write { place, .. }
        | Call::List { place }
        | Call::Stat { place }
        | Call::GetAcl { place, .. }
        | Call::Sync { place } => in_place(tables, place),
    }
}

/// Where the look of a call begins that takes no label and goes along a place's path.
pub fn in_place<'a>(tables: &Tables, place: &'a Place) -> Start<'a>
    ensures { StartsAt tables.now place.now.server place.now.fileset place.now.path result }
{
    from_root(tables, place.server, &place.fileset, place.path.as_slice())
}

fn from_root<'a>(tables: &Tables, server: ServerId, name: &Name, path: &'a [Name]) -> Start<'a>
    ensures { StartsAt tables.now server name.now path.now result }
{
    match home_of(tables.homes.as_slice(), server, name) {
        Some(fileset) => Start::Walks(root_of(fileset), path),
        None => Start::Ends(Ok(Verdict::Asks(Question::Enter(server)))),
    }
}

/// The root of a fileset.
pub fn root_of(fileset: FilesetId) -> Fid
    ensures { result ≡ root_of fileset }
{
    Fid {
        fileset,
        anode: 1,
        unique: 1,
    }
}

// The end of a label of locks, or else of opens.
fn freed(tables: &Tables, lock: bool, label: &Name) -> Result<Verdict, Refusal>
    ensures { result ≡ freed_by tables.now lock label.now }
{
    if !has_label(tables, lock, label) {
        return Err(if lock {
            Refusal::NotLocked
        } else {
            Refusal::NotOpened
        });
    }
    if gives_label(tables, lock, label) {
        return Ok(Verdict::Gives);
    }
    Ok(Verdict::Frees)
}

// The beginning of a label of locks, or else of opens.
fn labelled<'a>(tables: &Tables, lock: bool, label: &Name, place: &'a Place) -> Start<'a>
    ensures { LabelStarts tables.now lock label.now place.now result }
{
    if has_label(tables, lock, label) {
        return Start::Ends(Err(taken_refusal(lock)));
    }
    if label_count(tables, lock) >= LABELS_MAX {
        return Start::Ends(Err(Refusal::TooMany));
    }
    in_place(tables, place)
}

fn taken_refusal(lock: bool) -> Refusal
    ensures { result ≡ taken_refusal lock }
{
    if lock {
        Refusal::AlreadyLocked
    } else {
        Refusal::AlreadyOpened
    }
}

/// What a host makes of a call that goes from a root along a path. It takes no memory.
pub fn walked(tables: &Tables, call: &Call, root: Fid, path: &[Name]) -> Result<Verdict, Stop>
    ensures walked { Walked tables.now call.now root path.now result }
    ensures backed { IfOk result (λ verdict. IsFresh tables.now call.now → IsBacked tables.now call.now (Ok verdict)) }
    ensures leads { IfOk result (λ verdict. LeadsSo tables.now call.now root path.now verdict) }
{
    let sight = Sight {
        cache: &tables.cache,
        user: &tables.user,
    };
    match call {
        Call::Read { from, len, .. } => read(sight, root, path, *from, *len),
        Call::Write { from, bytes, .. } => written(sight, root, path, *from, bytes.as_slice()),
        Call::List { .. } => listed(sight, root, path),
        Call::Stat { .. } => told(sight, root, path),
        Call::GetAcl { which, .. } => shown(sight, root, path, *which),
        Call::Sync { .. } => synced(tables, sight, root, path),
        Call::Lock {
            writing,
            from,
            len,
            ..
        } => locked(tables, sight, root, path, *writing, *from, *len),
        Call::OpenFile { kind, .. } => opened(sight, root, path, *kind),
        _ => Ok(Verdict::Asks(Question::In(root.fileset))),
    }
}

fn read(sight: Sight, root: Fid, path: &[Name], from: u32, len: u32) -> Result<Verdict, Stop>
    ensures judged { (call : CallOf) → JudgesOn sight.entry.cache.now sight.entry.user.now call
        (read_look sight.entry.user.now root path.now from len) result }
    ensures read { IfOk result (CanReadOn sight.entry.cache.now) }
    ensures tells { IfOk result (λ verdict. IsTold verdict) }
    ensures leads { (place : PlaceOf) → IfOk result (λ verdict. LeadsOn sight.entry.cache.now sight.entry.user.now
        (Read place from len) root path.now verdict) }
{
    match sight.read(root, path, from, len) {
        Ok((fid, span)) => Ok(Verdict::Reads(fid, span)),
        Err(stop) => Err(stop),
    }
}

fn listed(sight: Sight, root: Fid, path: &[Name]) -> Result<Verdict, Stop>
    ensures judged { (call : CallOf) → JudgesOn sight.entry.cache.now sight.entry.user.now call
        (list_look sight.entry.user.now root path.now) result }
    ensures read { IfOk result (CanReadOn sight.entry.cache.now) }
    ensures tells { IfOk result (λ verdict. IsTold verdict) }
    ensures leads { (place : PlaceOf) → IfOk result (λ verdict. LeadsOn sight.entry.cache.now sight.entry.user.now
        (ListNames place) root path.now verdict) }
{
    let (fid, _entries) = sight.list(root, path)?;
    Ok(Verdict::Lists(fid))
}

fn told(sight: Sight, root: Fid, path: &[Name]) -> Result<Verdict, Stop>
    ensures judged { (call : CallOf) → JudgesOn sight.entry.cache.now sight.entry.user.now call
        (stat_look sight.entry.user.now root path.now) result }
    ensures read { IfOk result (CanReadOn sight.entry.cache.now) }
    ensures tells { IfOk result (λ verdict. IsTold verdict) }
    ensures leads { IfOk result LeadsNowhere }
{
    let (fid, _status) = sight.target(root, path)?;
    Ok(Verdict::Tells(fid))
}

fn shown(sight: Sight, root: Fid, path: &[Name], which: Which) -> Result<Verdict, Stop>
    ensures judged { (call : CallOf) → JudgesOn sight.entry.cache.now sight.entry.user.now call
        (access_look sight.entry.user.now root path.now which) result }
    ensures read { IfOk result (CanReadOn sight.entry.cache.now) }
    ensures tells { IfOk result (λ verdict. IsTold verdict) }
    ensures leads { IfOk result LeadsNowhere }
{
    let (fid, _list) = sight.access(root, path, which)?;
    Ok(Verdict::Shows(fid, which))
}

// A Sync: there is something to do where the file isn't clean.
fn synced(tables: &Tables, sight: Sight, root: Fid, path: &[Name]) -> Result<Verdict, Stop>
    ensures judged { (call : CallOf) → JudgesOn sight.entry.cache.now sight.entry.user.now call
        (sync_look (own_of tables.now) sight.entry.user.now root path.now) result }
    ensures read { IfOk result (CanReadOn sight.entry.cache.now) }
    ensures tells { IfOk result (λ verdict. IsTold verdict) }
    ensures leads { (place : PlaceOf) → IfOk result (λ verdict. LeadsOn sight.entry.cache.now sight.entry.user.now
        (Sync place) root path.now verdict) }
{
    let (fid, _status) = sight.file(root, path)?;
    if is_clean(tables, fid) {
        return Ok(Verdict::Does);
    }
    Ok(Verdict::Syncs(fid))
}

fn written(sight: Sight, root: Fid, path: &[Name], from: u32, bytes: &[u8]) -> Result<Verdict, Stop>
    ensures judged { (call : CallOf) → bytes_of call ≡ bytes.now →
        JudgesOn sight.entry.cache.now sight.entry.user.now call
        (write_look sight.entry.user.now root path.now from bytes.now) result }
    ensures covers { IfOk result (CoversWrite sight.entry.cache.now from bytes.now) }
{
    match sight.write(root, path, from, bytes) {
        Ok(Some(fid)) => Ok(Verdict::Writes(fid, from, end_of(from, bytes.len()))),
        Ok(None) => Ok(Verdict::Does),
        Err(stop) => Err(stop),
    }
}

fn locked(
    tables: &Tables,
    sight: Sight,
    root: Fid,
    path: &[Name],
    writing: bool,
    from: u32,
    len: u32,
) -> Result<Verdict, Stop>
    ensures judged { (call : CallOf) → JudgesOn sight.entry.cache.now sight.entry.user.now call
        (lock_look (own_of tables.now) tables.now.host sight.entry.user.now root path.now writing from len) result }
    ensures covers { IfOk result (CoversUse sight.entry.cache.now true) }
    ensures leads { (label : List ℕ) (place : PlaceOf) → IfOk result (λ verdict. LeadsOn sight.entry.cache.now
        sight.entry.user.now (LockCall label place writing from len) root path.now verdict) }
{
    let fid = match sight.usable(root, path, writing, lock_right(writing)) {
        Ok(fid) => fid,
        Err(stop) => return Err(stop),
    };
    match lock_kind(tables, sight, fid, writing, from, len) {
        Ok(kind) => Ok(Verdict::Uses(fid, kind)),
        Err(stop) => Err(stop),
    }
}

// The token by which bytes of a file are locked.
fn lock_kind(
    tables: &Tables,
    sight: Sight,
    fid: Fid,
    writing: bool,
    from: u32,
    len: u32,
) -> Result<Kind, Stop>
    ensures tried { Tries sight.entry.cache.now (lock_for (own_of tables.now) tables.now.host writing from len fid)
        (λ kind. fid) result }
    ensures kind { IfOk result (λ kind. kind ≡ Lock writing (span_between from (from + len))) }
    ensures covered { IfOk result (λ kind.
        Covers (held_by sight.entry.cache.now) (record { fid = fid; kind = kind })) }
{
    let to = from.saturating_add(len);
    if to > FILE_BYTES_MAX {
        return Err(Stop::Refused(Refusal::TooBig));
    }
    let span = positions(from, to);
    if is_own_locked(tables, fid, span) {
        return Err(Stop::Refused(Refusal::AlreadyLocked));
    }
    let kind = Kind::Lock { writing, span };
    sight.covered(Need { fid, kind })?;
    Ok(kind)
}

fn opened(sight: Sight, root: Fid, path: &[Name], kind: OpenKind) -> Result<Verdict, Stop>
    ensures judged { (call : CallOf) → JudgesOn sight.entry.cache.now sight.entry.user.now call
        (open_look sight.entry.user.now root path.now kind) result }
    ensures covers { IfOk result (CoversUse sight.entry.cache.now false) }
    ensures leads { (label : List ℕ) (place : PlaceOf) → IfOk result (λ verdict. LeadsOn sight.entry.cache.now
        sight.entry.user.now (OpenFile label place kind) root path.now verdict) }
{
    let fid = match sight.usable(root, path, is_changing(kind), open_right(kind)) {
        Ok(fid) => fid,
        Err(stop) => return Err(stop),
    };
    let kind = Kind::Opening(kind);
    match sight.covered(Need { fid, kind }) {
        Ok(()) => Ok(Verdict::Uses(fid, kind)),
        Err(stop) => Err(stop),
    }
}

fn lock_right(writing: bool) -> Rights
    ensures { result ≡ (if writing then write_right else read_right) }
{
    if writing { Rights::WRITE } else { Rights::READ }
}

// Whether a file that is opened so is to be changed.
fn is_changing(kind: OpenKind) -> bool
    ensures { result ≡ is_changing kind }
{
    matches!(kind, OpenKind::Writing | OpenKind::Exclusive)
}

fn open_right(kind: OpenKind) -> Rights
    ensures { result ≡ right_to_open kind }
{
    match kind {
        OpenKind::Reading | OpenKind::Shared => Rights::READ,
        OpenKind::Writing | OpenKind::Exclusive => Rights::WRITE,
        OpenKind::Executing => Rights::EXECUTE,
    }
}
