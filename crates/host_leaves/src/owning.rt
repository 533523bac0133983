//! What a host knows of itself, as its calls look at it: its labels, and what is dirty.
ghost use Rattle.std.specs.Prelude.{◌≡◌, ◌==◌, ◌&&◌, None, Some, false, filter, if◌then◌else◌, length, not};
ghost use Rattle.std.specs.Bool.{beq};
ghost use Rattle.std.specs.List.{list_any};
ghost use Rattle.std.specs.Option.{option_map_or};
ghost use Rattle.base_types.specs.Name.{same_name};
ghost use Rattle.token_types.specs.Conflicts.{same_id};
ghost use Rattle.host_cache.specs.Holding.{tokens_of};
ghost use Rattle.host_labels.specs.Labels.{is_labelled, is_lock, has_id};
ghost use Rattle.host_tables.specs.Tables.{content, ends_label, gives_label, held_of, is_last_pinned, is_last_use};
ghost use Rattle.host_tables.specs.Tables.{is_length_dirty, is_updating, length_given, updates_status};
ghost use Rattle.host_leaves.specs.Owning.{dirty_length, ending_count, ending_locks, has_label, is_own_locked};
ghost use Rattle.host_leaves.specs.Owning.{is_use, label_count, locks, update_span};
ghost use Rattle.tree_laws.specs.Parts.Part.{Size};

use base_types::{Fid, Name, Span};
use host_cache::Cache;
use host_labels::{Labelled, Uses};
use host_lengths::Lengths;
use host_tables::Tables;
use token_types::{Kind, Token, TokenId};

/// Whether a token of this kind is of a lock, and not of an open file.
pub fn is_lock(kind: Kind) -> bool
    ensures { result ≡ is_lock kind }
{
    matches!(kind, Kind::Lock { .. })
}

/// Whether a token of this kind is of a lock or of an open file.
pub fn is_use(kind: Kind) -> bool
    ensures { result ≡ is_use kind }
{
    matches!(kind, Kind::Lock { .. } | Kind::Opening(_))
}

// Whether a label in use is this one, of locks or else of opens.
fn is_labelled(used: &Labelled, lock: bool, label: &Name) -> bool
    ensures { result ≡ is_labelled lock label.now used.now }
{
    is_lock(used.token.kind) == lock && used.label == *label
}

// Whether a give-back ends the use of this label, which isn't known as applied.
fn is_ending(tables: &Tables, lock: bool, label: &Name) -> bool
    ensures { result ≡ ends_label lock label.now tables.now.ending }
{
    match &tables.ending {
        Some(ending) => is_lock(ending.token.kind) == lock && ending.label == *label,
        None => false,
    }
}

/// Whether the host has a lock with this label, or else an open file.
pub fn has_label(tables: &Tables, lock: bool, label: &Name) -> bool
    ensures { result ≡ has_label tables.now lock label.now }
{
    is_taken(tables.uses.labels(), lock, label) || is_ending(tables, lock, label)
}

// Whether one of the labels in use is this one.
fn is_taken(labels: &[Labelled], lock: bool, label: &Name) -> bool
    ensures { result ≡ list_any (is_labelled lock label.now) labels.now }
{
    labels.iter().any(|used| is_labelled(used, lock, label))
}

/// How many locks the host has, or else open files.
pub fn label_count(tables: &Tables, lock: bool) -> usize
    ensures { result ≡ label_count tables.now lock }
{
    let labels = tables.uses.labels();
    prove!(labels.len() < usize::MAX);
    count_of(labels, lock).saturating_add(ending_count(tables, lock))
}

// How many of the labels in use are of locks, or else of opens.
fn count_of(labels: &[Labelled], lock: bool) -> usize
    ensures { result ≡ length (filter (λ used. beq (is_lock used.token.kind) lock) labels.now) }
{
    labels
        .iter()
        .filter(|used| is_lock(used.token.kind) == lock)
        .count()
}

fn ending_count(tables: &Tables, lock: bool) -> usize
    ensures { result ≡ ending_count lock tables.now.ending }
{
    match &tables.ending {
        Some(ending) => usize::from(is_lock(ending.token.kind) == lock),
        None => 0,
    }
}

/// Whether a label is in use for a token.
pub fn is_used(tables: &Tables, id: TokenId) -> bool
    ensures { result ≡ has_id tables.now.uses.labels id }
{
    let labels = tables.uses.labels();
    labels.iter().any(|used| used.token.id == id)
}

// Whether a label is the only one in use for its token.
fn is_last_use(labels: &[Labelled], used: &Labelled) -> bool
    ensures { result ≡ is_last_use labels.now used.now }
{
    !has_other(labels, used)
}

// Whether another label is in use for its token.
fn has_other(labels: &[Labelled], used: &Labelled) -> bool
    ensures { result ≡ list_any (λ other. same_id other.token.id used.now.token.id
        && not (same_name other.label used.now.label)) labels.now }
{
    labels.iter().any(|other| other.token.id == used.token.id && other.label != used.label)
}

// Whether a label is the only one in use for its token, and that is pinned.
fn is_last_pinned(uses: &Uses, used: &Labelled) -> bool
    ensures { result ≡ is_last_pinned uses.now used.now }
{
    is_last_use(uses.labels(), used) && uses.is_pinned(used.token.id)
}

/// Whether the server has to take the end of a label: it is the last use of a pinned token, or was given back already.
pub fn gives_label(tables: &Tables, lock: bool, label: &Name) -> bool
    ensures { result ≡ gives_label tables.now lock label.now }
{
    ends_pinned(&tables.uses, lock, label) || is_ending(tables, lock, label)
}

// Whether a label in use is this one, and the last use of a pinned token.
fn ends_pinned(uses: &Uses, lock: bool, label: &Name) -> bool
    ensures { result ≡ list_any (λ used. is_labelled lock label.now used && is_last_pinned uses.now used)
        uses.now.labels }
{
    uses.labels().iter().any(|used| is_labelled(used, lock, label) && is_last_pinned(uses, used))
}

/// Whether one of the host's locks has bytes of a span.
pub fn is_own_locked(tables: &Tables, fid: Fid, span: Span) -> bool
    ensures { result ≡ is_own_locked tables.now fid span }
{
    is_locked(tables.uses.labels(), fid, span) || is_ending_locked(tables, fid, span)
}

// Whether one of the labels in use locks bytes of a span.
fn is_locked(labels: &[Labelled], fid: Fid, span: Span) -> bool
    ensures { result ≡ list_any (λ used. locks fid span used.token) labels.now }
{
    labels.iter().any(|used| locks(&used.token, fid, span))
}

// Whether the label whose use a give-back ends locks bytes of a span.
fn is_ending_locked(tables: &Tables, fid: Fid, span: Span) -> bool
    ensures { result ≡ ending_locks fid span tables.now.ending }
{
    match &tables.ending {
        Some(ending) => locks(&ending.token, fid, span),
        None => false,
    }
}

// Whether a token locks bytes of a span.
fn locks(token: &Token, fid: Fid, span: Span) -> bool
    ensures { result ≡ locks fid span token.now }
{
    match token.kind {
        Kind::Lock { span: locked, .. } => token.fid == fid && locked.overlaps(span),
        _ => false,
    }
}

/// The length of a file in bytes, as it is seen.
pub fn length_seen(tables: &Tables, fid: Fid) -> u32
    ensures { result ≡ content tables.now.cache fid Size }
{
    match tables.cache.status(fid) {
        Some(status) => status.length,
        None => 0,
    }
}

/// The length of a file that is dirty: a token for update of its status is held, and the last length that was given
/// back since that was taken isn't the present one, or isn't known as applied.
pub(crate) fn dirty_length(tables: &Tables, fid: Fid) -> Option<u32>
    ensures { result ≡ dirty_length tables.now fid }
{
    if is_length_dirty(tables, fid) {
        return Some(length_seen(tables, fid));
    }
    None
}

/// Whether the length of a file is dirty.
pub(crate) fn is_length_dirty(tables: &Tables, fid: Fid) -> bool
    ensures { result ≡ is_length_dirty (held_of tables.now) tables.now.lengths (content tables.now.cache) fid }
{
    has_update(&tables.cache, fid)
        && !is_length_clean(&tables.lengths, fid, length_seen(tables, fid))
}

// Whether a token for update of the status of a file is held.
fn has_update(cache: &Cache, fid: Fid) -> bool
    ensures { result ≡ list_any (is_updating fid) (tokens_of cache.now.held) }
{
    updates_any(cache.tokens_at(fid))
}

// Whether one of some tokens is for update of the status.
fn updates_any(tokens: &[Token]) -> bool
    ensures { result ≡ list_any (λ token. updates_status token.kind) tokens.now }
{
    tokens.iter().any(|token| is_length_update(token.kind))
}

// Whether a length of a file was given back last, and is known as applied.
fn is_length_clean(lengths: &Lengths, fid: Fid, length: u32) -> bool
    ensures { result ≡ option_map_or (λ given. (given.length == length) && given.known)
        (length_given lengths.now fid) false }
{
    match lengths.given(fid) {
        Some(given) => given.length == length && given.known,
        None => false,
    }
}

/// Whether a token of this kind is for update of the status, so that the length may be changed under it.
pub fn is_length_update(kind: Kind) -> bool
    ensures { result ≡ updates_status kind }
{
    matches!(kind, Kind::Status { update: true })
}

/// The bytes that a token is for changing.
pub(crate) fn update_span(kind: Kind) -> Option<Span>
    ensures { result ≡ update_span kind }
{
    match kind {
        Kind::Bytes { update, span } => span_if(update, span),
        _ => None,
    }
}

// A span where something is so.
fn span_if(is_so: bool, span: Span) -> Option<Span>
    ensures { result ≡ (if is_so then Some span else None) }
{
    if is_so { Some(span) } else { None }
}
