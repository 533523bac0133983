ghost use Rattle.std.specs.Prelude.{◌≡◌, IsTrue, None, [], option_map, option_copied, filter, OnOk, OnErr};
ghost use Rattle.std.specs.List.{find, position};
ghost use Rattle.host_labels.specs.Labels.{is_lock, is_labelled, use_of, has_id, is_pinned};
ghost use Rattle.host_labels.specs.Labels.{after_take, after_drop, after_pin, IsSound};

use base_types::{Items, Name, NoMemory, Plain};
use std::alloc::Global;
use std::marker::Model;
use token_types::{Kind, Token, TokenId};

/// A label in use, and the token under which it is.
#[derive(Drop)]
pub struct Labelled {
    pub label: Name,
    pub token: Token,
}

/// The labels in use at a host, in the order in which they were taken, and the pinned tokens. Labels of locks and
/// labels of opens are two spaces of names: a label whose token is a lock is one of the first, any other one of the
/// second. A token is pinned only while a label is in use for it.
#[derive(Drop)]
pub struct Uses {
    labels: Items<Labelled>,
    pinned: Items<TokenId>,
}

impl Model for Uses {
    ghost use Rattle.host_labels.specs.Labels.{InUse, IsSound};

    ghost Value = { InUse };

    ghost view = { λ u. record { labels = u.labels; pinned = u.pinned } };

    ghost invariant = { λ u. IsSound (record { labels = u.labels; pinned = u.pinned }) };
}

impl Uses {
    /// No label is in use. It takes no memory.
    pub fn new(alloc: Global) -> Uses
        ensures { result ≡ record { labels = []; pinned = [] } }
    {
        Uses {
            labels: Items::new(alloc),
            pinned: Items::new(alloc),
        }
    }

    /// What holds of all labels in use: each is in use once in its space, and a pinned token has a label. It does
    /// nothing.
    pub fn laws(&self)
        ensures { IsSound self.now }
    {
        let _labels = &self.labels;
    }

    /// Takes a label in use for a token. It isn't in use for a token of that type. The only error is that memory ran
    /// out; then nothing changes.
    pub fn take(&mut self, label: &Name, token: &Token) -> Result<(), NoMemory>
        requires { use_of self.old (is_lock token.now.kind) label.now ≡ None }
        ensures after { OnOk result (self.new ≡ after_take self.old label.now token.now) }
        ensures err { OnErr result (self.new ≡ self.old) }
    {
        let label = label.copy()?;
        self.labels.push(Labelled {
            label,
            token: *token,
        })?;
        Ok(())
    }

    /// The token of a label of locks, or else of opens; None where the label isn't in use there. It takes no memory.
    pub fn find(&self, lock: bool, label: &Name) -> Option<TokenId>
        ensures { result ≡ option_map (λ used. used.token.id) (use_of self.now lock label.now) }
    {
        find_use(self.labels.as_slice(), lock, label).map(|used| used.token.id)
    }

    /// Takes a label of locks, or else of opens, out of use. A token whose last label goes is pinned no more. It
    /// answers None where the label isn't in use there; then nothing changes. It takes no memory.
    pub fn drop_label(&mut self, lock: bool, label: &Name) -> Option<Labelled>
        ensures dropped { result ≡ use_of self.old lock label.now }
        ensures after { self.new ≡ after_drop self.old lock label.now }
    {
        let Some(index) = place_of(self.labels.as_slice(), lock, label) else {
            return None;
        };
        let dropped = self.labels.remove(index);
        keep_pins(&mut self.pinned, self.labels.as_slice());
        Some(dropped)
    }

    /// The labels in use, in the order in which they were taken. It takes no memory.
    pub fn labels(&self) -> &[Labelled]
        ensures { result.now ≡ self.now.labels }
    {
        self.labels.as_slice()
    }

    /// Pins a token for which a label is in use. The only error is that memory ran out; then nothing changes.
    pub fn pin(&mut self, id: TokenId) -> Result<(), NoMemory>
        requires { IsTrue (has_id self.old.labels id) }
        ensures after { OnOk result (self.new ≡ after_pin self.old id) }
        ensures err { OnErr result (self.new ≡ self.old) }
    {
        if !self.is_pinned(id) {
            self.pinned.push(id)?;
        }
        Ok(())
    }

    /// Whether a token is pinned. It takes no memory.
    pub fn is_pinned(&self, id: TokenId) -> bool
        ensures { result ≡ is_pinned self.now id }
    {
        self.pinned.as_slice().iter().any(|other| *other == id)
    }
}

impl Labelled {
    // Whether it is this label, of locks or else of opens.
    fn is(&self, lock: bool, label: &Name) -> bool
        ensures { result ≡ is_labelled lock label.now self.now }
    {
        is_lock(self.token.kind) == lock && self.label == *label
    }
}

fn is_lock(kind: Kind) -> bool
    ensures { result ≡ is_lock kind }
{
    matches!(kind, Kind::Lock { .. })
}

fn find_use<'a>(labels: &'a [Labelled], lock: bool, label: &Name) -> Option<&'a Labelled>
    ensures { option_copied result ≡ find (is_labelled lock label.now) labels.now }
{
    labels.iter().find(|used| used.is(lock, label))
}

fn place_of(labels: &[Labelled], lock: bool, label: &Name) -> Option<usize>
    ensures { result ≡ position (is_labelled lock label.now) labels.now }
{
    labels.iter().position(|used| used.is(lock, label))
}

fn has_id(labels: &[Labelled], id: TokenId) -> bool
    ensures { result ≡ has_id labels.now id }
{
    labels.iter().any(|used| used.token.id == id)
}

// Keeps those of the pinned tokens for which a label is in use.
fn keep_pins(pinned: &mut Items<TokenId>, labels: &[Labelled])
    ensures { pinned.new ≡ filter (has_id labels.now) pinned.old }
{
    pinned.retain(|id| has_id(labels, *id));
}
