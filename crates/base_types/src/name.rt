ghost use Rattle.std.specs.Prelude.{◌≡◌, ◌↔◌, false, IsTrue, IfOk, IsErrOf};
ghost use Rattle.std.specs.List.{list_any};
ghost use Rattle.base_types.specs.Name.{is_before, is_name, is_separator};

use crate::errors::NoMemory;
use crate::limits::NAME_BYTES_MAX;
use crate::plain::Plain;
use std::alloc::{AllocError, Global};
use std::marker::Model;
use thiserror::Error;

/// The name of a user, a group, a fileset, an entry of a directory or a label: 1 to 60 bytes,
/// without `/` and without the byte 0. Contracts see it as its bytes.
#[derive(Debug)]
pub struct Name {
    // Its bytes, and zeros behind them.
    bytes: [u8; NAME_BYTES_MAX],
    length: usize,
}

impl Drop for Name {
    fn drop(self) {
        let Name {
            bytes: _,
            length: _,
        } = self;
    }
}

impl Model for Name {
    ghost use Rattle.std.specs.Prelude.{List, ℕ, ◌≤◌, take, IsTrue};
    ghost use Rattle.base_types.specs.declared.limits.TheConstants.{NAME_BYTES_MAX};
    ghost use Rattle.base_types.specs.Name.{is_name};

    ghost Value = { List ℕ };

    ghost view = { λ a. take a.length a.bytes };

    ghost invariant = { λ a. (a.length ≤ NAME_BYTES_MAX) × IsTrue (is_name (take a.length a.bytes)) };
}

/// Why bytes are no name.
#[derive(Clone, Copy, Debug, PartialEq, Eq, Error)]
pub enum NameRefused {
    /// There are none or more than `NAME_BYTES_MAX` of them, or a `/` or a 0 is among them.
    #[error("no name")]
    BadName,
    /// Memory ran out.
    #[error("memory ran out")]
    Memory,
}

impl From<AllocError> for NameRefused {
    ghost use Rattle.base_types.specs.declared.name.NameRefused.TheVariants.{Memory};

    ghost from_gives = { λ _ e. e ≡ Memory };

    fn from(_error: AllocError) -> NameRefused {
        NameRefused::Memory
    }
}

impl Name {
    /// Whether these bytes are a name.
    pub fn accepts(bytes: &[u8]) -> bool
        ensures { result ≡ is_name bytes.now }
    {
        1 <= bytes.len() && bytes.len() <= NAME_BYTES_MAX && !has_separator(bytes)
    }

    /// The name with these bytes.
    pub fn new(_alloc: Global, bytes: &[u8]) -> Result<Name, NameRefused>
        ensures ok { IfOk result (λ name. name ≡ bytes.now) }
        ensures bad { IsErrOf result NameRefused.BadName ↔ (is_name bytes.now ≡ false) }
    {
        if !Name::accepts(bytes) {
            return Err(NameRefused::BadName);
        }
        Ok(Name::of(bytes))
    }

    /// Whether this name comes before another, in the order of their bytes.
    pub fn is_before(&self, other: &Name) -> bool
        ensures { result ≡ is_before self.now other.now }
    {
        self.as_bytes().cmp(&other.as_bytes()).is_lt()
    }

    pub fn as_bytes(&self) -> &[u8]
        ensures value { result.now ≡ self.now }
        ensures name { IsTrue (is_name self.now) }
    {
        &self.bytes[..self.length]
    }

    // The name with these bytes.
    fn of(bytes: &[u8]) -> Name
        requires { IsTrue (is_name bytes.now) }
        ensures { result ≡ bytes.now }
    {
        let mut all = [0; NAME_BYTES_MAX];
        all[..bytes.len()].copy_from_slice(bytes);
        Name {
            bytes: all,
            length: bytes.len(),
        }
    }
}

impl PartialEq for Name {
    ghost use Rattle.std.proofs.Common.{rules};
    ghost use Rattle.std.specs.Cmp.Rules.{comparing};
    ghost use Rattle.base_types.specs.Name.{same_name};

    ghost eq = { λ a b. same_name a b };

    ghost laws = { Prim.search (comparing, rules) };

    fn eq(&self, other: &Name) -> bool {
        self.as_bytes() == other.as_bytes()
    }
}

// Whether a `/` or a 0 is among the bytes.
fn has_separator(bytes: &[u8]) -> bool
    ensures { result ≡ list_any is_separator bytes.now }
{
    bytes.iter().any(|byte| *byte == b'/' || *byte == 0)
}

impl Plain for Name {
    fn copy(&self) -> Result<Name, NoMemory> {
        Ok(Name {
            bytes: self.bytes,
            length: self.length,
        })
    }
}
