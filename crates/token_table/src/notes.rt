ghost use Rattle.std.specs.Prelude.{◌≡◌, None, IsSome, All, OnOk, OnErr};
ghost use Rattle.std.specs.FinMap as map;
ghost use Rattle.token_table.specs.Marks.{key_of, note_at, with_note, without_note, with_pin, with_mark, with_each};
ghost use Rattle.token_table.specs.Marks.{without_each, without_notes_of, is_pinned, is_revoked};

use base_types::{HostId, NoMemory, Plain};
use std::alloc::Global;
use std::collections::BTreeMap;
use std::marker::Model;
use token_types::{Token, TokenId};

// The number of a token: the server, the epoch and the sequence number.
type NoteKey = (u8, (u64, u64));

/// What is noted of a granted token.
#[derive(Clone, Copy, PartialEq)]
pub struct Note {
    pub host: HostId,
    /// The number of the want by which it was granted; None where it was claimed again after a restart.
    pub want: Option<u64>,
    /// Whether its host keeps it, because it is in use.
    pub pinned: bool,
    /// Whether its host was asked to give it back.
    pub revoked: bool,
}

/// Notes of tokens by their numbers. Contracts see them as a map.
#[derive(Drop)]
pub struct Notes {
    notes: BTreeMap<NoteKey, Note>,
}

impl Model for Notes {
    ghost use Rattle.std.specs.FinMap as map;
    ghost use Rattle.token_table.specs.Marks.{NoteMap, key_code, note_code};

    ghost Value = { NoteMap };

    ghost coded = { map.code key_code note_code };

    ghost view = { λ n. map.from_entries n.notes.entries };
}

impl Notes {
    /// No notes. It takes no memory.
    pub fn new(alloc: Global) -> Notes
        ensures { result ≡ map.empty }
    {
        Notes {
            notes: BTreeMap::new(alloc),
        }
    }

    /// What is noted of the token with this number. It takes no memory.
    pub fn get(&self, id: TokenId) -> Option<Note>
        ensures { result ≡ note_at self.now id }
    {
        self.notes.get(&key_of(id)).copied()
    }

    /// Whether the token with this number is pinned. It takes no memory.
    pub fn is_pinned(&self, id: TokenId) -> bool
        ensures { result ≡ is_pinned self.now id }
    {
        match self.get(id) {
            Some(note) => note.pinned,
            None => false,
        }
    }

    /// Whether the token with this number was asked back. It takes no memory.
    pub fn is_revoked(&self, id: TokenId) -> bool
        ensures { result ≡ is_revoked self.now id }
    {
        match self.get(id) {
            Some(note) => note.revoked,
            None => false,
        }
    }

    /// Notes this of the token with this number, in the place of what was noted of it. On an error nothing changes.
    pub fn insert(&mut self, id: TokenId, note: Note) -> Result<(), NoMemory>
        ensures after { OnOk result (self.new ≡ with_note self.old id note) }
        ensures err { OnErr result (self.new ≡ self.old) }
    {
        self.notes.insert(key_of(id), note)?;
        Ok(())
    }

    /// Forgets what is noted of the token with this number. It takes no memory.
    pub fn remove(&mut self, id: TokenId)
        ensures { self.new ≡ without_note self.old id }
    {
        self.notes.remove(&key_of(id));
    }

    /// Notes that the token with this number is pinned, where anything is noted of it. It takes no memory.
    pub fn pin(&mut self, id: TokenId)
        ensures { self.new ≡ with_pin self.old id }
    {
        let Some(note) = self.get(id) else {
            return;
        };
        self.put(
            id,
            Note {
                pinned: true,
                ..note
            },
        );
    }

    /// Notes that the token with this number was asked back, where anything is noted of it. It takes no memory.
    pub fn set_revoked(&mut self, id: TokenId)
        ensures { self.new ≡ with_mark self.old id }
    {
        let Some(note) = self.get(id) else {
            return;
        };
        self.put(
            id,
            Note {
                revoked: true,
                ..note
            },
        );
    }

    /// Notes this in the place of what is noted of the token with this number.
    fn put(&mut self, id: TokenId, note: Note)
        requires { IsSome (note_at self.old id) }
        ensures { self.new ≡ with_note self.old id note }
    {
        let _before = self.notes.insert(key_of(id), note);
    }

    /// Notes this of each of the tokens, of which nothing is noted. On an error nothing changes.
    pub fn insert_each(&mut self, tokens: &[Token], note: Note) -> Result<(), NoMemory>
        requires fresh { All (λ token. note_at self.old token.id ≡ None) tokens.now }
        ensures after { OnOk result (self.new ≡ with_each self.old tokens.now note) }
        ensures err { OnErr result (self.new ≡ self.old) }
    {
        for (index, token) in tokens.iter().enumerate() {
            if let Err(NoMemory) = self.insert(token.id, note) {
                self.remove_each(&tokens[..index]);
                return Err(NoMemory);
            }
        }
        Ok(())
    }

    /// Forgets what is noted of each of the tokens. It takes no memory.
    pub fn remove_each(&mut self, tokens: &[Token])
        ensures { self.new ≡ without_each self.old tokens.now }
    {
        for token in tokens {
            self.remove(token.id);
        }
    }

    /// Forgets what is noted of the tokens of a host. It takes no memory.
    pub fn drop_host(&mut self, host: HostId)
        ensures { self.new ≡ without_notes_of self.old host }
    {
        self.notes.retain(|_, note| note.host != host);
    }
}

impl Plain for Notes {
    fn copy(&self) -> Result<Notes, NoMemory> {
        Ok(Notes {
            notes: self.notes.clone()?,
        })
    }
}

fn key_of(id: TokenId) -> NoteKey
    ensures { result ≡ key_of id }
{
    (id.server.0, (id.epoch, id.seq))
}
