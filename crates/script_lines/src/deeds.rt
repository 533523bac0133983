ghost use Rattle.std.specs.Prelude.{◌≡◌};
ghost use Rattle.script_words.specs.Outcome.{Gives};
ghost use Rattle.script_lines.specs.Locks.{lock_part, last_kind};
ghost use Rattle.script_lines.specs.Deeds.{raise_deed, verb_of, which_of, which_at, only_place, rename_call};
ghost use Rattle.script_lines.specs.Deeds.{truncate_call, clone_call, read_call, write_call, lock_call, open_call};
ghost use Rattle.script_lines.specs.Deeds.{getacl_call, setacl_call, only_label, is_mixed, move_call, call_by};
ghost use Rattle.script_lines.specs.Deeds.{host_deed, server_deed, deed_of};

use crate::context::Context;
use crate::script::{Deed, NUMBER_MAX};
use base_types::{Name, Node, OpenKind};
use script_words::{
    BadWhy, Fault, Words, end_at, is_word, known, label_at, list_at, lock_mode_of, name_at,
    open_kind_of, small_at, text_at, unless, word_at,
};
use tree_calls::{Call, Place, Which};

/// What the second word of a line asks for.
#[derive(Clone, Copy)]
pub(crate) enum Verb {
    Create,
    MakeDir,
    Remove,
    Rename,
    Truncate,
    SetAcl,
    GetAcl,
    CloneFileset,
    Read,
    Write,
    List,
    Stat,
    Sync,
    Unlock,
    CloseFile,
    Lock,
    OpenFile,
    Raise,
    Await,
    Stop,
    Restart,
    Move,
}

#[tactic(auto, unfolding(crate::specs::Deeds::verb_of))]
fn verb_of(word: &[u8]) -> Option<Verb>
    ensures { result ≡ verb_of word.now }
{
    if is_word(word, b"create") {
        Some(Verb::Create)
    } else if is_word(word, b"mkdir") {
        Some(Verb::MakeDir)
    } else if is_word(word, b"remove") {
        Some(Verb::Remove)
    } else if is_word(word, b"rename") {
        Some(Verb::Rename)
    } else if is_word(word, b"truncate") {
        Some(Verb::Truncate)
    } else if is_word(word, b"setacl") {
        Some(Verb::SetAcl)
    } else if is_word(word, b"getacl") {
        Some(Verb::GetAcl)
    } else if is_word(word, b"clone") {
        Some(Verb::CloneFileset)
    } else if is_word(word, b"read") {
        Some(Verb::Read)
    } else if is_word(word, b"write") {
        Some(Verb::Write)
    } else if is_word(word, b"list") {
        Some(Verb::List)
    } else if is_word(word, b"stat") {
        Some(Verb::Stat)
    } else if is_word(word, b"sync") {
        Some(Verb::Sync)
    } else if is_word(word, b"unlock") {
        Some(Verb::Unlock)
    } else if is_word(word, b"close") {
        Some(Verb::CloseFile)
    } else if is_word(word, b"lock") {
        Some(Verb::Lock)
    } else if is_word(word, b"open") {
        Some(Verb::OpenFile)
    } else if is_word(word, b"raise") {
        Some(Verb::Raise)
    } else if is_word(word, b"await") {
        Some(Verb::Await)
    } else if is_word(word, b"stop") {
        Some(Verb::Stop)
    } else if is_word(word, b"restart") {
        Some(Verb::Restart)
    } else if is_word(word, b"move") {
        Some(Verb::Move)
    } else {
        None
    }
}

#[tactic(auto, unfolding(crate::specs::Deeds::which_of))]
fn which_of(word: &[u8]) -> Option<Which>
    ensures { result ≡ which_of word.now }
{
    if is_word(word, b"list") {
        Some(Which::Own)
    } else if is_word(word, b"files") {
        Some(Which::Files)
    } else if is_word(word, b"dirs") {
        Some(Which::Dirs)
    } else {
        None
    }
}

#[tactic(auto, unfolding(crate::specs::Deeds::which_at))]
fn which_at(words: &Words, i: usize) -> Result<Which, Fault>
    ensures { Gives result (which_at words.now i) }
{
    known(which_of(word_at(words, i)?.as_slice()))
}

// Whether some servers have a disk and some have none, where there are so many.
fn is_mixed(servers: u32, disks: u32) -> bool
    ensures { result ≡ is_mixed servers disks }
{
    0 < disks && disks < servers
}

/// What a lock covers, and how.
#[derive(Clone, Copy)]
pub(crate) struct LockPart {
    pub writing: bool,
    pub from: u32,
    pub len: u32,
}

// What a lock covers, in the words behind its place; no more words follow.
#[tactic(auto, unfolding(crate::specs::Locks::lock_part))]
fn lock_part(words: &Words) -> Result<LockPart, Fault>
    ensures { Gives result (lock_part words.now) }
{
    let writing = known(lock_mode_of(word_at(words, 4)?.as_slice()))?;
    let from = small_at(words, 5, 0, NUMBER_MAX)?;
    let len = small_at(words, 6, 1, NUMBER_MAX)?;
    end_at(words, 7)?;
    Ok(LockPart { writing, from, len })
}

// How a file is opened, in the word behind its place; no more words follow.
#[tactic(auto, unfolding(crate::specs::Locks::last_kind))]
fn last_kind(words: &Words) -> Result<OpenKind, Fault>
    ensures { Gives result (last_kind words.now) }
{
    let kind = known(open_kind_of(word_at(words, 4)?.as_slice()))?;
    end_at(words, 5)?;
    Ok(kind)
}

// The label of a line that has no more words.
#[tactic(auto, unfolding(crate::specs::Deeds::only_label))]
fn only_label(words: &Words) -> Result<Name, Fault>
    ensures { Gives result (only_label words.now) }
{
    let label = label_at(words, 2)?;
    end_at(words, 3)?;
    Ok(label)
}

impl Context {
    // The place of a line that has no more words.
    #[tactic(auto, unfolding(crate::specs::Deeds::only_place))]
    fn only_place(&self, words: &Words) -> Result<Place, Fault>
        ensures { Gives result (only_place self.now.placed words.now) }
    {
        let place = self.place_at(words, 2)?;
        end_at(words, 3)?;
        Ok(place)
    }

    #[tactic(auto, unfolding(crate::specs::Deeds::rename_call))]
    fn rename_call(&self, words: &Words) -> Result<Call, Fault>
        ensures { Gives result (rename_call self.now.placed words.now) }
    {
        let from = self.place_at(words, 2)?;
        let to = self.place_at(words, 3)?;
        end_at(words, 4)?;
        Ok(Call::Rename { from, to })
    }

    #[tactic(auto, unfolding(crate::specs::Deeds::truncate_call))]
    fn truncate_call(&self, words: &Words) -> Result<Call, Fault>
        ensures { Gives result (truncate_call self.now.placed words.now) }
    {
        let place = self.place_at(words, 2)?;
        let length = small_at(words, 3, 0, NUMBER_MAX)?;
        end_at(words, 4)?;
        Ok(Call::Truncate { place, length })
    }

    #[tactic(auto, unfolding(crate::specs::Deeds::getacl_call))]
    fn getacl_call(&self, words: &Words) -> Result<Call, Fault>
        ensures { Gives result (getacl_call self.now.placed words.now) }
    {
        let place = self.place_at(words, 2)?;
        let which = which_at(words, 3)?;
        end_at(words, 4)?;
        Ok(Call::GetAcl { place, which })
    }

    #[tactic(auto, unfolding(crate::specs::Deeds::setacl_call))]
    fn setacl_call(&self, words: &Words) -> Result<Call, Fault>
        ensures { Gives result (setacl_call self.now.placed words.now) }
    {
        let place = self.place_at(words, 2)?;
        let which = which_at(words, 3)?;
        let list = list_at(words, 4)?;
        end_at(words, 5)?;
        Ok(Call::SetAcl { place, which, list })
    }

    #[tactic(auto, unfolding(crate::specs::Deeds::read_call))]
    fn read_call(&self, words: &Words) -> Result<Call, Fault>
        ensures { Gives result (read_call self.now.placed words.now) }
    {
        let place = self.place_at(words, 2)?;
        let from = small_at(words, 3, 0, NUMBER_MAX)?;
        let len = small_at(words, 4, 0, NUMBER_MAX)?;
        end_at(words, 5)?;
        Ok(Call::Read { place, from, len })
    }

    #[tactic(auto, unfolding(crate::specs::Deeds::write_call))]
    fn write_call(&self, words: &Words) -> Result<Call, Fault>
        ensures { Gives result (write_call self.now.placed words.now) }
    {
        let place = self.place_at(words, 2)?;
        let from = small_at(words, 3, 0, NUMBER_MAX)?;
        let bytes = text_at(words, 4)?;
        end_at(words, 5)?;
        Ok(Call::Write { place, from, bytes })
    }

    #[tactic(auto, unfolding(crate::specs::Deeds::lock_call))]
    fn lock_call(&self, words: &Words) -> Result<Call, Fault>
        ensures { Gives result (lock_call self.now.placed words.now) }
    {
        let label = label_at(words, 2)?;
        let place = self.place_at(words, 3)?;
        let part = lock_part(words)?;
        Ok(Call::Lock {
            label,
            place,
            writing: part.writing,
            from: part.from,
            len: part.len,
        })
    }

    #[tactic(auto, unfolding(crate::specs::Deeds::open_call))]
    fn open_call(&self, words: &Words) -> Result<Call, Fault>
        ensures { Gives result (open_call self.now.placed words.now) }
    {
        let label = label_at(words, 2)?;
        let place = self.place_at(words, 3)?;
        let kind = last_kind(words)?;
        Ok(Call::OpenFile { label, place, kind })
    }

    // A clone stays at its source's server, where its name is placed for the whole script.
    #[tactic(auto, unfolding(crate::specs::Deeds::clone_call))]
    fn clone_call(&self, words: &Words) -> Result<Call, Fault>
        ensures { Gives result (clone_call self.now.placed words.now) }
    {
        let fileset = name_at(words, 2)?;
        let Some(server) = self.server_of(&fileset) else {
            return Err(Fault::Bad(BadWhy::Undeclared));
        };
        let new = name_at(words, 3)?;
        unless(self.is_elsewhere(&new, server), BadWhy::Repeated)?;
        end_at(words, 4)?;
        Ok(Call::CloneFileset {
            server,
            fileset,
            new,
        })
    }

    // A fileset goes to a declared server, where each server has a disk, or none.
    #[tactic(auto, unfolding(crate::specs::Deeds::move_call))]
    fn move_call(&self, disks: u32, words: &Words) -> Result<Call, Fault>
        ensures { Gives result (move_call self.now.script disks self.now.placed words.now) }
    {
        let fileset = name_at(words, 2)?;
        let Some(server) = self.server_of(&fileset) else {
            return Err(Fault::Bad(BadWhy::Undeclared));
        };
        let to = self.server_at(words, 3)?;
        unless(is_mixed(self.script.servers, disks), BadWhy::Disks)?;
        end_at(words, 4)?;
        Ok(Call::MoveFileset {
            server,
            fileset,
            to,
        })
    }

    #[tactic(auto, unfolding(crate::specs::Deeds::call_by))]
    fn call_by(&self, verb: Verb, words: &Words) -> Result<Call, Fault>
        ensures { Gives result (call_by self.now.placed verb words.now) }
    {
        match verb {
            Verb::Create => Ok(Call::Create {
                place: self.only_place(words)?,
            }),
            Verb::MakeDir => Ok(Call::MakeDir {
                place: self.only_place(words)?,
            }),
            Verb::Remove => Ok(Call::Remove {
                place: self.only_place(words)?,
            }),
            Verb::List => Ok(Call::List {
                place: self.only_place(words)?,
            }),
            Verb::Stat => Ok(Call::Stat {
                place: self.only_place(words)?,
            }),
            Verb::Sync => Ok(Call::Sync {
                place: self.only_place(words)?,
            }),
            Verb::Unlock => Ok(Call::Unlock {
                label: only_label(words)?,
            }),
            Verb::CloseFile => Ok(Call::CloseFile {
                label: only_label(words)?,
            }),
            Verb::Rename => self.rename_call(words),
            Verb::Truncate => self.truncate_call(words),
            Verb::SetAcl => self.setacl_call(words),
            Verb::GetAcl => self.getacl_call(words),
            Verb::CloneFileset => self.clone_call(words),
            Verb::Read => self.read_call(words),
            Verb::Write => self.write_call(words),
            Verb::Lock => self.lock_call(words),
            Verb::OpenFile => self.open_call(words),
            _ => Err(Fault::Bad(BadWhy::Word)),
        }
    }

    #[tactic(auto, unfolding(crate::specs::Deeds::raise_deed))]
    fn raise_deed(&self, words: &Words) -> Result<Deed, Fault>
        ensures { Gives result (raise_deed self.now.raised words.now) }
    {
        let flag = label_at(words, 2)?;
        unless(self.raised.has(&flag), BadWhy::Repeated)?;
        end_at(words, 3)?;
        Ok(Deed::Raise(flag))
    }

    #[tactic(auto, unfolding(crate::specs::Deeds::host_deed))]
    fn host_deed(&self, disks: u32, verb: Verb, words: &Words) -> Result<Deed, Fault>
        ensures { Gives result (host_deed self.now.script disks self.now.placed self.now.raised verb words.now) }
    {
        match verb {
            Verb::Raise => self.raise_deed(words),
            Verb::Await => Ok(Deed::Await(only_label(words)?)),
            Verb::Stop => {
                end_at(words, 2)?;
                Ok(Deed::Stop)
            }
            Verb::Move => Ok(Deed::Call(self.move_call(disks, words)?)),
            _ => Ok(Deed::Call(self.call_by(verb, words)?)),
        }
    }

    #[tactic(auto, unfolding(crate::specs::Deeds::server_deed))]
    fn server_deed(&self, verb: Verb, words: &Words) -> Result<Deed, Fault>
        ensures { Gives result (server_deed self.now.raised verb words.now) }
    {
        match verb {
            Verb::Raise => self.raise_deed(words),
            Verb::Await => Ok(Deed::Await(only_label(words)?)),
            Verb::Restart => {
                end_at(words, 2)?;
                Ok(Deed::Restart)
            }
            _ => Err(Fault::Bad(BadWhy::Word)),
        }
    }

    /// The deed of a node's line, in its words from the second on. `Word` where the second word is no deed of such a
    /// node.
    #[tactic(auto, unfolding(crate::specs::Deeds::deed_of))]
    pub(crate) fn deed_of(&self, disks: u32, node: Node, words: &Words) -> Result<Deed, Fault>
        ensures { Gives result (deed_of self.now.script disks self.now.placed self.now.raised node words.now) }
    {
        let verb = known(verb_of(word_at(words, 1)?.as_slice()))?;
        match node {
            Node::Host(_) => self.host_deed(disks, verb, words),
            Node::Server(_) => self.server_deed(verb, words),
        }
    }
}
