//! What the words of a row say.

use anyhow::{Context, Result, bail};
use base_types::{
    AccessEntry, AccessList, Fid, FilesetId, HostId, Items, Name, OpenKind, Rights, ServerId, User,
    Who,
};
use std::alloc::Global;
use tree_calls::{Call, Place, Which};

/// The words of a row that are left.
#[derive(Drop)]
pub struct Words<'a> {
    alloc: Global,
    left: &'a str,
}

impl<'a> Words<'a> {
    /// The words of a row.
    pub fn new(alloc: Global, row: &'a str) -> Words<'a> {
        Words { alloc, left: row }
    }

    /// The next word, empty at the end.
    pub fn next(&mut self) -> &'a str {
        let (word, rest) = self.left.split_once(' ').unwrap_or((self.left, ""));
        self.left = rest;
        word
    }

    /// All that are left.
    pub fn rest(&self) -> &'a str {
        self.left
    }

    /// Where what is read is put.
    pub fn alloc(&self) -> Global {
        self.alloc
    }

    /// Whether none is left.
    pub fn is_empty(&self) -> bool {
        self.left.is_empty()
    }

    /// A number.
    pub fn number(&mut self) -> Result<u32> {
        self.next().parse::<u32>().context("a number")
    }

    /// A number of up to 64 bits.
    pub fn long(&mut self) -> Result<u64> {
        self.next().parse::<u64>().context("a number")
    }

    /// A host, as `c1`.
    pub fn host(&mut self) -> Result<HostId> {
        host(self.next())
    }

    /// `0`, or `sK.N` by the server that made it and its number there.
    pub fn fileset(&mut self) -> Result<FilesetId> {
        let word = self.next();
        let Some((maker, number)) = word.split_once('.') else {
            return Ok(FilesetId(0));
        };
        let number = number.parse::<u32>().context("a fileset")?;
        Ok(FilesetId((u32::from(server(maker)?.0) * 65_536).wrapping_add(number)))
    }

    /// A fileset, an anode and its unique number.
    pub fn fid(&mut self) -> Result<Fid> {
        let fileset = self.fileset()?;
        let anode = self.number()?;
        let unique = self.number()?;
        Ok(Fid {
            fileset,
            anode,
            unique,
        })
    }

    /// A name.
    pub fn name(&mut self) -> Result<Name> {
        let word = self.next();
        self.named(word)
    }

    fn named(&self, word: &str) -> Result<Name> {
        name(self.alloc, word)
    }

    /// A place.
    pub fn place(&mut self) -> Result<Place> {
        place(self.alloc, self.next())
    }

    fn list(&mut self) -> Result<AccessList> {
        let mut entries = Items::new(self.alloc);
        for word in self.next().split(',') {
            entries.push(entry(self.alloc, word)?)?;
        }
        Ok(AccessList::new(self.alloc, entries.as_slice())?)
    }

    /// A user of the group dev.
    pub fn user(&mut self) -> Result<User> {
        user(self.alloc, self.next(), "dev")
    }

    /// Bytes, in quotes or not.
    pub fn bytes(&mut self) -> Result<Items<u8>> {
        let word = self.next();
        Ok(Items::from_slice(self.alloc, word.trim_matches('"').as_bytes())?)
    }

    /// A call. Places are at server 1 where the path names no other.
    pub fn call(&mut self) -> Result<Call> {
        match self.next() {
            "fileset" => self.new_fileset(),
            "create" => Ok(Call::Create {
                place: self.place()?,
            }),
            "mkdir" => Ok(Call::MakeDir {
                place: self.place()?,
            }),
            "remove" => Ok(Call::Remove {
                place: self.place()?,
            }),
            "rename" => self.rename(),
            "truncate" => self.truncate(),
            "setacl" => self.set_access(),
            "clone" => self.clone_fileset(),
            "move" => self.move_fileset(),
            word => self.look_or_use(word),
        }
    }

    fn look_or_use(&mut self, word: &str) -> Result<Call> {
        match word {
            "read" => self.read(),
            "write" => self.write(),
            "list" => Ok(Call::List {
                place: self.place()?,
            }),
            "stat" => Ok(Call::Stat {
                place: self.place()?,
            }),
            "getacl" => self.get_access(),
            "sync" => Ok(Call::Sync {
                place: self.place()?,
            }),
            "lock" => self.lock(),
            "unlock" => Ok(Call::Unlock {
                label: self.name()?,
            }),
            "open" => self.open(),
            "close" => Ok(Call::CloseFile {
                label: self.name()?,
            }),
            _ => bail!("no call: {word}"),
        }
    }

    /// A server, as `s1`.
    pub fn server(&mut self) -> Result<ServerId> {
        server(self.next())
    }

    fn new_fileset(&mut self) -> Result<Call> {
        let server = self.server()?;
        let name = self.next();
        let objects = self.number()?;
        Ok(Call::NewFileset {
            server,
            name: self.named(name)?,
            objects,
            owner: self.user()?,
        })
    }

    fn rename(&mut self) -> Result<Call> {
        Ok(Call::Rename {
            from: self.place()?,
            to: self.place()?,
        })
    }

    fn truncate(&mut self) -> Result<Call> {
        let path = self.next();
        let length = self.number()?;
        let place = place(self.alloc, path)?;
        Ok(Call::Truncate { place, length })
    }

    fn set_access(&mut self) -> Result<Call> {
        let path = self.next();
        let which = which(self.next());
        Ok(Call::SetAcl {
            place: place(self.alloc, path)?,
            which,
            list: self.list()?,
        })
    }

    fn clone_fileset(&mut self) -> Result<Call> {
        Ok(Call::CloneFileset {
            server: self.server()?,
            fileset: self.name()?,
            new: self.name()?,
        })
    }

    fn move_fileset(&mut self) -> Result<Call> {
        let server = self.server()?;
        let name = self.next();
        let to = self.server()?;
        let fileset = self.named(name)?;
        Ok(Call::MoveFileset {
            server,
            fileset,
            to,
        })
    }

    fn read(&mut self) -> Result<Call> {
        let path = self.next();
        let from = self.number()?;
        let len = self.number()?;
        let place = place(self.alloc, path)?;
        Ok(Call::Read { place, from, len })
    }

    fn write(&mut self) -> Result<Call> {
        let path = self.next();
        let from = self.number()?;
        Ok(Call::Write {
            place: place(self.alloc, path)?,
            from,
            bytes: self.bytes()?,
        })
    }

    fn get_access(&mut self) -> Result<Call> {
        Ok(Call::GetAcl {
            place: self.place()?,
            which: which(self.next()),
        })
    }

    fn lock(&mut self) -> Result<Call> {
        let label = self.next();
        let path = self.next();
        let writing = self.next() == "write";
        let from = self.number()?;
        let len = self.number()?;
        Ok(Call::Lock {
            label: self.named(label)?,
            place: place(self.alloc, path)?,
            writing,
            from,
            len,
        })
    }

    fn open(&mut self) -> Result<Call> {
        Ok(Call::OpenFile {
            label: self.name()?,
            place: self.place()?,
            kind: open_kind(self.next()),
        })
    }
}

/// A user of some groups, with `+` between them.
pub fn user(alloc: Global, text: &str, groups: &str) -> Result<User> {
    Ok(User {
        name: name(alloc, text)?,
        groups: names(alloc, groups, '+')?,
    })
}

// The names between marks.
fn names(alloc: Global, text: &str, mark: char) -> Result<Items<Name>> {
    let mut names = Items::new(alloc);
    for part in text.split(mark) {
        if !part.is_empty() {
            names.push(name(alloc, part)?)?;
        }
    }
    Ok(names)
}

fn name(alloc: Global, text: &str) -> Result<Name> {
    Ok(Name::new(alloc, text.as_bytes())?)
}

/// `c0`, `c1` and so on.
pub fn host(text: &str) -> Result<HostId> {
    let number = text.strip_prefix("c").unwrap_or("");
    Ok(HostId(number.parse::<u8>().context("a host")?))
}

/// `s1`, `s2` and so on.
pub fn server(text: &str) -> Result<ServerId> {
    let number = text.strip_prefix("s").unwrap_or("");
    Ok(ServerId(number.parse::<u8>().context("a server")?))
}

/// `/FILESET/NAME/..`, at server 1, or `sK:/FILESET/NAME/..`.
fn place(alloc: Global, text: &str) -> Result<Place> {
    let (at, path) = text.split_once(':').unwrap_or(("s1", text));
    let path = path.strip_prefix("/").unwrap_or("");
    let (fileset, rest) = path.split_once('/').unwrap_or((path, ""));
    Ok(Place {
        server: server(at)?,
        fileset: name(alloc, fileset)?,
        path: names(alloc, rest, '/')?,
    })
}

fn which(text: &str) -> Which {
    match text {
        "files" => Which::Files,
        "dirs" => Which::Dirs,
        _ => Which::Own,
    }
}

fn open_kind(text: &str) -> OpenKind {
    match text {
        "writing" => OpenKind::Writing,
        "executing" => OpenKind::Executing,
        "shared" => OpenKind::Shared,
        "exclusive" => OpenKind::Exclusive,
        _ => OpenKind::Reading,
    }
}

fn entry(alloc: Global, word: &str) -> Result<AccessEntry> {
    let (text, letters) = word.rsplit_once(':').unwrap_or((word, ""));
    Ok(AccessEntry {
        who: who(alloc, text)?,
        rights: rights(letters),
    })
}

fn who(alloc: Global, text: &str) -> Result<Who> {
    Ok(match text.split_once(':') {
        Some(("user", user)) => Who::User(name(alloc, user)?),
        Some((_, group)) => Who::Group(name(alloc, group)?),
        None => match text {
            "user_obj" => Who::UserObj,
            "group_obj" => Who::GroupObj,
            "mask_obj" => Who::MaskObj,
            _ => Who::OtherObj,
        },
    })
}

fn rights(letters: &str) -> Rights {
    let mut rights = Rights::NONE;
    for letter in letters.bytes() {
        rights = rights.union(match letter {
            b'r' => Rights::READ,
            b'w' => Rights::WRITE,
            b'x' => Rights::EXECUTE,
            b'c' => Rights::CONTROL,
            b'i' => Rights::INSERT,
            b'd' => Rights::DELETE,
            _ => Rights::NONE,
        });
    }
    rights
}
