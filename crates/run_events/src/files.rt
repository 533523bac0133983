//! Which files have which paths, as far as the journal tells it: by the tree at the start, by the names of directories
//! that servers tell, and by the filesets that hosts enter.

use run_words::{FileId, case_of, file_of, is_true_at, list_at, number_at, text_at};
use serde_json::Value;
use std::alloc::{AllocError, Global};
use std::collections::BTreeMap;

// What a name in a directory stands for.
#[derive(Clone, Copy, PartialEq, Eq)]
struct Link {
    dir: FileId,
    file: FileId,
}

// A request, by its host, its server and its number.
type Request = (u64, u64, u64);

/// Which files have which paths, at any time of the run.
#[derive(Drop)]
pub struct Files {
    // The numbers of the filesets of a name.
    filesets: BTreeMap<String, Vec<u64>>,
    // What a name stands for, in all directories.
    links: BTreeMap<String, Vec<Link>>,
    // The names of the filesets that hosts ask to enter.
    entered: BTreeMap<Request, String>,
}

impl Files {
    /// No file.
    pub(crate) fn new(alloc: Global) -> Files {
        Files {
            filesets: BTreeMap::new(alloc),
            links: BTreeMap::new(alloc),
            entered: BTreeMap::new(alloc),
        }
    }

    /// Notes the filesets of a tree, and the names in them.
    pub(crate) fn note_tree(&mut self, alloc: Global, tree: &Value) -> Result<(), AllocError> {
        for fileset in list_at(tree, "filesets").unwrap_or(&[]).iter() {
            if let Some(number) = number_at(fileset, "id") {
                self.note_fileset(alloc, text_at(fileset, "name").unwrap_or(""), number)?;
                self.note_anodes(alloc, number, fileset)?;
            }
        }
        Ok(())
    }

    fn note_fileset(&mut self, alloc: Global, name: &str, number: u64) -> Result<(), AllocError> {
        if let Some(numbers) = self.filesets.get_mut(name) {
            if !numbers.contains(&number) {
                numbers.push(number)?;
            }
            return Ok(());
        }
        let key = String::from_str(alloc, name)?;
        let mut numbers = Vec::new(alloc);
        numbers.push(number)?;
        self.filesets.insert(key, numbers)?;
        Ok(())
    }

    fn note_link(&mut self, alloc: Global, name: &str, link: Link) -> Result<(), AllocError> {
        if let Some(links) = self.links.get_mut(name) {
            if !links.contains(&link) {
                links.push(link)?;
            }
            return Ok(());
        }
        let key = String::from_str(alloc, name)?;
        let mut links = Vec::new(alloc);
        links.push(link)?;
        self.links.insert(key, links)?;
        Ok(())
    }

    fn note_anodes(
        &mut self,
        alloc: Global,
        fileset: u64,
        holds: &Value,
    ) -> Result<(), AllocError> {
        let mut anode = 0u64;
        for held in list_at(holds, "anodes").unwrap_or(&[]).iter() {
            anode = anode.saturating_add(1);
            let dir = FileId {
                fileset,
                anode,
                unique: number_at(held, "unique").unwrap_or(0),
            };
            if let Some(content) = held.pointer("/object/content/dir") {
                self.note_names(alloc, dir, content)?;
            }
        }
        Ok(())
    }

    // Notes the names of a directory.
    fn note_names(&mut self, alloc: Global, dir: FileId, holds: &Value) -> Result<(), AllocError> {
        for entry in list_at(holds, "entries").unwrap_or(&[]).iter() {
            let file = FileId {
                fileset: dir.fileset,
                anode: number_at(entry, "anode").unwrap_or(0),
                unique: number_at(entry, "unique").unwrap_or(0),
            };
            let link = Link { dir, file };
            self.note_link(alloc, text_at(entry, "name").unwrap_or(""), link)?;
        }
        Ok(())
    }

    /// Notes what a message tells of names.
    pub(crate) fn note_message(
        &mut self,
        alloc: Global,
        message: &Value,
    ) -> Result<(), AllocError> {
        let Some((kind, holds)) = message.get("body").and_then(case_of) else {
            return Ok(());
        };
        match kind {
            "grant" => match holds.pointer("/bring/fid").and_then(file_of) {
                Some(dir) => self.note_names(alloc, dir, holds),
                None => Ok(()),
            },
            "change" if is_true_at(holds, "enter") => self.note_entering(alloc, message, holds),
            "done" => self.note_entered(alloc, message, holds),
            _ => Ok(()),
        }
    }

    // A host asks to enter the fileset of a call.
    fn note_entering(
        &mut self,
        alloc: Global,
        message: &Value,
        change: &Value,
    ) -> Result<(), AllocError> {
        let Some(request) = request_of(message, number_at(change, "number")) else {
            return Ok(());
        };
        let name = String::from_str(alloc, fileset_name(change).unwrap_or(""))?;
        self.entered.insert(request, name)?;
        Ok(())
    }

    // A server tells which fileset it is.
    fn note_entered(
        &mut self,
        alloc: Global,
        message: &Value,
        done: &Value,
    ) -> Result<(), AllocError> {
        let number = done
            .get("bring")
            .and_then(|bring| number_at(bring, "number"));
        let Some(request) = request_of(message, number) else {
            return Ok(());
        };
        let Some(fileset) = done
            .get("outcome")
            .and_then(|outcome| number_at(outcome, "known"))
        else {
            return Ok(());
        };
        match self.entered.remove(&request) {
            Some(name) => self.note_fileset(alloc, name.as_str(), fileset),
            None => Ok(()),
        }
    }

    /// The files that ever had a path, as far as it is known.
    pub fn at_path(&self, alloc: Global, path: &str) -> Result<Vec<FileId>, AllocError> {
        let mut files = Vec::new(alloc);
        let mut is_below = false;
        for name in path.split('/') {
            if !name.is_empty() {
                files = if is_below {
                    self.below(alloc, files.as_slice(), name)?
                } else {
                    self.roots(alloc, name)?
                };
                is_below = true;
            }
        }
        Ok(files)
    }

    // The roots of the filesets of a name.
    fn roots(&self, alloc: Global, name: &str) -> Result<Vec<FileId>, AllocError> {
        let mut files = Vec::new(alloc);
        if let Some(numbers) = self.filesets.get(name) {
            for number in numbers.iter() {
                files.push(root_of(*number))?;
            }
        }
        Ok(files)
    }

    // What ever had this name in one of these directories.
    fn below(&self, alloc: Global, dirs: &[FileId], name: &str) -> Result<Vec<FileId>, AllocError> {
        let mut files = Vec::new(alloc);
        if let Some(links) = self.links.get(name) {
            for link in links.iter() {
                if dirs.contains(&link.dir) {
                    files.push(link.file)?;
                }
            }
        }
        Ok(files)
    }
}

// The root of a fileset.
fn root_of(fileset: u64) -> FileId {
    FileId {
        fileset,
        anode: 1,
        unique: 1,
    }
}

fn request_of(message: &Value, number: Option<u64>) -> Option<Request> {
    let host = number_at(message, "host")?;
    Some((host, number_at(message, "server")?, number?))
}

// The name of the fileset that a Change is about.
fn fileset_name(change: &Value) -> Option<&str> {
    let (_, holds) = case_of(change.get("call")?)?;
    match text_at(holds, "fileset") {
        Some(name) => Some(name),
        None => {
            let place = match holds.get("place") {
                Some(place) => place,
                None => holds.get("from")?,
            };
            text_at(place, "fileset")
        }
    }
}
