ghost use Rattle.std.specs.Prelude.{◌≡◌, ◌+◌, ◌≤◌, ◌<◌, ◌^◌, ◌↔◌, length, Some, is_some, IsTrue};
ghost use Rattle.std.specs.Prelude.{IsErr, is_ok, IfOk, OnOk, OnErr};
ghost use Rattle.base_types.specs.Crash.{IsSettled, IsQuiet, ChangesBy};
ghost use Rattle.base_types.specs.Faults.{RoseBy};
ghost use Rattle.base_types.specs.Image.{bytes_from, Torn, Holds};
ghost use Rattle.base_types.specs.View.{IsCounted};
ghost use Rattle.base_types.specs.declared.limits.TheConstants.{DISK_END};

use crate::fault::FileFault;
use base_types::{DISK_END, Disk, Failed};
use std::fs::{File, OpenOptions};
use std::io::{Seek, SeekFrom};
use std::os::unix::fs::{FileExt, FileTypeExt};
use std::path::Path;
use std::rt::Files;
use std::{fs, io};

/// A disk over a file. It tells nothing of its bytes: what a file does with them, and what a crash leaves of them, is
/// not proved. It counts each call that failed, and tells why the last one did. After a sync that failed every later
/// call fails, since a kernel may drop what it could not write and answer the next sync well.
///
/// It holds the file's lock as long as it is open: for itself alone, or, where it was opened to be read, together with
/// others that only read. The lock is advisory: it keeps out programs that ask for it, as this one does.
#[derive(Drop)]
pub struct FileDisk {
    file: File,
    faults: u64,
    failed: Option<FileFault>,
    lost: Option<FileFault>,
}

impl FileDisk {
    ghost use Rattle.disk_device.specs.File.{last_fault, IsLost, FailsForGood, IsWhole};

    /// Opens the file, or makes an empty one and syncs its folder; and takes its lock. The disk has counted no fault.
    /// The error says why the system refused that; it is `NoDisk` where the name is that of a folder, a pipe or a
    /// socket, and `InUse` where another program has the lock, or this one has it, as of a file that was named twice.
    pub fn open_or_make<F: Files<File = File>>(rt: &F, name: &str) -> Result<FileDisk, FileFault>
        ensures { IfOk result (λ disk. IsWhole disk) }
    {
        let file = match opened(rt, name, OpenOptions::new().read(true).write(true)) {
            Err(FileFault::NoFile) => made(rt, name)?,
            answer => answer?,
        };
        file.try_lock()?;
        Ok(FileDisk::of(file))
    }

    /// Opens the file for reading alone, and takes its lock together with others that only read. The disk has counted
    /// no fault. The error says why the system refused that, as above; a file that isn't there is not made.
    pub fn open_to_read<F: Files<File = File>>(rt: &F, name: &str) -> Result<FileDisk, FileFault>
        ensures { IfOk result (λ disk. IsWhole disk) }
    {
        let file = opened(rt, name, OpenOptions::new().read(true))?;
        file.try_lock_shared()?;
        Ok(FileDisk::of(file))
    }

    fn of(file: File) -> FileDisk
        ensures { IsWhole result }
    {
        FileDisk {
            file,
            faults: 0,
            failed: None,
            lost: None,
        }
    }

    /// Why its last call failed; none where it didn't.
    pub fn fault(&self) -> Option<FileFault>
        ensures { result ≡ last_fault self.now }
    {
        self.failed
    }

    // Counts a call, and a fault where it failed.
    fn told<T: Drop>(&mut self, answer: io::Result<T>) -> Result<T, Failed>
        ensures counted { self.old.faults ≤ self.new.faults }
        ensures cause { OnErr result (RoseBy 1 self.old.faults self.new.faults) }
        ensures last { IsTrue (is_some self.new.failed) ↔ IsErr result }
        ensures kind { is_ok result ≡ is_ok answer }
        ensures lost { self.new.lost ≡ self.old.lost }
    {
        match answer {
            Ok(value) => {
                self.failed = None;
                Ok(value)
            }
            Err(error) => self.fail(FileFault::from(error)),
        }
    }

    // Counts a call that failed, and why.
    fn fail<T: Drop>(&mut self, fault: FileFault) -> Result<T, Failed>
        ensures cause { RoseBy 1 self.old.faults self.new.faults }
        ensures counted { self.old.faults ≤ self.new.faults }
        ensures last { self.new.failed ≡ Some fault }
        ensures failed { IsErr result }
        ensures lost { self.new.lost ≡ self.old.lost }
    {
        self.failed = Some(fault);
        self.faults = self.faults.saturating_add(1);
        Err(Failed)
    }
}

// Opens a file that is there, or a device. A folder isn't opened, nor a pipe or a socket, at which an open could wait.
fn opened<F: Files<File = File>>(
    rt: &F,
    name: &str,
    options: &OpenOptions,
) -> Result<File, FileFault> {
    let kind = match fs::metadata(rt, name) {
        Ok(metadata) => metadata.file_type(),
        Err(error) if error.kind() == io::ErrorKind::NotFound => return Err(FileFault::NoFile),
        Err(error) => return Err(FileFault::from(error)),
    };
    if kind.is_file() || kind.is_block_device() || kind.is_char_device() {
        Ok(options.open(rt, name)?)
    } else {
        Err(FileFault::NoDisk)
    }
}

// Makes an empty file, and its name durable.
fn made<F: Files<File = File>>(rt: &F, name: &str) -> Result<File, FileFault> {
    let mut options = OpenOptions::new();
    options.read(true).write(true).create(true);
    match options.open(rt, name) {
        Ok(file) => {
            sync_folder(rt, name)?;
            Ok(file)
        }
        Err(error) if error.kind() == io::ErrorKind::NotFound => Err(FileFault::NoFolder),
        Err(error) => Err(FileFault::from(error)),
    }
}

// Makes the name of a new file durable.
fn sync_folder<F: Files<File = File>>(rt: &F, name: &str) -> io::Result<()> {
    let folder = match Path::new(name).parent() {
        Some(folder) if folder.as_str() != "" => folder,
        _ => Path::new("."),
    };
    File::open(rt, folder)?.sync_all()
}

// Fills `out` from `at` on, with zeros past the end of the file.
fn read_padded(file: &File, at: u64, out: &mut [u8]) -> io::Result<()>
    requires { at + length out.old < 2 ^ 63 }
{
    let mut done = 0;
    for _ in 0..u64::MAX {
        if done >= out.len() {
            break;
        }
        match file.read_at(&mut out[done..], at + done as u64) {
            Ok(0) => {
                out[done..].fill(0);
                break;
            }
            Ok(n) => done += n,
            Err(error) if error.kind() == io::ErrorKind::Interrupted => {}
            Err(error) => return Err(error),
        }
    }
    Ok(())
}

impl Disk for FileDisk {
    ghost use Rattle.disk_device.specs.File.{untold_view, IsLost, FailsForGood};

    ghost tells = { ⊥ };

    ghost view = { untold_view };

    ghost reads_one = { λ disk told. told };

    ghost has_bytes = { λ disk told. absurd told };

    fn length(&mut self) -> Result<u64, Failed>
        ensures answer { ⊥ → IfOk result (λ n. n ≡ length (untold_view self.old).image) }
        ensures quiet { IsQuiet (untold_view self.old) (untold_view self.new) }
        ensures faults { IsCounted result (untold_view self.old) (untold_view self.new) }
        ensures lost { FailsForGood result self.old self.new }
    {
        if let Some(fault) = self.lost {
            return self.fail(fault);
        }
        let answer = (&self.file).seek(SeekFrom::End(0));
        self.told(answer)
    }

    fn read(&mut self, at: u64, out: &mut [u8]) -> Result<(), Failed>
        requires { at + length out.old ≤ DISK_END }
        ensures bytes { ⊥ → OnOk result (out.new ≡ bytes_from (untold_view self.old).image at (length out.old)) }
        ensures quiet { IsQuiet (untold_view self.old) (untold_view self.new) }
        ensures faults { IsCounted result (untold_view self.old) (untold_view self.new) }
        ensures lost { FailsForGood result self.old self.new }
    {
        if let Some(fault) = self.lost {
            return self.fail(fault);
        }
        let answer = read_padded(&self.file, at, out);
        self.told(answer)
    }

    fn write_at(&mut self, at: u64, piece: &[u8]) -> Result<(), Failed>
        requires { at + length piece.now ≤ DISK_END }
        ensures written { ⊥ → OnOk result (Holds at piece.now (untold_view self.new).image) }
        ensures torn { ⊥ → Torn at (length piece.now) (untold_view self.old).image (untold_view self.new).image }
        ensures crash { ChangesBy (Torn at (length piece.now)) (untold_view self.old) (untold_view self.new) }
        ensures faults { IsCounted result (untold_view self.old) (untold_view self.new) }
        ensures lost { FailsForGood result self.old self.new }
    {
        if let Some(fault) = self.lost {
            return self.fail(fault);
        }
        let answer = self.file.write_all_at(piece, at);
        self.told(answer)
    }

    fn sync(&mut self) -> Result<(), Failed>
        ensures durable { OnOk result (IsSettled (untold_view self.new)) }
        ensures quiet { IsQuiet (untold_view self.old) (untold_view self.new) }
        ensures faults { IsCounted result (untold_view self.old) (untold_view self.new) }
        ensures lost { FailsForGood result self.old self.new }
        ensures loses { OnErr result (IsLost self.new) }
    {
        if let Some(fault) = self.lost {
            return self.fail(fault);
        }
        match self.file.sync_all() {
            Ok(()) => self.told(Ok(())),
            Err(error) => {
                let fault = FileFault::from(error);
                self.lost = Some(fault);
                self.fail(fault)
            }
        }
    }
}
