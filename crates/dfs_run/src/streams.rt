use disk_device::FileFault;
use std::fs::File;
use std::io;
use std::os::fd::AsFd;
use std::rt::Files;

/// The standard streams, each of which has a descriptor. One that was closed when the program started would leave its
/// number to the next file that is opened, so that a disk would be read as the script, or be written over. A folder
/// stands in for it, open for reading: it can be neither read as a file nor written, so that the stream fails.
#[derive(Drop)]
pub(crate) struct Streams {
    _input: Option<File>,
    _output: Option<File>,
    _errors: Option<File>,
}

impl Streams {
    /// Finds out which streams are closed, and puts something in their place. Called before any file is opened. The
    /// error is the system's refusal to open a folder.
    pub(crate) fn hold<R: Files<File = File>>(
        rt: &R,
        input: &impl AsFd,
        output: &impl AsFd,
        errors: &impl AsFd,
    ) -> Result<Streams, FileFault> {
        Ok(Streams {
            _input: stand_in(rt, input)?,
            _output: stand_in(rt, output)?,
            _errors: stand_in(rt, errors)?,
        })
    }
}

// What takes the descriptor of a stream that is closed. The system gives a new file the lowest number that is free, and
// those of the streams in front are taken.
fn stand_in<R: Files<File = File>>(rt: &R, stream: &impl AsFd) -> io::Result<Option<File>> {
    match stream.as_fd().try_clone_to_owned() {
        Ok(_copy) => Ok(None),
        Err(_) => Ok(Some(File::open(rt, "/")?)),
    }
}
