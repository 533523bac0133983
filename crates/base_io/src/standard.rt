ghost use Rattle.std.specs.Prelude.{◌≡◌, ◌≤◌, ◌<◌, ◌++◌, [], length, take, IfOk, OnErr};
ghost use Rattle.std.specs.Io.KnownBytes.{ReadConsumes, WriteAppends};
ghost use Rattle.base_types.specs.Faults.{RoseBy};
ghost use Rattle.base_io.specs.Standard.{reader_of, writer_of, untold};

use base_types::{Failed, Sink, Source};
use std::io::{Read, Write};

/// Input from a reader of std. It tells nothing of its bytes.
#[derive(Drop)]
pub struct StdSource<R: Read> {
    reader: R,
    faults: u64,
}

impl<R: Read> StdSource<R> {
    /// Input from this reader.
    pub fn new(reader: R) -> StdSource<R>
        ensures { reader_of result ≡ reader }
    {
        StdSource { reader, faults: 0 }
    }
}

impl<R: Read> Source for StdSource<R> {
    ghost tells = { ⊥ };

    ghost left = { λ _. untold };

    ghost faults = { λ source. source.faults };

    fn take(&mut self, out: &mut [u8]) -> Result<usize, Failed>
        ensures within { IfOk result (λ n. n ≤ length out.old) }
        ensures moved { ⊥ → IfOk result (λ n. untold ≡ take n out.new ++ untold) }
        ensures end { ⊥ → IfOk result (λ n. n ≡ 0 → 0 < length out.old → untold ≡ []) }
        ensures kept { ⊥ → OnErr result (untold ≡ untold) }
        ensures counted { self.old.faults ≤ self.new.faults }
        ensures cause { OnErr result (RoseBy 1 self.old.faults self.new.faults) }
        ensures reader { ReadConsumes
            (R.remaining (reader_of self.old)) (R.remaining (reader_of self.new)) result out.new }
    {
        match self.reader.read(out) {
            Ok(n) => Ok(n),
            Err(_) => {
                self.faults = self.faults.saturating_add(1);
                Err(Failed)
            }
        }
    }
}

/// Output to a writer of std. It tells nothing of its bytes.
#[derive(Drop)]
pub struct StdSink<W: Write> {
    writer: W,
    faults: u64,
}

impl<W: Write> StdSink<W> {
    /// Output to this writer.
    pub fn new(writer: W) -> StdSink<W>
        ensures { writer_of result ≡ writer }
    {
        StdSink { writer, faults: 0 }
    }
}

impl<W: Write> Sink for StdSink<W> {
    ghost tells = { ⊥ };

    ghost got = { λ _. untold };

    ghost faults = { λ sink. sink.faults };

    fn put(&mut self, piece: &[u8]) -> Result<usize, Failed>
        ensures within { IfOk result (λ n. n ≤ length piece.now) }
        ensures appended { ⊥ → IfOk result (λ n. untold ≡ untold ++ take n piece.now) }
        ensures kept { ⊥ → OnErr result (untold ≡ untold) }
        ensures counted { self.old.faults ≤ self.new.faults }
        ensures nothing { IfOk result (λ n. n ≡ 0 → 0 < length piece.now → RoseBy 1 self.old.faults self.new.faults) }
        ensures cause { OnErr result (RoseBy 1 self.old.faults self.new.faults) }
        ensures writer { WriteAppends
            (W.contents (writer_of self.old)) (W.contents (writer_of self.new)) result piece.now }
    {
        match self.writer.write(piece) {
            Ok(n) if n > 0 || piece.is_empty() => Ok(n),
            _ => {
                self.faults = self.faults.saturating_add(1);
                Err(Failed)
            }
        }
    }
}
