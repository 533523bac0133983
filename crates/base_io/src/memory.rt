ghost use Rattle.std.specs.Prelude.{◌≡◌, ◌≤◌, ◌<◌, ◌++◌, ◌↔◌, ⊤, [], true, min, length, take, IsErr, None, IfOk, OnErr};
ghost use Rattle.base_types.specs.Faults.{RoseBy};
ghost use Rattle.base_outside.specs.Calls.{new_calls, is_to_fail, counted, after_call, IsCall};

use base_outside::Calls;
use base_types::{Failed, Items, NoMemory, Sink, Source};
use std::alloc::Global;

/// Input that lies in memory. The calls that are listed fail, and no others.
#[derive(Drop)]
pub struct MemSource {
    bytes: Items<u8>,
    taken: usize,
    calls: Calls,
    ghost within: { taken ≤ length bytes },
}

impl MemSource {
    ghost use Rattle.base_io.specs.Memory.{left_of, source_calls};

    /// Input of these bytes. The calls with the listed numbers fail; the first has number 1.
    pub fn new(alloc: Global, bytes: &[u8], failing: &[u64]) -> Result<MemSource, NoMemory>
        ensures bytes { IfOk result (λ source. left_of source ≡ bytes.now) }
        ensures calls { IfOk result (λ source. source_calls source ≡ new_calls failing.now None) }
    {
        Ok(MemSource {
            bytes: Items::from_slice(alloc, bytes)?,
            taken: 0,
            calls: Calls::new(Items::from_slice(alloc, failing)?, None),
        })
    }
}

// Copies as many bytes as there are and as fit, and answers how many.
fn copied(from: &[u8], into: &mut [u8]) -> usize
    ensures count { result ≡ min (length from.now) (length into.old) }
    ensures front { take result into.new ≡ take result from.now }
{
    let n = from.len().min(into.len());
    into[..n].copy_from_slice(&from[..n]);
    n
}

impl Source for MemSource {
    ghost use Rattle.base_io.specs.Memory.{left_of, source_calls};

    ghost tells = { ⊤ };

    ghost left = { left_of };

    ghost faults = { λ source. (source_calls source).faults };

    fn take(&mut self, out: &mut [u8]) -> Result<usize, Failed>
        ensures within { IfOk result (λ n. n ≤ length out.old) }
        ensures moved { ⊤ → IfOk result (λ n. left_of self.old ≡ take n out.new ++ left_of self.new) }
        ensures end { ⊤ → IfOk result (λ n. n ≡ 0 → 0 < length out.old → left_of self.new ≡ []) }
        ensures kept { ⊤ → OnErr result (left_of self.new ≡ left_of self.old) }
        ensures counted { (source_calls self.old).faults ≤ (source_calls self.new).faults }
        ensures cause { OnErr result (RoseBy 1 (source_calls self.old).faults (source_calls self.new).faults) }
        ensures calls { source_calls self.new ≡ after_call (source_calls self.old) }
        ensures fails { IsErr result ↔ (is_to_fail (counted (source_calls self.old)) ≡ true) }
    {
        if self.calls.next_fails() {
            return Err(Failed);
        }
        let n = copied(&self.bytes.as_slice()[self.taken..], out);
        self.taken += n;
        Ok(n)
    }
}

/// Output that is kept in memory. The calls that are listed fail, and those that find no memory.
#[derive(Drop)]
pub struct MemSink {
    bytes: Items<u8>,
    calls: Calls,
}

impl MemSink {
    ghost use Rattle.base_io.specs.Memory.{got_by, sink_calls};

    /// No output so far. The calls with the listed numbers fail; the first has number 1.
    pub fn new(alloc: Global, failing: &[u64]) -> Result<MemSink, NoMemory>
        ensures bytes { IfOk result (λ sink. got_by sink ≡ []) }
        ensures calls { IfOk result (λ sink. sink_calls sink ≡ new_calls failing.now None) }
    {
        Ok(MemSink {
            bytes: Items::new(alloc),
            calls: Calls::new(Items::from_slice(alloc, failing)?, None),
        })
    }

    /// What it got.
    pub fn bytes(&self) -> &[u8]
        ensures { result.now ≡ got_by self.now }
    {
        self.bytes.as_slice()
    }

    /// How many growths found no memory.
    pub fn refused(&self) -> u64
        ensures { result ≡ (sink_calls self.now).refused }
    {
        self.calls.refused
    }
}

impl Sink for MemSink {
    ghost use Rattle.base_io.specs.Memory.{got_by, sink_calls};

    ghost tells = { ⊤ };

    ghost got = { got_by };

    ghost faults = { λ sink. (sink_calls sink).faults };

    fn put(&mut self, piece: &[u8]) -> Result<usize, Failed>
        ensures within { IfOk result (λ n. n ≤ length piece.now) }
        ensures appended { ⊤ → IfOk result (λ n. got_by self.new ≡ got_by self.old ++ take n piece.now) }
        ensures kept { ⊤ → OnErr result (got_by self.new ≡ got_by self.old) }
        ensures counted { (sink_calls self.old).faults ≤ (sink_calls self.new).faults }
        ensures nothing { IfOk result
            (λ n. n ≡ 0 → 0 < length piece.now → RoseBy 1 (sink_calls self.old).faults (sink_calls self.new).faults) }
        ensures cause { OnErr result (RoseBy 1 (sink_calls self.old).faults (sink_calls self.new).faults) }
        ensures whole { IfOk result (λ n. n ≡ length piece.now) }
        ensures calls { IsCall result (sink_calls self.old) (sink_calls self.new) }
    {
        if self.calls.next_fails() {
            return Err(Failed);
        }
        if self.bytes.extend(piece).is_err() {
            self.calls.refuse_growth();
            return Err(Failed);
        }
        Ok(piece.len())
    }
}
