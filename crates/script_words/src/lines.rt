ghost use Rattle.std.specs.Prelude.{◌≡◌, ◌<◌, ◌≤◌, ◌∷◌, IsTrue, length};
ghost use Rattle.script_words.specs.Lines.{line_len, lines_of, ends_in, without_end, content, says_nothing, first_mark};

use memchr::memchr;

/// The first line, with the line feed that ends it, and what comes after it. The last line may lack its line feed.
#[tactic(auto, using(crate::proofs::Splits::lines_split))]
pub fn next_line(bytes: &[u8]) -> (&[u8], &[u8])
    requires { 0 < length bytes.now }
    ensures split { lines_of bytes.now ≡ result.0.now ∷ lines_of result.1.now }
    ensures less { length result.1.now < length bytes.now }
{
    bytes.split_at(line_len(bytes))
}

// How many bytes the first line has, its line feed counted.
#[tactic(auto, using(crate::proofs::Splits::first_found, crate::proofs::Splits::none_found))]
fn line_len(bytes: &[u8]) -> usize
    ensures value { result ≡ line_len bytes.now }
    ensures within { result ≤ length bytes.now }
    ensures some { 0 < length bytes.now → 0 < result }
{
    match memchr(b'\n', bytes) {
        Some(at) => at + 1,
        None => bytes.len(),
    }
}

// A line without this byte at its end.
#[tactic(auto, unfolding(crate::specs::Lines::without_end))]
pub(crate) fn without_end(line: &[u8], byte: u8) -> &[u8]
    ensures { result.now ≡ without_end byte line.now }
{
    if ends_in(line, byte) {
        &line[..line.len() - 1]
    } else {
        line
    }
}

fn ends_in(line: &[u8], byte: u8) -> bool
    ensures value { result ≡ ends_in byte line.now }
    ensures some { IsTrue result → 0 < length line.now }
{
    match line.last() {
        Some(last) => *last == byte,
        None => false,
    }
}

// A line without its line feed, and without a carriage return before that.
#[tactic(auto, unfolding(crate::specs::Lines::content))]
pub(crate) fn content(line: &[u8]) -> &[u8]
    ensures { result.now ≡ content line.now }
{
    if ends_in(line, b'\n') {
        without_end(without_end(line, b'\n'), b'\r')
    } else {
        line
    }
}

// Whether a line has only spaces, or a `#` after them.
pub(crate) fn says_nothing(text: &[u8]) -> bool
    ensures { result ≡ says_nothing text.now }
{
    match first_mark(text) {
        Some(mark) => mark == b'#',
        None => true,
    }
}

// The first byte that isn't a space.
fn first_mark(text: &[u8]) -> Option<u8>
    ensures { result ≡ first_mark text.now }
{
    text.iter().copied().find(|byte| *byte != b' ')
}
