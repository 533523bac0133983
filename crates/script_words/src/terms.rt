//! What single words name.
ghost use Rattle.std.specs.Prelude.{◌≡◌};
ghost use Rattle.script_words.specs.Terms.{open_kind_of, lock_mode_of, kind_of};

use crate::fields::is_word;
use base_types::OpenKind;

/// How a file is opened: `reading`, `writing`, `executing`, `shared` or `exclusive`.
#[tactic(auto, unfolding(crate::specs::Terms::open_kind_of))]
pub fn open_kind_of(word: &[u8]) -> Option<OpenKind>
    ensures { result ≡ open_kind_of word.now }
{
    if is_word(word, b"reading") {
        Some(OpenKind::Reading)
    } else if is_word(word, b"writing") {
        Some(OpenKind::Writing)
    } else if is_word(word, b"executing") {
        Some(OpenKind::Executing)
    } else if is_word(word, b"shared") {
        Some(OpenKind::Shared)
    } else if is_word(word, b"exclusive") {
        Some(OpenKind::Exclusive)
    } else {
        None
    }
}

/// Whether a lock is for writing: `write`, or `read`.
#[tactic(auto, unfolding(crate::specs::Terms::lock_mode_of))]
pub fn lock_mode_of(word: &[u8]) -> Option<bool>
    ensures { result ≡ lock_mode_of word.now }
{
    if is_word(word, b"read") {
        Some(false)
    } else if is_word(word, b"write") {
        Some(true)
    } else {
        None
    }
}

/// The number of a message's kind, where a plan may name it.
#[tactic(auto, unfolding(crate::specs::Terms::kind_of))]
pub fn kind_of(word: &[u8]) -> Option<u8>
    ensures { result ≡ kind_of word.now }
{
    if is_word(word, b"hello") {
        Some(1)
    } else if is_word(word, b"fetch") {
        Some(2)
    } else if is_word(word, b"grant") {
        Some(3)
    } else if is_word(word, b"change") {
        Some(4)
    } else if is_word(word, b"done") {
        Some(5)
    } else if is_word(word, b"revoke") {
        Some(6)
    } else if is_word(word, b"returned") {
        Some(7)
    } else if is_word(word, b"kept") {
        Some(8)
    } else if is_word(word, b"giveback") {
        Some(9)
    } else if is_word(word, b"gone") {
        Some(10)
    } else if is_word(word, b"reclaim") {
        Some(11)
    } else if is_word(word, b"reclaimed") {
        Some(12)
    } else if is_word(word, b"restarted") {
        Some(13)
    } else if is_word(word, b"bye") {
        Some(15)
    } else {
        None
    }
}
