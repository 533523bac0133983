ghost use Rattle.std.specs.Prelude.{◌≡◌, map};
ghost use Rattle.std.specs.String.{string_bytes};
ghost use Rattle.script_commands.specs.Plain.{is_dashed, is_plain, are_plain};

use script_words::is_word;

fn is_dashed(word: &[u8]) -> bool
    ensures { result ≡ is_dashed word.now }
{
    matches!(word, [b'-', ..])
}

#[tactic(auto, unfolding(script_words::specs::Fields::is_word))]
fn is_plain(word: &[u8]) -> bool
    ensures { result ≡ is_plain word.now }
{
    match word.strip_prefix(b"--workers=") {
        Some(value) => !is_dashed(value),
        None => is_word(word, b"--json") || !is_dashed(word),
    }
}

/// Whether no word after the first one could be taken for an option that the grammar doesn't have, nor a value for an
/// option.
#[tactic(auto, unfolding(crate::specs::Plain::are_plain), using(crate::proofs::Refused::plain_first, crate::proofs::Refused::plain_value))]
pub(crate) fn are_plain(words: &[String]) -> bool
    ensures { result ≡ are_plain (map string_bytes words.now) }
{
    let mut awaits = false;
    for word in words {
        let word = word.as_bytes();
        if awaits {
            if is_dashed(word) {
                return false;
            }
            awaits = false;
        } else if is_word(word, b"--workers") {
            awaits = true;
        } else if !is_plain(word) {
            return false;
        }
    }
    !awaits
}
