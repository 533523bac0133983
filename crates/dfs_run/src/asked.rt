//! The words that ask for a journal.
ghost use Rattle.std.specs.Prelude.{◌≡◌, map, option_map};
ghost use Rattle.std.specs.String.{string_bytes};
ghost use Rattle.script_commands.specs.Disks.{is_disk_name};
ghost use Rattle.dfs_run.specs.Words.{asks_for_journal, journal_name, run_words};

use script_words::is_word;

// Whether a word can be the name of a file: as of a disk it isn't empty, and begins with no dash.
fn is_file_name(word: &[u8]) -> bool
    ensures { result ≡ is_disk_name word.now }
{
    matches!(word, [first, ..] if *first != b'-')
}

// Whether these are `run --journal FILE ..`.
fn asks_for_journal(words: &[String]) -> bool
    ensures { result ≡ asks_for_journal (map string_bytes words.now) }
{
    match words {
        [first, option, file, ..] => {
            is_word(first.as_bytes(), b"run")
                && is_word(option.as_bytes(), b"--journal")
                && is_file_name(file.as_bytes())
        }
        _ => false,
    }
}

/// Takes `--journal FILE` out of the words `run --journal FILE ..`, and gives FILE; other words stay.
pub(crate) fn take_journal(words: &mut Vec<String>) -> Option<String>
    ensures name { option_map string_bytes result ≡ journal_name (map string_bytes words.old.items) }
    ensures rest { map string_bytes words.new.items ≡ run_words (map string_bytes words.old.items) }
{
    if asks_for_journal(words.as_slice()) {
        words.remove(1);
        Some(words.remove(1))
    } else {
        None
    }
}
