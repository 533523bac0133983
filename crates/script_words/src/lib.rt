//! The lines and words of a script, and what single words say: names, labels, numbers, texts, nodes, paths, access
//! lists and kinds. The grammar is this project's own.
#![tactic(auto)]

mod fault;
mod fields;
mod lines;
mod lists;
mod terms;
mod words;

pub use fault::{BadWhy, Fault};
pub use fields::{
    Words, all_named, end_at, is_word, known, label_at, name_at, named, names_of, node_of,
    number_at, small_at, text_at, unless, word_at,
};
pub use lines::next_line;
pub use lists::list_at;
pub use terms::{kind_of, lock_mode_of, open_kind_of};
pub use words::{words_are_read_back, words_asking, words_of_line};
