//! What the JSON of a journal says, in the words of scripts: calls, replies, tokens and files.
#![tactic(auto)]

mod file;
mod members;
mod text;
mod words;

pub use file::{FileId, file_of, message_file};
pub use members::{case_of, is_true_at, list_at, name_of, number_at, text_at};
pub use text::Text;
pub use words::{put_call, put_file, put_kind, put_path, put_reply};
