//! Whether a page or block is what it should be, and what it says; the server's facts, numbers and headers, made of
//! values, put in a log and read back.
//!
//! The pages and blocks of an aggregate as values with names: the server's page, call numbers, headers of filesets'
//! slots, anodes, indirect blocks and entries of directories. Each is judged by its own bytes, read as what
//! it says, and what is written is read back. The layout is this project's own.
//!
//! Pages of an aggregate made of values: the server's page, call numbers, and headers of filesets' slots, all in format
//! 2. A page that is made says the value that it was made of, and is a page of its kind exactly where the value is
//! sound. The layout is this project's own.
//!
//! What an aggregate keeps beside its anodes: the facts of its server, what is kept of hosts' requests, and the headers
//! of its slots. Each is a metadata page, which a transaction of the log puts whole. Page 0 is that of the server, page
//! 1 has its call numbers; the header of slot `s` is page `2 + 66 * s`, and its call numbers are the page behind it.
#![tactic(auto)]

mod anode;
mod blocks;
mod encode_header;
mod encode_numbers;
mod encode_server;
mod fields;
mod header;
mod laws;
mod numbers;
mod reading;
mod server;
mod words;
mod writing;

pub use anode::{bytes_in, is_free_page, is_object, is_object_page, page_pointer};
pub use blocks::{BLOCK, entry_numbers, is_entry_block, is_map, map_pointer};
pub use encode_header::{header_page, read_header};
pub use encode_numbers::{encode_record, numbers_page};
pub use encode_server::server_page;
pub use header::{SlotHeader, SlotState, is_header, is_limit, is_taken_slot, state_of};
pub use laws::{format_law, sound_law};
pub use numbers::{is_numbers_page, record_at};
pub use reading::{facts_of, record_of};
pub use server::{HOSTS, ServerFacts, TakenShip, is_server_page, server_of};
pub use words::{are_zero, is_name_at, name_at};
pub use writing::{clear, put_facts, put_header, put_numbers, put_record};
