//! What is so of a host, as text.

use tree_test_words::Text;

/// How many calls a host began, and which steps it may make.
#[derive(Drop)]
pub struct State {
    pub begun: u32,
    pub free: bool,
    pub has_to_evict: bool,
    pub may_end: bool,
    pub parted: bool,
}

/// What is so of a host.
pub fn push_state(text: &mut Text, state: State) {
    text.number("begun ", u64::from(state.begun));
    push_if(text, " free", state.free);
    push_if(text, " has-to-evict", state.has_to_evict);
    push_if(text, " may-end", state.may_end);
    push_if(text, " parted", state.parted);
}

fn push_if(text: &mut Text, word: &str, is_so: bool) {
    if is_so {
        text.word(word);
    }
}

/// The bytes of a reply that was put into room.
pub fn push_at_once(text: &mut Text, room: &[u8], count: Option<usize>) {
    let Some(count) = count else {
        text.word("none");
        return;
    };
    for byte in room.iter().take(count) {
        text.number(" ", u64::from(*byte));
    }
}
