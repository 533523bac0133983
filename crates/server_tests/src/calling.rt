//! Looks at Changes.

use crate::reading::{Words, push_yes};
use anyhow::{Result, bail};
use base_types::{Items, Name, OpenKind, ServerId};
use message_types::Change;
use server_tables::{NO_FID, is_effect, is_meant_so, is_use};
use std::alloc::Global;
use tree_calls::{Call, Place};
use tree_test_words::Text;

/// `WORD CALL`, or `WORD enter CALL`.
pub fn tell(words: &mut Words, text: &mut Text) -> Result<()> {
    let word = words.next();
    let mut kind = words.next();
    let enter = kind == "enter";
    if enter {
        kind = words.next();
    }
    let change = Change {
        number: 1,
        fileset: NO_FID.fileset,
        fid: NO_FID,
        enter,
        k: 1,
        call: call(words.alloc, kind)?,
    };
    look(word, &change, text);
    drop(change);
    Ok(())
}

fn look(word: &str, change: &Change, text: &mut Text) {
    match word {
        "effect" => push_yes(text, is_effect(change)),
        "meant" => push_yes(text, is_meant_so(change)),
        "use" => push_yes(text, is_use(&change.call)),
        _ => text.word("no step"),
    }
}

fn call(alloc: Global, kind: &str) -> Result<Call> {
    let server = ServerId(1);
    match kind {
        "unlock" => unlock(alloc),
        "move" => move_away(alloc, server),
        "clone" => clone(alloc, server),
        "open" => open(alloc, server),
        "lock" => lock(alloc, server, 4),
        "lock-none" => lock(alloc, server, 0),
        _ => bail!("no call: {kind}"),
    }
}

fn unlock(alloc: Global) -> Result<Call> {
    let label = name(alloc)?;
    Ok(Call::Unlock { label })
}

fn move_away(alloc: Global, server: ServerId) -> Result<Call> {
    let fileset = name(alloc)?;
    Ok(Call::MoveFileset {
        server,
        fileset,
        to: ServerId(2),
    })
}

fn clone(alloc: Global, server: ServerId) -> Result<Call> {
    let fileset = name(alloc)?;
    let new = name(alloc)?;
    Ok(Call::CloneFileset {
        server,
        fileset,
        new,
    })
}

fn open(alloc: Global, server: ServerId) -> Result<Call> {
    let label = name(alloc)?;
    let fileset = name(alloc)?;
    Ok(Call::OpenFile {
        label,
        place: Place {
            server,
            fileset,
            path: Items::new(alloc),
        },
        kind: OpenKind::Reading,
    })
}

// A lock of so many bytes.
fn lock(alloc: Global, server: ServerId, len: u32) -> Result<Call> {
    let label = name(alloc)?;
    let fileset = name(alloc)?;
    Ok(Call::Lock {
        label,
        place: Place {
            server,
            fileset,
            path: Items::new(alloc),
        },
        writing: true,
        from: 0,
        len,
    })
}

fn name(alloc: Global) -> Result<Name> {
    Ok(Name::new(alloc, b"a")?)
}
