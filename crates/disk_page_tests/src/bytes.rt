//! Bytes that a page is to have.

use anyhow::{Context, Result, bail};
use disk_layout::PAGE;
use std::alloc::Global;

// Lays the bytes of `PLACE=BYTES` on a page, in hexadecimal digits.
fn lay(alloc: Global, page: &mut [u8; PAGE], word: &str) -> Result<()> {
    let (at, digits) = word.split_once('=').context("a place and bytes")?;
    let at = at.parse::<usize>().ok().context("a place")?;
    let bytes = hex::decode(alloc, digits).ok().context("bytes")?;
    if at > PAGE || bytes.len() > PAGE - at {
        bail!("a place in the page");
    }
    page[at..at + bytes.len()].copy_from_slice(bytes.as_slice());
    Ok(())
}

/// A page that is zero but for these bytes.
pub fn page_of(alloc: Global, text: &str) -> Result<[u8; PAGE]> {
    let mut page = [0; PAGE];
    for word in text.split_whitespace() {
        lay(alloc, &mut page, word)?;
    }
    Ok(page)
}
