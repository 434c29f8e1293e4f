// The bytes of links, as texts.
use lw_types::{Refusal, read_hex};
use std::alloc::Global;

/// The bytes of a text: hex in words, and between bars text as it is.
pub fn wire(alloc: Global, text: &str) -> Result<Vec<u8>, Refusal> {
    let mut bytes = Vec::new(alloc);
    let mut is_hex = true;
    for part in text.split('|') {
        if is_hex {
            add_hex(alloc, &mut bytes, part)?;
        } else {
            bytes.extend_from_slice(part.as_bytes())?;
        }
        is_hex = !is_hex;
    }
    Ok(bytes)
}

fn add_hex(alloc: Global, bytes: &mut Vec<u8>, words: &str) -> Result<(), Refusal> {
    for word in words.split(' ') {
        let read = read_hex(alloc, word)?;
        bytes.extend_from_slice(read.as_slice())?;
    }
    Ok(())
}
