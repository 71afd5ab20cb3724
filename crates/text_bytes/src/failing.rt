// What is said of a call that failed.
use std::io::{Cursor, Print, Write};
use std::{io, str};

// A failure's text is never longer.
const MOST: usize = 320;

// Writes a line to `to`: what failed, as the caller names it, a colon and the system's words for why. What can't be written is passed over.
pub fn say(to: &impl Print, what: &[u8], why: io::Error) {
    let mut text = Cursor::new([0u8; MOST]);
    let _ = write!(text, "{why}");
    let n = text.position().min(MOST as u64) as usize;
    let bytes = text.into_inner();
    let _ = to.write_all(what);
    let _ = to.write_all(b": ");
    let _ = to.write_all(words(&bytes[..n]));
    let _ = to.write_all(b"\n");
}

// The text without the number that stands behind the system's words.
fn words(text: &[u8]) -> &[u8] {
    let Ok(all) = str::from_utf8(text) else {
        return text;
    };
    match all.split_once(" (os error ") {
        Some((front, _)) => front.as_bytes(),
        None => text,
    }
}
