// The program's work: two dumps read from the files first.map and second.map, what is said of them on standard output. A file that can't be read is named on standard error, and then
// nothing is written on standard output.
#![tactic(auto)]

ghost use Rattle.std.specs.Prelude.{◌≡◌};
ghost use Rattle.text_bytes.specs.Ink.{ink, emits};
ghost use Rattle.compare_say.specs.Said.{head_text, member_text};

use std::io::{Print, Read};
use std::rt::Files;
use std::{fs, io};
use text_bytes::failing;
use text_bytes::page::Page;

// The file's bytes, as far as buf goes: a buffer that is longer than a dump tells a longer file.
fn read_file(rt: &impl Files, name: &str, buf: &mut [u8]) -> io::Result<usize> {
    let file = fs::open(rt, name)?;
    let n = io::copy(&mut file.take(buf.len() as u64), &mut &mut *buf)?;
    Ok(n as usize)
}

// How many bytes were read; none where the file can't be read, and then it was said why.
fn load(rt: &impl Files, errors: &impl Print, name: &str, buf: &mut [u8]) -> Option<usize> {
    match read_file(rt, name, buf) {
        Ok(n) => Some(n),
        Err(e) => {
            failing::say(errors, name.as_bytes(), e);
            None
        }
    }
}

// Writes what stands in out up to at.
fn flush(rt: &impl Print, at: usize, out: &[u8]) -> io::Result<()> {
    if out.len() < at {
        return Ok(());
    }
    rt.write_all(&out[..at])
}

// Puts what comes before the lines at the start of out, and says how long it is.
fn head(first: &[u8], second: &[u8], out: &mut [u8]) -> usize
    ensures { ink out.new result ≡ emits (ink out.old 0) (head_text first.now second.now) }
{
    let mut page = Page::new(out, 0);
    compare_say::put_head(&mut page, first, second);
    page.at()
}

// Puts a member's lines at the start of out, and says how long they are.
fn lines(first: &[u8], second: &[u8], member: u64, out: &mut [u8]) -> usize
    ensures { ink out.new result ≡ emits (ink out.old 0) (member_text first.now second.now member) }
{
    let mut page = Page::new(out, 0);
    compare_say::put_member(&mut page, first, second, member);
    page.at()
}

// The head, then the lines of each member: together the whole answer (`printed`). Each fits a buffer of 40,960 bytes (`fits`).
fn say_all(rt: &impl Print, first: &[u8], second: &[u8], out: &mut [u8]) -> io::Result<()> {
    let n = head(first, second, out);
    flush(rt, n, out)?;
    for m in 0..16 {
        let n = lines(first, second, m, out);
        flush(rt, n, out)?;
    }
    Ok(())
}

// A buffer of 8,193 bytes for each dump, and one of 40,960 for what is written.
pub fn run(
    rt: &(impl Files + Print),
    errors: &impl Print,
    first: &mut [u8],
    second: &mut [u8],
    out: &mut [u8],
) -> io::Result<()> {
    let Some(n) = load(rt, errors, "first.map", first) else {
        return Ok(());
    };
    let Some(k) = load(rt, errors, "second.map", second) else {
        return Ok(());
    };
    // never more than the buffer, which is asked here so that no contract has to say it
    if first.len() < n || second.len() < k {
        return Ok(());
    }
    say_all(rt, &first[..n], &second[..k], out)
}
