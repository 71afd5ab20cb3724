// The backup tool: its words, and a map or descriptors, in; descriptors or a row out. What is made of the bytes is `status_row`'s; no contract can
// speak of what is read and written.
#![tactic(auto)]

ghost use Rattle.std.specs.Prelude.{◌≡◌, ◌≤◌, length};
ghost use Rattle.text_bytes.specs.Ink.{ink, emits_all};
ghost use Rattle.text_bytes.specs.Pages.{page_ink, lender};
ghost use Rattle.status_tool.specs.Lines.{refused_line};

use status_row::descriptors::Volume;
use std::env::FillError;
use std::io::{ErrorKind, Print, Read};
use std::rt::{Env, Files};
use std::{fs, io, str};
use text_bytes::failing;
use text_bytes::page::Page;

// MAP MEMBER CHUNKS CHUNK_SIZE writes descriptors; read CHUNKS CHUNK_SIZE reads them. The program lends the buffers: `map` has a byte more than a map and `bytes` a
// descriptor more than a volume can have, so that what is too long is refused for it.
pub fn run(
    rt: &(impl Env + Files + Print),
    input: &mut impl Read,
    errors: &impl Print,
    map: &mut [u8],
    bytes: &mut [u8],
    row: &mut [u8],
) {
    match word_count(rt) {
        5 => write_status(rt, errors, map, bytes),
        4 => read_status(rt, input, errors, bytes, row),
        _ => say_usage(errors),
    }
}

fn write_status(
    rt: &(impl Env + Files + Print),
    errors: &impl Print,
    map: &mut [u8],
    out: &mut [u8],
) {
    let Some(m) = number_at(rt, 2) else {
        say_usage(errors);
        return;
    };
    let Some(n) = number_at(rt, 3) else {
        say_usage(errors);
        return;
    };
    let Some(s) = number_at(rt, 4) else {
        say_usage(errors);
        return;
    };
    let Some(mut file) = open_map(rt, errors) else {
        return;
    };
    let got = read_full(&mut file, map);
    let v = Volume { chunks: n, size: s };
    match status_row::writer::write_member(&map[..got], m, v, out) {
        Ok(k) => give(rt, errors, k, out),
        Err(why) => say_refused(errors, why.number()),
    }
}

fn read_status(
    rt: &(impl Env + Print),
    input: &mut impl Read,
    errors: &impl Print,
    bytes: &mut [u8],
    row: &mut [u8],
) {
    if !is_read(rt) {
        say_usage(errors);
        return;
    }
    let Some(n) = number_at(rt, 2) else {
        say_usage(errors);
        return;
    };
    let Some(s) = number_at(rt, 3) else {
        say_usage(errors);
        return;
    };
    let got = read_full(input, bytes);
    let v = Volume { chunks: n, size: s };
    match status_row::reader::read(&bytes[..got], v, row) {
        Ok(()) => give(rt, errors, row.len(), row),
        Err(why) => say_refused(errors, why.number()),
    }
}

// Whether word 1 is `read`.
fn is_read(rt: &impl Env) -> bool {
    let mut word = [0u8; 4];
    let n = word_at(rt, 1, &mut word);
    text_bytes::same(&word[..n], b"read")
}

// Word i as a number.
fn number_at(rt: &impl Env, i: usize) -> Option<u64> {
    let mut word = [0u8; 32];
    let n = word_at(rt, i, &mut word);
    text_bytes::number(&word[..n])
}

// How many words there are, the program's own name among them; 6 where there are more.
fn word_count(rt: &impl Env) -> usize {
    for n in 0..6 {
        if !is_word(rt, n) {
            return n;
        }
    }
    6
}

fn is_word(rt: &impl Env, i: usize) -> bool {
    let mut word = [0u8; 1];
    !matches!(rt.arg(i, &mut word), Err(FillError::NotPresent))
}

// Puts word i at the start of buf, and says how long it is: 0 where it is missing or longer than buf.
fn word_at(rt: &impl Env, i: usize, buf: &mut [u8]) -> usize
    ensures { result ≤ length buf.new }
{
    rt.arg(i, buf).unwrap_or(0)
}

// The file that word 1 names, opened; none where that can't be done, and then it was said why.
fn open_map<R: Env + Files>(rt: &R, errors: &impl Print) -> Option<R::File> {
    let mut path = [0u8; 4096];
    let n = word_at(rt, 1, &mut path);
    match open(rt, &path[..n]) {
        Ok(file) => Some(file),
        Err(e) => {
            failing::say(errors, &path[..n], e);
            None
        }
    }
}

// A file's name is UTF-8; other bytes name none.
fn open<R: Files>(rt: &R, path: &[u8]) -> io::Result<R::File> {
    match str::from_utf8(path) {
        Ok(name) => fs::open(rt, name),
        Err(_) => Err(io::Error::from(ErrorKind::InvalidFilename)),
    }
}

// Reads until buf is full, the input ends or a read fails, and says how many bytes it put at the start of buf.
fn read_full(input: &mut impl Read, buf: &mut [u8]) -> usize
    ensures { result ≤ length buf.new }
{
    let mut done = 0;
    // Each turn reads as much as comes; `io::copy` loses the count where a read fails.
    while done < buf.len() {
        match input.read(&mut buf[done..]) {
            Ok(n) if n > 0 => done += n,
            _ => break,
        }
    }
    done
}

// Writes the first k bytes to standard output; k is never more than there are.
fn give(rt: &impl Print, errors: &impl Print, k: usize, bytes: &[u8]) {
    if bytes.len() < k {
        return;
    }
    if let Err(e) = rt.write_all(&bytes[..k]) {
        failing::say(errors, b"standard output", e);
    }
}

// Writes a refusal's line, which is never longer than 29 bytes, to standard error.
fn say_refused(errors: &impl Print, number: u64) {
    let mut line = [0u8; 32];
    let n = refused_line(number, &mut line);
    if line.len() < n {
        return;
    }
    let _ = errors.write_all(&line[..n]);
}

// Puts a refusal's line at the start of out, and says how long it is.
fn refused_line(number: u64, out: &mut [u8]) -> usize
    ensures { ink out.new result ≡ emits_all (ink out.old 0) (refused_line number) }
{
    let mut page = Page::new(out, 0);
    put_refused(&mut page, number);
    page.at()
}

#[tactic(auto, unfolding(crate::specs::Lines::refused_line))]
fn put_refused(page: &mut Page, number: u64)
    ensures same_reference { lender page.new ≡ lender page.old }
    ensures value { page_ink page.new ≡ emits_all (page_ink page.old) (refused_line number) }
{
    page.put_bytes(b"refused ");
    page.put_number(number);
    page.put_bytes(b"\n");
}

fn say_usage(errors: &impl Print) {
    let _ = errors.write_all(
        b"usage: status MAP MEMBER CHUNKS CHUNK_SIZE, or status read CHUNKS CHUNK_SIZE\n",
    );
}
