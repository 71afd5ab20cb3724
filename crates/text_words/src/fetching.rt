// Lines out of standard input, through a buffer of fixed size.
ghost use Rattle.std.specs.Prelude.{◌≡◌};
ghost use Rattle.text_words.specs.Fetching.{started, next_line};

use std::io;
use std::io::Read;

// Where the reading stands: the bytes of buf from pos up to end are not looked at yet; len bytes of the line are taken, 256 where there were more than 255. Places in lent buffers, as there is no heap.
#[derive(Clone, Copy)]
pub struct Cur {
    pub pos: usize,
    pub end: usize,
    pub len: usize,
    pub kind: Got,
}

// Part: the line goes on. Whole: it ended. End: the input ended.
#[derive(Clone, Copy)]
pub enum Got {
    Part,
    Whole,
    End,
}

pub fn start() -> Cur
    ensures { result ≡ started }
{
    Cur {
        pos: 0,
        end: 0,
        len: 0,
        kind: Got::Part,
    }
}

// The next line begins.
pub fn fresh(c: Cur) -> Cur
    ensures { result ≡ next_line c }
{
    Cur {
        len: 0,
        kind: Got::Part,
        ..c
    }
}

// Takes bytes up to the line's end; reads where none is left.
pub fn fetch(input: &mut impl Read, c: Cur, buf: &mut [u8], line: &mut [u8]) -> io::Result<Cur> {
    if c.pos < c.end {
        return Ok(scan(c.pos, c.end, c.len, buf, line));
    }
    let n = input.read(buf)?;
    if n == 0 {
        return Ok(Cur {
            pos: 0,
            end: 0,
            len: c.len,
            kind: Got::End,
        });
    }
    Ok(scan(0, n, c.len, buf, line))
}

// An index: the place of the byte where it stops is kept.
fn scan(pos: usize, end: usize, mut len: usize, buf: &[u8], line: &mut [u8]) -> Cur {
    let stop = end.min(buf.len());
    for i in pos..stop {
        if buf[i] == b'\n' {
            return Cur {
                pos: i + 1,
                end,
                len,
                kind: Got::Whole,
            };
        }
        len = push(len, buf[i], line);
    }
    Cur {
        pos: stop,
        end,
        len,
        kind: Got::Part,
    }
}

// One byte more. The 256th is kept too: it says that the line is too long.
fn push(n: usize, b: u8, line: &mut [u8]) -> usize {
    if n < 256 && n < line.len() {
        line[n] = b;
        return n + 1;
    }
    n.min(256)
}
