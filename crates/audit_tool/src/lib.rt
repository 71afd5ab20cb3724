// The program's work: each line of standard input is a record, added to the batches as it comes; at the end the verdict is written to standard output. No contract can speak of what is read and written:
// what is made of a line, of a record and of the verdict is in those below.
#![tactic(auto)]

ghost use Rattle.std.specs.Prelude.{◌≡◌};
ghost use Rattle.text_bytes.specs.Ink.{ink, emits_all};
ghost use Rattle.audit_line.specs.Text.{verdict_text};

use audit_list::batches::Batch;
use audit_replay::auditing::Verdict;
use std::io;
use std::io::{Print, Read};
use text_bytes::page::Page;
use text_words::fetching::Got;

// The turns are counted so that the loop ends whatever is read; no run uses them up.
pub fn run(
    rt: &impl Print,
    input: &mut impl Read,
    buf: &mut [u8],
    line: &mut [u8],
    out: &mut [u8],
) -> io::Result<()> {
    let mut batch = audit_list::batches::begin();
    let mut cur = text_words::fetching::start();
    for _ in 0..u64::MAX {
        // One line, or the part of one up to the end of what was read.
        cur = text_words::fetching::fetch(input, cur, buf, line)?;
        match cur.kind {
            Got::Part => {}
            Got::Whole => {
                batch = take(batch, cur.len, line);
                cur = text_words::fetching::fresh(cur);
            }
            Got::End => {
                batch = take_last(batch, cur.len, line);
                break;
            }
        }
    }
    answer(rt, batch, out)
}

fn take(b: Batch, n: usize, line: &[u8]) -> Batch {
    audit_list::batches::add(b, audit_line::record_in(n, line))
}

// A last line that no newline ends is a record too; after a last newline there is none.
fn take_last(b: Batch, n: usize, line: &[u8]) -> Batch {
    if n == 0 {
        return b;
    }
    take(b, n, line)
}

fn answer(rt: &impl Print, b: Batch, out: &mut [u8]) -> io::Result<()> {
    let v = audit_replay::auditing::verdict_of(audit_list::batches::close(b));
    let n = verdict_line(v, out);
    if out.len() < n {
        return Ok(());
    }
    rt.write_all(&out[..n])
}

// Puts the verdict's line at the start of out, and says how long it is.
fn verdict_line(v: Verdict, out: &mut [u8]) -> usize
    ensures { ink out.new result ≡ emits_all (ink out.old 0) (verdict_text v) }
{
    let mut page = Page::new(out, 0);
    audit_line::put_verdict(&mut page, v);
    page.at()
}
