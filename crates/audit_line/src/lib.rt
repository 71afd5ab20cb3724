// The auditor's text: a line to its record, and the line that is answered.
#![tactic(auto)]

ghost use Rattle.std.specs.Prelude.{◌≡◌};
ghost use Rattle.text_bytes.specs.Ink.{emits_all};
ghost use Rattle.text_bytes.specs.Pages.{page_ink, lender};
ghost use Rattle.audit_line.specs.Text.{is_record, numbers_in, record_line, record_in, counted, verdict_text};

use audit_record::records::{self, Record};
use audit_replay::auditing::Verdict;
use text_bytes::page::Page;
use text_words::lines::{self, Line};

#[tactic(auto, unfolding(crate::specs::Text::is_record))]
fn is_record(l: Line) -> bool
    ensures { result ≡ is_record l }
{
    l.count == 8 && lines::are_numbers(&l.toks)
}

#[tactic(auto, unfolding(crate::specs::Text::numbers_in))]
fn numbers_in(l: Line) -> Record
    ensures { result ≡ numbers_in l }
{
    let [sequence, kind, member, set, number, version, count, causes] = l.toks.map(|t| t.number());
    Record {
        sequence,
        kind,
        member,
        set,
        number,
        version,
        count,
        causes,
    }
}

// A line, its newline cut off, to its record. One that is no record, as one longer than 255 bytes, stands for a record of no event.
#[tactic(auto, unfolding(crate::specs::Text::record_line))]
fn read_record(s: &[u8]) -> Record
    ensures { result ≡ record_line s.now }
{
    if 255 < s.len() {
        return records::no_record();
    }
    let l = lines::read_line(s);
    if is_record(l) {
        numbers_in(l)
    } else {
        records::no_record()
    }
}

// The record of the first n bytes. A length beside the line, since the reading has it as a number of its own: one past the line is no record's.
#[tactic(auto, unfolding(crate::specs::Text::record_in))]
pub fn record_in(n: usize, line: &[u8]) -> Record
    ensures { result ≡ record_in n line.now }
{
    if line.len() < n {
        return records::no_record();
    }
    read_record(&line[..n])
}

pub fn put_verdict(page: &mut Page, v: Verdict)
    ensures same_reference { lender page.new ≡ lender page.old }
    ensures value { page_ink page.new ≡ emits_all (page_ink page.old) (verdict_text v) }
{
    match v {
        Verdict::Accepted(n) => put_counted(page, b"accepted ", n),
        Verdict::Wrong(n) => put_counted(page, b"record ", n),
    }
}

// A word, a number and a newline.
fn put_counted(page: &mut Page, word: &[u8], n: u64)
    ensures same_reference { lender page.new ≡ lender page.old }
    ensures value { page_ink page.new ≡ emits_all (page_ink page.old) (counted word.now n) }
{
    page.put_bytes(word);
    page.put_number(n);
    page.put_bytes(b"\n");
}
