// The differences of two dumps as lines, MEMBER CHUNK WHICH, one member's at a time; before them `refused 2` or `same`, where it is that.
#![tactic(auto)]

ghost use Rattle.std.specs.Prelude.{◌≡◌};
ghost use Rattle.text_bytes.specs.Ink.{emits};
ghost use Rattle.text_bytes.specs.Pages.{page_ink, lender};
ghost use Rattle.compare_say.specs.Said.{line_text, member_text, head_text};

use compare_walk::differences::{Difference, next_difference};
use text_bytes::page::Page;

fn put_line(page: &mut Page, d: Difference)
    ensures same_reference { lender page.new ≡ lender page.old }
    ensures value { page_ink page.new ≡ emits (page_ink page.old) (line_text d) }
{
    page.put_number(d.member);
    page.put(b' ');
    page.put_number(d.chunk);
    page.put(b' ');
    page.put_number(d.which.number());
    page.put(b'\n');
}

// The lines of one member's differences, by a walk through its row.
pub fn put_member(page: &mut Page, first: &[u8], second: &[u8], member: u64)
    ensures same_reference { lender page.new ≡ lender page.old }
    ensures value { page_ink page.new ≡ emits (page_ink page.old) (member_text first.now second.now member) }
{
    let mut c = 0;
    // No range: each turn goes on behind the chunk that was found.
    while c < 4096 {
        match next_difference(first, second, member, c) {
            // Two arms: under one pattern for both, the proof is not told which of the two it was.
            Err(_) => return,
            Ok(None) => return,
            Ok(Some(d)) => {
                if member < d.member {
                    return;
                }
                put_line(page, d);
                c = d.chunk + 1;
            }
        }
    }
}

// What comes before the lines: that the dumps are refused, or the same; nothing where there are differences.
pub fn put_head(page: &mut Page, first: &[u8], second: &[u8])
    ensures same_reference { lender page.new ≡ lender page.old }
    ensures value { page_ink page.new ≡ emits (page_ink page.old) (head_text first.now second.now) }
{
    match next_difference(first, second, 0, 0) {
        Err(why) => {
            page.put_bytes(b"refused ");
            page.put_number(why.number());
            page.put(b'\n');
        }
        Ok(Some(_)) => {}
        Ok(None) => page.put_bytes(b"same\n"),
    }
}
