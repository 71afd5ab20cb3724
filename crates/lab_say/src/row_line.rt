// A member's dirty chunks, as ranges.
ghost use Rattle.std.specs.Prelude.{◌≡◌, None};
ghost use Rattle.text_bytes.specs.Ink.{emits};
ghost use Rattle.text_bytes.specs.Pages.{page_ink, lender};
ghost use Rattle.lab_say.specs.Row.{range_text, begun_text, ranges, is_dirty, row_text};

use crate::say::put_sign;
use text_bytes::page::Page;

#[tactic(auto, unfolding(crate::specs::Row::range_text))]
fn put_range(page: &mut Page, a: u64, b: u64)
    ensures same_reference { lender page.new ≡ lender page.old }
    ensures value { page_ink page.new ≡ emits (page_ink page.old) (range_text a b) }
{
    put_sign(page, b' ', a);
    if a != b {
        put_sign(page, b'-', b);
    }
}

// The range up to c, where one was begun.
fn put_begun(page: &mut Page, begun: Option<u64>, c: u64)
    ensures same_reference { lender page.new ≡ lender page.old }
    ensures value { page_ink page.new ≡ emits (page_ink page.old) (begun_text begun c) }
{
    if let Some(a) = begun {
        put_range(page, a, c.saturating_sub(1));
    }
}

fn put_ranges(page: &mut Page, map: &[u8], m: u64)
    ensures same_reference { lender page.new ≡ lender page.old }
    ensures value { page_ink page.new ≡ emits (page_ink page.old) (ranges (is_dirty map.now m) None 4096 0) }
{
    let mut begun = None;
    for c in 0..4096 {
        if map_chunk::test(map, m, c) {
            begun = Some(begun.unwrap_or(c));
        } else {
            put_begun(page, begun, c);
            begun = None;
        }
    }
    put_begun(page, begun, 4096);
}

// The line of a row, without its newline.
#[tactic(auto, unfolding(crate::specs::Row::row_text))]
pub fn put_row(page: &mut Page, map: &[u8], m: u64)
    ensures same_reference { lender page.new ≡ lender page.old }
    ensures value { page_ink page.new ≡ emits (page_ink page.old) (row_text map.now m) }
{
    match map_row_view::row_count(map, m) {
        None => page.put_bytes(b"no row"),
        Some(0) => page.put_bytes(b"clean"),
        Some(_) => {
            page.put_bytes(b"dirty");
            put_ranges(page, map, m);
        }
    }
}
