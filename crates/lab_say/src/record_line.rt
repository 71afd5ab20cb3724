// What is written of the record of the client's last event.
ghost use Rattle.std.specs.Prelude.{◌≡◌};
ghost use Rattle.text_bytes.specs.Ink.{emits};
ghost use Rattle.text_bytes.specs.Pages.{page_ink, lender};
ghost use Rattle.lab_say.specs.Text.{record_text, last_text};

use audit_record::records::Record;
use text_bytes::page::Page;

pub fn put_last(page: &mut Page, last: Option<Record>)
    ensures same_reference { lender page.new ≡ lender page.old }
    ensures value { page_ink page.new ≡ emits (page_ink page.old) (last_text last) }
{
    match last {
        None => page.put_bytes(b"none"),
        Some(r) => put_record(page, r),
    }
}

fn put_record(page: &mut Page, r: Record)
    ensures same_reference { lender page.new ≡ lender page.old }
    ensures value { page_ink page.new ≡ emits (page_ink page.old) (record_text r) }
{
    crate::say::put_numbers(page, b"record", &[r.sequence, r.kind, r.member, r.set]);
    crate::say::put_numbers(page, b"", &[r.number, r.version, r.count, r.causes]);
}
