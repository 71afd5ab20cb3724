// Messages, written: each after a bar, its numbers after spaces.
ghost use Rattle.std.specs.Prelude.{◌≡◌, [], ◌∷◌, ◌++◌};
ghost use Rattle.laws_words.specs.Words.{pick};
ghost use Rattle.rules_base.specs.Sets.{has};
ghost use Rattle.text_bytes.specs.Ink.{emits, decimal as Ink·decimal};
ghost use Rattle.text_bytes.specs.Pages.{page_ink, lender};
ghost use Rattle.lab_say.specs.Say.{paired, said, message_text, awaited_text, told_to, each, told_text};

use map_numbers::sets::has;
use rules_base::Op;
use rules_pool::{Message, Told};
use text_bytes::page::Page;

// A byte and a number.
#[tactic(auto, unfolding(text_bytes::specs::Ink::emits))]
pub(crate) fn put_sign(page: &mut Page, sign: u8, n: u64)
    ensures same_reference { lender page.new ≡ lender page.old }
    ensures value { page_ink page.new ≡ emits (page_ink page.old) (sign ∷ Ink·decimal n) }
{
    page.put(sign);
    page.put_number(n);
}

// A text and numbers, each after a space.
pub fn put_numbers(page: &mut Page, s: &[u8], numbers: &[u64])
    ensures same_reference { lender page.new ≡ lender page.old }
    ensures value { page_ink page.new ≡ emits (page_ink page.old) (said s.now numbers.now) }
{
    page.put_bytes(s);
    for n in numbers {
        put_sign(page, b' ', *n);
    }
}

// A text and a number, with nothing between.
pub fn put_pair(page: &mut Page, s: &[u8], n: u64)
    ensures same_reference { lender page.new ≡ lender page.old }
    ensures value { page_ink page.new ≡ emits (page_ink page.old) (paired s.now n) }
{
    page.put_bytes(s);
    page.put_number(n);
}

fn put_message(page: &mut Page, m: Message)
    ensures same_reference { lender page.new ≡ lender page.old }
    ensures value { page_ink page.new ≡ emits (page_ink page.old) (message_text m) }
{
    match m {
        Message::Nothing => {}
        Message::GetVersion(to) => put_numbers(page, b" | MAP_GET_VER", &[to]),
        Message::Ready(to, keep) => put_numbers(page, b" | MAP_READY", &[to, u64::from(keep)]),
        Message::Send(to, receiver) => put_numbers(page, b" | MAP_SEND", &[to, receiver]),
        Message::Done(to, enable, version, set) => {
            put_numbers(page, b" | MAP_DONE", &[to, u64::from(enable), version, set])
        }
        Message::LastIo(to, chosen) => put_numbers(page, b" | LAST_IO", &[to, chosen]),
        Message::Enable(to, version, set) => {
            put_numbers(page, b" | ENABLE", &[to, 1, version, set])
        }
        Message::Leave(to, mode) => {
            put_numbers(page, b" | LEAVE", &[to, event_number::mode_number(mode)])
        }
        Message::Info(to, op, member) => {
            put_numbers(
                page,
                b" | POOL_INFO",
                &[to, event_number::op_number(op), member],
            )
        }
    }
}

// The awaited message with its number; nothing where none is awaited.
pub fn put_awaited(page: &mut Page, m: Message, number: u64)
    ensures same_reference { lender page.new ≡ lender page.old }
    ensures value { page_ink page.new ≡ emits (page_ink page.old) (awaited_text m number) }
{
    if client_state::state::is_nothing(m) {
        return;
    }
    put_message(page, m);
    put_pair(page, b" #", number);
}

// A text and numbers, where the set has i.
fn put_in(page: &mut Page, set: u64, i: u64, s: &[u8], numbers: &[u64])
    ensures same_reference { lender page.new ≡ lender page.old }
    ensures value { page_ink page.new ≡ emits (page_ink page.old) (pick (has set i) (said s.now numbers.now) []) }
{
    if has(set, i) {
        put_numbers(page, s, numbers);
    }
}

// The message to the id i, where one goes there; of Extended the fill.
fn put_to(page: &mut Page, t: Told, i: u64)
    ensures same_reference { lender page.new ≡ lender page.old }
    ensures value { page_ink page.new ≡ emits (page_ink page.old) (told_to t i) }
{
    match t {
        Told::Nothing | Told::Disable(_) | Told::Off(_) => {}
        Told::Marks(set, chunk, list, version) => {
            put_in(page, set, i, b" | MARK", &[i, chunk, list, version])
        }
        Told::Clears(set, member, chunk) => {
            put_in(page, set, i, b" | CLEAR", &[i, member, chunk])
        }
        Told::Infos(set, op, member) => {
            put_in(
                page,
                set,
                i,
                b" | POOL_INFO",
                &[i, event_number::op_number(op), member],
            )
        }
        Told::Extended(_, normals, member, version) => {
            put_in(page, normals, i, b" | FILL", &[i, member, version])
        }
        Told::Checks(set, tick) => put_in(page, set, i, b" | MAP_CHECK", &[i, tick]),
    }
}

fn put_each(page: &mut Page, t: Told)
    ensures same_reference { lender page.new ≡ lender page.old }
    ensures value { page_ink page.new ≡ emits (page_ink page.old) (each (told_to t) 16 0) }
{
    for i in 0..16 {
        put_to(page, t, i);
    }
}

// The messages that are not awaited.
pub fn put_told(page: &mut Page, t: Told)
    ensures same_reference { lender page.new ≡ lender page.old }
    ensures value { page_ink page.new ≡ emits (page_ink page.old) (told_text t) }
{
    match t {
        Told::Disable(to) => put_numbers(page, b" | MAP_DISABLE", &[to]),
        Told::Off(to) => put_numbers(page, b" | ENABLE", &[to, 0]),
        Told::Extended(others, _, member, _) => {
            put_each(page, Told::Infos(others, Op::AddCreate, member));
            put_each(page, t);
        }
        _ => put_each(page, t),
    }
}
