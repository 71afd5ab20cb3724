// A node's line after an accepted event, and the line of its further fields.
ghost use Rattle.std.specs.Prelude.{◌≡◌};
ghost use Rattle.text_bytes.specs.Ink.{emits};
ghost use Rattle.text_bytes.specs.Pages.{page_ink, lender};
ghost use Rattle.lab_say.specs.NodeLine.{state_text, transfer_number, kept_text, front_text, node_text, look_text};

use crate::say::{put_pair, put_sign};
use node_state::states;
use rules_node::{Node, State};
use text_bytes::page::Page;

fn put_state(page: &mut Page, s: State)
    ensures same_reference { lender page.new ≡ lender page.old }
    ensures value { page_ink page.new ≡ emits (page_ink page.old) (state_text s) }
{
    page.put_bytes(match s {
        State::Empty => b" state=EMPTY",
        State::Registered => b" state=REGISTERED",
        State::Created => b" state=CREATED",
        State::Normal => b" state=NORMAL",
        State::NoIo => b" state=NO_IO",
    });
}

fn transfer_number(t: Option<u64>) -> u64
    ensures { result ≡ transfer_number t }
{
    if states::is_whole(t) {
        2
    } else {
        u64::from(t.is_some())
    }
}

// The kept chunks are the last ones; the first has no comma before it.
fn put_kept(page: &mut Page, kept: [u64; 16], held: u64)
    ensures same_reference { lender page.new ≡ lender page.old }
    ensures value { page_ink page.new ≡ emits (page_ink page.old) (kept_text kept held) }
{
    let from = 16u64.saturating_sub(held) as usize;
    if from == 16 {
        page.put_bytes(b"-");
        return;
    }
    page.put_number(kept[from]);
    for n in &kept[from + 1..] {
        put_sign(page, b',', *n);
    }
}

fn put_front(page: &mut Page, n: Node)
    ensures same_reference { lender page.new ≡ lender page.old }
    ensures value { page_ink page.new ≡ emits (page_ink page.old) (front_text n) }
{
    put_pair(page, b"ok node=", n.id);
    put_state(page, n.state);
    put_pair(page, b" store=", u64::from(n.store));
    put_pair(page, b" create=", u64::from(n.create));
}

// The line of an accepted event, without its newline.
pub fn put_node(page: &mut Page, n: Node)
    ensures same_reference { lender page.new ≡ lender page.old }
    ensures value { page_ink page.new ≡ emits (page_ink page.old) (node_text n) }
{
    put_front(page, n);
    put_pair(page, b" members=", n.members);
    put_pair(page, b" version=", n.version);
    page.put_bytes(b" kept=");
    put_kept(page, n.kept, n.held);
    put_pair(page, b" transfer=", transfer_number(n.transfer));
}

// The line of a node's further fields, without its newline.
pub fn put_look(page: &mut Page, n: Node)
    ensures same_reference { lender page.new ≡ lender page.old }
    ensures value { page_ink page.new ≡ emits (page_ink page.old) (look_text n) }
{
    put_pair(page, b"look got=", states::taken(n.transfer));
}
