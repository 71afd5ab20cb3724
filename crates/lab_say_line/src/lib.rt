// What there is to say of a command, and the line that says it.
#![tactic(auto)]

ghost use Rattle.std.specs.Prelude.{◌≡◌};
ghost use Rattle.text_bytes.specs.Ink.{emits};
ghost use Rattle.text_bytes.specs.Pages.{page_ink, lender};
ghost use Rattle.lab_say_line.specs.Lines.{asked_text, found_text, next_text, line_in, row_of, row_in};

use audit_record::records::Record;
use lab_form::Which;
use lab_say::node_line::put_node;
use lab_say::say::put_pair;
use lab_say::{node_line, record_line};
use rules_client::Check;
use rules_node::Node;
use rules_pool::{Pool, Sent};
use text_bytes::page::Page;

// Nothing: of a line that is passed over. Done: of one that sets the lab up. Client: an accepted event of the client. Node: one of this node. Asked: this node
// was asked whether its own row is empty. Next: it was asked for the next dirty chunk. Row: a member's row of a map. Look, LookNode: the further fields of the client, of this node. Record: that
// of the client's last event.
#[derive(Clone, Copy)]
pub enum Said {
    Nothing,
    Unreadable,
    Done,
    Idle,
    Refused(u64),
    Client(Sent),
    Node(u64),
    Asked(u64, bool),
    Next(u64, Option<u64>),
    Row(Which, u64),
    Look,
    LookNode(u64),
    Record(Option<Record>),
}

// The line: p and k are the client's state after the command, n the state of the node that it went to. A row is written by put_row.
pub fn put_line(page: &mut Page, s: Said, p: Pool, k: Check, n: Node)
    ensures same_reference { lender page.new ≡ lender page.old }
    ensures value { page_ink page.new ≡ line_in (page_ink page.old) s p k n }
{
    match s {
        Said::Nothing => return,
        Said::Unreadable => page.put_bytes(b"unreadable"),
        Said::Done => page.put_bytes(b"done"),
        Said::Idle => page.put_bytes(b"idle"),
        Said::Refused(why) => put_pair(page, b"refused ", why),
        Said::Client(sent) => lab_say_client::put_client(page, p, sent),
        Said::Node(_) => put_node(page, n),
        Said::Asked(_, empty) => put_asked(page, n, empty),
        Said::Next(_, found) => put_next(page, n, found),
        Said::Row(_, _) => return,
        Said::Look => lab_say_client::put_look(page, p, k),
        Said::LookNode(_) => node_line::put_look(page, n),
        Said::Record(last) => record_line::put_last(page, last),
    }
    page.put(b'\n');
}

fn put_asked(page: &mut Page, n: Node, empty: bool)
    ensures same_reference { lender page.new ≡ lender page.old }
    ensures value { page_ink page.new ≡ emits (page_ink page.old) (asked_text n empty) }
{
    put_node(page, n);
    put_pair(page, b" empty=", u64::from(empty));
}

#[tactic(auto, unfolding(crate::specs::Lines::found_text))]
fn put_found(page: &mut Page, f: Option<u64>)
    ensures same_reference { lender page.new ≡ lender page.old }
    ensures value { page_ink page.new ≡ emits (page_ink page.old) (found_text f) }
{
    match f {
        Some(c) => put_pair(page, b" next=", c),
        None => page.put_bytes(b" next=none"),
    }
}

fn put_next(page: &mut Page, n: Node, f: Option<u64>)
    ensures same_reference { lender page.new ≡ lender page.old }
    ensures value { page_ink page.new ≡ emits (page_ink page.old) (next_text n f) }
{
    put_node(page, n);
    put_found(page, f);
}

// The line of member m's row in one of the maps; own is the client's, maps and stagings hold those of the nodes.
pub fn put_row(page: &mut Page, w: Which, m: u64, own: &[u8], maps: &[u8], stagings: &[u8])
    ensures same_reference { lender page.new ≡ lender page.old }
    ensures value { page_ink page.new ≡ row_in (page_ink page.old) w m own.now maps.now stagings.now }
{
    match w {
        Which::Client => row_line(page, own, 0, m),
        Which::Node(n) => row_line(page, maps, n, m),
        Which::Staging(n) => row_line(page, stagings, n, m),
    }
}

// The row of member m in the nth map of all.
fn row_line(page: &mut Page, all: &[u8], n: u64, m: u64)
    ensures same_reference { lender page.new ≡ lender page.old }
    ensures value { page_ink page.new ≡ row_of (page_ink page.old) all.now n m }
{
    if 15 < n {
        return;
    }
    let x = n as usize * 8192;
    let e = x + 8192;
    if all.len() < e {
        return;
    }
    lab_say::row_line::put_row(page, &all[x..e], m);
    page.put(b'\n');
}
