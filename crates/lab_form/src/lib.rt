// The commands of a history, and what tells one form of a line from another.
#![tactic(auto)]

ghost use Rattle.std.specs.Prelude.{◌≡◌};
ghost use Rattle.lab_form.specs.Forms.{head_of, form_of};

use event::{Event, NodeEvent, Question};
use rules_node::State;
use rules_pool::Session;
use text_words::lines::{self, Line, Token};
use text_words::names::Name;

// A map: the client's, a node's, a node's staging map.
#[derive(Clone, Copy)]
pub enum Which {
    Client,
    Node(u64),
    Staging(u64),
}

// Passed: an empty line, or one that begins with # or >. Pool: sync, chunks. Cut: how long the parts are of a map that is taken or sent. Take: a node, and the one whose
// map it takes, part by part. Ask: a node, and what it is asked. DeliverCheck: the node of the lowest due member is asked for its check, and the client gets the answer. Row: the
// dirty chunks of a member. Look, LookNode: the further fields of the client, of a node. Byte: place, value. Summary: a node, which word of its summaries, value. The rest is put into the
// client's state or a node's, unchecked. Record: the record of the client's last event. PokeSession: id, record. PokeNode: node, state, store, create, members, version, transfer. PokeGot: node,
// bytes taken.
#[derive(Clone, Copy)]
pub enum Command {
    Passed,
    Unreadable,
    Pool(bool, u64),
    Auto(bool),
    Cut(u64),
    Client(Event),
    Node(u64, NodeEvent),
    Take(u64, u64),
    Deliver,
    Ask(u64, Question),
    DeliverCheck,
    Row(Which, u64),
    Look,
    LookNode(u64),
    Byte(Which, u64, u64),
    Summary(u64, u64, u64),
    Lend(Which, u64),
    PokeVersion(u64),
    PokeCount(u64),
    PokeChunks(u64),
    PokeMembers(u64),
    PokeWritten(bool),
    PokeAssembled(bool),
    PokeSession(u64, Session),
    PokeNode(u64, State, bool, bool, u64, u64, Option<u64>),
    PokeGot(u64, u64),
    PokeTick(u64),
    PokeDue(u64),
    PokeOnce(u64),
    Record,
}

// How a line begins. Plain: a name, then no other. Pair: two names, then no other. Node: the name of a node that there is, and a name. Other: anything else, as a line in
// which a later word is no number.
#[derive(Clone, Copy, PartialEq, Eq)]
pub enum Head {
    Plain(Name),
    Pair(Name, Name),
    Node(Name),
    Other,
}

// What tells one form of a line from another: how it begins, how many words there are, and each word's number. A word that is not there is the number 0, as a name is. Numbers
// beside their count, as there is no heap.
#[derive(Clone, Copy)]
pub struct Form {
    pub head: Head,
    pub count: u64,
    pub x: [u64; 8],
}

fn head_of(a: Token, b: Token, c: Token) -> Head
    ensures { result ≡ head_of a b c }
{
    match (a, b, c) {
        (Token::Word(name), Token::Number(_), Token::Number(_)) => Head::Plain(name),
        (Token::Word(name), Token::Word(other), Token::Number(_)) => Head::Pair(name, other),
        (Token::Word(Name::Node), Token::Number(n), Token::Word(name)) if n < 16 => Head::Node(
            name,
        ),
        _ => Head::Other,
    }
}

#[tactic(auto, unfolding(crate::specs::Forms::form_of))]
pub fn form_of(l: Line) -> Form
    ensures { result ≡ form_of l }
{
    let head = if lines::are_numbers(&l.toks[3..]) {
        head_of(l.toks[0], l.toks[1], l.toks[2])
    } else {
        Head::Other
    };
    Form {
        head,
        count: l.count,
        x: l.toks.map(|t| t.number()),
    }
}
