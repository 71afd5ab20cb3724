// A storage node's whole state as 32 words, and back. 0: id. 1: chunks. 2: the state. 3: store. 4: create. 5: members. 6: version. 7: held. 8: whether a transfer is in
// hand, 9: the bytes of it that were taken. 10 to 15: zero. 16 to 31: the last chunk numbers written. The summaries are words already.
ghost use Rattle.std.specs.Prelude.{◌≡◌};
ghost use Rattle.laws_words.specs.Words.{pick};
ghost use Rattle.event_words.specs.NodeWords.{state_word, state_of, packed, unpacked, known};

use rules_node::{Node, State};

fn state_word(s: State) -> u64
    ensures { result ≡ state_word s }
{
    match s {
        State::Empty => 0,
        State::Registered => 1,
        State::Created => 2,
        State::Normal => 3,
        State::NoIo => 4,
    }
}

pub fn state_of(x: u64) -> State
    ensures { result ≡ state_of x }
{
    match x {
        0 => State::Empty,
        1 => State::Registered,
        2 => State::Created,
        3 => State::Normal,
        _ => State::NoIo,
    }
}

#[tactic(auto, unfolding(crate::specs::NodeWords::packed))]
pub fn pack(n: Node) -> [u64; 32]
    ensures { result ≡ packed n }
{
    let mut ws = [0; 32];
    ws[..10].copy_from_slice(&[
        n.id,
        n.chunks,
        state_word(n.state),
        u64::from(n.store),
        u64::from(n.create),
        n.members,
        n.version,
        n.held,
        u64::from(n.transfer.is_some()),
        n.transfer.unwrap_or(0),
    ]);
    ws[16..].copy_from_slice(&n.kept);
    ws
}

// Any 32 words give a state.
#[tactic(auto, unfolding(crate::specs::NodeWords::unpacked), using(crate::proofs::Laws::last_16))]
pub fn unpack(ws: [u64; 32]) -> Node
    ensures { result ≡ unpacked ws }
{
    let mut kept = [0; 16];
    kept.copy_from_slice(&ws[16..]);
    Node {
        id: ws[0],
        chunks: ws[1],
        state: state_of(ws[2]),
        store: ws[3] == 1,
        create: ws[4] == 1,
        members: ws[5],
        version: ws[6],
        kept,
        held: ws[7],
        transfer: (ws[8] != 0).then_some(ws[9]),
    }
}

// The state that the words encode. Words that no state is packed to are not known.
#[tactic(auto, unfolding(crate::specs::NodeWords::known), using(crate::proofs::Alike::same_arrays))]
pub fn read(ws: [u64; 32]) -> Option<Node>
    ensures { result ≡ pick (known ws) (Some (unpacked ws)) None }
{
    let node = unpack(ws);
    (ws == pack(node)).then_some(node)
}
