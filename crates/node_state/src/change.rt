// The fresh node, and the named changes.
ghost use Rattle.std.specs.Prelude.{◌≡◌, [], ◌∷◌, ◌++◌, drop};
ghost use Rattle.rules_node.specs.Change.{
  fresh,
  went_to,
  equipped,
  taken_over,
  member_entered,
  member_dropped,
  stored_version,
  kept_chunk,
  forgotten,
  transferred,
  ended_transfer,
  instructed,
};

use rules_node::{Node, State};

// A fresh node: EMPTY, with nothing.
#[tactic(auto, unfolding(rules_node::specs::Change::fresh))]
pub fn fresh(id: u64, chunks: u64) -> Node
    ensures { result ≡ fresh id chunks }
{
    Node {
        id,
        chunks,
        state: State::Empty,
        store: false,
        create: false,
        members: 0,
        version: 0,
        kept: [0; 16],
        held: 0,
        transfer: None,
    }
}

// Another state.
#[tactic(auto, unfolding(rules_node::specs::Change::went_to))]
pub fn went_to(n: Node, state: State) -> Node
    ensures { result ≡ went_to n state }
{
    Node { state, ..n }
}

// A store or none, marked create or not.
#[tactic(auto, unfolding(rules_node::specs::Change::equipped))]
pub fn equipped(n: Node, store: bool, create: bool) -> Node
    ensures { result ≡ equipped n store create }
{
    Node { store, create, ..n }
}

// A member set taken over.
#[tactic(auto, unfolding(rules_node::specs::Change::taken_over))]
pub fn taken_over(n: Node, members: u64) -> Node
    ensures { result ≡ taken_over n members }
{
    Node { members, ..n }
}

// A member entered.
#[tactic(auto, unfolding(rules_node::specs::Change::member_entered))]
pub fn member_entered(n: Node, member: u64) -> Node
    ensures { result ≡ member_entered n member }
{
    taken_over(n, map_numbers::sets::with(n.members, member))
}

// A member dropped.
#[tactic(auto, unfolding(rules_node::specs::Change::member_dropped))]
pub fn member_dropped(n: Node, member: u64) -> Node
    ensures { result ≡ member_dropped n member }
{
    taken_over(n, map_numbers::sets::without(n.members, member))
}

// A version stored.
#[tactic(auto, unfolding(rules_node::specs::Change::stored_version))]
pub fn stored_version(n: Node, version: u64) -> Node
    ensures { result ≡ stored_version n version }
{
    Node { version, ..n }
}

// A chunk number kept: it arrives last, and of seventeen the first is gone.
#[tactic(auto, unfolding(rules_node::specs::Change::kept_chunk))]
pub fn kept_chunk(mut n: Node, chunk: u64) -> Node
    ensures { result ≡ kept_chunk n chunk }
{
    n.kept = shifted(n.kept, chunk);
    n.held = n.held.min(15) + 1;
    n
}

// The first gone, one more at the end.
fn shifted(k: [u64; 16], last: u64) -> [u64; 16]
    ensures { result ≡ drop 1 k ++ (last ∷ []) }
{
    let mut next = [last; 16];
    next[..15].copy_from_slice(&k[1..]);
    next
}

// The kept chunks gone.
#[tactic(auto, unfolding(rules_node::specs::Change::forgotten))]
pub fn forgotten(n: Node) -> Node
    ensures { result ≡ forgotten n }
{
    Node {
        kept: [0; 16],
        held: 0,
        ..n
    }
}

// How far the transfer is.
#[tactic(auto, unfolding(rules_node::specs::Change::transferred))]
pub fn transferred(n: Node, transfer: Option<u64>) -> Node
    ensures { result ≡ transferred n transfer }
{
    Node { transfer, ..n }
}

// Staging dropped or committed.
#[tactic(auto, unfolding(rules_node::specs::Change::ended_transfer))]
pub fn ended_transfer(n: Node) -> Node
    ensures { result ≡ ended_transfer n }
{
    transferred(n, None)
}

// Version and member set of enable 1, MAP_DONE and register add.
#[tactic(auto, unfolding(rules_node::specs::Change::instructed))]
pub fn instructed(n: Node, version: u64, set: u64) -> Node
    ensures { result ≡ instructed n version set }
{
    stored_version(taken_over(n, set), version)
}
