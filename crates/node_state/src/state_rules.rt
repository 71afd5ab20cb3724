// The node's state rules.
ghost use Rattle.std.specs.Prelude.{◌≡◌, ltb};
ghost use Rattle.std.specs.List.{list_all};
ghost use Rattle.rules_node.specs.StateRules.{kept_ok, store_ok, standing, valid};

use crate::states;
use rules_node::{Node, State};

// Whether the state keeps every rule.
#[tactic(auto, unfolding(rules_node::specs::StateRules::valid))]
pub fn valid(n: Node) -> bool
    ensures { result ≡ valid n }
{
    1 <= n.chunks
        && n.chunks <= map_numbers::refusals::CHUNK_LIMIT
        && standing(
            n.state,
            n.store,
            n.create,
            n.transfer.is_some(),
            map_numbers::sets::has(n.members, n.id),
        )
        && n.members <= 65535
        && n.version <= map_numbers::refusals::VERSION_TOP
        && kept_ok(n)
        && states::taken(n.transfer) <= map_numbers::refusals::MAP_BYTES as u64
}

// Own id in its set unless EMPTY; create mark only in REGISTERED; the store; a transfer in hand only in NO_IO with store.
fn standing(s: State, store: bool, create: bool, hand: bool, own: bool) -> bool
    ensures { result ≡ standing s store create hand own }
{
    (s == State::Empty || own)
        && (!create || s == State::Registered)
        && store_ok(s, store)
        && (!hand || s == State::NoIo && store)
}

// A store in all states but EMPTY, and perhaps NO_IO.
fn store_ok(s: State, store: bool) -> bool
    ensures { result ≡ store_ok s store }
{
    match s {
        State::Empty => !store,
        State::Registered | State::Created | State::Normal => store,
        State::NoIo => true,
    }
}

// Kept chunks are at most sixteen, and below the chunk count.
#[tactic(auto, unfolding(rules_node::specs::StateRules::kept_ok))]
fn kept_ok(n: Node) -> bool
    ensures { result ≡ kept_ok n }
{
    n.held <= 16 && all_below(&n.kept[16 - n.held as usize..], n.chunks)
}

fn all_below(kept: &[u64], chunks: u64) -> bool
    ensures { result ≡ list_all (λ c. ltb c chunks) kept.now }
{
    kept.iter().all(|chunk| *chunk < chunks)
}
