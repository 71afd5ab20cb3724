// Tests on a node's state.
ghost use Rattle.std.specs.Prelude.{◌≡◌};
ghost use Rattle.rules_node.specs.States.{is_joined, is_serving, taken, is_whole};

use rules_node::{Node, State};

// CREATED, NORMAL or NO_IO: a session has joined.
pub fn is_joined(s: State) -> bool
    ensures { result ≡ is_joined s }
{
    matches!(s, State::Created | State::Normal | State::NoIo)
}

// CREATED, NORMAL or NO_IO, with a store.
pub fn is_serving(n: Node) -> bool
    ensures { result ≡ is_serving n }
{
    is_joined(n.state) && n.store
}

// The bytes of the map that were taken so far.
pub fn taken(t: Option<u64>) -> u64
    ensures { result ≡ taken t }
{
    t.unwrap_or(0)
}

// The whole map was taken.
pub fn is_whole(t: Option<u64>) -> bool
    ensures { result ≡ is_whole t }
{
    (map_numbers::refusals::MAP_BYTES as u64) <= taken(t)
}
