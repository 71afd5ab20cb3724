// How a node's summaries follow what its events do to its map. Every function takes a map of any length, and any words.
ghost use Rattle.std.specs.Prelude.{◌≡◌};
ghost use Rattle.rules_node.specs.Follow.{followed, words_after};

use map_summary::summaries::Summaries;
use rules_node::OnMap;

// The summaries after an effect that was carried out on the map: a mark or a clear mends them, what changes more makes them anew.
#[tactic(auto, unfolding(rules_node::specs::Follow::followed))]
fn follow(e: OnMap, mut words: Summaries, map: &[u8]) -> Summaries
    ensures { result ≡ followed e map.now words }
{
    match e {
        OnMap::Keep => {}
        OnMap::Mark(set, chunk) => map_summary::mending::mend_for(&mut words, map, set, chunk),
        OnMap::Clear(member, chunk) => map_summary::mending::mend(&mut words, map, member, chunk),
        _ => words = map_summary::summaries::of_map(map),
    }
    words
}

// The same, at a node whose lent maps refuse with a number, 0 where they do not: a number, as node_state::turns has it.
#[tactic(auto, unfolding(rules_node::specs::Follow::words_after))]
pub fn after(lent: u64, e: OnMap, words: Summaries, map: &[u8]) -> Summaries
    ensures { result ≡ words_after lent e map.now words }
{
    if lent == 0 {
        follow(e, words, map)
    } else {
        words
    }
}
