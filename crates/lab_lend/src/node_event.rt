// A node's event, its two maps lent as far as the lab lends them.
ghost use Rattle.std.specs.Prelude.{◌≡◌, ◌≤◌, min, take, drop, replicate};
ghost use Rattle.lab_lend.specs.Node.{most_taken, padded, part_taken, node_answers, maps_left, stagings_left};

use event::NodeEvent;
use event_ask::lending::Lent;
use node::{Out, StorageNode};
use rules_node::Answer;

// n bytes of a map from the offset on in scratch, 0 past its end.
fn pick_out(map: &[u8], offset: u64, n: usize, scratch: &mut [u8])
    requires scratch_value { scratch.old ≡ replicate most_taken 0 }
    requires n_le_most_taken { n ≤ most_taken }
    ensures { take n scratch.new ≡ padded n (drop offset map.now) }
{
    let from = (offset as usize).min(map.len());
    let size = n.min(map.len() - from);
    scratch[..size].copy_from_slice(&map[from..from + size]);
}

// The part that an event takes in scratch, and how long it is: it may be one of the taker's own map.
fn fetch(e: NodeEvent, maps: &[u8], scratch: &mut [u8]) -> usize
    requires { scratch.old ≡ replicate most_taken 0 }
    ensures { (result ≤ most_taken) × (take result scratch.new ≡ part_taken e maps.now) }
{
    let NodeEvent::TakePart(offset, length, giver) = e else {
        return 0;
    };
    // Twice as long as a part may be.
    let n = length.min(2048) as usize;
    let s = event_ask::lending::find(maps.len(), giver, map_numbers::refusals::MAP_BYTES);
    pick_out(&maps[s.from..s.to], offset, n, scratch);
    n
}

// The event of node k, on its part of the nodes' maps and of their staging maps.
pub fn node_event(
    n: StorageNode,
    k: u64,
    lent: Lent,
    e: NodeEvent,
    maps: &mut [u8],
    stagings: &mut [u8],
) -> Out<Answer>
    ensures value { result ≡ node_answers n k lent e maps.old stagings.old }
    ensures maps_after { maps.new ≡ maps_left n k lent e maps.old stagings.old }
    ensures stagings_after { stagings.new ≡ stagings_left n k lent e maps.old stagings.old }
{
    let mut scratch = [0u8; 2048];
    let size = fetch(e, maps, &mut scratch);
    let s = event_ask::lending::find(maps.len(), k, event_ask::lending::size(lent.maps, k));
    let t = event_ask::lending::find(
        stagings.len(),
        k,
        event_ask::lending::size(lent.stagings, k),
    );
    event_call::node_event::call(
        n,
        e,
        &mut maps[s.from..s.to],
        &mut stagings[t.from..t.to],
        &scratch[..size],
    )
}
