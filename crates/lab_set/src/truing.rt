// A row's six words made true of the row: what a byte that is put into a node's map does to that node's summaries.
ghost use Rattle.std.specs.Prelude.{◌≡◌};
ghost use Rattle.lab_set.specs.Truing.{row_trued, trued};

use map_summary::summaries::Summaries;
use node::StorageNode;

fn row_trued(m: u64, mut words: Summaries, map: &[u8]) -> Summaries
    ensures { result ≡ row_trued m map.now words }
{
    if 15 < m {
        return words;
    }
    let all = map_summary::summaries::of_map(map);
    let from = 6 * m as usize;
    words[from..from + 6].copy_from_slice(&all[from..from + 6]);
    words
}

// Member m's six words at node n made true of its map, however much of that is lent.
pub fn true_row(n: u64, m: u64, nodes: &mut [StorageNode], maps: &[u8])
    ensures { nodes.new ≡ trued nodes.old n m maps.now }
{
    let s = event_ask::lending::find(maps.len(), n, map_numbers::refusals::MAP_BYTES);
    let mut node = lab_places::node_in(n, nodes);
    node.summaries = row_trued(m, node.summaries, &maps[s.from..s.to]);
    lab_places::put(n, node, nodes)
}
