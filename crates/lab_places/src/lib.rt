// The lab's bench: the nodes, each in its place, and the maps: the client's, and those of the nodes, which stand one after another.
#![tactic(auto)]

ghost use Rattle.std.specs.Prelude.{◌≡◌, length};
ghost use Rattle.lab_places.specs.Fresh.{fresh_nodes};
ghost use Rattle.lab_places.specs.Places.{node_in, with_node, arranged};
ghost use Rattle.lab_places.specs.Poke.{poked as Poke·poked, poked_got as Poke·poked_got, poked_word as Poke·poked_word};

use lab_form::Command;
use node::StorageNode;
use rules_node::State;

// Sixteen nodes, and of each a map and a staging map of 8,192 bytes. Only main holds one; what works on nodes and maps takes slices of any length, and of the bench's those that it writes or reads.
// No array of a node with its maps: the maps of one kind stand one after another, since an event lends a part of them, and the part is found in such a buffer.
#[derive(Clone, Copy)]
pub struct Bench {
    pub own: [u8; 8192],
    pub nodes: [StorageNode; 16],
    pub maps: [u8; 131072],
    pub stagings: [u8; 131072],
}

impl Bench {
    ghost use Rattle.lab_places.specs.Places.{fresh_bench};

    // Sixteen fresh nodes, and all maps zeroed.
    pub fn new(chunks: u64) -> Bench
        ensures { result ≡ fresh_bench chunks }
    {
        let mut nodes = [StorageNode::fresh(0, chunks); 16];
        renew(chunks, &mut nodes);
        Bench {
            own: [0; 8192],
            nodes,
            maps: [0; 131072],
            stagings: [0; 131072],
        }
    }
}

// The node in place n; a fresh one of no chunks where there is no such place.
pub fn node_in(n: u64, nodes: &[StorageNode]) -> StorageNode
    ensures { result ≡ node_in nodes.now n }
{
    let i = n as usize;
    if nodes.len() <= i {
        return StorageNode::fresh(0, 0);
    }
    nodes[i]
}

// A node in place n; nothing changes where there is no such place.
pub fn put(n: u64, node: StorageNode, nodes: &mut [StorageNode])
    ensures { nodes.new ≡ with_node nodes.old n node }
{
    let i = n as usize;
    if i < nodes.len() {
        nodes[i] = node;
    }
}

// What a line that sets the lab up does to the nodes; the others leave them.
pub fn arrange(c: Command, nodes: &mut [StorageNode])
    ensures { nodes.new ≡ arranged nodes.old c }
{
    match c {
        Command::Pool(_, chunks) => renew(chunks, nodes),
        Command::PokeNode(n, s, st, cr, m, v, t) => {
            put(n, poked(node_in(n, nodes), s, st, cr, m, v, t), nodes);
        }
        Command::PokeGot(n, got) => put(n, poked_got(node_in(n, nodes), got), nodes),
        Command::Summary(n, i, v) => put(n, poked_word(node_in(n, nodes), i, v), nodes),
        _ => {}
    }
}

// A fresh node in each place.
fn renew(chunks: u64, nodes: &mut [StorageNode])
    ensures { nodes.new ≡ fresh_nodes chunks (length nodes.old) }
{
    for i in 0..nodes.len() {
        nodes[i] = StorageNode::fresh(i as u64, chunks);
    }
}

// A node's state put in, unchecked. Own id, chunk count and kept chunks stay.
fn poked(
    mut n: StorageNode,
    state: State,
    store: bool,
    create: bool,
    members: u64,
    version: u64,
    transfer: Option<u64>,
) -> StorageNode
    ensures { result ≡ Poke·poked n state store create members version transfer }
{
    n.node.state = state;
    n.node.store = store;
    n.node.create = create;
    n.node.members = members;
    n.node.version = version;
    n.node.transfer = transfer;
    n
}

// Of the transfer in hand at a node, if any, so many bytes are taken. Unchecked; the rest stays.
fn poked_got(mut n: StorageNode, got: u64) -> StorageNode
    ensures { result ≡ Poke·poked_got n got }
{
    n.node.transfer = n.node.transfer.map(|_| got);
    n
}

// A word of a node's summaries put in, unchecked; there are 96.
fn poked_word(mut n: StorageNode, i: u64, v: u64) -> StorageNode
    ensures { result ≡ Poke·poked_word n i v }
{
    if i < 96 {
        n.summaries[i as usize] = v;
    }
    n
}
