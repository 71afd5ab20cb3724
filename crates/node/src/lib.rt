// A storage node's face: its state is a value; each event is a method that takes it, with the node's two maps lent, and hands the next one back with
// the answer. The rules stand in the crates below; here the lent maps are checked, and what is due to them is carried out.
#![tactic(auto)]

ghost use Rattle.std.specs.Prelude.{◌≡◌, []};
ghost use Rattle.rules_base.specs.Limits.{numbers};
ghost use Rattle.rules_node.specs.Events.{Event, turn_of};
ghost use Rattle.rules_node.specs.Face.{lent_number, Lent, map_by, staging_by, words_by};
ghost use Rattle.rules_node.specs.Unique.{Meets};
ghost use Rattle.event.specs.OfNode.{event_of};
ghost use Rattle.node.specs.Face.{held, came, fresh_node, handed, checked, next_at};

use event::NodeEvent;
use map_summary::summaries::Summaries;
use rules_base::{Numbers, Op, Refusal};
use rules_node::{Answer, Checked, Next, Node, Turn};

// The state of the rules, and the summaries of the map.
#[derive(Clone, Copy)]
pub struct StorageNode {
    pub node: Node,
    pub summaries: Summaries,
}

// What a node hands back: what it answers, and itself, which stays as it is where it is only asked.
#[derive(Clone, Copy)]
pub struct Out<A> {
    pub answer: A,
    pub node: StorageNode,
}

// The numbers stand here and at the client: each face says those of its type, and the statements name both.
// map and staging in each method, and no struct: the caller holds them as two buffers, and lends both as they are.
// enable1, enable0 and write take `mut self`, as the interface has them.
impl StorageNode {
    pub const MEMBERS: u64 = map_numbers::refusals::MEMBERS;

    pub const CHUNK_LIMIT: u64 = map_numbers::refusals::CHUNK_LIMIT;

    pub const MAP_BYTES: usize = map_numbers::refusals::MAP_BYTES;

    pub const VERSION_LIMIT: u64 = map_numbers::refusals::VERSION_LIMIT;

    // The numbers of the type as a value: those that the rules speak of.
    pub fn numbers() -> Numbers
        ensures { result ≡ numbers }
    {
        Numbers {
            members: Self::MEMBERS,
            chunks: Self::CHUNK_LIMIT,
            bytes: Self::MAP_BYTES as u64,
            version: Self::VERSION_LIMIT,
        }
    }

    // A fresh node: EMPTY, with nothing. Any numbers: what they break is refused by the events.
    pub fn fresh(id: u64, chunks: u64) -> StorageNode
        ensures { result ≡ fresh_node id chunks }
    {
        StorageNode {
            node: node_state::change::fresh(id, chunks),
            summaries: [0; 96],
        }
    }

    // Register create: EMPTY to REGISTERED, all that was known gone.
    pub fn register_create(self, map: &mut [u8], staging: &mut [u8]) -> Out<Answer>
        ensures { Meets Event.register_create (held self) map.old staging.old (came result) map.new staging.new }
    {
        event(self, NodeEvent::RegisterCreate, map, staging)
    }

    // Register add: a store that brings its member set and version.
    pub fn register_add(
        self,
        map: &mut [u8],
        staging: &mut [u8],
        set: u64,
        version: u64,
    ) -> Out<Answer>
        ensures { Meets (Event.register_add set version) (held self) map.old staging.old (came result) map.new staging.new }
    {
        event(self, NodeEvent::RegisterAdd(set, version), map, staging)
    }

    // Unregister: the store goes.
    pub fn unregister(self, map: &mut [u8], staging: &mut [u8], delete: bool) -> Out<Answer>
        ensures { Meets (Event.unregister delete) (held self) map.old staging.old (came result) map.new staging.new }
    {
        event(self, NodeEvent::Unregister(delete), map, staging)
    }

    // Join in create mode, with the members so far.
    pub fn join_create(self, map: &mut [u8], staging: &mut [u8], set: u64) -> Out<Answer>
        ensures { Meets (Event.join_create set) (held self) map.old staging.old (came result) map.new staging.new }
    {
        event(self, NodeEvent::JoinCreate(set), map, staging)
    }

    // Assemble or rejoin.
    pub fn assemble(self, map: &mut [u8], staging: &mut [u8]) -> Out<Answer>
        ensures { Meets Event.assemble (held self) map.old staging.old (came result) map.new staging.new }
    {
        event(self, NodeEvent::JoinAssemble, map, staging)
    }

    // The session leaves the pool.
    pub fn leave(self, map: &mut [u8], staging: &mut [u8], delete: bool) -> Out<Answer>
        ensures { Meets (Event.leave delete) (held self) map.old staging.old (came result) map.new staging.new }
    {
        event(self, NodeEvent::Leave(delete), map, staging)
    }

    // Enable 1: IOs are allowed.
    pub fn enable1(
        mut self,
        map: &mut [u8],
        staging: &mut [u8],
        version: u64,
        set: u64,
    ) -> Out<Answer>
        ensures { Meets (Event.enable1 version set) (held self) map.old staging.old (came result) map.new staging.new }
    {
        event(self, NodeEvent::Enable1(version, set), map, staging)
    }

    // Enable 0: maintenance.
    pub fn enable0(mut self, map: &mut [u8], staging: &mut [u8]) -> Out<Answer>
        ensures { Meets Event.enable0 (held self) map.old staging.old (came result) map.new staging.new }
    {
        event(self, NodeEvent::Enable0, map, staging)
    }

    // An error of IO or network.
    pub fn fault(self, map: &mut [u8], staging: &mut [u8]) -> Out<Answer>
        ensures { Meets Event.fault (held self) map.old staging.old (came result) map.new staging.new }
    {
        event(self, NodeEvent::Fault, map, staging)
    }

    // A write that reached this node and not the members of the set.
    pub fn write(
        mut self,
        map: &mut [u8],
        staging: &mut [u8],
        chunk: u64,
        set: u64,
        version: u64,
    ) -> Out<Answer>
        ensures { Meets (Event.write chunk set version) (held self) map.old staging.old (came result) map.new staging.new }
    {
        event(self, NodeEvent::Write(chunk, set, version), map, staging)
    }

    // A chunk was synced for a member.
    pub fn synced(self, map: &mut [u8], staging: &mut [u8], member: u64, chunk: u64) -> Out<Answer>
        ensures { Meets (Event.synced member chunk) (held self) map.old staging.old (came result) map.new staging.new }
    {
        event(self, NodeEvent::Synced(member, chunk), map, staging)
    }

    // POOL_INFO: another member came or went.
    pub fn pool_info(self, map: &mut [u8], staging: &mut [u8], op: Op, member: u64) -> Out<Answer>
        ensures { Meets (Event.pool_info op member) (held self) map.old staging.old (came result) map.new staging.new }
    {
        event(self, NodeEvent::PoolInfo(op, member), map, staging)
    }

    // MAP_READY: a transfer begins, from what the map holds or from nothing.
    pub fn map_ready(self, map: &mut [u8], staging: &mut [u8], keep: bool) -> Out<Answer>
        ensures { Meets (Event.map_ready keep) (held self) map.old staging.old (came result) map.new staging.new }
    {
        event(self, NodeEvent::MapReady(keep), map, staging)
    }

    // A part of the map goes out, the map's bytes from the offset on: where it goes is the caller's.
    pub fn give_part(
        self,
        map: &mut [u8],
        staging: &mut [u8],
        offset: u64,
        length: u64,
    ) -> Out<Answer>
        ensures { Meets (Event.give_part offset length) (held self) map.old staging.old (came result) map.new staging.new }
    {
        event(self, NodeEvent::GivePart(offset, length), map, staging)
    }

    // A part of a map is taken: ORed into staging at its offset.
    pub fn take_part(
        self,
        map: &mut [u8],
        staging: &mut [u8],
        offset: u64,
        part: &[u8],
    ) -> Out<Answer>
        ensures { Meets (Event.take_part offset part.now) (held self) map.old staging.old (came result) map.new staging.new }
    {
        let lent = lent_number(self, map, staging);
        let clean = map_whole::parts::is_clean(part, self.node.chunks, offset);
        let t = node_transfer::hand::take_part(self.node, lent, offset, part.len() as u64, clean);
        let out = finish(t, lent, self.summaries, map, staging);
        node_bytes::maps::take_in(t.effect.staging, part, staging);
        out
    }

    // MAP_DONE: staging takes the map's place.
    pub fn map_done(
        self,
        map: &mut [u8],
        staging: &mut [u8],
        enabling: bool,
        version: u64,
        set: u64,
    ) -> Out<Answer>
        ensures { Meets (Event.map_done enabling version set) (held self) map.old staging.old (came result) map.new staging.new }
    {
        event(
            self,
            NodeEvent::MapDone(enabling, version, set),
            map,
            staging,
        )
    }

    // MAP_DISABLE: the transfer is given up.
    pub fn map_disable(self, map: &mut [u8], staging: &mut [u8]) -> Out<Answer>
        ensures { Meets Event.map_disable (held self) map.old staging.old (came result) map.new staging.new }
    {
        event(self, NodeEvent::MapDisable, map, staging)
    }

    // MAP_GET_VER: the answer carries the version.
    pub fn map_get_ver(self, map: &mut [u8], staging: &mut [u8]) -> Out<Answer>
        ensures { Meets Event.map_get_ver (held self) map.old staging.old (came result) map.new staging.new }
    {
        event(self, NodeEvent::MapGetVer, map, staging)
    }

    // LAST_IO_TO_MAP: the kept chunks go into the map.
    pub fn last_io_to_map(self, map: &mut [u8], staging: &mut [u8], chosen: u64) -> Out<Answer>
        ensures { Meets (Event.last_io_to_map chosen) (held self) map.old staging.old (came result) map.new staging.new }
    {
        event(self, NodeEvent::LastIo(chosen), map, staging)
    }

    // A leg was added to the pool in service: every chunk is dirty for it.
    pub fn fill(self, map: &mut [u8], staging: &mut [u8], member: u64, version: u64) -> Out<Answer>
        ensures { Meets (Event.fill member version) (held self) map.old staging.old (came result) map.new staging.new }
    {
        event(self, NodeEvent::Fill(member, version), map, staging)
    }

    // Map check: whether the node is NORMAL and its own row is empty. The maps are only read.
    pub fn map_check(self, map: &[u8], staging: &[u8]) -> Out<Checked>
        ensures { result ≡ checked self map.now staging.now }
    {
        let lent = lent_number(self, map, staging);
        let clean = map_whole::emptyrows::is_empty(map, self.node.id);
        Out {
            answer: node_ask::checks::map_check(self.node, lent, clean),
            node: self,
        }
    }

    // The first dirty chunk of a member's row at or after the start, found by the summaries. The maps are only read.
    pub fn next(self, map: &[u8], staging: &[u8], member: u64, start: u64) -> Out<Next>
        ensures { result ≡ next_at self map.now staging.now member start }
    {
        let lent = lent_number(self, map, staging);
        let sought = map_summary::searching::search_row(&self.summaries, map, member, start);
        Out {
            answer: node_ask::next::next_dirty(self.node, lent, member, start, sought.found),
            node: self,
        }
    }
}

// An event that no part is lent to: TakePart takes one of no bytes here.
pub fn event(s: StorageNode, e: NodeEvent, map: &mut [u8], staging: &mut [u8]) -> Out<Answer>
    ensures { Meets (event_of e []) (held s) map.old staging.old (came result) map.new staging.new }
{
    let lent = lent_number(s, map, staging);
    let t = turn_of(s.node, lent, e);
    finish(t, lent, s.summaries, map, staging)
}

// What the rules say to such an event, with the number that the lent maps refuse with.
fn turn_of(n: Node, lent: u64, e: NodeEvent) -> Turn
    ensures { result ≡ turn_of (event_of e []) n lent }
{
    match e {
        NodeEvent::RegisterCreate => node_register::register::register_create(n, lent),
        NodeEvent::RegisterAdd(set, version) => node_register::register::register_add(
            n, lent, set, version,
        ),
        NodeEvent::Unregister(delete) => node_register::register::unregister(n, lent, delete),
        NodeEvent::JoinCreate(set) => node_register::joins::join_create(n, lent, set),
        NodeEvent::JoinAssemble => node_register::joins::assemble(n, lent),
        NodeEvent::Leave(delete) => node_register::joins::leave(n, lent, delete),
        NodeEvent::Enable1(version, set) => node_register::enables::enable1(n, lent, version, set),
        NodeEvent::Enable0 => node_register::enables::enable0(n, lent),
        NodeEvent::Fault => node_register::enables::fault(n, lent),
        NodeEvent::Write(chunk, set, version) => node_write::writes::write::write(
            n, lent, chunk, set, version,
        ),
        NodeEvent::Synced(member, chunk) => node_write::writes::write::synced(
            n, lent, member, chunk,
        ),
        NodeEvent::PoolInfo(op, member) => node_write::writes::info::pool_info(n, lent, op, member),
        NodeEvent::LastIo(chosen) => node_transfer::serve::last_io_to_map(n, lent, chosen),
        NodeEvent::MapReady(keep) => node_transfer::serve::map_ready(n, lent, keep),
        NodeEvent::GivePart(offset, length) => node_transfer::serve::give_part(
            n, lent, offset, length,
        ),
        NodeEvent::TakePart(offset, _, _) => node_transfer::hand::take_part(
            n, lent, offset, 0, true,
        ),
        NodeEvent::MapDone(enabling, version, set) => node_transfer::hand::map_done(
            n, lent, enabling, version, set,
        ),
        NodeEvent::MapDisable => node_transfer::hand::map_disable(n, lent),
        NodeEvent::MapGetVer => node_transfer::serve::map_get_ver(n, lent),
        NodeEvent::Fill(member, version) => node_write::fills::fill(n, lent, member, version),
    }
}

// The number that the lent maps refuse with, 0 where they do not. A number and no Option: the rules' lent_number is one, and their turns are told it.
fn lent_number(s: StorageNode, map: &[u8], staging: &[u8]) -> u64
    ensures { result ≡ lent_number s.node.chunks s.summaries map.now staging.now }
{
    let chunks = s.node.chunks;
    if !map_whole::maps::is_sound(map, chunks) || !map_whole::maps::is_sound(staging, chunks) {
        Refusal::BadMap.number()
    } else if !map_summary::summaries::agree(s.summaries, map) {
        Refusal::BadSummary.number()
    } else {
        0
    }
}

// Carries out what is due to the maps, has the summaries follow, and hands the answer back with the state.
fn finish(t: Turn, lent: u64, words: Summaries, map: &mut [u8], staging: &mut [u8]) -> Out<Answer>
    requires { lent ≡ 0 → Lent words map.old }
    ensures value { result ≡ handed t (words_by lent t words map.old staging.old) }
    ensures map_after { map.new ≡ map_by t map.old staging.old }
    ensures staging_after { staging.new ≡ staging_by t map.old staging.old }
{
    node_bytes::maps::carry(t.effect, t.node, map, staging);
    Out {
        answer: t.answer,
        node: StorageNode {
            node: t.node,
            summaries: node_bytes::summaries::after(lent, t.effect.map, words, map),
        },
    }
}
