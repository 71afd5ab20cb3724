// Any event as a value, of either side: the types; what each value is among the events of the rules is in specs/.
#![tactic(auto)]

use rules_base::Op;
use rules_pool::{Mode, Reply};

// The client's events. Synced: member, chunk, the node whose map is lent. Answer: number, and what it says. CheckAnswer: the tick's number, member, empty or not.
#[derive(Clone, Copy)]
pub enum Event {
    JoinCreate(u64),
    JoinAssemble(u64, u64, u64),
    Enable(u64),
    Maintenance(u64),
    LinkDown(u64),
    StoreCheck(u64),
    Rejoin(u64),
    Try,
    Remove(u64, Mode),
    Write(u64, u64),
    Synced(u64, u64, u64),
    Answer(u64, Reply),
    Extend,
    Tick,
    CheckAnswer(u64, u64, bool),
}

// What a node is asked that changes nothing. Next: of a member's row, from which chunk on.
#[derive(Clone, Copy)]
pub enum Question {
    MapCheck,
    Next(u64, u64),
}

// A node's events. GivePart: offset, length. TakePart: offset, length, the node of whose map it is a part. Fill: member, version.
#[derive(Clone, Copy)]
pub enum NodeEvent {
    RegisterCreate,
    RegisterAdd(u64, u64),
    Unregister(bool),
    JoinCreate(u64),
    JoinAssemble,
    Leave(bool),
    Enable1(u64, u64),
    Enable0,
    Fault,
    Write(u64, u64, u64),
    Synced(u64, u64),
    PoolInfo(Op, u64),
    LastIo(u64),
    MapReady(bool),
    GivePart(u64, u64),
    TakePart(u64, u64, u64),
    MapDone(bool, u64, u64),
    MapDisable,
    MapGetVer,
    Fill(u64, u64),
}
