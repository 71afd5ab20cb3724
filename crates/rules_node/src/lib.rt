// The rules of the node: the types that they speak of; the rules are in specs/.
#![tactic(auto)]

// Empty: the node's own row is, and the node is NORMAL.
// No Result with an error enum, here and in Next and Answer: the theorems speak of the number in Refused as of any number (theorem_map_check: Verdict; theorem_node: Asked, NeverOne).
#[derive(Clone, Copy)]
pub enum Checked {
    Refused(u64),
    Empty(bool),
}

// Is: what was found, a chunk or nothing.
#[derive(Clone, Copy)]
pub enum Next {
    Refused(u64),
    Is(Option<u64>),
}

// The states of source document 003.
#[derive(Clone, Copy, PartialEq, Eq)]
pub enum State {
    Empty,
    Registered,
    Created,
    Normal,
    NoIo,
}

// The node's whole state. create: registered with create mode. transfer: the map transfer in hand, with the bytes of the map that were taken so far, all 8,192
// when it is whole. The last chunk numbers written stand at the end of kept, in order of arrival; held says how many they are: an array and a count, since memory is fixed and the statements name both (theorem_node_exact: kept_chunks).
#[derive(Clone, Copy)]
pub struct Node {
    pub id: u64,
    pub chunks: u64,
    pub state: State,
    pub store: bool,
    pub create: bool,
    pub members: u64,
    pub version: u64,
    pub kept: [u64; 16],
    pub held: u64,
    pub transfer: Option<u64>,
}

// What is done to the node's map. Mark: a set, a chunk. Clear: a member, a chunk. LastIos: the chosen. ZeroRow: a member. KeepRows: of a set.
// Commit: staging in its place, with the rows of a set. FillRow: every chunk of a member.
#[derive(Clone, Copy)]
pub enum OnMap {
    Keep,
    Mark(u64, u64),
    Clear(u64, u64),
    LastIos(u64),
    ZeroRow(u64),
    Zero,
    KeepRows(u64),
    Commit(u64),
    FillRow(u64),
}

// What is done to the staging map. Fill: the map copied into it. Or: the part that was lent for taking ORed in, from an offset on.
#[derive(Clone, Copy)]
pub enum OnStaging {
    Keep,
    Zero,
    Fill,
    Or(u64),
}

#[derive(Clone, Copy)]
pub struct Effect {
    pub map: OnMap,
    pub staging: OnStaging,
}

// Version: the answer to MAP_GET_VER.
#[derive(Clone, Copy)]
pub enum Answer {
    Refused(u64),
    Done,
    Version(u64),
}

// An event on values, without maps: the answer, the next state, and what is to be done to the two maps.
#[derive(Clone, Copy)]
pub struct Turn {
    pub answer: Answer,
    pub node: Node,
    pub effect: Effect,
}
