// The client's types, and the rules below its events: sessions, runs, the state rules, the one exit; the rules are in specs/. A value that no event can make is made impossible by its
// type where that is cheap; what is left is tested by the state rules.
#![tactic(auto)]

use rules_base::Op;

// What a set of ids is made of. Present: has a session. Maintained: flagged. Owed: REMOVING, and LEAVE_POOL is owed. Told: POOL_INFO goes there; Later: and the id is above the given one. Strays: of the set, no
// candidate. Reached, Unreached: NORMAL, in the set or not. Abnormal: of the set, not NORMAL. Listed: on the mark list of a write. Odd: the record alone
// breaks a state rule. Link, Io: FAILED with this cause. Unused: neither a member nor held by a session. Kinds and no closures: the statements name them
// (theorem_bounds: most).
#[derive(Clone, Copy)]
pub enum Kind {
    Present,
    Normals,
    Candidates,
    Marked,
    Maintained,
    Deleting,
    Owed,
    Told,
    Later(u64),
    Strays(u64),
    Reached(u64),
    Unreached(u64),
    Abnormal(u64),
    Listed,
    Odd,
    Link,
    Io,
    Unused,
}

// The ways out of NORMAL.
#[derive(Clone, Copy)]
pub enum Way {
    Failed(Cause),
    Maintenance,
    Removing(Mode, bool),
}

// What an answer does: how the run goes on, unless it is over, the answers taken with this one, who became NORMAL, who gets MAP_DISABLE.
#[derive(Clone, Copy)]
pub struct Move {
    pub next: Option<Run>,
    pub taken: u64,
    pub normal: Option<u64>,
    pub disable: Option<u64>,
}

// The pool, and the awaited message that was sent with it.
#[derive(Clone, Copy)]
pub struct Posted {
    pub pool: Pool,
    pub awaited: Message,
}

// Delete takes the member out for good; disassemble leaves it a member.
#[derive(Clone, Copy, PartialEq, Eq)]
pub enum Mode {
    Delete,
    Disassemble,
}

// Why a session is FAILED: its link went down, or a write did not reach it.
#[derive(Clone, Copy, PartialEq, Eq)]
pub enum Cause {
    Link,
    Io,
}

// A session's state. Free: the id has no session. FAILED carries its cause, so that a cause stands exactly while a session is FAILED. REMOVING carries its
// mode, and whether LEAVE_POOL is still owed.
#[derive(Clone, Copy, PartialEq, Eq)]
pub enum State {
    Free,
    Created,
    Normal,
    Failed(Cause),
    Reconnecting,
    Removing(Mode, bool),
}

#[derive(Clone, Copy, PartialEq, Eq)]
pub struct Session {
    pub state: State,
    pub maintenance: bool,
    pub mark: bool,
}

// What the pool went through since its membership was last emptied by a delete. written: a write was acknowledged. assembled: a node's member set was taken over.
#[derive(Clone, Copy, PartialEq, Eq)]
pub struct Past {
    pub written: bool,
    pub assembled: bool,
}

// The sixteen sessions, with the numbers that follow them. count is the NORMAL count.
#[derive(Clone, Copy)]
pub struct Roster {
    pub sessions: [Session; 16],
    pub count: u64,
    pub version: u64,
    pub members: u64,
    pub sync: bool,
    pub past: Past,
}

// The three messages of a spread to one receiver.
#[derive(Clone, Copy, PartialEq, Eq)]
pub enum Step {
    Ready,
    Send,
    Done,
}

// The phase of a recovery run. Versions carries the highest version so far. Base is the spread without enable, Spread the one with it. Enable carries whether
// the run is one of case 3: there every member is to stay a candidate until the enabling spread begins.
#[derive(Clone, Copy)]
pub enum Phase {
    Versions(u64),
    Base(Step),
    LastIo,
    Gather(Step),
    Enable(bool),
    Spread(Step),
}

// A recovery run: the source (in case 3 the chosen), who is left in its phase, and the awaited answers taken so far. In hand is the lowest of left.
#[derive(Clone, Copy)]
pub struct Run {
    pub phase: Phase,
    pub source: u64,
    pub left: u64,
    pub taken: u64,
}

// What a removal awaits: LEAVE_POOL of its own session, or POOL_INFO of a peer. No Option: each is something that is awaited.
#[derive(Clone, Copy)]
pub enum Stage {
    Leave,
    Info(u64),
}

#[derive(Clone, Copy)]
pub struct Removal {
    pub id: u64,
    pub stage: Stage,
}

#[derive(Clone, Copy)]
pub enum Job {
    Idle,
    Running(Run),
    Removing(Removal),
}

// The client's whole state. number is that of the last awaited message.
#[derive(Clone, Copy)]
pub struct Pool {
    pub roster: Roster,
    pub job: Job,
    pub number: u32,
    pub chunks: u64,
}

// The awaited message: to whom, and what it carries. Ready: keep. Send: the receiver. Done: enable, version, set. LastIo: the chosen. Enable: version, set.
#[derive(Clone, Copy)]
pub enum Message {
    Nothing,
    GetVersion(u64),
    Ready(u64, bool),
    Send(u64, u64),
    Done(u64, bool, u64, u64),
    LastIo(u64, u64),
    Enable(u64, u64, u64),
    Leave(u64, Mode),
    Info(u64, Op, u64),
}

// The messages that are not awaited; an event sends at most one kind. Marks: to each of a set, chunk, list, version. Clears: to each of a set, member,
// chunk. Infos: to each of a set, what, member. Disable: MAP_DISABLE. Off: ENABLE 0. Extended: POOL_INFO of a member added by create to each of a set, then
// its fill to each of another: others, normals, member, version. Checks: MAP_CHECK to each of a set, the tick's number.
#[derive(Clone, Copy)]
pub enum Told {
    Nothing,
    Marks(u64, u64, u64, u64),
    Clears(u64, u64, u64),
    Infos(u64, Op, u64),
    Disable(u64),
    Off(u64),
    Extended(u64, u64, u64, u64),
    Checks(u64, u64),
}

// What an accepted event reports beside its messages. Taken: the awaited answers taken so far in the run. Written: acknowledged or not, and the mark list.
// Picked: the id that extend picked.
#[derive(Clone, Copy)]
pub enum Outcome {
    Plain,
    Taken(u64),
    Written(bool, u64),
    Picked(u64),
}

// All that an accepted event hands back. number is the awaited message's, 0 beside Nothing.
#[derive(Clone, Copy)]
pub struct Sent {
    pub outcome: Outcome,
    pub told: Told,
    pub awaited: Message,
    pub number: u32,
}

// No Result with an error enum: the theorems speak of the number in Refused as of any number (theorem_client: Verdict, NeverOne; theorem_client_exact: NumberGiven).
#[derive(Clone, Copy)]
pub enum Answer {
    Refused(u64),
    Done(Sent),
}

// An awaited answer. Good: with the version that it brings, if it brings one. No Result: a failed answer is what a node says, and no error of the client's.
#[derive(Clone, Copy)]
pub enum Reply {
    Failed,
    Good(Option<u64>),
}

// What is to be done to the client map: nothing, mark a set at a chunk, zero a member's row, zero all, set a member's row for every chunk below a count.
#[derive(Clone, Copy)]
pub enum Effect {
    Keep,
    Mark(u64, u64),
    ZeroRow(u64),
    ZeroAll,
    FillRow(u64, u64),
}

// An event on values, without maps: the answer, the next state, and what is to be done to the client map.
#[derive(Clone, Copy)]
pub struct Turn {
    pub answer: Answer,
    pub pool: Pool,
    pub effect: Effect,
}
