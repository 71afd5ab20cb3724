// What numbers stand for in a line, in a log and for C: modes, replies, operations, session records; and the numbers of operations and modes.
#![tactic(auto)]

ghost use Rattle.std.specs.Prelude.{◌≡◌};
ghost use Rattle.laws_words.specs.Words.{pick};
ghost use Rattle.event_number.specs.Values.{mode_of, reply_of, op_of, state_of, session_of, maybe_session, op_number, mode_number};

use rules_base::Op;
use rules_pool::{Cause, Mode, Reply, Session, State};

// Functions, not From and TryFrom: these types are another crate's, and every number stands for one of each.
pub fn mode_of(x: u64) -> Mode
    ensures { result ≡ mode_of x }
{
    match x {
        0 => Mode::Delete,
        _ => Mode::Disassemble,
    }
}

pub fn reply_of(kind: u64, version: u64) -> Reply
    ensures { result ≡ reply_of kind version }
{
    match kind {
        0 => Reply::Failed,
        1 => Reply::Good(None),
        _ => Reply::Good(Some(version)),
    }
}

pub fn op_of(x: u64) -> Op
    ensures { result ≡ op_of x }
{
    match x {
        0 => Op::AddCreate,
        1 => Op::AddAssemble,
        2 => Op::RemoveDelete,
        _ => Op::RemoveDisassemble,
    }
}

fn state_of(x: u64, mode: Mode, owed: bool) -> State
    ensures { result ≡ state_of x mode owed }
{
    match x {
        0 => State::Free,
        1 => State::Created,
        2 => State::Normal,
        3 => State::Failed(Cause::Link),
        4 => State::Reconnecting,
        6 => State::Failed(Cause::Io),
        _ => State::Removing(mode, owed),
    }
}

pub fn session_of(x: u64, maint: u64, mark: u64, md: u64, owed: u64) -> Session
    ensures { result ≡ session_of x maint mark md owed }
{
    Session {
        state: state_of(x, mode_of(md), owed == 1),
        maintenance: maint == 1,
        mark: mark == 1,
    }
}

// The session of these five, where they can be one: all in range, mode and owed 0 where it is not REMOVING, all four 0 where there is none.
pub fn session_in(x: u64, maint: u64, mark: u64, md: u64, owed: u64) -> Option<Session>
    ensures { result ≡ pick (maybe_session x maint mark md owed) (Some (session_of x maint mark md owed)) None }
{
    let range = x < 7 && maint < 2 && mark < 2 && md < 2 && owed < 2;
    let removing = x == 5 || (md == 0 && owed == 0);
    let none = x != 0 || (maint == 0 && mark == 0);
    (range && removing && none).then_some(session_of(x, maint, mark, md, owed))
}

pub fn op_number(op: Op) -> u64
    ensures { result ≡ op_number op }
{
    match op {
        Op::AddCreate => 0,
        Op::AddAssemble => 1,
        Op::RemoveDelete => 2,
        Op::RemoveDisassemble => 3,
    }
}

pub fn mode_number(mode: Mode) -> u64
    ensures { result ≡ mode_number mode }
{
    match mode {
        Mode::Delete => 0,
        Mode::Disassemble => 1,
    }
}
