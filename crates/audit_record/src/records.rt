// Log records. A record says what an accepted event of the client was, and its pool's version, NORMAL count and causes after it.
ghost use Rattle.std.specs.Prelude.{◌≡◌};
ghost use Rattle.audit_record.specs.Records.{no_record, cause_number, causes_in, said, remove_kind, reply_entry, picked_in, entry_of, record_of, event_in, place_after};

use rules_pool::{Cause, Mode, Outcome, Reply, Roster, Session, State};

// sequence is the record's place in its log, from 1. A field that its kind does not use is 0. kind is a number: a record is read from a line, where any may stand (event_in).
#[derive(Clone, Copy, PartialEq, Eq)]
pub struct Record {
    pub sequence: u64,
    pub kind: u64,
    pub member: u64,
    pub set: u64,
    pub number: u64,
    pub version: u64,
    pub count: u64,
    pub causes: u64,
}

// The events that are logged. JoinAssemble: id, set, version. Write: chunk, reached set. Answer: to the awaited message. Extend: the id is the one it picks.
#[derive(Clone, Copy)]
pub enum Logged {
    JoinCreate(u64),
    JoinAssemble(u64, u64, u64),
    Enable(u64),
    Maintenance(u64),
    LinkDown(u64),
    StoreCheck(u64),
    Remove(u64, Mode),
    Write(u64, u64),
    Try,
    Answer(Reply),
    Rejoin(u64),
    Extend,
}

// No event's record: there is no kind 0.
pub fn no_record() -> Record
    ensures { result ≡ no_record }
{
    Record {
        sequence: 0,
        kind: 0,
        member: 0,
        set: 0,
        number: 0,
        version: 0,
        count: 0,
        causes: 0,
    }
}

fn cause_number(st: State) -> u64
    ensures { result ≡ cause_number st }
{
    match st {
        State::Failed(Cause::Link) => 1,
        State::Failed(Cause::Io) => 2,
        _ => 0,
    }
}

// Why each of the sixteen sessions failed, two bits each. From the last to the first, so that the first is lowest.
fn causes(ss: [Session; 16]) -> u64
    ensures { result ≡ causes_in ss }
{
    let mut n: u64 = 0;
    for i in (0..16).rev() {
        n = n * 4 + cause_number(ss[i].state);
    }
    n
}

// What a record says of its event; its other fields are not known yet.
fn said(kind: u64, member: u64, set: u64, number: u64) -> Record
    ensures { result ≡ said kind member set number }
{
    Record {
        kind,
        member,
        set,
        number,
        ..no_record()
    }
}

fn remove_kind(m: Mode) -> u64
    ensures { result ≡ remove_kind m }
{
    match m {
        Mode::Delete => 7,
        Mode::Disassemble => 8,
    }
}

fn reply_entry(a: Reply) -> Record
    ensures { result ≡ reply_entry a }
{
    match a {
        Reply::Good(None) => said(11, 0, 0, 0),
        Reply::Good(Some(v)) => said(12, 0, 0, v),
        Reply::Failed => said(13, 0, 0, 0),
    }
}

fn picked_in(o: Outcome) -> u64
    ensures { result ≡ picked_in o }
{
    match o {
        Outcome::Picked(id) => id,
        _ => 0,
    }
}

fn entry_of(e: Logged, o: Outcome) -> Record
    ensures { result ≡ entry_of e o }
{
    match e {
        Logged::JoinCreate(id) => said(1, id, 0, 0),
        Logged::JoinAssemble(id, set, version) => said(2, id, set, version),
        Logged::Enable(id) => said(3, id, 0, 0),
        Logged::Maintenance(id) => said(4, id, 0, 0),
        Logged::LinkDown(id) => said(5, id, 0, 0),
        Logged::StoreCheck(id) => said(6, id, 0, 0),
        Logged::Remove(id, m) => said(remove_kind(m), id, 0, 0),
        Logged::Write(chunk, reached) => said(9, 0, reached, chunk),
        Logged::Try => said(10, 0, 0, 0),
        Logged::Answer(a) => reply_entry(a),
        Logged::Rejoin(id) => said(14, id, 0, 0),
        Logged::Extend => said(15, picked_in(o), 0, 0),
    }
}

// The record of an accepted event that reports o and leaves the sessions ro, at the place n of its log.
#[tactic(auto, unfolding(crate::specs::Records::record_of))]
pub fn record_of(n: u64, e: Logged, o: Outcome, ro: Roster) -> Record
    ensures { result ≡ record_of n e o ro }
{
    Record {
        sequence: n,
        version: ro.version,
        count: ro.count,
        causes: causes(ro.sessions),
        ..entry_of(e, o)
    }
}

// Which event a record names, if its kind is known; nothing is said yet of the fields that its kind does not use.
#[tactic(auto, unfolding(crate::specs::Records::event_in))]
pub fn event_in(r: Record) -> Option<Logged>
    ensures { result ≡ event_in r }
{
    match r.kind {
        1 => Some(Logged::JoinCreate(r.member)),
        2 => Some(Logged::JoinAssemble(r.member, r.set, r.number)),
        3 => Some(Logged::Enable(r.member)),
        4 => Some(Logged::Maintenance(r.member)),
        5 => Some(Logged::LinkDown(r.member)),
        6 => Some(Logged::StoreCheck(r.member)),
        7 => Some(Logged::Remove(r.member, Mode::Delete)),
        8 => Some(Logged::Remove(r.member, Mode::Disassemble)),
        9 => Some(Logged::Write(r.number, r.set)),
        10 => Some(Logged::Try),
        11 => Some(Logged::Answer(Reply::Good(None))),
        12 => Some(Logged::Answer(Reply::Good(Some(r.number)))),
        13 => Some(Logged::Answer(Reply::Failed)),
        14 => Some(Logged::Rejoin(r.member)),
        15 => Some(Logged::Extend),
        _ => None,
    }
}

// The place after n. The last that there is stays: no log is so long.
#[tactic(auto, unfolding(crate::specs::Records::place_after))]
pub fn place_after(n: u64) -> u64
    ensures { result ≡ place_after n }
{
    n.saturating_add(1)
}
