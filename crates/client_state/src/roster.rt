// The sixteen session records as one thing: reading and storing one, the sets read off them, and the named changes. Every function takes any number.
ghost use Rattle.std.specs.Prelude.{◌≡◌};
ghost use Rattle.rules_pool.specs.Sessions.{session_at, stored, misplaced, outside, unsynced, odd, is_kind, ids_of};

use crate::state::{
    is_candidate, is_cut, is_deleting, is_failed, is_free, is_normal, is_owed, is_told,
};
use map_numbers::sets::has;
use rules_pool::{Kind, Roster, Session, State};

pub fn session(ro: Roster, id: u64) -> Session
    ensures { result ≡ session_at ro id }
{
    if 15 < id {
        return crate::state::new(State::Free);
    }
    ro.sessions[id as usize]
}

pub fn store(mut ro: Roster, id: u64, s: Session) -> Roster
    ensures { result ≡ stored ro id s }
{
    if id < 16 {
        ro.sessions[id as usize] = s;
    }
    ro
}

fn is_misplaced(s: Session) -> bool
    ensures { result ≡ misplaced s }
{
    (s.mark || s.maintenance) && !matches!(s.state, State::Failed(_) | State::Reconnecting)
}

fn is_outside(members: u64, i: u64, s: Session) -> bool
    ensures { result ≡ outside members i s }
{
    !matches!(s.state, State::Free | State::Removing(_, _)) && !has(members, i)
}

fn is_unsynced(s: Session) -> bool
    ensures { result ≡ unsynced s }
{
    s.mark || s.maintenance || matches!(s.state, State::Reconnecting)
}

// Here and at is_kind: sync and members, as the definitions take them, and no Roster: one record is judged, not the sixteen.
fn is_odd(sync: bool, members: u64, i: u64, s: Session) -> bool
    ensures { result ≡ odd sync members i s }
{
    is_misplaced(s) || (sync && is_unsynced(s)) || (!sync && is_outside(members, i, s))
}

fn is_kind(k: Kind, sync: bool, members: u64, i: u64, s: Session) -> bool
    ensures { result ≡ is_kind k sync members i s }
{
    match k {
        Kind::Present => !is_free(s.state),
        Kind::Normals => is_normal(s.state),
        Kind::Candidates => is_candidate(s),
        Kind::Marked => s.mark,
        Kind::Maintained => s.maintenance,
        Kind::Deleting => is_deleting(s.state),
        Kind::Owed => is_owed(s.state),
        Kind::Told => is_told(s.state),
        Kind::Later(last) => is_told(s.state) && last < i,
        Kind::Strays(ids) => has(ids, i) && !is_candidate(s),
        Kind::Reached(ids) => is_normal(s.state) && has(ids, i),
        Kind::Unreached(ids) => is_normal(s.state) && !has(ids, i),
        Kind::Abnormal(ids) => has(ids, i) && !is_normal(s.state),
        Kind::Listed => has(members, i) && !is_normal(s.state) && !is_deleting(s.state),
        Kind::Odd => is_odd(sync, members, i, s),
        Kind::Link => is_cut(s.state),
        Kind::Io => is_failed(s.state) && !is_cut(s.state),
        Kind::Unused => is_free(s.state) && !has(members, i),
    }
}

// The set of the ids whose record is of the kind.
#[tactic(auto, unfolding(rules_pool::specs::Sessions::ids_of))]
pub fn ids(k: Kind, ro: Roster) -> u64
    ensures { result ≡ ids_of k ro }
{
    let mut n = 0;
    for (i, s) in ro.sessions.iter().enumerate() {
        n += u64::from(is_kind(k, ro.sync, ro.members, i as u64, *s)) << i;
    }
    n
}
