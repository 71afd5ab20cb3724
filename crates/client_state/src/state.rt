// The tests on one session record, and the named changes of one.
ghost use Rattle.std.specs.Prelude.{◌≡◌};
ghost use Rattle.rules_pool.specs.Past.{no_past, in_service, past_written, past_taken_over, past_kept};
ghost use Rattle.rules_pool.specs.Session.{is_free, is_created, is_normal, is_failed, is_cut, is_reconnecting, is_removing, is_delete, is_deleting, is_owed, is_told, candidate, new_session, moved, flagged, marked, is_nothing};

use rules_pool::{Cause, Message, Mode, Past, Session, State};

pub fn is_free(s: State) -> bool
    ensures { result ≡ is_free s }
{
    matches!(s, State::Free)
}

pub fn is_created(s: State) -> bool
    ensures { result ≡ is_created s }
{
    matches!(s, State::Created)
}

pub fn is_normal(s: State) -> bool
    ensures { result ≡ is_normal s }
{
    matches!(s, State::Normal)
}

pub fn is_failed(s: State) -> bool
    ensures { result ≡ is_failed s }
{
    matches!(s, State::Failed(_))
}

// FAILED with cause link.
pub fn is_cut(s: State) -> bool
    ensures { result ≡ is_cut s }
{
    matches!(s, State::Failed(Cause::Link))
}

pub fn is_reconnecting(s: State) -> bool
    ensures { result ≡ is_reconnecting s }
{
    matches!(s, State::Reconnecting)
}

pub fn is_removing(s: State) -> bool
    ensures { result ≡ is_removing s }
{
    matches!(s, State::Removing(_, _))
}

// REMOVING in delete mode: the member is being deleted.
pub fn is_deleting(s: State) -> bool
    ensures { result ≡ is_deleting s }
{
    matches!(s, State::Removing(Mode::Delete, _))
}

pub fn is_delete(m: Mode) -> bool
    ensures { result ≡ is_delete m }
{
    matches!(m, Mode::Delete)
}

// Whether LEAVE_POOL is still owed to a REMOVING session.
pub fn is_owed(s: State) -> bool
    ensures { result ≡ is_owed s }
{
    matches!(s, State::Removing(_, true))
}

// A session that POOL_INFO goes to: there is one, and it is not FAILED or REMOVING.
pub fn is_told(s: State) -> bool
    ensures { result ≡ is_told s }
{
    matches!(s, State::Created | State::Normal | State::Reconnecting)
}

// A session that a recovery run may bring back.
pub fn is_candidate(s: Session) -> bool
    ensures { result ≡ candidate s }
{
    is_reconnecting(s.state) && !s.maintenance
}

// Whether nothing is awaited.
pub fn is_nothing(m: Message) -> bool
    ensures { result ≡ is_nothing m }
{
    matches!(m, Message::Nothing)
}

// The one constructor of a record, and the one setter of its state: a session keeps its flag and its mark while it is FAILED or RECONNECTING, and
// loses both on any other way.
pub fn new(state: State) -> Session
    ensures { result ≡ new_session state }
{
    Session {
        state,
        maintenance: false,
        mark: false,
    }
}

pub fn moved(s: Session, to: State) -> Session
    ensures { result ≡ moved s to }
{
    let keeps = matches!(to, State::Failed(_) | State::Reconnecting);
    Session {
        state: to,
        maintenance: s.maintenance && keeps,
        mark: s.mark && keeps,
    }
}

pub fn flagged(s: Session, on: bool) -> Session
    ensures { result ≡ flagged s on }
{
    Session {
        maintenance: on,
        ..s
    }
}

pub fn marked(s: Session, on: bool) -> Session
    ensures { result ≡ marked s on }
{
    Session { mark: on, ..s }
}

pub fn none() -> Past
    ensures { result ≡ no_past }
{
    Past {
        written: false,
        assembled: false,
    }
}

// Whether the pool is in service: what a CREATED session missed is no longer known.
pub fn in_service(p: Past) -> bool
    ensures { result ≡ in_service p }
{
    p.written || p.assembled
}

pub fn written(p: Past, acknowledged: bool) -> Past
    ensures { result ≡ past_written p acknowledged }
{
    Past {
        written: p.written || acknowledged,
        ..p
    }
}

pub fn taken_over(p: Past, empty: bool) -> Past
    ensures { result ≡ past_taken_over p empty }
{
    Past {
        assembled: p.assembled || empty,
        ..p
    }
}

pub fn kept(p: Past, some: bool) -> Past
    ensures { result ≡ past_kept p some }
{
    Past {
        written: p.written && some,
        assembled: p.assembled && some,
    }
}
