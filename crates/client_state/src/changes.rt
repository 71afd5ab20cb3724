// The named changes of the sixteen sessions and of the numbers that follow them. Every function takes any number.
ghost use Rattle.std.specs.Prelude.{◌≡◌, ◌+◌, ltb, map};
ghost use Rattle.laws_words.specs.Words.{pick};
ghost use Rattle.rules_pool.specs.Changes.{unmarked, all_unmarked, raised, entered, arrived, left, failed, went, owes, removing, enrolled, freed, flagged_at, member_entered, member_dropped, taken_over, written};

use crate::roster::{session, store};
use crate::state::{flagged, is_normal, marked, moved};
use map_numbers::refusals::VERSION_TOP;
use rules_pool::{Cause, Mode, Roster, Session, State, Way};

// One more, up to the limit: what the rules call more for versions and counts, and counted for a run's answers.
pub fn up_to(n: u64, limit: u64) -> u64
    ensures { result ≡ pick (ltb n limit) (n + 1) n }
{
    if n < limit { n + 1 } else { n }
}

// The version is raised: the view of the pool changes.
pub fn raise(mut ro: Roster) -> Roster
    ensures { result ≡ raised ro }
{
    ro.version = up_to(ro.version, VERSION_TOP);
    ro
}

fn unmark_all(mut ro: Roster) -> Roster
    ensures { result ≡ all_unmarked ro }
{
    for s in ro.sessions.iter_mut() {
        *s = marked(*s, false);
    }
    ro
}

// A session enters NORMAL.
#[tactic(auto, unfolding(rules_pool::specs::Changes::entered))]
pub fn enter(ro: Roster, id: u64) -> Roster
    ensures { result ≡ entered ro id }
{
    let normal = moved(session(ro, id), State::Normal);
    if ro.sync {
        return store(ro, id, normal);
    }
    let mut next = store(unmark_all(ro), id, normal);
    next.count = up_to(next.count, VERSION_TOP);
    next
}

fn arrive(s: Session, w: Way, last: bool) -> Session
    ensures { result ≡ arrived s w last }
{
    match w {
        Way::Failed(cause) => marked(moved(s, State::Failed(cause)), last),
        Way::Maintenance => marked(flagged(moved(s, State::Reconnecting), true), last),
        Way::Removing(mode, owed) => moved(s, State::Removing(mode, owed)),
    }
}

// A session leaves NORMAL: count, version and mark are settled here and nowhere else.
#[tactic(auto, unfolding(rules_pool::specs::Changes::left))]
pub fn leave(ro: Roster, id: u64, w: Way) -> Roster
    ensures { result ≡ left ro id w }
{
    let s = session(ro, id);
    if ro.sync {
        return store(ro, id, arrive(s, w, false));
    }
    let count = ro.count.saturating_sub(1);
    let mut next = store(ro, id, arrive(s, w, count == 0));
    next.count = count;
    raise(next)
}

// A session enters FAILED.
#[tactic(auto, unfolding(rules_pool::specs::Changes::failed))]
pub fn fail(ro: Roster, id: u64, cause: Cause) -> Roster
    ensures { result ≡ failed ro id cause }
{
    let s = session(ro, id);
    if is_normal(s.state) {
        return leave(ro, id, Way::Failed(cause));
    }
    store(ro, id, moved(s, State::Failed(cause)))
}

// A session that is not NORMAL goes to another state.
#[tactic(auto, unfolding(rules_pool::specs::Changes::went))]
pub fn go(ro: Roster, id: u64, to: State) -> Roster
    ensures { result ≡ went ro id to }
{
    store(ro, id, moved(session(ro, id), to))
}

fn is_owing(s: State) -> bool
    ensures { result ≡ owes s }
{
    !matches!(s, State::Failed(_) | State::Removing(_, false))
}

// A session enters REMOVING.
#[tactic(auto, unfolding(rules_pool::specs::Changes::removing))]
pub fn remove(ro: Roster, id: u64, mode: Mode) -> Roster
    ensures { result ≡ removing ro id mode }
{
    let s = session(ro, id);
    if is_normal(s.state) {
        return leave(ro, id, Way::Removing(mode, true));
    }
    go(ro, id, State::Removing(mode, is_owing(s.state)))
}

// A new session begins.
pub fn enroll(ro: Roster, id: u64, st: State) -> Roster
    ensures { result ≡ enrolled ro id st }
{
    store(ro, id, crate::state::new(st))
}

// The session is freed.
pub fn free(ro: Roster, id: u64) -> Roster
    ensures { result ≡ freed ro id }
{
    enroll(ro, id, State::Free)
}

// The maintenance flag of a session is put on or off.
pub fn flag(ro: Roster, id: u64, on: bool) -> Roster
    ensures { result ≡ flagged_at ro id on }
{
    store(ro, id, flagged(session(ro, id), on))
}

// A member is entered.
pub fn enter_member(mut ro: Roster, id: u64) -> Roster
    ensures { result ≡ member_entered ro id }
{
    ro.members = map_numbers::sets::with(ro.members, id);
    ro
}

// A member is dropped; the last one clears the past.
pub fn drop_member(mut ro: Roster, id: u64) -> Roster
    ensures { result ≡ member_dropped ro id }
{
    ro.members = map_numbers::sets::without(ro.members, id);
    ro.past = crate::state::kept(ro.past, ro.members != 0);
    ro
}

// A node's member set is taken over where there is none, and its version where it is larger.
pub fn take_over(mut ro: Roster, members: u64, version: u64) -> Roster
    ensures { result ≡ taken_over ro members version }
{
    let empty = ro.members == 0;
    ro.past = crate::state::taken_over(ro.past, empty);
    if empty {
        ro.members = members;
    }
    ro.version = ro.version.max(version);
    ro
}

// A write ended, acknowledged or not.
pub fn write(mut ro: Roster, acknowledged: bool) -> Roster
    ensures { result ≡ written ro acknowledged }
{
    ro.past = crate::state::written(ro.past, acknowledged);
    ro
}
