// The audit of a log, record by record: whether a record is that of an event that the rules accept, and the pool after it.
ghost use Rattle.std.specs.Prelude.{◌≡◌};
ghost use Rattle.audit_replay.specs.Audit.{judged, checked, turned, verdict_of};

use audit_record::records::{Logged, Record};
use rules_pool::{Answer, Pool, Turn};

// How far an audit is. Ok: all the records so far were so, place is how many there were, and the pool is the one after them. Err: a record was not so, place is its place in the log, from 1, and the pool is the one before it.
#[derive(Clone, Copy)]
pub struct Walk {
    pub place: u64,
    pub pool: Result<Pool, Pool>,
}

// Accepted: how many records. Wrong: the place of the first that is not so. No Result: both are verdicts, each a number, and nobody goes on with the one or the other.
#[derive(Clone, Copy)]
pub enum Verdict {
    Accepted(u64),
    Wrong(u64),
}

// A record at the place n, after the pool p, that names the event e, which came to t. Ok: the event is accepted, the record is the one that it makes, and this is the pool after it. Err: it is not so, and the pool is p.
fn judge(p: Pool, n: u64, r: Record, e: Logged, t: Turn) -> Result<Pool, Pool>
    ensures { result ≡ judged p n r e t.answer t.pool }
{
    let Answer::Done(s) = t.answer else {
        return Err(p);
    };
    let must = audit_record::records::record_of(n, e, s.outcome, t.pool.roster);
    if r == must { Ok(t.pool) } else { Err(p) }
}

// The record r at the place n, after the pool p. Ok: it is so, and this is the pool after it. Err: it is not so, and the pool is p.
#[tactic(auto, unfolding(crate::specs::Audit::checked))]
fn check(p: Pool, n: u64, r: Record) -> Result<Pool, Pool>
    ensures { result ≡ checked p n r }
{
    let e = audit_record::records::event_in(r).ok_or(p)?;
    judge(p, n, r, e, crate::replay::take(p, e))
}

// One record more. After the first that is not so nothing is looked at.
#[tactic(auto, unfolding(crate::specs::Audit::turned))]
pub fn turn(w: Walk, r: Record) -> Walk
    ensures { result ≡ turned w r }
{
    let Ok(pool) = w.pool else {
        return w;
    };
    let place = audit_record::records::place_after(w.place);
    Walk {
        place,
        pool: check(pool, place, r),
    }
}

#[tactic(auto, unfolding(crate::specs::Audit::verdict_of))]
pub fn verdict_of(w: Walk) -> Verdict
    ensures { result ≡ verdict_of w }
{
    if w.pool.is_ok() {
        Verdict::Accepted(w.place)
    } else {
        Verdict::Wrong(w.place)
    }
}
