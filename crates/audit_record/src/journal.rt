// The lab's log: how many events were logged since the pool was made, and the record of the client's last event, if that one was logged.
ghost use Rattle.std.specs.Prelude.{◌≡◌};
ghost use Rattle.audit_record.specs.Journal.{blank, lab_note, entered_in};

use crate::records::{Logged, Record};
use event::Event;
use rules_pool::{Answer, Roster};

#[derive(Clone, Copy)]
pub struct Journal {
    pub count: u64,
    pub last: Option<Record>,
}

pub fn fresh() -> Journal
    ensures { result ≡ blank }
{
    Journal {
        count: 0,
        last: None,
    }
}

// What an event is logged as, if it is. Syncs, ticks and answers to a map check are not logged.
fn note_of(e: Event) -> Option<Logged>
    ensures { result ≡ lab_note e }
{
    match e {
        Event::JoinCreate(id) => Some(Logged::JoinCreate(id)),
        Event::JoinAssemble(id, set, version) => Some(Logged::JoinAssemble(id, set, version)),
        Event::Enable(id) => Some(Logged::Enable(id)),
        Event::Maintenance(id) => Some(Logged::Maintenance(id)),
        Event::LinkDown(id) => Some(Logged::LinkDown(id)),
        Event::StoreCheck(id) => Some(Logged::StoreCheck(id)),
        Event::Rejoin(id) => Some(Logged::Rejoin(id)),
        Event::Try => Some(Logged::Try),
        Event::Remove(id, mode) => Some(Logged::Remove(id, mode)),
        Event::Write(chunk, reached) => Some(Logged::Write(chunk, reached)),
        Event::Answer(_, a) => Some(Logged::Answer(a)),
        Event::Extend => Some(Logged::Extend),
        Event::Synced(..) | Event::Tick | Event::CheckAnswer(..) => None,
    }
}

// After an event of the client: what it answered, and the sessions after it.
pub fn enter(j: Journal, e: Event, a: Answer, ro: Roster) -> Journal
    ensures { result ≡ entered_in j (lab_note e) a ro }
{
    match (note_of(e), a) {
        (Some(l), Answer::Done(sent)) => {
            let count = crate::records::place_after(j.count);
            let last = crate::records::record_of(count, l, sent.outcome, ro);
            Journal {
                count,
                last: Some(last),
            }
        }
        _ => Journal { last: None, ..j },
    }
}
