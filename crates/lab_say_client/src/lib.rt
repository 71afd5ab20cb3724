// The client's line after an accepted event, and the line of its further fields.
#![tactic(auto)]

ghost use Rattle.std.specs.Prelude.{◌≡◌, map};
ghost use Rattle.text_bytes.specs.Ink.{emits};
ghost use Rattle.text_bytes.specs.Pages.{page_ink, lender};
ghost use Rattle.lab_say_client.specs.Client.{letter, phase_text, job_text, outcome_text, roster_text, flags_text, client_text, past_text, check_text, causes_text, look_text};

use client_state::roster::ids;
use lab_say::say::{put_awaited, put_pair, put_told};
use rules_client::Check;
use rules_pool::{Job, Kind, Outcome, Past, Phase, Pool, Roster, Sent, Session, State};
use text_bytes::page::Page;

#[tactic(auto, unfolding(crate::specs::Client::letter))]
fn letter_of(s: Session) -> u8
    ensures { result ≡ letter s }
{
    match s.state {
        State::Free => b'.',
        State::Created => b'C',
        State::Normal => b'N',
        State::Failed(_) => b'F',
        State::Reconnecting => b'R',
        State::Removing(_, _) => b'X',
    }
}

fn put_letters(page: &mut Page, ss: [Session; 16])
    ensures same_reference { lender page.new ≡ lender page.old }
    ensures value { page_ink page.new ≡ emits (page_ink page.old) (map letter ss) }
{
    for s in &ss {
        page.put(letter_of(*s));
    }
}

fn put_phase(page: &mut Page, p: Phase)
    ensures same_reference { lender page.new ≡ lender page.old }
    ensures value { page_ink page.new ≡ emits (page_ink page.old) (phase_text p) }
{
    page.put_bytes(match p {
        Phase::Versions(_) => b" job=run:versions",
        Phase::Base(_) => b" job=run:base",
        Phase::LastIo => b" job=run:last_io",
        Phase::Gather(_) => b" job=run:gather",
        Phase::Enable(_) => b" job=run:enable",
        Phase::Spread(_) => b" job=run:spread",
    });
}

fn put_job(page: &mut Page, j: Job)
    ensures same_reference { lender page.new ≡ lender page.old }
    ensures value { page_ink page.new ≡ emits (page_ink page.old) (job_text j) }
{
    match j {
        Job::Idle => page.put_bytes(b" job=none"),
        Job::Running(run) => put_phase(page, run.phase),
        Job::Removing(removal) => put_pair(page, b" job=remove:", removal.id),
    }
}

fn put_outcome(page: &mut Page, o: Outcome)
    ensures same_reference { lender page.new ≡ lender page.old }
    ensures value { page_ink page.new ≡ emits (page_ink page.old) (outcome_text o) }
{
    match o {
        Outcome::Plain => {}
        Outcome::Taken(taken) => put_pair(page, b" taken=", taken),
        Outcome::Written(acked, list) => {
            put_pair(page, b" acked=", u64::from(acked));
            put_pair(page, b" list=", list);
        }
        Outcome::Picked(id) => put_pair(page, b" id=", id),
    }
}

fn put_roster(page: &mut Page, ro: Roster)
    ensures same_reference { lender page.new ≡ lender page.old }
    ensures value { page_ink page.new ≡ emits (page_ink page.old) (roster_text ro) }
{
    put_pair(page, b"ok version=", ro.version);
    put_pair(page, b" count=", ro.count);
    put_pair(page, b" members=", ro.members);
    page.put_bytes(b" sessions=");
    put_letters(page, ro.sessions);
}

fn put_flags(page: &mut Page, ro: Roster)
    ensures same_reference { lender page.new ≡ lender page.old }
    ensures value { page_ink page.new ≡ emits (page_ink page.old) (flags_text ro) }
{
    put_pair(page, b" maint=", ids(Kind::Maintained, ro));
    put_pair(page, b" marked=", ids(Kind::Marked, ro));
    put_pair(page, b" delete=", ids(Kind::Deleting, ro));
    put_pair(page, b" owed=", ids(Kind::Owed, ro));
}

// The line of an accepted event, without its newline.
pub fn put_client(page: &mut Page, p: Pool, sent: Sent)
    ensures same_reference { lender page.new ≡ lender page.old }
    ensures value { page_ink page.new ≡ emits (page_ink page.old) (client_text p sent) }
{
    put_roster(page, p.roster);
    put_flags(page, p.roster);
    put_job(page, p.job);
    put_outcome(page, sent.outcome);
    put_told(page, sent.told);
    put_awaited(page, sent.awaited, u64::from(sent.number));
}

fn put_past(page: &mut Page, past: Past)
    ensures same_reference { lender page.new ≡ lender page.old }
    ensures value { page_ink page.new ≡ emits (page_ink page.old) (past_text past) }
{
    put_pair(page, b"look written=", u64::from(past.written));
    put_pair(page, b" assembled=", u64::from(past.assembled));
}

fn put_check(page: &mut Page, k: Check)
    ensures same_reference { lender page.new ≡ lender page.old }
    ensures value { page_ink page.new ≡ emits (page_ink page.old) (check_text k) }
{
    put_pair(page, b" tick=", u64::from(k.tick));
    put_pair(page, b" due=", u64::from(k.due));
    put_pair(page, b" once=", u64::from(k.once));
}

fn put_causes(page: &mut Page, ro: Roster)
    ensures same_reference { lender page.new ≡ lender page.old }
    ensures value { page_ink page.new ≡ emits (page_ink page.old) (causes_text ro) }
{
    put_pair(page, b" link=", ids(Kind::Link, ro));
    put_pair(page, b" io=", ids(Kind::Io, ro));
}

// The line of the further fields, without its newline.
pub fn put_look(page: &mut Page, p: Pool, k: Check)
    ensures same_reference { lender page.new ≡ lender page.old }
    ensures value { page_ink page.new ≡ emits (page_ink page.old) (look_text p k) }
{
    put_past(page, p.roster.past);
    put_check(page, k);
    put_causes(page, p.roster);
}
