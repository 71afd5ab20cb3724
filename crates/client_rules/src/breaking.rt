// What breaks a row of empty answers: an acknowledged write, a change of a session's record, a run.
ghost use Rattle.std.specs.Prelude.{◌≡◌};
ghost use Rattle.rules_pool.specs.Breaking.{is_accepted, acknowledges, changed_to, has_run, breaks};

use crate::rules::jobs::is_running;
use rules_pool::{Answer, Outcome, Pool, Roster, Sent, Turn};

fn is_accepted(a: Answer) -> bool
    ensures { result ≡ is_accepted a }
{
    matches!(a, Answer::Done(_))
}

fn acknowledges(a: Answer) -> bool
    ensures { result ≡ acknowledges a }
{
    matches!(
        a,
        Answer::Done(Sent {
            outcome: Outcome::Written(true, _),
            ..
        })
    )
}

// Whether some session's record is another one.
fn is_changed(before: Roster, after: Roster) -> bool
    ensures { result ≡ changed_to before after 16 }
{
    before.sessions != after.sessions
}

// Whether a run is in hand before or after the event.
fn has_run(before: Pool, after: Pool) -> bool
    ensures { result ≡ has_run before after }
{
    is_running(before.job) || is_running(after.job)
}

// Whether the event with this turn, at this pool, breaks the row.
#[tactic(auto, unfolding(rules_pool::specs::Breaking::breaks))]
pub fn breaks(before: Pool, t: Turn) -> bool
    ensures { result ≡ breaks before t }
{
    is_accepted(t.answer)
        && (acknowledges(t.answer)
            || is_changed(before.roster, t.pool.roster)
            || has_run(before, t.pool))
}
