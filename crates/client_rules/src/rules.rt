// The client's state rules.
pub mod jobs;

ghost use Rattle.std.specs.Prelude.{◌≡◌, ◌+◌, leb};
ghost use Rattle.rules_pool.specs.StateRules.{roster_ok, all_asked, one_asked, asked, source_ok, hand_ok, run_ok, stage_ok, job_ok, valid_pool};

use client_run::run::still::possible;
use client_state::roster::{ids, session};
use client_state::state::{is_candidate, is_normal, is_removing};
use map_numbers::refusals::{ANSWER_LIMIT, CHUNK_LIMIT, VERSION_LIMIT, VERSION_TOP};
use map_numbers::sets::{has, size};
use rules_pool::{Job, Kind, Phase, Pool, Roster, Run, Stage};

// Whether a + b <= limit, where the sum may not fit.
fn within(a: u64, b: u64, limit: u64) -> bool
    ensures { result ≡ leb (a + b) limit }
{
    a.checked_add(b).is_some_and(|sum| sum <= limit)
}

#[tactic(auto, unfolding(rules_pool::specs::StateRules::roster_ok))]
fn roster_ok(ro: Roster) -> bool
    ensures { result ≡ roster_ok ro }
{
    let normals = ids(Kind::Normals, ro);
    let marked = ids(Kind::Marked, ro);
    let count = if ro.sync { 0 } else { size(normals) };
    ro.count == count
        && size(marked) <= 1
        && (marked == 0 || normals == 0)
        && 1 <= ro.version
        && within(ro.version, ro.count, VERSION_TOP)
        && ro.members < 65536
        && (!ro.sync || ro.members == 0)
        && ids(Kind::Odd, ro) == 0
}

#[tactic(auto, unfolding(rules_pool::specs::StateRules::all_asked))]
fn all_asked(ro: Roster, source: u64) -> bool
    ensures { result ≡ all_asked ro source }
{
    ids(Kind::Normals, ro) == 0 && ids(Kind::Strays(ro.members), ro) == 0 && has(ro.members, source)
}

#[tactic(auto, unfolding(rules_pool::specs::StateRules::one_asked))]
fn one_asked(ro: Roster, source: u64) -> bool
    ensures { result ≡ one_asked ro source }
{
    ids(Kind::Normals, ro) == 0 && is_candidate(session(ro, source))
}

// every: the run is one of case 3.
fn asked(every: bool, ro: Roster, source: u64) -> bool
    ensures { result ≡ asked every ro source }
{
    if every {
        all_asked(ro, source)
    } else {
        one_asked(ro, source)
    }
}

fn source_ok(p: Phase, ro: Roster, source: u64, left: u64) -> bool
    ensures { result ≡ source_ok p ro source left }
{
    match p {
        Phase::Versions(_) | Phase::LastIo => all_asked(ro, source),
        Phase::Base(_) | Phase::Gather(_) => all_asked(ro, source) && !has(left, source),
        Phase::Enable(every) => asked(every, ro, source) && !has(left, source),
        Phase::Spread(_) => is_normal(session(ro, source).state),
    }
}

fn hand_ok(p: Phase, left: u64) -> bool
    ensures { result ≡ hand_ok p left }
{
    matches!(p, Phase::Enable(_)) || left != 0
}

#[tactic(auto, unfolding(rules_pool::specs::StateRules::run_ok))]
fn run_ok(ro: Roster, r: Run) -> bool
    ensures { result ≡ run_ok ro r }
{
    !ro.sync
        && ro.version <= VERSION_LIMIT
        && r.left < 65536
        && hand_ok(r.phase, r.left)
        && ids(Kind::Strays(r.left), ro) == 0
        && source_ok(r.phase, ro, r.source, r.left)
        && within(r.taken, possible(ro.members, r), ANSWER_LIMIT)
}

fn stage_ok(s: Stage, id: u64) -> bool
    ensures { result ≡ stage_ok s id }
{
    match s {
        Stage::Leave => true,
        Stage::Info(peer) => peer < 16 && peer != id,
    }
}

fn job_ok(j: Job, ro: Roster) -> bool
    ensures { result ≡ job_ok j ro }
{
    match j {
        Job::Idle => true,
        Job::Running(r) => run_ok(ro, r),
        Job::Removing(m) => is_removing(session(ro, m.id).state) && stage_ok(m.stage, m.id),
    }
}

// Whether the state value keeps every rule.
#[tactic(auto, unfolding(rules_pool::specs::StateRules::valid_pool))]
pub fn valid(p: Pool) -> bool
    ensures { result ≡ valid_pool p }
{
    1 <= p.chunks && p.chunks <= CHUNK_LIMIT && roster_ok(p.roster) && job_ok(p.job, p.roster)
}
