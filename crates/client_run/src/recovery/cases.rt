// Which of the three cases holds, and how its run begins.
ghost use Rattle.std.specs.Prelude.{◌≡◌};
ghost use Rattle.rules_pool.specs.Cases.{start, case1, case2, case3, case_of, begun};

use client_state::roster::ids;
use map_numbers::refusals::VERSION_LIMIT;
use map_numbers::sets::{has, lowest, without};
use rules_pool::{Kind, Phase, Roster, Run, Step};

fn start(phase: Phase, source: u64, left: u64) -> Option<Run>
    ensures { result ≡ start phase source left }
{
    Some(Run {
        phase,
        source,
        left,
        taken: 0,
    })
}

fn spread_to(normals: u64, candidates: u64) -> Option<Run>
    ensures { result ≡ case1 normals candidates }
{
    if candidates == 0 {
        return None;
    }
    start(Phase::Spread(Step::Ready), lowest(normals), candidates)
}

fn enable_first(marked: u64, candidates: u64) -> Option<Run>
    ensures { result ≡ case2 marked candidates }
{
    let source = lowest(marked);
    if !has(candidates, source) {
        return None;
    }
    start(Phase::Enable(false), source, without(candidates, source))
}

fn ask_all(members: u64, strays: u64) -> Option<Run>
    ensures { result ≡ case3 members strays }
{
    if members == 0 || strays != 0 {
        return None;
    }
    start(Phase::Versions(0), lowest(members), members)
}

#[tactic(auto, unfolding(rules_pool::specs::Cases::case_of))]
fn case_of(normals: u64, candidates: u64, marked: u64, strays: u64, members: u64) -> Option<Run>
    ensures { result ≡ case_of normals candidates marked strays members }
{
    if normals != 0 {
        return spread_to(normals, candidates);
    }
    if marked != 0 {
        return enable_first(marked, candidates);
    }
    ask_all(members, strays)
}

// The run that begins, if one does.
#[tactic(auto, unfolding(rules_pool::specs::Cases::begun))]
pub(super) fn begin(ro: Roster) -> Option<Run>
    ensures { result ≡ begun ro }
{
    if VERSION_LIMIT < ro.version {
        return None;
    }
    let normals = ids(Kind::Normals, ro);
    let candidates = ids(Kind::Candidates, ro);
    let marked = ids(Kind::Marked, ro);
    let strays = ids(Kind::Strays(ro.members), ro);
    case_of(normals, candidates, marked, strays, ro.members)
}
