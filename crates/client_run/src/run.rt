// A recovery run as data, with no session in it: the message that it awaits, and what an answer does to it.
// members, version and the run come side by side, and in no struct: most of the functions take but two of them, as the definitions do.
pub mod still;

ghost use Rattle.std.specs.Prelude.{◌≡◌};
ghost use Rattle.rules_pool.specs.Run.{hand, rest, go, ahead, receiver, to_spread, to_gather, to_last, to_base, to_versions, went_on, became_normal, failed_answer, version_brought, good, takes, step_message, awaited_in};

use client_state::changes::up_to;
use map_numbers::refusals::ANSWER_LIMIT;
use map_numbers::sets::{lowest, without};
use rules_pool::{Message, Move, Phase, Reply, Run, Step};

// Whose turn it is.
fn hand(r: Run) -> u64
    ensures { result ≡ hand r }
{
    lowest(r.left)
}

// Those that come after it.
fn rest(r: Run) -> u64
    ensures { result ≡ rest r }
{
    without(r.left, hand(r))
}

fn go(r: Run, phase: Phase, source: u64, left: u64) -> Option<Run>
    ensures { result ≡ go r phase source left }
{
    Some(Run {
        phase,
        source,
        left,
        taken: up_to(r.taken, ANSWER_LIMIT),
    })
}

// The next message of the spread in hand.
fn ahead(r: Run, phase: Phase) -> Option<Run>
    ensures { result ≡ ahead r phase }
{
    go(r, phase, r.source, r.left)
}

// The receiver in hand, who has MAP_READY and has not answered its MAP_DONE.
#[tactic(auto, unfolding(rules_pool::specs::Run::receiver))]
pub fn receiver(r: Run) -> Option<u64>
    ensures { result ≡ receiver r }
{
    match r.phase {
        Phase::Base(_) | Phase::Spread(_) => Some(hand(r)),
        Phase::Gather(_) => Some(r.source),
        Phase::Versions(_) | Phase::LastIo | Phase::Enable(_) => None,
    }
}

fn to_spread(r: Run, left: u64) -> Option<Run>
    ensures { result ≡ to_spread r left }
{
    if left == 0 {
        return None;
    }
    go(r, Phase::Spread(Step::Ready), r.source, left)
}

fn to_gather(members: u64, r: Run, source: u64, left: u64) -> Option<Run>
    ensures { result ≡ to_gather members r source left }
{
    if left == 0 {
        return go(r, Phase::Enable(true), source, without(members, source));
    }
    go(r, Phase::Gather(Step::Ready), source, left)
}

fn to_last(members: u64, r: Run, source: u64, left: u64) -> Option<Run>
    ensures { result ≡ to_last members r source left }
{
    if left == 0 {
        return to_gather(members, r, source, without(members, source));
    }
    go(r, Phase::LastIo, source, left)
}

fn to_base(members: u64, r: Run, source: u64, left: u64) -> Option<Run>
    ensures { result ≡ to_base members r source left }
{
    if left == 0 {
        return to_last(members, r, source, members);
    }
    go(r, Phase::Base(Step::Ready), source, left)
}

fn to_versions(members: u64, r: Run, best: u64, source: u64, left: u64) -> Option<Run>
    ensures { result ≡ to_versions members r best source left }
{
    if left == 0 {
        return to_base(members, r, source, without(members, source));
    }
    go(r, Phase::Versions(best), source, left)
}

fn went_on(r: Run, next: Option<Run>) -> Move
    ensures { result ≡ went_on r next }
{
    Move {
        next,
        taken: up_to(r.taken, ANSWER_LIMIT),
        normal: None,
        disable: None,
    }
}

fn became_normal(r: Run, next: Option<Run>, id: u64) -> Move
    ensures { result ≡ became_normal r next id }
{
    Move {
        normal: Some(id),
        ..went_on(r, next)
    }
}

// A failed answer ends the run, save in an enabling spread, which passes over its receiver.
#[tactic(auto, unfolding(rules_pool::specs::Run::failed_answer))]
fn failed_answer(r: Run) -> Move
    ensures { result ≡ failed_answer r }
{
    let next = match r.phase {
        Phase::Spread(_) => to_spread(r, rest(r)),
        _ => None,
    };
    Move {
        disable: receiver(r),
        ..went_on(r, next)
    }
}

// A good answer to MAP_GET_VER, which must bring a version that is not above the pool's.
fn version_brought(members: u64, version: u64, best: u64, r: Run, b: Option<u64>) -> Move
    ensures { result ≡ version_brought members version best r b }
{
    match b {
        Some(v) if v <= version => {
            let (most, source) = if best < v {
                (v, hand(r))
            } else {
                (best, r.source)
            };
            went_on(r, to_versions(members, r, most, source, rest(r)))
        }
        _ => failed_answer(r),
    }
}

// The next message of a spread, or what comes after its last one.
fn step_next<F: Fn(Step) -> Phase>(s: Step, r: Run, phase: F, over: Option<Run>) -> Option<Run>
    requires { F.IsAlwaysCallable phase }
    ensures ready { s ≡ Step.Ready → (p : Phase) × F.post phase Step.Send p × (result ≡ ahead r p) }
    ensures send { s ≡ Step.Send → (p : Phase) × F.post phase Step.Done p × (result ≡ ahead r p) }
    ensures done { s ≡ Step.Done → result ≡ over }
{
    match s {
        Step::Ready => ahead(r, phase(Step::Send)),
        Step::Send => ahead(r, phase(Step::Done)),
        Step::Done => over,
    }
}

#[tactic(auto, unfolding(rules_pool::specs::Run::good))]
fn good(members: u64, version: u64, r: Run, b: Option<u64>) -> Move
    ensures { result ≡ good members version r b }
{
    let others = rest(r);
    match r.phase {
        Phase::Versions(best) => version_brought(members, version, best, r, b),
        Phase::Base(s) => {
            let over = to_base(members, r, r.source, others);
            went_on(r, step_next(s, r, Phase::Base, over))
        }
        Phase::LastIo => went_on(r, to_last(members, r, r.source, others)),
        Phase::Gather(s) => {
            let over = to_gather(members, r, r.source, others);
            went_on(r, step_next(s, r, Phase::Gather, over))
        }
        Phase::Enable(_) => became_normal(r, to_spread(r, r.left), r.source),
        Phase::Spread(s) => {
            let next = step_next(s, r, Phase::Spread, to_spread(r, others));
            if s == Step::Done {
                became_normal(r, next, hand(r))
            } else {
                went_on(r, next)
            }
        }
    }
}

// What an awaited answer does to the run.
pub fn take(members: u64, version: u64, r: Run, a: Reply) -> Move
    ensures { result ≡ takes members version r a }
{
    match a {
        Reply::Failed => failed_answer(r),
        Reply::Good(b) => good(members, version, r, b),
    }
}

fn step_message(
    s: Step,
    from: u64,
    to: u64,
    keep: bool,
    enable: bool,
    version: u64,
    members: u64,
) -> Message
    ensures { result ≡ step_message s from to keep enable version members }
{
    match s {
        Step::Ready => Message::Ready(to, keep),
        Step::Send => Message::Send(from, to),
        Step::Done => Message::Done(to, enable, version, members),
    }
}

// The message that the run awaits an answer to.
#[tactic(auto, unfolding(rules_pool::specs::Run::awaited_in))]
pub fn awaited(members: u64, version: u64, r: Run) -> Message
    ensures { result ≡ awaited_in members version r }
{
    let x = hand(r);
    match r.phase {
        Phase::Versions(_) => Message::GetVersion(x),
        Phase::Base(s) => step_message(s, r.source, x, false, false, version, members),
        Phase::LastIo => Message::LastIo(x, r.source),
        Phase::Gather(s) => step_message(s, x, r.source, true, false, version, members),
        Phase::Enable(_) => Message::Enable(r.source, version, members),
        Phase::Spread(s) => step_message(s, r.source, x, false, true, version, members),
    }
}
