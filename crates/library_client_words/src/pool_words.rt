// The sessions and the job of a client's pool as words, and back. A session: the state's number, and 8 for maintenance, 16 for a mark, 32 where it is removed in disassemble mode, 64
// where LEAVE_POOL is owed to it.
ghost use Rattle.std.specs.Prelude.{◌≡◌, map, ◌+◌, ◌<◌};
ghost use Rattle.laws_words.specs.Words.{pick};
ghost use Rattle.library_client_words.specs.PoolWords.{state_word, session_word, session_in, step_word, step_of, phase_tag, phase_data, phase_of, stage_words, job_words, job_of, run_words};

use map_numbers::numbers::pick;
use rules_pool::{Cause, Job, Phase, Removal, Run, Session, Stage, State, Step};

fn state_word(s: State) -> u64
    ensures { result ≡ state_word s }
{
    match s {
        State::Free => 0,
        State::Created => 1,
        State::Normal => 2,
        State::Failed(Cause::Link) => 3,
        State::Failed(Cause::Io) => 6,
        State::Reconnecting => 4,
        State::Removing(..) => 5,
    }
}

fn flags(word: u64, maintenance: bool, mark: bool, disassembled: bool, owed: bool) -> u64
    requires { word < 8 }
    ensures { result ≡ word + pick maintenance 8 0 + pick mark 16 0 + pick disassembled 32 0 + pick owed 64 0 }
{
    word + pick(maintenance, 8, 0)
        + pick(mark, 16, 0)
        + pick(disassembled, 32, 0)
        + pick(owed, 64, 0)
}

#[tactic(auto, using(crate::proofs::PoolInverse::state_small))]
fn session_word(s: Session) -> u64
    ensures { result ≡ session_word s }
{
    let disassembled = client_state::state::is_removing(s.state)
        && !client_state::state::is_deleting(s.state);
    let owed = client_state::state::is_owed(s.state);
    flags(
        state_word(s.state),
        s.maintenance,
        s.mark,
        disassembled,
        owed,
    )
}

#[tactic(auto, unfolding(crate::specs::PoolWords::session_in))]
fn session_in(w: u64) -> Session
    ensures { result ≡ session_in w }
{
    event_number::session_of(w % 8, w / 8 % 2, w / 16 % 2, w / 32 % 2, w / 64 % 2)
}

pub fn session_words(ss: [Session; 16]) -> [u64; 16]
    ensures { result ≡ map session_word ss }
{
    // Here and in sessions_in the place and no `map`: with it here a client takes 1.6 times as long to pack, with it there a quarter more time to read.
    let mut ws = [0; 16];
    for i in 0..16 {
        ws[i] = session_word(ss[i]);
    }
    ws
}

pub fn sessions_in(ws: [u64; 16]) -> [Session; 16]
    ensures { result ≡ map session_in ws }
{
    let mut ss = [client_state::state::new(State::Free); 16];
    for i in 0..16 {
        ss[i] = session_in(ws[i]);
    }
    ss
}

fn step_word(s: Step) -> u64
    ensures { result ≡ step_word s }
{
    match s {
        Step::Ready => 0,
        Step::Send => 1,
        Step::Done => 2,
    }
}

fn step_of(x: u64) -> Step
    ensures { result ≡ step_of x }
{
    match x {
        0 => Step::Ready,
        1 => Step::Send,
        _ => Step::Done,
    }
}

fn phase_tag(p: Phase) -> u64
    ensures { result ≡ phase_tag p }
{
    match p {
        Phase::Versions(_) => 1,
        Phase::Base(_) => 2,
        Phase::LastIo => 3,
        Phase::Gather(_) => 4,
        Phase::Enable(_) => 5,
        Phase::Spread(_) => 6,
    }
}

fn phase_data(p: Phase) -> u64
    ensures { result ≡ phase_data p }
{
    match p {
        Phase::Versions(v) => v,
        Phase::LastIo => 0,
        Phase::Enable(all) => u64::from(all),
        Phase::Base(s) | Phase::Gather(s) | Phase::Spread(s) => step_word(s),
    }
}

// From numbers, as C keeps them.
fn phase_of(tag: u64, a: u64) -> Phase
    ensures { result ≡ phase_of tag a }
{
    let s = step_of(a);
    match tag {
        1 => Phase::Versions(a),
        2 => Phase::Base(s),
        3 => Phase::LastIo,
        4 => Phase::Gather(s),
        5 => Phase::Enable(a == 1),
        _ => Phase::Spread(s),
    }
}

fn run_words(r: Run) -> [u64; 5]
    ensures { result ≡ run_words r }
{
    [
        phase_tag(r.phase),
        phase_data(r.phase),
        r.source,
        r.left,
        r.taken,
    ]
}

fn removal_words(m: Removal) -> [u64; 5]
    ensures { result ≡ stage_words m.id m.stage }
{
    match m.stage {
        Stage::Leave => [7, 0, m.id, 0, 0],
        Stage::Info(peer) => [8, peer, m.id, 0, 0],
    }
}

pub fn job_words(j: Job) -> [u64; 5]
    ensures { result ≡ job_words j }
{
    match j {
        Job::Idle => [0; 5],
        Job::Running(r) => run_words(r),
        Job::Removing(m) => removal_words(m),
    }
}

// Five numbers and no array: they stand among a client's words, and as an array each would be taken out of it again.
#[tactic(auto, unfolding(crate::specs::PoolWords::job_of))]
pub fn job_of(tag: u64, a: u64, b: u64, c: u64, d: u64) -> Job
    ensures { result ≡ job_of tag a b c d }
{
    match tag {
        0 => Job::Idle,
        7 => Job::Removing(Removal {
            id: b,
            stage: Stage::Leave,
        }),
        8 => Job::Removing(Removal {
            id: b,
            stage: Stage::Info(a),
        }),
        _ => Job::Running(Run {
            phase: phase_of(tag, a),
            source: b,
            left: c,
            taken: d,
        }),
    }
}
