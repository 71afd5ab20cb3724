// A removal's way: LEAVE_POOL, the member's entry and row taken out, POOL_INFO to each peer in turn, the session freed.
pub mod remove;

ghost use Rattle.std.specs.Prelude.{◌≡◌};
ghost use Rattle.rules_client.specs.Removal.{state_of, mode_of, op_of, tellable, due, asked, freed_from, onward, departed, started, paid, halted, well_answered, removal_answered};

use client_run::recovery;
use client_state::{changes, roster, state};
use rules_base::Op;
use rules_client::Gone;
use rules_pool::{
    Effect, Job, Kind, Message, Mode, Pool, Posted, Removal, Reply, Roster, Stage, State,
};

pub fn state_of(p: Pool, id: u64) -> State
    ensures { result ≡ state_of p id }
{
    roster::session(p.roster, id).state
}

fn mode_of(st: State) -> Mode
    ensures { result ≡ mode_of st }
{
    if state::is_deleting(st) {
        Mode::Delete
    } else {
        Mode::Disassemble
    }
}

fn op_of(st: State) -> Op
    ensures { result ≡ op_of st }
{
    if state::is_deleting(st) {
        Op::RemoveDelete
    } else {
        Op::RemoveDisassemble
    }
}

fn tellable(st: Stage, ro: Roster) -> u64
    ensures { result ≡ tellable st ro }
{
    match st {
        Stage::Leave => roster::ids(Kind::Told, ro),
        Stage::Info(peer) => roster::ids(Kind::Later(peer), ro),
    }
}

// The peer that POOL_INFO goes to next, judged now; 16 where none is due.
// A number and no Option: the rules' due is one, and its 16 is what lowest gives.
#[tactic(auto, unfolding(rules_client::specs::Removal::due))]
fn due(st: Stage, ro: Roster) -> u64
    ensures { result ≡ due st ro }
{
    if ro.sync {
        return 16;
    }
    map_numbers::sets::lowest(tellable(st, ro))
}

fn ask(p: Pool, id: u64, stage: Stage, m: Message) -> Posted
    ensures { result ≡ asked p id stage m }
{
    recovery::post(p, Job::Removing(Removal { id, stage }), m)
}

// The session is freed, and the removal is over.
#[tactic(auto, unfolding(rules_client::specs::Removal::freed_from))]
fn free(p: Pool, id: u64, effect: Effect) -> Gone
    ensures { result ≡ freed_from p id effect }
{
    let next = changes::free(p.roster, id);
    let empty = roster::ids(Kind::Present, next) == 0;
    Gone {
        posted: recovery::rest(recovery::end_removal(recovery::with_roster(p, next))),
        effect: if empty && !p.roster.sync {
            Effect::ZeroAll
        } else {
            effect
        },
    }
}

// The next peer is told; after the last the session is freed.
#[tactic(auto, unfolding(rules_client::specs::Removal::onward))]
fn go_on(p: Pool, id: u64, st: Stage, effect: Effect) -> Gone
    ensures { result ≡ onward p id st effect }
{
    let peer = due(st, p.roster);
    if 15 < peer {
        return free(p, id, effect);
    }
    let m = Message::Info(peer, op_of(state_of(p, id)), id);
    Gone {
        posted: ask(p, id, Stage::Info(peer), m),
        effect,
    }
}

// LEAVE is done or not owed.
#[tactic(auto, unfolding(rules_client::specs::Removal::departed))]
fn depart(p: Pool, id: u64) -> Gone
    ensures { result ≡ departed p id }
{
    if state::is_deleting(state_of(p, id)) && !p.roster.sync {
        let next = recovery::with_roster(p, changes::drop_member(p.roster, id));
        return go_on(next, id, Stage::Leave, Effect::ZeroRow(id));
    }
    go_on(p, id, Stage::Leave, Effect::Keep)
}

// The removal of a REMOVING session starts, or starts over.
#[tactic(auto, unfolding(rules_client::specs::Removal::started))]
pub fn start(p: Pool, id: u64) -> Gone
    ensures { result ≡ started p id }
{
    let was = state_of(p, id);
    if !state::is_owed(was) {
        return depart(p, id);
    }
    Gone {
        posted: ask(p, id, Stage::Leave, Message::Leave(id, mode_of(was))),
        effect: Effect::Keep,
    }
}

fn pay(p: Pool, id: u64) -> Pool
    ensures { result ≡ paid p id }
{
    let mode = mode_of(state_of(p, id));
    recovery::with_roster(p, changes::go(p.roster, id, State::Removing(mode, false)))
}

fn halt(p: Pool) -> Gone
    ensures { result ≡ halted p }
{
    Gone {
        posted: recovery::rest(recovery::end_removal(p)),
        effect: Effect::Keep,
    }
}

fn answered_well(st: Stage, p: Pool, id: u64) -> Gone
    ensures { result ≡ well_answered st p id }
{
    match st {
        Stage::Leave => depart(pay(p, id), id),
        Stage::Info(_) => go_on(p, id, st, Effect::Keep),
    }
}

// What an answer to the awaited message of a removal does; a failed one halts it.
pub fn answer(m: Removal, p: Pool, a: Reply) -> Gone
    ensures { result ≡ removal_answered m p a }
{
    match a {
        Reply::Failed => halt(p),
        Reply::Good(_) => answered_well(m.stage, p, m.id),
    }
}
