// The compute client for programs in C: its state in 32 words that the caller keeps (crate library_client_words), an event as four numbers, its answer in 16 words (crate library_answer).
#![tactic(auto)]

ghost use Rattle.std.specs.Prelude.{◌≡◌, ltb};
ghost use Rattle.laws_words.specs.Words.{pick};
ghost use Rattle.library_client_words.specs.ClientWords.{known};
ghost use Rattle.library_client.specs.Library.{numbered, event_known, returned, state_left, map_left, out_left, fresh_left};

use client::Client;
use event::Event;
use rules_pool::{Mode, Reply};

// The event that four numbers stand for: numbers, as C hands them over. The kinds 1 to 15 are those of a log record.
#[tactic(auto, unfolding(crate::specs::Library::numbered))]
fn event_of(kind: u64, a: u64, b: u64, c: u64) -> Event
    ensures { result ≡ numbered kind a b c }
{
    match kind {
        1 => Event::JoinCreate(a),
        2 => Event::JoinAssemble(a, b, c),
        3 => Event::Enable(a),
        4 => Event::Maintenance(a),
        5 => Event::LinkDown(a),
        6 => Event::StoreCheck(a),
        7 => Event::Remove(a, Mode::Delete),
        8 => Event::Remove(a, Mode::Disassemble),
        9 => Event::Write(a, b),
        10 => Event::Try,
        11 => Event::Answer(a, Reply::Good(None)),
        12 => Event::Answer(a, Reply::Good(Some(b))),
        13 => Event::Answer(a, Reply::Failed),
        14 => Event::Rejoin(a),
        15 => Event::Extend,
        16 => Event::Synced(a, b, 0),
        17 => Event::Tick,
        _ => Event::CheckAnswer(a, b, c == 1),
    }
}

fn event_known(kind: u64, c: u64) -> bool
    ensures { result ≡ event_known kind c }
{
    0 < kind && kind < 19 && (kind != 18 || c < 2)
}

// The words of a fresh client. 0: done. 2: sync is neither 0 nor 1, nothing is changed. A chunk count outside 1 to 4,096 gives a client that every event refuses.
#[unsafe(no_mangle)]
pub extern "C" fn mzk_client_fresh(state: &mut [u64; 32], sync: u64, chunks: u64) -> u64
    ensures value { result ≡ pick (ltb 1 sync) 2 0 }
    ensures state_after { state.new ≡ fresh_left state.old sync chunks }
{
    if 1 < sync {
        return 2;
    }
    *state = library_client_words::client_words::pack(Client::fresh(sync == 1, chunks));
    0
}

// An event. map is the client's own, other the node's that synced reads. 0: out says what it gave. 1: the words of state are no client's. 2: the numbers are no event. At 1 and 2
// nothing is changed. The words of state are known after the call where they were before it.
#[unsafe(no_mangle)]
pub extern "C" fn mzk_client_event(
    state: &mut [u64; 32],
    map: &mut [u8],
    other: &[u8],
    kind: u64,
    a: u64,
    b: u64,
    c: u64,
    out: &mut [u64; 16],
) -> u64
    ensures value { result ≡ returned state.old kind c }
    ensures state_after { state.new ≡ state_left state.old map.old other.now kind a b c }
    ensures map_after { map.new ≡ map_left state.old map.old kind a b c }
    ensures out_after { out.new ≡ out_left state.old map.old other.now kind a b c out.old }
    ensures known_after { known state.new ≡ known state.old }
{
    let known = library_client_words::client_words::read(*state);
    let client = match event_words::words::callable(known, event_known(kind, c)) {
        Ok(client) => client,
        Err(why) => return u64::from(why),
    };
    let e = event_of(kind, a, b, c);
    let o = event_call::client_event::call(client, e, map, other);
    *out = library_answer::answer_words(o.answer);
    *state = library_client_words::client_words::pack(o.client);
    0
}
