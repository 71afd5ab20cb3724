// The compute client: its state, and one method for each event, which takes the state and hands the next one back with the answer. Ids, chunks, sets,
// versions and answer numbers may be anything; a lent map may have any length.
#![tactic(auto)]

ghost use Rattle.std.specs.Prelude.{◌≡◌};
ghost use Rattle.rules_base.specs.Limits.{numbers};
ghost use Rattle.rules_client.specs.Joins.{join_create, join_assemble};
ghost use Rattle.rules_client.specs.Enables.{enable, maintenance};
ghost use Rattle.rules_client.specs.Links.{link_down, store_check, rejoin, try_run};
ghost use Rattle.rules_client.specs.Client.{carried, sound_for, extend_turn, remove_turn, write_turn, answer_turn, clean_to, synced_turn, tick_turn, check_turn};
ghost use Rattle.rules_client.specs.ClientEvents.{out_of};
ghost use Rattle.event.specs.OfClient.{event_of, own_left};
ghost use Rattle.client.specs.Client.{held, given, fresh, handed, check_handed, of_pool, of_check, stepped};

use client_join::{enables, extending, joins};
use client_link::{links, writes};
use client_remove::{answers, removal};
use event::Event;
use map_whole::maps;
use rules_base::Numbers;
use rules_client::{Check, Checked};
use rules_pool::{Answer, Effect, Job, Mode, Pool, Reply, Roster, State, Turn};

// The pool, and beside it what map check knows: no event of the pool looks at it.
#[derive(Clone, Copy)]
pub struct Client {
    pub pool: Pool,
    pub check: Check,
}

// What an event hands back.
#[derive(Clone, Copy)]
pub struct Out {
    pub answer: Answer,
    pub client: Client,
}

// What an event comes to: what it hands back, and what is to be done to the client's map.
#[derive(Clone, Copy)]
pub struct Step {
    pub out: Out,
    pub effect: Effect,
}

// The numbers stand here and at the node: each face says those of its type, and the statements name both.
// enable, link_down, write and answer take `mut self`, as the interface has them.
impl Client {
    pub const MEMBERS: u64 = map_numbers::refusals::MEMBERS;

    pub const CHUNK_LIMIT: u64 = map_numbers::refusals::CHUNK_LIMIT;

    pub const MAP_BYTES: usize = map_numbers::refusals::MAP_BYTES;

    pub const VERSION_LIMIT: u64 = map_numbers::refusals::VERSION_LIMIT;

    // The numbers of the type as a value: those that the rules speak of.
    pub fn numbers() -> Numbers
        ensures { result ≡ numbers }
    {
        Numbers {
            members: Self::MEMBERS,
            chunks: Self::CHUNK_LIMIT,
            bytes: Self::MAP_BYTES as u64,
            version: Self::VERSION_LIMIT,
        }
    }

    // A fresh client. A chunk count outside 1 to 4,096 gives a value that every event refuses.
    pub fn fresh(sync: bool, chunks: u64) -> Client
        ensures { result ≡ fresh sync chunks }
    {
        let roster = Roster {
            sessions: [client_state::state::new(State::Free); 16],
            count: 0,
            version: 1,
            members: 0,
            sync,
            past: client_state::state::none(),
        };
        Client {
            pool: Pool {
                roster,
                job: Job::Idle,
                number: 0,
                chunks,
            },
            check: client_check::none(),
        }
    }

    pub fn join_create(self, id: u64) -> Out
        ensures { result ≡ handed self (join_create self.pool id) }
    {
        on_values(self, Event::JoinCreate(id), false, 0)
    }

    pub fn join_assemble(self, id: u64, set: u64, version: u64) -> Out
        ensures { result ≡ handed self (join_assemble self.pool id set version) }
    {
        on_values(self, Event::JoinAssemble(id, set, version), false, 0)
    }

    pub fn enable(mut self, id: u64) -> Out
        ensures { result ≡ handed self (enable self.pool id) }
    {
        on_values(self, Event::Enable(id), false, 0)
    }

    pub fn maintenance(self, id: u64) -> Out
        ensures { result ≡ handed self (maintenance self.pool id) }
    {
        on_values(self, Event::Maintenance(id), false, 0)
    }

    pub fn link_down(mut self, id: u64) -> Out
        ensures { result ≡ handed self (link_down self.pool id) }
    {
        on_values(self, Event::LinkDown(id), false, 0)
    }

    pub fn store_check(self, id: u64) -> Out
        ensures { result ≡ handed self (store_check self.pool id) }
    {
        on_values(self, Event::StoreCheck(id), false, 0)
    }

    pub fn rejoin(self, id: u64) -> Out
        ensures { result ≡ handed self (rejoin self.pool id) }
    {
        on_values(self, Event::Rejoin(id), false, 0)
    }

    // Recovery is tried, on request.
    pub fn try_run(self) -> Out
        ensures { result ≡ handed self (try_run self.pool) }
    {
        on_values(self, Event::Try, false, 0)
    }

    // A leg is added; the answer says which id was picked.
    #[tactic(auto, unfolding(rules_client::specs::Client::extend_turn))]
    pub fn extend(self, map: &mut [u8]) -> Out
        ensures value { result ≡ handed self (extend_turn self.pool map.old) }
        ensures map_after { map.new ≡ carried (extend_turn self.pool map.old).effect map.old }
    {
        on_map(self, Event::Extend, map)
    }

    #[tactic(auto, unfolding(rules_client::specs::Client::remove_turn))]
    pub fn remove(self, map: &mut [u8], id: u64, mode: Mode) -> Out
        ensures value { result ≡ handed self (remove_turn self.pool map.old id mode) }
        ensures map_after { map.new ≡ carried (remove_turn self.pool map.old id mode).effect map.old }
    {
        on_map(self, Event::Remove(id, mode), map)
    }

    #[tactic(auto, unfolding(rules_client::specs::Client::write_turn))]
    pub fn write(mut self, map: &mut [u8], chunk: u64, reached: u64) -> Out
        ensures value { result ≡ handed self (write_turn self.pool map.old chunk reached) }
        ensures map_after { map.new ≡ carried (write_turn self.pool map.old chunk reached).effect map.old }
    {
        on_map(self, Event::Write(chunk, reached), map)
    }

    // The map lent is a NORMAL node's; it is only read.
    #[tactic(auto, unfolding(rules_client::specs::Client::synced_turn))]
    pub fn synced(self, map: &[u8], member: u64, chunk: u64) -> Out
        ensures { result ≡ handed self (synced_turn self.pool map.now member chunk) }
    {
        let sound = maps::is_sound(map, self.pool.chunks);
        let clean = clean_ids(map, chunk);
        on_values(self, Event::Synced(member, chunk, 0), sound, clean)
    }

    #[tactic(auto, unfolding(rules_client::specs::Client::answer_turn))]
    pub fn answer(mut self, map: &mut [u8], number: u64, a: Reply) -> Out
        ensures value { result ≡ handed self (answer_turn self.pool map.old number a) }
        ensures map_after { map.new ≡ carried (answer_turn self.pool map.old number a).effect map.old }
    {
        on_map(self, Event::Answer(number, a), map)
    }

    // Every NORMAL member with a non-empty client row is asked whether its row is empty. The map is only read.
    #[tactic(auto, unfolding(rules_client::specs::Client::tick_turn))]
    pub fn tick(self, map: &[u8]) -> Out
        ensures { result ≡ check_handed self (tick_turn (held self) map.now) }
    {
        let sound = maps::is_sound(map, self.pool.chunks);
        let full = map_whole::emptyrows::full_ids(map);
        on_values(self, Event::Tick, sound, full)
    }

    // The answer of a member to the tick with this number.
    #[tactic(auto, unfolding(rules_client::specs::Client::check_turn))]
    pub fn check_answer(self, map: &mut [u8], number: u64, member: u64, empty: bool) -> Out
        ensures value { result ≡ check_handed self (check_turn (held self) map.old number member empty) }
        ensures map_after { map.new ≡ carried (check_turn (held self) map.old number member empty).effect map.old }
    {
        on_map(self, Event::CheckAnswer(number, member, empty), map)
    }
}

// Any event: own is the client's map, other the map that Synced reads.
#[tactic(auto, unfolding(rules_client::specs::Client::extend_turn, rules_client::specs::Client::remove_turn, rules_client::specs::Client::write_turn, rules_client::specs::Client::answer_turn, rules_client::specs::Client::check_turn))]
pub fn event(c: Client, e: Event, own: &mut [u8], other: &[u8]) -> Out
    ensures value { result ≡ given (out_of (event_of e own.old other.now) (held c)) }
    ensures own_after { own.new ≡ own_left e (held c) own.old }
{
    match e {
        Event::JoinCreate(..)
        | Event::JoinAssemble(..)
        | Event::Enable(..)
        | Event::Maintenance(..)
        | Event::LinkDown(..)
        | Event::StoreCheck(..)
        | Event::Rejoin(..)
        | Event::Try => on_values(c, e, false, 0),
        Event::Remove(..)
        | Event::Write(..)
        | Event::Answer(..)
        | Event::Extend
        | Event::CheckAnswer(..) => on_map(c, e, own),
        Event::Synced(member, chunk, _) => c.synced(other, member, chunk),
        Event::Tick => c.tick(own),
    }
}

// An event that the client's map is lent to, to be marked or cleared.
fn on_map(c: Client, e: Event, map: &mut [u8]) -> Out
    ensures value { result ≡ (stepped e c.pool c.check (sound_for c.pool map.old) 0).out }
    ensures map_after { map.new ≡ carried (stepped e c.pool c.check (sound_for c.pool map.old) 0).effect map.old }
{
    let sound = maps::is_sound(map, c.pool.chunks);
    let s = step_of(c, e, sound, 0);
    carry(map, s.effect);
    s.out
}

// An event on values alone: no map is lent to it, or one that is only read.
fn on_values(c: Client, e: Event, sound: bool, ids: u64) -> Out
    ensures { result ≡ (stepped e c.pool c.check sound ids).out }
{
    step_of(c, e, sound, ids).out
}

// What an event comes to. sound: of the lent map. ids: those for which the chunk is clean in a map that Synced reads, those whose row is not empty in one that Tick reads.
fn step_of(c: Client, e: Event, sound: bool, ids: u64) -> Step
    ensures { result ≡ stepped e c.pool c.check sound ids }
{
    let Client { pool: p, check: k } = c;
    let turn = match e {
        Event::JoinCreate(id) => joins::join_create(p, id),
        Event::JoinAssemble(id, set, version) => joins::join_assemble(p, id, set, version),
        Event::Enable(id) => enables::enable(p, id),
        Event::Maintenance(id) => enables::maintenance(p, id),
        Event::LinkDown(id) => links::link_down(p, id),
        Event::StoreCheck(id) => links::store_check(p, id),
        Event::Rejoin(id) => links::rejoin(p, id),
        Event::Try => links::try_run(p),
        Event::Remove(id, mode) => removal::remove::remove(p, sound, id, mode),
        Event::Write(chunk, reached) => writes::write_ended(p, sound, chunk, reached),
        Event::Synced(member, chunk, _) => writes::synced(p, sound, member, chunk, ids),
        Event::Answer(number, a) => answers::answer(p, sound, number, a),
        Event::Extend => extending::extend(p, sound),
        Event::Tick => return hand_check(p, client_check::tick(p, k, sound, ids)),
        Event::CheckAnswer(number, member, empty) => {
            return hand_check(p, client_check::answer(p, k, sound, number, member, empty));
        }
    };
    hand(c, turn)
}

// What an event of the pool comes to.
fn hand(c: Client, t: Turn) -> Step
    ensures { result ≡ of_pool c.pool c.check t }
{
    Step {
        out: Out {
            answer: t.answer,
            client: Client {
                pool: t.pool,
                check: client_check::after(c.check, c.pool, t),
            },
        },
        effect: t.effect,
    }
}

// What a tick or an answer to it comes to: the pool stays.
fn hand_check(pool: Pool, k: Checked) -> Step
    ensures { result ≡ of_check pool k }
{
    Step {
        out: Out {
            answer: k.answer,
            client: Client {
                pool,
                check: k.check,
            },
        },
        effect: k.effect,
    }
}

// Does to the client map what the event says.
fn carry(map: &mut [u8], effect: Effect)
    ensures { map.new ≡ carried effect map.old }
{
    match effect {
        Effect::Keep => {}
        Effect::Mark(set, chunk) => map_chunk::mark_for(map, set, chunk),
        Effect::ZeroRow(m) => maps::zero_row(map, m),
        Effect::ZeroAll => maps::zero(map),
        Effect::FillRow(m, n) => map_whole::fills::fill_row(map, m, n),
    }
}

// The ids for which the chunk is clean in the map.
#[tactic(auto, unfolding(rules_client::specs::Client::clean_to))]
fn clean_ids(map: &[u8], chunk: u64) -> u64
    ensures { result ≡ clean_to map.now chunk 16 }
{
    let mut ids = 0;
    for m in 0..16 {
        if !map_chunk::test(map, m, chunk) {
            ids = map_numbers::sets::with(ids, m);
        }
    }
    ids
}
