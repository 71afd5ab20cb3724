// What the lab knows beside its nodes and maps (crate lab_places): one client, what is lent of the maps, and what a command does to them.
#![tactic(auto)]

ghost use Rattle.std.specs.Prelude.{◌≡◌, set};
ghost use Rattle.lab_state.specs.Lent.{lent_by};

use client::Client;
use event_ask::lending::Lent;
use lab_form::{Command, Which};
use rules_pool::{Job, Message};

// lent: how many bytes of each map are lent. cut: how long the parts are of a map that is taken or sent. awaited, number: the awaited message as it was sent.
#[derive(Clone, Copy)]
pub struct Lab {
    pub client: Client,
    pub lent: Lent,
    pub auto: bool,
    pub cut: u64,
    pub awaited: Message,
    pub number: u32,
}

impl Lab {
    ghost use Rattle.lab_state.specs.Bench.{fresh_lab, after_event, arranged};

    // A fresh lab: all lent whole, auto off, parts of 1,024 bytes.
    #[tactic(auto, unfolding(crate::specs::Bench::fresh_lab))]
    pub fn fresh(sync: bool, chunks: u64) -> Lab
        ensures { result ≡ fresh_lab sync chunks }
    {
        let all = map_numbers::refusals::MAP_BYTES as u64;
        Lab {
            client: Client::fresh(sync, chunks),
            lent: Lent {
                own: all,
                maps: [all; 16],
                stagings: [all; 16],
            },
            auto: false,
            cut: map_whole::parts::PART_BYTES,
            awaited: Message::Nothing,
            number: 0,
        }
    }

    // The lab after an accepted client event: the awaited message is the one sent, the one before while a job is in hand, or none.
    #[tactic(auto, unfolding(crate::specs::Bench::after_event))]
    pub fn after(mut self, client: Client, awaited: Message, number: u32) -> Lab
        ensures { result ≡ after_event self client awaited number }
    {
        self.client = client;
        if !client_state::state::is_nothing(awaited) {
            self.awaited = awaited;
            self.number = number;
        } else if matches!(client.pool.job, Job::Idle) {
            self.awaited = Message::Nothing;
            self.number = 0;
        }
        self
    }

    // What a line that sets the lab up does to it; the others leave it. What is too much is taken off by %: a cast takes only a number that fits.
    pub fn arrange(mut self, c: Command) -> Lab
        ensures { result ≡ arranged self c }
    {
        match c {
            Command::Pool(sync, chunks) => self = Lab::fresh(sync, chunks),
            Command::Auto(on) => self.auto = on,
            Command::Cut(n) => self.cut = n,
            Command::Lend(w, n) => self.lent = lent_by(self.lent, w, n),
            Command::PokeVersion(v) => self.client.pool.roster.version = v,
            Command::PokeCount(v) => self.client.pool.roster.count = v,
            Command::PokeChunks(v) => self.client.pool.chunks = v,
            Command::PokeMembers(v) => self.client.pool.roster.members = v,
            Command::PokeSession(id, s) => {
                self.client.pool.roster = client_state::roster::store(
                    self.client.pool.roster,
                    id,
                    s,
                );
            }
            Command::PokeWritten(v) => self.client.pool.roster.past.written = v,
            Command::PokeAssembled(v) => self.client.pool.roster.past.assembled = v,
            Command::PokeTick(v) => self.client.check.tick = (v % 4294967296) as u32,
            Command::PokeDue(v) => self.client.check.due = (v % 65536) as u16,
            Command::PokeOnce(v) => self.client.check.once = (v % 65536) as u16,
            _ => {}
        }
        self
    }
}

fn lent_by(mut l: Lent, w: Which, n: u64) -> Lent
    ensures { result ≡ lent_by l w n }
{
    match w {
        Which::Client => l.own = n,
        Which::Node(k) => l.maps = resized(l.maps, k, n),
        Which::Staging(k) => l.stagings = resized(l.stagings, k, n),
    }
    l
}

// The kth set to n; there is none past 15.
fn resized(mut sizes: [u64; 16], k: u64, n: u64) -> [u64; 16]
    ensures { result ≡ set sizes k n }
{
    if k < 16 {
        sizes[k as usize] = n;
    }
    sizes
}
