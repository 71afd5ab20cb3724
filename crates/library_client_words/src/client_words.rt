// A client's whole state as 32 words, for a buffer that a caller in another language keeps; and back. 0: count. 1: version. 2: members. 3: sync. 4: written. 5: assembled. 6: the
// number of the last awaited message. 7: chunks. 8 to 12: the job. 13: the last tick. 14: the members due. 15: those of which one empty answer stands. 16 to 31: a session each.
ghost use Rattle.std.specs.Prelude.{◌≡◌, true};
ghost use Rattle.laws_words.specs.Words.{pick};
ghost use Rattle.library_client_words.specs.ClientWords.{packed, unpacked, known};

use client::Client;
use rules_client::Check;
use rules_pool::{Past, Pool, Roster};

pub fn pack(c: Client) -> [u64; 32]
    ensures value { result ≡ packed c }
    ensures result_value { known result ≡ true }
{
    let roster = c.pool.roster;
    let past = roster.past;
    let [tag, data, source, left, taken] = crate::pool_words::job_words(c.pool.job);
    // The sessions' words come after the others; with the others copied in from a list of their own a client takes a fifth more time to pack.
    let mut ws = [
        roster.count,
        roster.version,
        roster.members,
        u64::from(roster.sync),
        u64::from(past.written),
        u64::from(past.assembled),
        u64::from(c.pool.number),
        c.pool.chunks,
        tag,
        data,
        source,
        left,
        taken,
        u64::from(c.check.tick),
        u64::from(c.check.due),
        u64::from(c.check.once),
        0,
        0,
        0,
        0,
        0,
        0,
        0,
        0,
        0,
        0,
        0,
        0,
        0,
        0,
        0,
        0,
    ];
    ws[16..].copy_from_slice(&crate::pool_words::session_words(roster.sessions));
    ws
}

// Any 32 words give a client, those too that no client is packed to.
pub fn unpack(ws: [u64; 32]) -> Client
    ensures { result ≡ unpacked ws }
{
    let mut sessions = [0; 16];
    sessions.copy_from_slice(&ws[16..]);
    let roster = Roster {
        sessions: crate::pool_words::sessions_in(sessions),
        count: ws[0],
        version: ws[1],
        members: ws[2],
        sync: ws[3] == 1,
        past: Past {
            written: ws[4] == 1,
            assembled: ws[5] == 1,
        },
    };
    Client {
        pool: Pool {
            roster,
            job: crate::pool_words::job_of(ws[8], ws[9], ws[10], ws[11], ws[12]),
            number: u32::try_from(ws[6]).unwrap_or(0),
            chunks: ws[7],
        },
        check: Check {
            tick: u32::try_from(ws[13]).unwrap_or(0),
            due: u16::try_from(ws[14]).unwrap_or(0),
            once: u16::try_from(ws[15]).unwrap_or(0),
        },
    }
}

// The client that the words encode. Words that no client is packed to are not known.
#[tactic(auto, unfolding(crate::specs::ClientWords::known), using(crate::proofs::ClientInverse::same_32))]
pub fn read(ws: [u64; 32]) -> Option<Client>
    ensures { result ≡ pick (known ws) (Some (unpacked ws)) None }
{
    let client = unpack(ws);
    (ws == pack(client)).then_some(client)
}
