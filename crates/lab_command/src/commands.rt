// A line of a history to the command that it is.
ghost use Rattle.std.specs.Prelude.{◌≡◌};
ghost use Rattle.lab_command.specs.Commands.{looks as Commands·looks, stores as Commands·stores, transfer_of as Commands·transfer_of, pokes as Commands·pokes, fields as Commands·fields, checks as Commands·checks, words as Commands·words, said as Commands·said, command_of};

use crate::events;
use lab_form::Head::{Pair, Plain};
use lab_form::{Command, Form, Which};
use text_words::lines;
use text_words::names::Name;

// The dirty chunks of a member, and how much of a map is lent.
#[tactic(auto, unfolding(crate::specs::Commands::looks))]
fn looks(f: Form) -> Option<Command>
    ensures { result ≡ Commands·looks f.head f }
{
    let [_, x1, x2, ..] = f.x;
    Some(match (f.head, f.count) {
        (Pair(Name::Row, Name::Client), 3) if x2 < 16 => Command::Row(Which::Client, x2),
        (Plain(Name::Row), 3) if x1 < 16 && x2 < 16 => Command::Row(Which::Node(x1), x2),
        (Plain(Name::Staging), 3) if x1 < 16 && x2 < 16 => Command::Row(Which::Staging(x1), x2),
        (Pair(Name::Lend, Name::Client), 3) if x2 < 8193 => Command::Lend(Which::Client, x2),
        (Plain(Name::Lend), 3) if x1 < 16 && x2 < 8193 => Command::Lend(Which::Node(x1), x2),
        (Plain(Name::LendStaging), 3) if x1 < 16 && x2 < 8193 => Command::Lend(
            Which::Staging(x1),
            x2,
        ),
        _ => return None,
    })
}

// A byte stored in a map, and a number put into the client's state.
#[tactic(auto, unfolding(crate::specs::Commands::stores))]
fn stores(f: Form) -> Option<Command>
    ensures { result ≡ Commands·stores f.head f }
{
    let [_, x1, x2, x3, ..] = f.x;
    Some(match (f.head, f.count) {
        (Pair(Name::Byte, Name::Client), 4) if x2 < 8192 && x3 < 256 => Command::Byte(
            Which::Client,
            x2,
            x3,
        ),
        (Plain(Name::Byte), 4) if x1 < 16 && x2 < 8192 && x3 < 256 => Command::Byte(
            Which::Node(x1),
            x2,
            x3,
        ),
        (Plain(Name::StagingByte), 4) if x1 < 16 && x2 < 8192 && x3 < 256 => Command::Byte(
            Which::Staging(x1),
            x2,
            x3,
        ),
        (Pair(Name::Poke, Name::Version), 3) => Command::PokeVersion(x2),
        (Pair(Name::Poke, Name::Count), 3) if x2 < 65536 => Command::PokeCount(x2),
        (Pair(Name::Poke, Name::Chunks), 3) if x2 < 65536 => Command::PokeChunks(x2),
        (Pair(Name::Poke, Name::Members), 3) if x2 < 65536 => Command::PokeMembers(x2),
        _ => return None,
    })
}

// 0: nothing in hand. 1: in hand, and nothing taken. 2: in hand, and the whole map taken.
fn transfer_of(x: u64) -> Option<u64>
    ensures { result ≡ Commands·transfer_of x }
{
    match x {
        0 => None,
        1 => Some(0),
        _ => Some(8192),
    }
}

// A session put into the client's state, and a node's state.
#[tactic(auto, unfolding(crate::specs::Commands::pokes))]
fn pokes(f: Form) -> Option<Command>
    ensures { result ≡ Commands·pokes f.head f }
{
    let [_, x1, x2, x3, x4, x5, x6, x7] = f.x;
    Some(match (f.head, f.count) {
        (Pair(Name::Poke, Name::Session), 8) if x2 < 16 => Command::PokeSession(
            x2,
            event_number::session_in(x3, x4, x5, x6, x7)?,
        ),
        (Plain(Name::PokeNode), 8)
            if x1 < 16 && x2 < 5 && x3 < 2 && x4 < 2 && x5 < 65536 && x7 < 3 => Command::PokeNode(
            x1,
            event_words::node_words::state_of(x2),
            x3 == 1,
            x4 == 1,
            x5,
            x6,
            transfer_of(x7),
        ),
        _ => return None,
    })
}

// The further fields of the pool and of a node: what they are, put into them; and how long the parts of a map are.
#[tactic(auto, unfolding(crate::specs::Commands::fields))]
fn fields(f: Form) -> Option<Command>
    ensures { result ≡ Commands·fields f.head f }
{
    let [_, x1, x2, ..] = f.x;
    Some(match (f.head, f.count) {
        (Plain(Name::Look), 1) => Command::Look,
        (Plain(Name::Look), 2) if x1 < 16 => Command::LookNode(x1),
        (Plain(Name::PokeGot), 3) if x1 < 16 && x2 < 65536 => Command::PokeGot(x1, x2),
        (Pair(Name::Poke, Name::Written), 3) if x2 < 2 => Command::PokeWritten(x2 == 1),
        (Pair(Name::Poke, Name::Assembled), 3) if x2 < 2 => Command::PokeAssembled(x2 == 1),
        (Plain(Name::Cut), 2) if 0 < x1 && x1 < 1025 => Command::Cut(x1),
        _ => return None,
    })
}

// What map check knows, put into the client; and the record of its last event, looked at.
#[tactic(auto, unfolding(crate::specs::Commands::checks))]
fn checks(f: Form) -> Option<Command>
    ensures { result ≡ Commands·checks f.head f }
{
    let [_, _, x2, ..] = f.x;
    Some(match (f.head, f.count) {
        (Plain(Name::Record), 1) => Command::Record,
        (Pair(Name::Poke, Name::Tick), 3) if x2 < 4294967296 => Command::PokeTick(x2),
        (Pair(Name::Poke, Name::Due), 3) if x2 < 65536 => Command::PokeDue(x2),
        (Pair(Name::Poke, Name::Once), 3) if x2 < 65536 => Command::PokeOnce(x2),
        _ => return None,
    })
}

// A word put into a node's summaries.
#[tactic(auto, unfolding(crate::specs::Commands::words))]
fn words(f: Form) -> Option<Command>
    ensures { result ≡ Commands·words f.head f }
{
    let [_, x1, x2, x3, ..] = f.x;
    Some(match (f.head, f.count) {
        (Plain(Name::Summary), 4) if x1 < 16 && x2 < 96 => Command::Summary(x1, x2, x3),
        _ => return None,
    })
}

// The command of a form. Each form stands once, so the order is free.
#[tactic(auto, unfolding(crate::specs::Commands::said))]
fn said(f: Form) -> Command
    ensures { result ≡ Commands·said f }
{
    events::client_events(f)
        .or(events::check_events(f))
        .or(events::search_events(f))
        .or(events::whole_events(f))
        .or(events::transfer_events(f))
        .or(events::service_events(f))
        .or(events::store_events(f))
        .or(stores(f))
        .or(looks(f))
        .or(pokes(f))
        .or(fields(f))
        .or(checks(f))
        .or(words(f))
        .unwrap_or(Command::Unreadable)
}

// A line, its newline cut off, to its command. A line longer than 255 bytes is none; one that is empty, or begins with # for a comment or > for an answer that is expected, is passed over.
#[tactic(auto, unfolding(crate::specs::Commands::command_of))]
pub fn read(s: &[u8]) -> Command
    ensures { result ≡ command_of s.now }
{
    match s {
        [] | [b'#' | b'>', ..] => Command::Passed,
        _ if 255 < s.len() => Command::Unreadable,
        _ => said(lab_form::form_of(lines::read_line(s))),
    }
}
