// Write, synced.
ghost use Rattle.std.specs.Prelude.{◌≡◌};
ghost use Rattle.rules_base.specs.Refusals.{number_of};
ghost use Rattle.rules_node.specs.Write.{write_refusal, written, write, synced_refusal, synced};

use node_state::{change, turns};
use rules_base::Refusal;
use rules_node::{Node, OnMap, OnStaging, State, Turn};

#[tactic(auto, unfolding(rules_node::specs::Write::write_refusal))]
fn write_allowed(n: Node, lent: u64, chunk: u64, set: u64, version: u64) -> Result<(), Refusal>
    ensures { number_of result ≡ write_refusal n lent chunk set version }
{
    turns::allowed(n, lent)?;
    if 65535 < set {
        return Err(Refusal::BadId);
    }
    if n.chunks <= chunk {
        return Err(Refusal::BadChunk);
    }
    if n.state != State::Normal {
        return Err(Refusal::NotAllowed);
    }
    if map_numbers::refusals::VERSION_TOP < version {
        return Err(Refusal::HighVersion);
    }
    Ok(())
}

// A write that reached this node: the chunk is marked for those it did not reach, the larger version stored, the chunk number kept.
#[tactic(auto, unfolding(rules_node::specs::Write::write))]
pub fn write(n: Node, lent: u64, chunk: u64, set: u64, version: u64) -> Turn
    ensures { result ≡ write n lent chunk set version }
{
    turns::settled(
        write_allowed(n, lent, chunk, set, version),
        n,
        turns::done(
            written(n, chunk, version),
            OnMap::Mark(set, chunk),
            OnStaging::Keep,
        ),
    )
}

// Writes may arrive in any order, so the version never falls.
#[tactic(auto, unfolding(rules_node::specs::Write::written))]
fn written(n: Node, chunk: u64, version: u64) -> Node
    ensures { result ≡ written n chunk version }
{
    let stored = change::stored_version(n, n.version.max(version));
    change::kept_chunk(stored, chunk)
}

#[tactic(auto, unfolding(rules_node::specs::Write::synced_refusal))]
fn synced_allowed(n: Node, lent: u64, member: u64, chunk: u64) -> Result<(), Refusal>
    ensures { number_of result ≡ synced_refusal n lent member chunk }
{
    turns::allowed(n, lent)?;
    if 15 < member {
        return Err(Refusal::BadId);
    }
    if n.chunks <= chunk {
        return Err(Refusal::BadChunk);
    }
    if n.state != State::Normal {
        return Err(Refusal::NotAllowed);
    }
    Ok(())
}

// A chunk was synced for a member: it is clean.
#[tactic(auto, unfolding(rules_node::specs::Write::synced))]
pub fn synced(n: Node, lent: u64, member: u64, chunk: u64) -> Turn
    ensures { result ≡ synced n lent member chunk }
{
    turns::settled(
        synced_allowed(n, lent, member, chunk),
        n,
        turns::done(n, OnMap::Clear(member, chunk), OnStaging::Keep),
    )
}
