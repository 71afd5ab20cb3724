// Taking a part of a map, MAP_DONE, MAP_DISABLE.
ghost use Rattle.std.specs.Prelude.{◌≡◌, ◌+◌, ◌≤◌};
ghost use Rattle.rules_base.specs.Refusals.{number_of};
ghost use Rattle.rules_node.specs.Hand.{hand_refusal, is_next, take_part_refusal, part_taken, take_part, map_done_refusal, done_to, committed, map_done, map_disable};

use node_state::{change, states, turns};
use rules_base::Refusal;
use rules_node::{Node, OnMap, OnStaging, State, Turn};

// What refuses MAP_DISABLE.
#[tactic(auto, unfolding(rules_node::specs::Hand::hand_refusal))]
fn hand_allowed(n: Node, lent: u64) -> Result<(), Refusal>
    ensures { number_of result ≡ hand_refusal n lent }
{
    turns::allowed(n, lent)?;
    if n.transfer.is_none() {
        return Err(Refusal::NoTransfer);
    }
    Ok(())
}

// Whether a part comes next: there is such a part, it starts where the last ended, and no bit of it is past the chunk count.
fn is_next(n: Node, offset: u64, length: u64, clean: bool) -> bool
    ensures { result ≡ is_next n offset length clean }
{
    map_whole::parts::is_part(offset, length) && offset == states::taken(n.transfer) && clean
}

#[tactic(auto, unfolding(rules_node::specs::Hand::take_part_refusal, rules_node::specs::Hand::hand_refusal))]
fn take_part_allowed(
    n: Node,
    lent: u64,
    offset: u64,
    length: u64,
    clean: bool,
) -> Result<(), Refusal>
    ensures { number_of result ≡ take_part_refusal n lent offset length clean }
{
    hand_allowed(n, lent)?;
    if !is_next(n, offset, length, clean) {
        return Err(Refusal::BadPart);
    }
    Ok(())
}

// A part is taken: it is ORed into staging.
#[tactic(auto, unfolding(rules_node::specs::Hand::take_part, rules_node::specs::Turns::settled))]
pub fn take_part(n: Node, lent: u64, offset: u64, length: u64, clean: bool) -> Turn
    ensures { result ≡ take_part n lent offset length clean }
{
    match take_part_allowed(n, lent, offset, length, clean) {
        Ok(()) => turns::done(
            part_taken(n, offset, length),
            OnMap::Keep,
            OnStaging::Or(offset),
        ),
        Err(why) => turns::refused(why, n),
    }
}

#[tactic(auto, unfolding(rules_node::specs::Hand::part_taken))]
fn part_taken(n: Node, offset: u64, length: u64) -> Node
    requires { offset + length ≤ 8192 }
    ensures { result ≡ part_taken n offset length }
{
    change::transferred(n, Some(offset + length))
}

#[tactic(auto, unfolding(rules_node::specs::Hand::map_done_refusal))]
fn map_done_allowed(n: Node, lent: u64, version: u64, set: u64) -> Result<(), Refusal>
    ensures { number_of result ≡ map_done_refusal n lent version set }
{
    turns::allowed(n, lent)?;
    if 65535 < set {
        return Err(Refusal::BadId);
    }
    if !map_numbers::sets::has(set, n.id) {
        return Err(Refusal::BadMembership);
    }
    if map_numbers::refusals::VERSION_LIMIT < version {
        return Err(Refusal::HighVersion);
    }
    if !states::is_whole(n.transfer) {
        return Err(Refusal::NoTransfer);
    }
    Ok(())
}

// Staging takes the map's place, with the version and the member set it is told.
#[tactic(auto, unfolding(rules_node::specs::Hand::map_done))]
pub fn map_done(n: Node, lent: u64, enabling: bool, version: u64, set: u64) -> Turn
    ensures { result ≡ map_done n lent enabling version set }
{
    turns::settled(
        map_done_allowed(n, lent, version, set),
        n,
        turns::done(
            committed(n, enabling, version, set),
            OnMap::Commit(set),
            OnStaging::Zero,
        ),
    )
}

#[tactic(auto, unfolding(rules_node::specs::Hand::committed))]
fn committed(n: Node, enabling: bool, version: u64, set: u64) -> Node
    ensures { result ≡ committed n enabling version set }
{
    let here = change::went_to(n, done_to(enabling, n.state));
    change::instructed(change::ended_transfer(here), version, set)
}

fn done_to(enabling: bool, s: State) -> State
    ensures { result ≡ done_to enabling s }
{
    if enabling { State::Normal } else { s }
}

// The transfer is given up.
#[tactic(auto, unfolding(rules_node::specs::Hand::map_disable))]
pub fn map_disable(n: Node, lent: u64) -> Turn
    ensures { result ≡ map_disable n lent }
{
    turns::settled(
        hand_allowed(n, lent),
        n,
        turns::done(change::ended_transfer(n), OnMap::Keep, OnStaging::Zero),
    )
}
