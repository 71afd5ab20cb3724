// MAP_READY, giving a part of the map, MAP_GET_VER, LAST_IO_TO_MAP.
ghost use Rattle.std.specs.Prelude.{◌≡◌};
ghost use Rattle.rules_base.specs.Refusals.{number_of};
ghost use Rattle.rules_node.specs.Serve.{serve_refusal, readied, fills, map_ready, give_part_refusal, give_part, map_get_ver, last_io_refusal, last_io_to_map};

use node_state::{change, states, turns};
use rules_base::Refusal;
use rules_node::{Answer, Node, OnMap, OnStaging, State, Turn};

// What refuses MAP_READY and MAP_GET_VER.
#[tactic(auto, unfolding(rules_node::specs::Serve::serve_refusal))]
fn serve_allowed(n: Node, lent: u64) -> Result<(), Refusal>
    ensures { number_of result ≡ serve_refusal n lent }
{
    turns::allowed(n, lent)?;
    if !states::is_serving(n) {
        return Err(Refusal::NotAllowed);
    }
    Ok(())
}

// To NO_IO, with a transfer in hand that starts from what the map holds (keep) or from nothing.
#[tactic(auto, unfolding(rules_node::specs::Serve::map_ready))]
pub fn map_ready(n: Node, lent: u64, keep: bool) -> Turn
    ensures { result ≡ map_ready n lent keep }
{
    turns::settled(
        serve_allowed(n, lent),
        n,
        turns::done(readied(n), OnMap::Keep, fills(keep)),
    )
}

#[tactic(auto, unfolding(rules_node::specs::Serve::readied))]
fn readied(n: Node) -> Node
    ensures { result ≡ readied n }
{
    change::transferred(change::went_to(n, State::NoIo), Some(0))
}

fn fills(keep: bool) -> OnStaging
    ensures { result ≡ fills keep }
{
    if keep {
        OnStaging::Fill
    } else {
        OnStaging::Zero
    }
}

#[tactic(auto, unfolding(rules_node::specs::Serve::give_part_refusal))]
fn give_part_allowed(n: Node, lent: u64, offset: u64, length: u64) -> Result<(), Refusal>
    ensures { number_of result ≡ give_part_refusal n lent offset length }
{
    turns::allowed(n, lent)?;
    if !states::is_serving(n) {
        return Err(Refusal::NotAllowed);
    }
    if !map_whole::parts::is_part(offset, length) {
        return Err(Refusal::BadPart);
    }
    Ok(())
}

// A part of the map goes out as it is; where it goes is the caller's.
#[tactic(auto, unfolding(rules_node::specs::Serve::give_part))]
pub fn give_part(n: Node, lent: u64, offset: u64, length: u64) -> Turn
    ensures { result ≡ give_part n lent offset length }
{
    turns::settled(
        give_part_allowed(n, lent, offset, length),
        n,
        turns::done(n, OnMap::Keep, OnStaging::Keep),
    )
}

#[tactic(auto, unfolding(rules_node::specs::Serve::map_get_ver))]
pub fn map_get_ver(n: Node, lent: u64) -> Turn
    ensures { result ≡ map_get_ver n lent }
{
    turns::settled(
        serve_allowed(n, lent),
        n,
        Turn {
            answer: Answer::Version(n.version),
            ..turns::done(n, OnMap::Keep, OnStaging::Keep)
        },
    )
}

#[tactic(auto, unfolding(rules_node::specs::Serve::last_io_refusal))]
fn last_io_allowed(n: Node, lent: u64, chosen: u64) -> Result<(), Refusal>
    ensures { number_of result ≡ last_io_refusal n lent chosen }
{
    turns::allowed(n, lent)?;
    if 15 < chosen {
        return Err(Refusal::BadId);
    }
    if !states::is_serving(n) {
        return Err(Refusal::NotAllowed);
    }
    Ok(())
}

// The kept chunks go into the map, for every member but the chosen.
#[tactic(auto, unfolding(rules_node::specs::Serve::last_io_to_map))]
pub fn last_io_to_map(n: Node, lent: u64, chosen: u64) -> Turn
    ensures { result ≡ last_io_to_map n lent chosen }
{
    turns::settled(
        last_io_allowed(n, lent, chosen),
        n,
        turns::done(n, OnMap::LastIos(chosen), OnStaging::Keep),
    )
}
