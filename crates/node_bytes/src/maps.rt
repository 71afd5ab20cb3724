// What a node's events do to its two maps, carried out by the functions of `maps`. Every function takes maps of any length.
ghost use Rattle.std.specs.Prelude.{◌≡◌};
ghost use Rattle.rules_base.specs.Map.{rows_kept, copied};
ghost use Rattle.rules_node.specs.Carry.{last_io, last_ios, map_after, staging_after, taken_in};

use rules_node::{Effect, Node, OnMap, OnStaging};

// Carries an effect out: the map first, then staging.
pub fn carry(e: Effect, n: Node, map: &mut [u8], staging: &mut [u8])
    ensures map_after { map.new ≡ map_after e.map n staging.old map.old }
    ensures staging_after { staging.new ≡ staging_after e.staging (map_after e.map n staging.old map.old) staging.old }
{
    carry_map(e.map, n, map, staging);
    carry_staging(e.staging, map, staging);
}

#[tactic(auto, unfolding(rules_node::specs::Carry::map_after))]
fn carry_map(e: OnMap, n: Node, map: &mut [u8], staging: &[u8])
    ensures { map.new ≡ map_after e n staging.now map.old }
{
    match e {
        OnMap::Keep => {}
        OnMap::Mark(set, chunk) => map_chunk::mark_for(map, set, chunk),
        OnMap::Clear(member, chunk) => map_chunk::clear(map, member, chunk),
        OnMap::LastIos(chosen) => last_ios(n, chosen, map),
        OnMap::ZeroRow(member) => map_whole::maps::zero_row(map, member),
        OnMap::Zero => map_whole::maps::zero(map),
        OnMap::KeepRows(set) => map_whole::maps::keep_rows(map, set),
        OnMap::Commit(set) => commit(set, map, staging),
        OnMap::FillRow(member) => map_whole::fills::fill_row(map, member, n.chunks),
    }
}

// Staging in the map's place, with the rows of the set alone.
fn commit(set: u64, map: &mut [u8], staging: &[u8])
    ensures { map.new ≡ rows_kept set (copied map.old staging.now) }
{
    map_whole::maps::copy(map, staging);
    map_whole::maps::keep_rows(map, set);
}

#[tactic(auto, unfolding(rules_node::specs::Carry::staging_after))]
fn carry_staging(e: OnStaging, map: &[u8], staging: &mut [u8])
    ensures { staging.new ≡ staging_after e map.now staging.old }
{
    match e {
        OnStaging::Zero => map_whole::maps::zero(staging),
        OnStaging::Fill => map_whole::maps::copy(staging, map),
        OnStaging::Keep | OnStaging::Or(_) => {}
    }
}

// Taking a part: ORed into staging at its offset where the event was accepted.
#[tactic(auto, unfolding(rules_node::specs::Carry::taken_in))]
pub fn take_in(e: OnStaging, part: &[u8], staging: &mut [u8])
    ensures { staging.new ≡ taken_in e part.now staging.old }
{
    if let OnStaging::Or(offset) = e {
        map_whole::parts::or_part(staging, offset, part);
    }
}

// LAST_IO_TO_MAP: each kept chunk, in order of arrival.
#[tactic(auto, unfolding(rules_node::specs::Carry::last_ios))]
fn last_ios(n: Node, chosen: u64, map: &mut [u8])
    ensures { map.new ≡ last_ios n chosen map.old }
{
    let from = 16u64.saturating_sub(n.held) as usize;
    for chunk in &n.kept[from..] {
        last_io(n.members, chosen, *chunk, map);
    }
}

// A chunk that is dirty for the chosen was missed by it: it has nothing to tell the others.
#[tactic(auto, unfolding(rules_node::specs::Carry::last_io))]
fn last_io(members: u64, chosen: u64, chunk: u64, map: &mut [u8])
    ensures { map.new ≡ last_io members chosen chunk map.old }
{
    if !map_chunk::test(map, chosen, chunk) {
        let others = map_numbers::sets::without(members, chosen);
        map_chunk::mark_for(map, others, chunk);
    }
}
