// Two map dumps side by side: what is refused of them, and a member's row from the one with the higher version. Every function takes dumps of any length and any number.
// The two stay two parameters, here and where they are compared and told: each is lent by itself, and a pair of them would be made only to be taken apart.
ghost use Rattle.std.specs.Prelude.{◌≡◌};
ghost use Rattle.compare_walk.specs.Dumps.{dumps_taken, newer_row};

use map_numbers::refusals::MAP_BYTES;
use rules_base::Refusal;

// The refusal of two dumps and a member: BadMap for a dump of another length than 8,192 bytes, then BadId for a member above 15.
pub fn refusal(first: &[u8], second: &[u8], member: u64) -> Result<(), Refusal>
    ensures { result ≡ dumps_taken first.now second.now member }
{
    if first.len() != MAP_BYTES || second.len() != MAP_BYTES {
        return Err(Refusal::BadMap);
    }
    if 15 < member {
        return Err(Refusal::BadId);
    }
    Ok(())
}

// The member's row of the dump with the higher version, of the first at a tie: a part of that dump, and the empty part where the two are refused.
pub fn newer_row<'a>(
    first: &'a [u8],
    first_version: u64,
    second: &'a [u8],
    second_version: u64,
    member: u64,
) -> &'a [u8]
    ensures { result.now ≡ newer_row first.now first_version second.now second_version member }
{
    if refusal(first, second, member).is_err() {
        return &first[..0];
    }
    if first_version < second_version {
        map_whole::maps::row(second, member)
    } else {
        map_whole::maps::row(first, member)
    }
}
