// A map in parts: consecutive parts of 1 to 1,024 bytes, each with its offset. Every function takes any numbers and any bytes.
ghost use Rattle.std.specs.Prelude.{◌≡◌, ◌+◌, ◌<◌, eqb, leb};
ghost use Rattle.rules_base.specs.Map.{room, spare, clean_from};
ghost use Rattle.rules_base.specs.Parts.{is_part, or_part};

// At most this many bytes are in a part.
pub const PART_BYTES: u64 = 1024;

// Whether there is a part of this length at the offset: 1 to 1,024 bytes, none of them past a map's end.
pub fn is_part(offset: u64, length: u64) -> bool
    ensures { result ≡ is_part offset length }
{
    1 <= length && length <= PART_BYTES && offset.saturating_add(length) <= 8192
}

// ORs a part in at the offset, as far as the map goes.
pub fn or_part(map: &mut [u8], offset: u64, part: &[u8])
    ensures { map.new ≡ or_part offset part.now map.old }
{
    let a = offset as usize;
    // An index: tried as a zip with the map's own bytes, of which no proof is told what they are after the loop.
    for i in a..map.len().min(a.saturating_add(part.len())) {
        map[i] |= part[i - a];
    }
}

// Whether a part of a map, whose first byte stands at the offset, has no bit past the chunk count n.
pub fn is_clean(part: &[u8], n: u64, offset: u64) -> bool
    ensures { result ≡ clean_from n offset part.now }
{
    let mut ok = true;
    for (i, x) in part.iter().enumerate() {
        ok &= byte_ok(n, offset, i, *x);
    }
    ok
}

// Whether byte i of the part, holding x, has no bit past the chunk count.
fn byte_ok(n: u64, offset: u64, i: usize, x: u8) -> bool
    ensures { result ≡ eqb (spare n (offset + i) x) 0 }
{
    let place = (offset % 512 + (i as u64) % 512) % 512;
    u64::from(x) >> room(n, place) == 0
}

// Of a row's byte at the place, how many bits stand for chunks below the chunk count.
#[tactic(auto, unfolding(rules_base::specs::Map::room))]
fn room(n: u64, place: u64) -> u64
    requires { place < 512 }
    ensures { result ≡ room n place }
{
    8.min(n.saturating_sub(8 * place))
}
