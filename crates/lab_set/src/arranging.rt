// The maps, where a line sets them up.
ghost use Rattle.std.specs.Prelude.{◌≡◌};
ghost use Rattle.rules_base.specs.Map.{zeroed};
ghost use Rattle.lab_set.specs.Arranging.{with_byte, in_own, in_maps, in_stagings};

use lab_form::Which;

// All of them zeroed.
pub fn zero_all(own: &mut [u8], maps: &mut [u8], stagings: &mut [u8])
    ensures own_after { own.new ≡ zeroed own.old }
    ensures maps_after { maps.new ≡ zeroed maps.old }
    ensures stagings_after { stagings.new ≡ zeroed stagings.old }
{
    map_whole::maps::zero(own);
    map_whole::maps::zero(maps);
    map_whole::maps::zero(stagings);
}

// The byte v at i of one of them; own is the client's, maps and stagings hold those of the nodes.
pub fn store(w: Which, i: u64, v: u64, own: &mut [u8], maps: &mut [u8], stagings: &mut [u8])
    ensures own_after { own.new ≡ in_own w i v own.old }
    ensures maps_after { maps.new ≡ in_maps w i v maps.old }
    ensures stagings_after { stagings.new ≡ in_stagings w i v stagings.old }
{
    match w {
        Which::Client => put(own, 0, i, v),
        Which::Node(n) => put(maps, n, i, v),
        Which::Staging(n) => put(stagings, n, i, v),
    }
}

// The byte v at i of the nth map of all; there is none past 15, nor a byte past 8,191. What is too much is taken off by %: a cast takes only a number that fits.
fn put(all: &mut [u8], n: u64, i: u64, v: u64)
    ensures { all.new ≡ with_byte n i v all.old }
{
    if 15 < n || 8191 < i {
        return;
    }
    let at = n as usize * 8192 + i as usize;
    if at < all.len() {
        all[at] = (v % 256) as u8;
    }
}
