// The lab's maps: those of one kind stand one after another in a buffer, and of each the first bytes are lent, as many as the lab says.
ghost use Rattle.std.specs.Prelude.{◌≡◌};
ghost use Rattle.event_ask.specs.Lending.{cut, size_of, part, Stands};

use map_numbers::refusals::MAP_BYTES;

// How many bytes are lent: of the client's map, of each node's map, of each node's staging map. More than a map has is all of it.
// A size beside a size of each kind: the maps of one kind stand one after another, since an event lends a part of them, and the definitions speak of such a buffer with its sizes.
#[derive(Clone, Copy)]
pub struct Lent {
    pub own: u64,
    pub maps: [u64; 16],
    pub stagings: [u64; 16],
}

// So many bytes of a map, or all of it.
pub fn cut(n: u64) -> usize
    ensures { result ≡ cut n }
{
    n.min(MAP_BYTES as u64) as usize
}

// How much of map k is lent; nothing where there is none.
pub fn size(sizes: [u64; 16], k: u64) -> usize
    ensures { result ≡ size_of sizes k }
{
    if 15 < k {
        return 0;
    }
    cut(sizes[k as usize])
}

// A part of a buffer. A pair of ends and no Range, which is no Copy: the definition Stands names them.
#[derive(Clone, Copy)]
pub struct Span {
    pub from: usize,
    pub to: usize,
}

// The first n bytes of map k in a buffer of len bytes, as far as it goes.
pub fn find(len: usize, k: u64, n: usize) -> Span
    ensures { Stands len k n result }
{
    let maps = (len / MAP_BYTES) as u64;
    if maps < k {
        return Span { from: len, to: len };
    }
    let from = MAP_BYTES * (k as usize);
    Span {
        from,
        to: from + n.min(len - from),
    }
}

// Those bytes.
#[tactic(auto, using(crate::proofs::Parts::part_is))]
pub fn part(maps: &[u8], k: u64, n: usize) -> &[u8]
    ensures { result.now ≡ part maps.now k n }
{
    let s = find(maps.len(), k, n);
    &maps[s.from..s.to]
}
