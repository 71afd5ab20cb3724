// The row view: one member's part of a lent map, held by reference, with three thin operations. Each takes the view apart and calls a function on the
// part; the functions at the end have plain parameters and serve every other caller. A row is a map of one row, that of member 0.
#![tactic(auto)]

ghost use Rattle.std.specs.Prelude.{◌≡◌, true, false, eqb, MatchOption};
ghost use Rattle.rules_base.specs.Chunk.{dirty, count};
ghost use Rattle.rules_base.specs.Map.{row_of};
ghost use Rattle.map_row_view.specs.Row.{has_row, step_at, row_count, row_bit, row_next};

#[derive(Clone, Copy)]
pub struct Row<'a> {
    pub bytes: &'a [u8],
}

// ---- the view
pub fn view<'a>(bytes: &'a [u8]) -> Row<'a>
    ensures { result.bytes ≡ bytes.entry }
{
    Row { bytes }
}

// How many of the row's chunks are dirty.
pub fn counted<'a>(r: Row<'a>) -> u64
    ensures { result ≡ count r.entry.bytes.now 0 }
{
    map_chunk::count_row(r.bytes, 0)
}

// Whether chunk c of the row is dirty.
pub fn is_dirty<'a>(r: Row<'a>, c: u64) -> bool
    ensures { result ≡ eqb (dirty r.entry.bytes.now 0 c) 1 }
{
    map_chunk::test(r.bytes, 0, c)
}

// The row's byte at a place, or its end.
pub fn next<'a>(r: Row<'a>, at: usize) -> Option<u8>
    ensures { result ≡ step_at r.entry.bytes.now at }
{
    r.bytes.get(at).copied()
}

// ---- one member's row of a whole map; there is none where the map is of another length or the id above 15, which is told apart from a clean row
fn row_in<'a>(map: &'a [u8], m: u64) -> Option<Row<'a>>
    ensures { MatchOption result (has_row map.now m ≡ false) (λ r. (has_row map.now m ≡ true) × (r.bytes.now ≡ row_of map.now m)) }
{
    let row = map_whole::maps::row(map, m);
    if row.len() != 512 {
        return None;
    }
    Some(view(row))
}

#[tactic(auto, unfolding(crate::specs::Row::row_count))]
pub fn row_count(map: &[u8], m: u64) -> Option<u64>
    ensures { result ≡ row_count map.now m }
{
    Some(counted(row_in(map, m)?))
}

#[tactic(auto, unfolding(crate::specs::Row::row_bit))]
pub fn row_is_dirty(map: &[u8], m: u64, c: u64) -> Option<bool>
    ensures { result ≡ row_bit map.now m c }
{
    Some(is_dirty(row_in(map, m)?, c))
}

// What stands at a place of it. The outer None says that there is no such row, the inner one that the row ends before.
#[tactic(auto, unfolding(crate::specs::Row::row_next))]
pub fn row_next(map: &[u8], m: u64, at: usize) -> Option<Option<u8>>
    ensures { result ≡ row_next map.now m at }
{
    Some(next(row_in(map, m)?, at))
}
