// Which rows of a map are empty. Every function takes a map of any length and any number.
ghost use Rattle.std.specs.Prelude.{◌≡◌};
ghost use Rattle.rules_base.specs.Empty.{row_empty, full_to};

// Whether member m's row has no dirty chunk.
pub fn is_empty(map: &[u8], m: u64) -> bool
    ensures { result ≡ row_empty map.now m }
{
    map_chunk::count_row(map, m) == 0
}

// The ids whose row is not empty.
#[tactic(auto, unfolding(rules_base::specs::Empty::full_to))]
pub fn full_ids(map: &[u8]) -> u64
    ensures { result ≡ full_to map.now 16 }
{
    let mut ids: u64 = 0;
    for m in 0..16 {
        if !is_empty(map, m) {
            ids = map_numbers::sets::with(ids, m);
        }
    }
    ids
}
