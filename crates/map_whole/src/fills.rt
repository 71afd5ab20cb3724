// A member's row with every chunk of the volume dirty, for a leg that has none of them yet.
ghost use Rattle.std.specs.Prelude.{◌≡◌};
ghost use Rattle.rules_base.specs.Fill.{row_filled};

// Marks every chunk below the chunk count for the member.
#[tactic(auto, unfolding(rules_base::specs::Fill::row_filled))]
pub fn fill_row(map: &mut [u8], member: u64, chunks: u64)
    ensures { map.new ≡ row_filled member chunks map.old }
{
    for c in 0..chunks {
        map_chunk::mark(map, member, c);
    }
}
