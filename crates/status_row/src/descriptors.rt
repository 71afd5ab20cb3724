// A row's chunks as flags, and the tests that writing and reading of descriptors begin with. Every operation takes a row of any length and any numbers.
ghost use Rattle.std.specs.Prelude.{◌≡◌};
ghost use Rattle.rules_base.specs.Chunk.{dirty};
ghost use Rattle.status_row.specs.Volume.{row_sound, size_good, volume_good};

// Chunk c of the row: 1 dirty, 0 clean.
pub fn flag(row: &[u8], c: u64) -> u64
    ensures { result ≡ dirty row.now 0 c }
{
    u64::from(map_chunk::test(row, 0, c))
}

// Whether the row has 512 bytes and no bit past the chunk count n.
pub fn row_sound(row: &[u8], n: u64) -> bool
    ensures { result ≡ row_sound n row.now }
{
    if row.len() != 512 {
        return false;
    }
    // Tried as all of the range: the proof did not close.
    for c in n..4096 {
        if flag(row, c) != 0 {
            return false;
        }
    }
    true
}

// Whether s is a power of two from 4,096 to 1,048,576.
// A list, as the definition is: both are read off at a glance, and they are one.
#[tactic(auto, unfolding(crate::specs::Volume::size_good))]
fn size_good(s: u64) -> bool
    ensures { result ≡ size_good s }
{
    matches!(
        s,
        4096 | 8192 | 16384 | 32768 | 65536 | 131072 | 262144 | 524288 | 1048576
    )
}

// A chunk count and a chunk size, whatever they are.
#[derive(Clone, Copy)]
pub struct Volume {
    pub chunks: u64,
    pub size: u64,
}

impl Volume {
    // Whether a volume may have so many chunks of such a size.
    #[tactic(auto, unfolding(crate::specs::Volume::volume_good))]
    pub fn good(self) -> bool
        ensures { result ≡ volume_good self.chunks self.size }
    {
        0 < self.chunks && self.chunks <= map_numbers::refusals::CHUNK_LIMIT && size_good(self.size)
    }
}
