// Block status descriptors read back into a row. The public function takes slices of any length and any numbers.
ghost use Rattle.std.specs.Prelude.{◌≡◌, true, ◌+◌, ◌*◌, ◌<◌, ◌≤◌, length, replicate};
ghost use Rattle.status_row.specs.Descriptors.{word_at, descs_of};
ghost use Rattle.status_row.specs.Reading.{desc_good, status_good, flags_of, stored, painted, read_answer, read_leaves};

use crate::descriptors::{Volume, row_sound};
use rules_base::Refusal;

// Reads 32 bits, big-endian.
fn get32(bytes: &[u8], at: usize) -> u64
    requires { at + 4 ≤ length bytes.now }
    ensures { (result ≡ word_at bytes.now at) × (result < 4294967296) }
{
    u64::from(u32::from_be_bytes([bytes[at], bytes[at + 1], bytes[at + 2], bytes[at + 3]]))
}

// Descriptor i: its bytes and its flags. By its place, as the definitions count them.
fn desc_at(bytes: &[u8], i: usize) -> (u64, u64)
    requires { 8 * i + 8 ≤ length bytes.now }
    ensures { ((result.0 ≡ word_at bytes.now (8 * i)) × (result.0 < 4294967296)) × (result.1 ≡ word_at bytes.now (8 * i + 4)) }
{
    (get32(bytes, 8 * i), get32(bytes, 8 * i + 4))
}

#[tactic(auto, unfolding(crate::specs::Reading::desc_good))]
fn desc_good(s: u64, b: u64, f: u64) -> bool
    requires { 0 < s }
    ensures { result ≡ desc_good s b f }
{
    b != 0 && b % s == 0 && f < 2
}

// Whether the bytes are descriptors of the volume. Chunks are counted, and no further than its count.
fn status_good(bytes: &[u8], v: Volume) -> bool
    requires { (0 < v.size) × (v.chunks ≤ 4096) }
    ensures { result ≡ status_good v.chunks v.size bytes.now }
{
    if bytes.len() % 8 != 0 {
        return false;
    }
    let mut c: u64 = 0;
    for i in 0..bytes.len() / 8 {
        let (b, f) = desc_at(bytes, i);
        if !desc_good(v.size, b, f) {
            return false;
        }
        let next = c + b / v.size;
        if v.chunks < next {
            return false;
        }
        c = next;
    }
    c == v.chunks
}

// Gives chunk c a flag.
fn store(row: &mut [u8], c: u64, f: u64)
    ensures { row.new ≡ stored c f row.old }
{
    if f == 1 {
        map_chunk::mark(row, 0, c);
    } else {
        map_chunk::clear(row, 0, c);
    }
}

// Gives k chunks from c on one flag.
fn paint(row: &mut [u8], c: u64, k: u64, f: u64)
    requires { c + k ≤ 4096 }
    ensures { row.new ≡ painted c (replicate k f) row.old }
{
    for i in c..c + k {
        store(row, i, f);
    }
}

// Gives each chunk the flag of the descriptor over it.
fn fill(bytes: &[u8], v: Volume, row: &mut [u8])
    requires { (0 < v.size) × ((v.chunks ≤ 4096) × (status_good v.chunks v.size bytes.now ≡ true)) }
    ensures { row.new ≡ painted 0 (flags_of v.size (descs_of bytes.now)) row.old }
{
    let mut c: u64 = 0;
    for i in 0..bytes.len() / 8 {
        let (b, f) = desc_at(bytes, i);
        let k = b / v.size;
        paint(row, c, k, f);
        c += k;
    }
}

// Reads the descriptors of the volume into a lent row; where it refuses, the row is untouched: BadMap is of the row, BadStatus of the volume or its descriptors.
pub fn read(bytes: &[u8], v: Volume, row: &mut [u8]) -> Result<(), Refusal>
    ensures { (result ≡ read_answer v.chunks v.size bytes.now row.old) × (row.new ≡ read_leaves v.chunks v.size bytes.now row.old) }
{
    if !row_sound(row, v.chunks) {
        return Err(Refusal::BadMap);
    }
    if !v.good() || !status_good(bytes, v) {
        return Err(Refusal::BadStatus);
    }
    fill(bytes, v, row);
    Ok(())
}
