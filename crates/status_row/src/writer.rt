// One member's row written as block status descriptors. Both public functions take slices of any length and any numbers.
ghost use Rattle.std.specs.Prelude.{◌≡◌, ◌+◌, ◌<◌, ◌≤◌, length};
ghost use Rattle.std.proofs.lemmas.List.Edits.{sets};
ghost use Rattle.status_row.specs.Descriptors.{word};
ghost use Rattle.status_row.specs.Writing.{joins, status_of, write_answer, write_leaves, member_answer, member_leaves};

use crate::descriptors::{Volume, flag, row_sound};
use rules_base::Refusal;

// Stores 32 bits, big-endian.
fn put32(out: &mut [u8], at: usize, v: u64)
    requires { at + 4 ≤ length out.old }
    ensures { out.new ≡ sets out.old at (word v) }
{
    out[at..at + 4].copy_from_slice(&v.to_be_bytes()[4..]);
}

// Stores one descriptor.
fn put_desc(out: &mut [u8], at: usize, bytes: u64, flags: u64)
    requires { at + 8 ≤ length out.old }
    ensures { out.new ≡ sets (sets out.old at (word bytes)) (at + 4) (word flags) }
{
    put32(out, at, bytes);
    put32(out, at + 4, flags);
}

// Whether a chunk with flag g goes on with a run of flag f, which is then `next` bytes long.
fn joins(f: u64, g: u64, next: u64) -> bool
    ensures { result ≡ joins f g next }
{
    f == g && next < 4294967296
}

// Stores the row's descriptors, and says how many bytes they are. The open run has b bytes and flag f.
fn put_status(row: &[u8], v: Volume, out: &mut [u8]) -> usize
    requires { (0 < v.chunks) × ((v.chunks ≤ 4096) × ((v.size ≤ 1048576) × (32768 ≤ length out.old))) }
    ensures { (result ≡ length (status_of v.chunks v.size row.now)) × (out.new ≡ sets out.old 0 (status_of v.chunks v.size row.now)) }
{
    let mut f = flag(row, 0);
    let mut b = v.size;
    let mut at: usize = 0;
    for c in 1..v.chunks {
        let g = flag(row, c);
        let next = b + v.size;
        if joins(f, g, next) {
            b = next;
        } else {
            put_desc(out, at, b, f);
            at += 8;
            f = g;
            b = v.size;
        }
    }
    put_desc(out, at, b, f);
    at + 8
}

// Writes the descriptors of a row of the volume into what is lent, and says how many bytes they are. BadMap is of the row, BadStatus of the volume or the room.
pub fn write(row: &[u8], v: Volume, out: &mut [u8]) -> Result<usize, Refusal>
    ensures { (result ≡ write_answer v.chunks v.size row.now out.old) × (out.new ≡ write_leaves v.chunks v.size row.now out.old) }
{
    if !row_sound(row, v.chunks) {
        return Err(Refusal::BadMap);
    }
    if !v.good() || out.len() < 32768 {
        return Err(Refusal::BadStatus);
    }
    Ok(put_status(row, v, out))
}

// The same for member m's row of a whole map.
pub fn write_member(map: &[u8], m: u64, v: Volume, out: &mut [u8]) -> Result<usize, Refusal>
    ensures { (result ≡ member_answer v.chunks v.size map.now m out.old) × (out.new ≡ member_leaves v.chunks v.size map.now m out.old) }
{
    if map.len() != map_numbers::refusals::MAP_BYTES {
        return Err(Refusal::BadMap);
    }
    if 15 < m {
        return Err(Refusal::BadId);
    }
    write(map_whole::maps::row(map, m), v, out)
}
