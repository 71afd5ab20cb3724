// Numbers read from bytes, bytes compared, and bytes and numbers put on a page.
#![tactic(auto)]

pub mod failing;
pub mod page;

ghost use Rattle.std.specs.Prelude.{◌≡◌};
ghost use Rattle.text_bytes.specs.Numbers.{digit_of, num_of};
ghost use Rattle.text_bytes.specs.Bytes.{eq_bytes};

// acc with one more digit after it.
#[tactic(auto, unfolding(crate::specs::Numbers::digit_of))]
fn digit(acc: u64, b: u8) -> Option<u64>
    ensures { result ≡ digit_of acc b }
{
    if b < 48 || 57 < b {
        return None;
    }
    acc.checked_mul(10)?.checked_add(u64::from(b - 48))
}

// Decimal digits only, at least one, leading zeros allowed; none where they are not, or where the number does not fit 64 bits.
pub fn number(s: &[u8]) -> Option<u64>
    ensures { result ≡ num_of s.now }
{
    if s.is_empty() {
        return None;
    }
    let mut acc = 0;
    for b in s {
        acc = digit(acc, *b)?;
    }
    Some(acc)
}

// What == of two slices says, in the words of a definition of ours: text_words and status_tool cite it.
#[tactic(auto, using(crate::proofs::Laws::eq_is))]
pub fn same(s: &[u8], t: &[u8]) -> bool
    ensures { result ≡ eq_bytes s.now t.now }
{
    s == t
}
