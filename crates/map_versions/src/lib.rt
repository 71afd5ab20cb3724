// A store's version with its replaced-disk flag, in two forms: one word in older stores, a record of two words in new ones. Moved either way and ordered; every function
// takes any numbers.
#![tactic(auto)]

ghost use Rattle.std.specs.Prelude.{◌≡◌};
ghost use Rattle.map_versions.specs.Versions.{record_of, word_of, compare_words, compare_records};

use rules_base::Refusal;
use std::cmp::Ordering;

// The new form. Any two numbers can be read from a store: flag is to be 0 or 1, version below 2^63. It has no order of its own: compare_records says Equal of two records
// that differ in the flag.
#[derive(Clone, Copy, Debug, PartialEq, Eq)]
pub struct VersionRecord {
    pub version: u64,
    pub flag: u64,
}

// The weight of the top bit, 2^63: a version is below it.
const TOP: u64 = 9223372036854775808;

// The new record of an old word.
pub fn record_of(word: u64) -> VersionRecord
    ensures { result ≡ record_of word }
{
    VersionRecord {
        version: word % TOP,
        flag: word / TOP,
    }
}

impl From<u64> for VersionRecord {
    ghost from_gives = { λ w r. r ≡ record_of w };

    fn from(word: u64) -> VersionRecord {
        record_of(word)
    }
}

// The old word of a new record; one that has none is refused.
pub fn word_of(r: VersionRecord) -> Result<u64, Refusal>
    ensures { result ≡ word_of r }
{
    if TOP <= r.version || 1 < r.flag {
        return Err(Refusal::BadRecord);
    }
    Ok(r.version + TOP * r.flag)
}

impl TryFrom<VersionRecord> for u64 {
    type Error = Refusal;

    ghost try_from_gives = { λ r a. a ≡ word_of r };

    fn try_from(r: VersionRecord) -> Result<u64, Refusal> {
        word_of(r)
    }
}

// How two old words compare.
pub fn compare_words(v: u64, w: u64) -> Ordering
    ensures { result ≡ compare_words v w }
{
    (v % TOP).cmp(&(w % TOP))
}

// How two new records compare.
pub fn compare_records(r: VersionRecord, s: VersionRecord) -> Ordering
    ensures { result ≡ compare_records r s }
{
    r.version.cmp(&s.version)
}
