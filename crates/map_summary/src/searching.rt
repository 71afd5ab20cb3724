// The next dirty chunk of a member's row, by the row's summary. The search goes down one level at each step and opens no place whose bit is clear. It does not test the summaries:
// that reads the whole map (`summaries::agree`).
ghost use Rattle.std.specs.Prelude.{◌≡◌, ◌<◌, ◌^◌};
ghost use Rattle.rules_base.specs.Search.{opens, searched, row_searched};

use crate::summaries::Summaries;
use rules_base::Sought;

const SPANS: [u64; 4] = [1, 16, 256, 4096];

// How many chunks stand under a place of the level.
fn span(level: u64) -> u64
    requires { level < 4 }
    ensures { result ≡ 16 ^ level }
{
    SPANS[level as usize]
}

// Whether the search goes down at place i of the level.
fn opens(words: &Summaries, map: &[u8], m: u64, start: u64, level: u64, i: u64) -> bool
    ensures { result ≡ opens words.now map.now m start level i }
{
    if !crate::summaries::lit(words, map, m, level, i) {
        return false;
    }
    start < span(level) * (i + 1)
}

// The first dirty chunk at or after the start that stands under place i of the level.
fn search(words: &Summaries, map: &[u8], m: u64, start: u64, level: u64, i: u64) -> Sought
    ensures { result ≡ searched words.now map.now m start level i }
{
    if !opens(words, map, m, start, level, i) {
        return Sought {
            found: None,
            looked: 1,
        };
    }
    if level == 0 {
        return Sought {
            found: Some(i),
            looked: 1,
        };
    }
    let mut looked: u64 = 1;
    for k in 0..16 {
        let below = search(words, map, m, start, level - 1, 16 * i + k);
        looked += below.looked;
        if let Some(c) = below.found {
            return Sought {
                found: Some(c),
                looked,
            };
        }
    }
    Sought {
        found: None,
        looked,
    }
}

// The first dirty chunk of member m's row at or after the start, and at how many places was looked for it.
#[tactic(auto, unfolding(rules_base::specs::Search::row_searched))]
pub fn search_row(words: &Summaries, map: &[u8], m: u64, start: u64) -> Sought
    ensures { result ≡ row_searched words.now map.now m start }
{
    search(words, map, m, start, 3, 0)
}
