// What the crates that turn states and answers into words share: why a call of the library is not made, and the number that says it.
ghost use Rattle.std.specs.Prelude.{◌≡◌};
ghost use Rattle.event_words.specs.Calls.{callable, number_of};

// Why a call of the library is not made: the words are no state's, or the numbers are no event.
#[derive(Clone, Copy, PartialEq, Eq)]
pub enum Unmade {
    State,
    Event,
}

// The number that such a call returns.
impl From<Unmade> for u64 {
    ghost from_gives = { λ why n. n ≡ number_of why };

    fn from(why: Unmade) -> u64 {
        match why {
            Unmade::State => 1,
            Unmade::Event => 2,
        }
    }
}

// The state that a call is made on: that of the words, where they are known and the numbers are an event.
pub fn callable<S: Copy>(state: Option<S>, event: bool) -> Result<S, Unmade>
    ensures { result ≡ callable state event }
{
    let state = state.ok_or(Unmade::State)?;
    if event { Ok(state) } else { Err(Unmade::Event) }
}
