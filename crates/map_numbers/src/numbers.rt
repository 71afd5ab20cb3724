// A value chosen: what every crate above would else write again.
ghost use Rattle.std.specs.Prelude.{◌≡◌};
ghost use Rattle.laws_words.specs.Words.{pick};

// One value or the other. Both stand there already, so that a loop chooses without a branch.
pub fn pick<T: Copy>(test: bool, a: T, b: T) -> T
    ensures { result ≡ pick test a b }
{
    if test { a } else { b }
}
