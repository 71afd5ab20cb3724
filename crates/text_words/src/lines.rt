// A line cut at single spaces into words, each a number, a name or neither.
ghost use Rattle.std.specs.Prelude.{◌≡◌};
ghost use Rattle.std.specs.List.{list_all};
ghost use Rattle.text_words.specs.Lines.{is_number, number_in, tok_of, empty as Lines·empty, pushed, line_of};

use crate::names::{self, Name};

// Unknown: a word that is neither a number nor a name.
#[derive(Clone, Copy, PartialEq, Eq)]
pub enum Token {
    Number(u64),
    Word(Name),
    Unknown,
}

impl Token {
    pub fn is_number(self) -> bool
        ensures { result ≡ is_number self }
    {
        matches!(self, Token::Number(_))
    }

    // The number, 0 for a word.
    pub fn number(self) -> u64
        ensures { result ≡ number_in self }
    {
        match self {
            Token::Number(n) => n,
            _ => 0,
        }
    }
}

pub fn are_numbers(words: &[Token]) -> bool
    ensures { result ≡ list_all is_number words.now }
{
    words.iter().all(|t| t.is_number())
}

// count is 9 where the line has more than eight words. A word that is not there is the number 0. An array beside its count, as there is no heap.
#[derive(Clone, Copy)]
pub struct Line {
    pub count: u64,
    pub toks: [Token; 8],
}

#[tactic(auto, unfolding(crate::specs::Lines::tok_of))]
fn token_of(s: &[u8]) -> Token
    ensures { result ≡ tok_of s.now }
{
    if let Some(n) = text_bytes::number(s) {
        return Token::Number(n);
    }
    match names::name_of(s) {
        Some(name) => Token::Word(name),
        None => Token::Unknown,
    }
}

fn empty() -> Line
    ensures { result ≡ Lines·empty }
{
    Line {
        count: 0,
        toks: [Token::Number(0); 8],
    }
}

// One more word. The ninth and later ones are only counted, as nine.
#[tactic(auto, unfolding(crate::specs::Lines::pushed))]
fn push(mut l: Line, t: Token) -> Line
    ensures { result ≡ pushed l t }
{
    if l.count < 8 {
        l.toks[l.count as usize] = t;
        l.count += 1;
    } else {
        l.count = 9;
    }
    l
}

pub fn read_line(s: &[u8]) -> Line
    ensures { result ≡ line_of s.now }
{
    let mut l = empty();
    // Where the word that is begun stands.
    let mut a = 0;
    for i in 0..s.len() {
        if s[i] == b' ' {
            l = push(l, token_of(&s[a..i]));
            a = i + 1;
        }
    }
    push(l, token_of(&s[a..]))
}
