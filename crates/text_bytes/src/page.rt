// A page: a lent buffer, and the place of the next byte. A clause sees both as `Ink`, and the name of the reference that the page holds: whoever lent the
// buffer knows by it that what the page holds at the end stands there.
ghost use Rattle.std.specs.Prelude.{◌≡◌, take};
ghost use Rattle.text_bytes.specs.Ink.{ink, emit, emits, decimal};
ghost use Rattle.text_bytes.specs.Pages.{page_ink, lender};

#[derive(Drop)]
pub struct Page<'a> {
    out: &'a mut [u8],
    at: usize,
}

impl<'a> Page<'a> {
    // The next byte goes to the place `at`.
    pub fn new(out: &'a mut [u8], at: usize) -> Page<'a>
        ensures same_reference { lender result ≡ out.entry.ghost_name }
        ensures value { page_ink result ≡ ink out.old at }
    {
        Page { out, at }
    }

    // A byte. Where there is no room, nothing is put.
    #[tactic(auto, unfolding(crate::specs::Ink::emit))]
    pub fn put(&mut self, b: u8)
        ensures same_reference { lender self.new ≡ lender self.old }
        ensures value { page_ink self.new ≡ emit (page_ink self.old) b }
    {
        if self.at < self.out.len() {
            self.out[self.at] = b;
            self.at += 1;
        }
    }

    pub fn put_bytes(&mut self, s: &[u8])
        ensures same_reference { lender self.new ≡ lender self.old }
        ensures value { page_ink self.new ≡ emits (page_ink self.old) s.now }
    {
        for b in s {
            self.put(*b);
        }
    }

    pub fn put_number(&mut self, n: u64)
        ensures same_reference { lender self.new ≡ lender self.old }
        ensures value { page_ink self.new ≡ emits (page_ink self.old) (decimal n) }
    {
        let mut d = [0u8; 20];
        let k = io::decimal(n, &mut d);
        self.put_bytes(&d[..k]);
    }

    // The place of the next byte.
    pub fn at(&self) -> usize
        ensures { result ≡ (page_ink self.now).at }
    {
        self.at
    }

    // What stands in front of that place: the whole buffer where the place is behind its end.
    pub fn text(&self) -> &[u8]
        ensures { result.now ≡ take (page_ink self.now).at (page_ink self.now).buf }
    {
        &self.out[..self.at.min(self.out.len())]
    }
}
