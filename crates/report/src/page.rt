// Pages to write on. They are no `fmt::Write`, whose contracts say what is written only where writing succeeds: here there is always room.
ghost use Rattle.std.specs.Prelude.{◌+◌, ◌≤◌, ◌≡◌, [], ◌∷◌, length};
ghost use Rattle.report.specs.Text.{decimal, numbers};

// A lent buffer and the place after what is written on it, so that texts can be written one after another.
#[derive(Drop)]
pub struct Page<'a> {
    pub out: &'a mut [u8],
    pub at: usize,
    ghost within: { at ≤ length out.now },
}

impl<'a> Page<'a> {
    ghost use Rattle.report.specs.Pages.{Room, Puts};

    // A page on which nothing is written yet.
    pub fn new(out: &'a mut [u8]) -> Page<'a>
        ensures same_reference { result.out.ghost_name ≡ out.entry.ghost_name }
        ensures holds { result.out.now ≡ out.old }
        ensures place { result.at ≡ 0 }
    {
        Page { out, at: 0 }
    }

    // Writes a text.
    pub fn text(&mut self, text: &[u8])
        requires { Room text.now self.old }
        ensures { Puts text.now self.old self.new }
    {
        let end = self.at + text.len();
        self.out[self.at..end].copy_from_slice(text);
        self.at = end;
    }

    // Writes one byte, for the marks between words.
    pub fn byte(&mut self, byte: u8)
        requires { Room (byte ∷ []) self.old }
        ensures { Puts (byte ∷ []) self.old self.new }
    {
        self.out[self.at] = byte;
        self.at += 1;
    }

    // Writes a number in decimal: its tenth part first, unless that is 0, and then its last digit.
    pub fn decimal(&mut self, n: usize)
        requires { Room (decimal n) self.old }
        ensures { Puts (decimal n) self.old self.new }
    {
        if n >= 10 {
            self.decimal(n / 10);
        }
        self.byte(b'0' + (n % 10) as u8);
    }

    // Writes a word and two numbers with a mark between them, the form of every answer with two numbers and of every pair.
    pub fn numbers(&mut self, word: &[u8], a: usize, mark: u8, b: usize)
        requires { Room (numbers word.now a mark b) self.old }
        ensures { Puts (numbers word.now a mark b) self.old self.new }
    {
        self.text(word);
        self.decimal(a);
        self.byte(mark);
        self.decimal(b);
    }
}
