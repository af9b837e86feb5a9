// Text put into a lent buffer, one part after the other: bytes, words, and decimal numbers.
#![tactic(auto)]

ghost use Rattle.std.specs.Prelude.{◌≡◌, ◌+◌, ◌≤◌, [], ◌∷◌, ◌++◌, length};
ghost use Rattle.print.specs.Digits.{digits};
ghost use Rattle.print.specs.Put.{Puts};

// A lent buffer, and the place where the next part is put. What goes past the buffer's end is left out, and the place then lies past it too: a fmt::Write
// would end there and tell no place, so the parts are put by methods of our own.
#[derive(Drop)]
pub struct Page<'a> {
    pub out: &'a mut [u8],
    pub at: usize,
}

impl Page<'_> {
    // One byte.
    pub fn byte(&mut self, byte: u8)
        ensures same { self.new.out.ghost_name ≡ self.old.out.ghost_name }
        ensures puts { Puts self.old.out.now self.old.at (byte ∷ []) self.new.out.now self.new.at }
    {
        if self.at < self.out.len() {
            self.out[self.at] = byte;
        }
        self.at = self.at.saturating_add(1);
    }

    // A word, byte by byte.
    pub fn word(&mut self, word: &[u8])
        ensures same { self.new.out.ghost_name ≡ self.old.out.ghost_name }
        ensures puts { Puts self.old.out.now self.old.at word.now self.new.out.now self.new.at }
    {
        for &byte in word {
            self.byte(byte);
        }
    }

    // A number's decimal digits, at most twenty.
    pub fn number(&mut self, n: usize)
        ensures same { self.new.out.ghost_name ≡ self.old.out.ghost_name }
        ensures puts { Puts self.old.out.now self.old.at (digits n) self.new.out.now self.new.at }
        ensures upper_bound { self.new.at ≤ self.old.at + 20 }
    {
        let mut spelled = [0u8; 20];
        let k = io::decimal(n as u64, &mut spelled);
        self.word(&spelled[..k]);
    }

    // A word, and a number after it.
    pub fn field(&mut self, word: &[u8], n: usize)
        ensures same { self.new.out.ghost_name ≡ self.old.out.ghost_name }
        ensures puts { Puts self.old.out.now self.old.at (word.now ++ digits n) self.new.out.now self.new.at }
        ensures upper_bound { self.new.at ≤ self.old.at + length word.now + 20 }
    {
        self.word(word);
        self.number(n);
    }
}
