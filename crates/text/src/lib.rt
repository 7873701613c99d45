// Words and numbers written into a buffer, each behind the one before.
#![tactic(auto)]

ghost use Rattle.std.specs.Prelude.{◌≡◌, ◌∷◌, [], ◌+◌, ◌≤◌, ◌<◌, length};
ghost use Rattle.text.specs.Digits.{digits, field};
ghost use Rattle.text.specs.Writing.{HasRoom, Writes};

// A buffer, and the place in it behind what is written.
#[derive(Drop)]
pub struct Writer<'a> {
    pub out: &'a mut [u8],
    pub end: usize,
}

impl<'a> Writer<'a> {
    pub fn put_byte(&mut self, byte: u8)
        requires { self.old.end < length self.old.out.now }
        ensures { Writes self.old self.new (byte ∷ []) }
    {
        self.out[self.end] = byte;
        self.end += 1;
    }

    pub fn put_text(&mut self, text: &[u8])
        requires { HasRoom self.old (length text.now) }
        ensures { Writes self.old self.new text.now }
    {
        self.out[self.end..self.end + text.len()].copy_from_slice(text);
        self.end += text.len();
    }

    // The decimal digits of a number, `most` of them at most. By hand, since `itoa` writes every digit: each caller would have to bound its
    // number too.
    pub fn put_digits(&mut self, n: usize, most: usize)
        requires { HasRoom self.old most }
        ensures { Writes self.old self.new (digits most n) }
    {
        if most == 0 {
            return;
        }
        if n < 10 {
            self.put_byte(digit(n));
            return;
        }
        self.put_digits(n / 10, most - 1);
        self.put_byte(digit(n % 10));
    }

    // A name and its number, of `most` digits at most.
    pub fn put_field(&mut self, name: &[u8], n: usize, most: usize)
        requires { HasRoom self.old (length name.now + most) }
        ensures wrote { Writes self.old self.new (field most name.now n) }
        ensures upper_bound { self.new.end ≤ self.old.end + length name.now + most }
    {
        self.put_text(name);
        self.put_digits(n, most);
    }
}

fn digit(n: usize) -> u8
    requires { n < 10 }
    ensures { result ≡ 48 + n }
{
    48 + (n as u8)
}
