// A lent output, and the text that is written into it.
//
// Beside single bytes: numbers as decimals, lines of a letter and numbers, and forms, which are fixed texts with gaps for numbers.
ghost use Rattle.std.specs.Prelude.{◌≡◌, ◌∷◌, [], ◌+◌, ◌≤◌, ◌<◌, length};
ghost use Rattle.listing.specs.Decimals.{decimal, most_digits};
ghost use Rattle.listing.specs.Listing.{line, most_numbers, most_line};
ghost use Rattle.listing.specs.Texts.{filled, most_gaps, gaps_room};

// The most digits of a number.
pub const MOST_DIGITS: usize = 20;

// The most numbers of a line.
pub const MOST_NUMBERS: usize = 5;

// A gap of a form.
const GAP: u8 = b'@';

// The output, and where the text that was written ends. No `Display`: `list` and `draw` promise the text's bytes in a lent
// output, and a formatter's writer promises them only where it doesn't fail. How much room there must be stands in clauses, as each call writes
// another most.
#[derive(Drop)]
pub struct Writer<'a> {
    pub out: &'a mut [u8],
    pub end: usize,
}

impl<'a> Writer<'a> {
    ghost use Rattle.listing.specs.Writer.{Adds, Room, SameOutput};

    // A byte.
    #[tactic(auto, using(crate::proofs::Fixed::byte_put))]
    fn byte(&mut self, byte: u8)
        requires { Room self.old 1 }
        ensures wrote { Adds self.old self.new (byte ∷ []) }
        ensures same { SameOutput self.old self.new }
    {
        self.out[self.end] = byte;
        self.end += 1;
    }

    // A number: the digits of its tenth, and its last one.
    // Our own: std promises digits only on a heap or where no write fails; no ported crate of the kit is used (docs/TRUST.md).
    fn decimal(&mut self, n: u64)
        requires { Room self.old most_digits }
        ensures wrote { Adds self.old self.new (decimal n) }
        ensures same { SameOutput self.old self.new }
    {
        if 10 <= n {
            self.decimal(n / 10);
        }
        self.byte(b'0' + (n % 10) as u8);
    }

    // A line: a letter, and each number after a space.
    pub fn line(&mut self, letter: u8, numbers: &[u64])
        requires few { length numbers.now ≤ most_numbers }
        requires room { Room self.old most_line }
        ensures wrote { Adds self.old self.new (line letter numbers.now) }
        ensures same { SameOutput self.old self.new }
    {
        self.byte(letter);
        for n in numbers {
            self.byte(b' ');
            self.decimal(*n);
        }
        self.byte(b'\n');
    }

    // A form: each gap is the next of the numbers, while there is one.
    pub fn form(&mut self, form: &[u8], numbers: &[u64])
        requires few { length numbers.now ≤ most_gaps }
        requires room { Room self.old (length form.now + gaps_room) }
        ensures wrote { Adds self.old self.new (filled form.now numbers.now) }
        ensures same { SameOutput self.old self.new }
        ensures upper_bound { self.new.end ≤ self.old.end + (length form.now + gaps_room) }
    {
        let mut left = numbers;
        for byte in form {
            if *byte != GAP {
                self.byte(*byte);
                continue;
            }
            let Some((number, rest)) = left.split_first() else {
                self.byte(*byte);
                continue;
            };
            self.decimal(*number);
            left = rest;
        }
    }
}
