// Bytes, numbers and lines onto a lent buffer, one after another: what writes reports, files and texts.
#![tactic(auto, using(crate::specs::Laws::Pens::pens))]

ghost use Rattle.std.specs.Prelude.{◌≡◌, true, ℕ, List, [], ◌∷◌, take};
ghost use Rattle.std.specs.Borrow.{MutBor};
ghost use Rattle.page.specs.declared.Pen.{Pen};
ghost use Rattle.page.specs.Page.{page, stamp, write, Offered};
ghost use Rattle.rows.specs.Numbers.{size, has};
ghost use Rattle.page.specs.Pens.{started, penned};
ghost use Rattle.page.specs.Lines.{space, decimal, ending, line, lines, members};
ghost use Rattle.page.specs.Leads.{led};

use rows::Row;

// What writes onto a lent buffer, byte after byte, at a place that never passes `most`: bytes past the buffer's end are counted and not stored.
#[derive(Drop)]
pub struct Pen<'a> {
    out: &'a mut [u8],
    most: usize,
    at: usize,
}

// One byte at a place, if that is in the buffer; the place after it, which never passes `most`.
fn put_at(out: &mut [u8], most: usize, at: usize, b: u8) -> usize
    ensures { page out.new result ≡ stamp most (page out.old at) b }
{
    if at < most {
        if at < out.len() {
            out[at] = b;
        }
        return at + 1;
    }
    at
}

// The bytes of a word from a place on; the place after them. A pen's own place would be read and written again for each byte.
fn put_word(out: &mut [u8], most: usize, at: usize, word: &[u8]) -> usize
    ensures { page out.new result ≡ write most (page out.old at) word.now }
{
    let mut next = at;
    for &b in word {
        next = put_at(out, most, next, b);
    }
    next
}

impl<'a> Pen<'a> {
    // A pen at the start of the buffer.
    pub fn new(out: &'a mut [u8], most: usize) -> Pen<'a>
        ensures { result ≡ started out.entry most }
    {
        Pen { out, most, at: 0 }
    }

    // How many bytes stand before its place.
    pub fn length(&self) -> usize
        ensures { result ≡ self.now.at }
    {
        self.at
    }

    // What stands before its place, as far as the buffer goes.
    pub fn written(&self) -> &[u8]
        ensures { result.now ≡ take self.now.at self.now.out.now }
    {
        &self.out[..self.at.min(self.out.len())]
    }

    // One byte, if its place is in the buffer.
    pub fn put_byte(&mut self, b: u8)
        ensures { self.new ≡ penned self.old (b ∷ []) }
    {
        self.at = put_at(self.out, self.most, self.at, b);
    }

    // The bytes of a word.
    pub fn put(&mut self, word: &[u8])
        ensures { self.new ≡ penned self.old word.now }
    {
        self.at = put_word(self.out, self.most, self.at, word);
    }

    // The decimal digits of a number, last first and then put as one word: that is faster than a call of the pen for each.
    pub fn put_number(&mut self, n: usize)
        ensures { self.new ≡ penned self.old (decimal n) }
    {
        let mut digits = [0u8; 20];
        let mut first = 20;
        let mut left = n;
        while 10 <= left {
            first -= 1;
            digits[first] = 48 + (left % 10) as u8;
            left /= 10;
        }
        self.put_byte(48 + left as u8);
        self.put(&digits[first..]);
    }

    // A number after a space.
    pub fn put_next(&mut self, n: usize)
        ensures { self.new ≡ penned self.old (space ∷ decimal n) }
    {
        self.put_byte(b' ');
        self.put_number(n);
    }

    // A line of a word and numbers, each after a space.
    pub fn line(&mut self, word: &[u8], numbers: &[usize])
        ensures { self.new ≡ penned self.old (line word.now numbers.now) }
    {
        self.put(word);
        self.end_line(numbers);
    }

    // The rest of a line: numbers, each after a space, and a newline.
    pub fn end_line(&mut self, numbers: &[usize])
        ensures { self.new ≡ penned self.old (ending numbers.now) }
    {
        for &n in numbers {
            self.put_next(n);
        }
        self.put_byte(b'\n');
    }

    // A line of a word, a first number, if there is one, and a last.
    fn led_line(&mut self, word: &[u8], first: Option<usize>, b: usize)
        ensures { self.new ≡ penned self.old (line word.now (led first b)) }
    {
        match first {
            None => self.line(word, &[b]),
            Some(a) => self.line(word, &[a, b]),
        }
    }

    // Such a line for each member of a row, lowest first.
    pub fn row_lines(&mut self, word: &[u8], first: Option<usize>, row: Row)
        ensures { self.new ≡ penned self.old (lines (λ b. line word.now (led first b)) (members size (has row))) }
    {
        for b in row {
            self.led_line(word, first, b);
        }
    }
}

// Offers a text: measured first, and written whole or not at all.
pub fn offer<F: Fn(&mut Pen)>(out: &mut [u8], text: F) -> Option<usize>
    requires { (p : MutBor Pen) → F.pre text p }
    ensures { (t : List ℕ) → ((p q : MutBor Pen) → F.post text p tt q → q.now ≡ penned p.now t) → Offered true t out.old out.new result }
{
    let most = out.len() + 1;
    let mut nowhere = [0u8; 0];
    let mut measure = Pen::new(&mut nowhere, most);
    text(&mut measure);
    let length = measure.length();
    if length == most {
        return None;
    }
    let mut pen = Pen::new(out, most);
    text(&mut pen);
    Some(length)
}
