// Words, numbers, fields and lines written into a buffer of bytes.
ghost use Rattle.std.specs.Prelude.{◌≡◌, ◌+◌, ◌%◌, length};
ghost use Rattle.text.specs.Writing.{decimal, field_of, fields_of, laid_out, Room, Writes};

fn digit(n: u64) -> u8
    ensures { result ≡ 48 + n % 10 }
{
    b'0' + (n % 10) as u8
}

fn digit_count(n: u64) -> usize
    ensures { result ≡ length (decimal n) }
{
    match n.checked_ilog10() {
        None => 1,
        Some(tens) => tens as usize + 1,
    }
}

// A buffer of bytes, and the place from which it is written on.
#[derive(Drop)]
pub struct Writer<'a> {
    pub out: &'a mut [u8],
    pub at: usize,
}

// `same_buffer` stands in each contract: it is said of a `&mut` before and after a call, which no invariant of one value can say.
impl<'a> Writer<'a> {
    // Writes n in decimal, its last digit first.
    pub fn decimal(&mut self, n: u64)
        requires { Room self.old (decimal n) }
        ensures same_buffer { self.new.out.ghost_name ≡ self.old.out.ghost_name }
        ensures bytes { Writes self.old (decimal n) self.new }
    {
        let end = self.at + digit_count(n);
        let mut rest = n;
        // By its place: of the cells that `iter_mut` lends under `rev` a proof does not know what was written.
        for p in (self.at..end).rev() {
            self.out[p] = digit(rest);
            rest /= 10;
        }
        self.at = end;
    }

    pub fn word(&mut self, w: &[u8])
        requires { Room self.old w.now }
        ensures same_buffer { self.new.out.ghost_name ≡ self.old.out.ghost_name }
        ensures bytes { Writes self.old w.now self.new }
    {
        let end = self.at + w.len();
        self.out[self.at..end].copy_from_slice(w);
        self.at = end;
    }

    // Writes a field: a tab and a number.
    pub fn field(&mut self, n: u64)
        requires { Room self.old (field_of n) }
        ensures same_buffer { self.new.out.ghost_name ≡ self.old.out.ghost_name }
        ensures bytes { Writes self.old (field_of n) self.new }
    {
        self.word(b"\t");
        self.decimal(n);
    }

    // Writes fields, one after the other.
    pub fn fields(&mut self, numbers: &[u64])
        requires { Room self.old (fields_of numbers.now) }
        ensures same_buffer { self.new.out.ghost_name ≡ self.old.out.ghost_name }
        ensures bytes { Writes self.old (fields_of numbers.now) self.new }
    {
        for n in numbers {
            self.field(*n);
        }
    }

    // Writes a line: its word, its numbers, and LF.
    pub fn line(&mut self, w: &[u8], numbers: &[u64])
        requires { Room self.old (laid_out w.now numbers.now) }
        ensures same_buffer { self.new.out.ghost_name ≡ self.old.out.ghost_name }
        ensures bytes { Writes self.old (laid_out w.now numbers.now) self.new }
    {
        self.word(w);
        self.fields(numbers);
        self.word(b"\n");
    }
}
