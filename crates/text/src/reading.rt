// A word at the front of bytes.
ghost use Rattle.std.specs.Prelude.{◌≡◌};
ghost use Rattle.text.specs.Reading.{word, reads, rest};

// The bytes after the word, where they begin with it.
pub fn word<'a>(s: &'a [u8], w: &[u8]) -> Option<&'a [u8]>
    ensures { rest result ≡ reads (word w.now) s.now }
{
    s.strip_prefix(w)
}
