// A text that is written to the front of lent bytes.
ghost use Rattle.std.specs.Prelude.{◌≡◌, [], ◌∷◌, decimal};
ghost use Rattle.std.specs.Fmt.{signed_decimal};

// How many digits an unsigned number of 32 bits has at most.
const MOST_DIGITS: usize = 10;

// A text that is written byte by byte, as far as the lent bytes have room for it; the core allocates nothing.
#[derive(Drop)]
pub(crate) struct Text<'a> {
    out: &'a mut [u8],
    // how long the text is, with what found no room
    len: usize,
}

impl<'a> Text<'a> {
    ghost use Rattle.printer.specs.Writing.{Adds, state};

    // A text of no bytes.
    pub(crate) fn new(out: &'a mut [u8]) -> Text<'a>
        ensures none { state result ≡ (out.old, 0) }
        ensures same { result.out.ghost_name ≡ out.entry.ghost_name }
    {
        Text { out, len: 0 }
    }

    // How long it is.
    pub(crate) fn len(&self) -> usize
        ensures { result ≡ self.now.len }
    {
        self.len
    }

    // Adds a number as a numeral. By its contract the library's `write!` may fail, which a print never does.
    pub(crate) fn put_numeral(&mut self, k: i32)
        ensures { Adds self.old (signed_decimal k) self.new }
    {
        if k < 0 {
            self.put(b'-');
        }
        self.put_decimal(k.unsigned_abs());
    }

    // Adds a number's digits, set from behind. A recursion that adds them from the front takes half as much time again.
    pub(crate) fn put_decimal(&mut self, n: u32)
        ensures { Adds self.old (decimal n) self.new }
    {
        let mut digits = [0u8; MOST_DIGITS];
        let mut first = MOST_DIGITS - 1;
        let mut front = n;
        while front >= 10 {
            digits[first] = b'0' + (front % 10) as u8;
            first -= 1;
            front /= 10;
        }
        digits[first] = b'0' + front as u8;
        self.put_all(&digits[first..]);
    }

    // Adds some bytes. Where no room is left they are only counted, so that measuring a text takes no walk over its bytes.
    pub(crate) fn put_all(&mut self, bytes: &[u8])
        ensures { Adds self.old bytes.now self.new }
    {
        if self.len >= self.out.len() {
            self.len = self.len.saturating_add(bytes.len());
            return;
        }
        for byte in bytes {
            self.put(*byte);
        }
    }

    // Adds a byte, at its place if that is there.
    pub(crate) fn put(&mut self, byte: u8)
        ensures { Adds self.old (byte ∷ []) self.new }
    {
        if self.len < self.out.len() {
            self.out[self.len] = byte;
            self.len += 1;
        } else {
            self.len = self.len.saturating_add(1);
        }
    }
}
