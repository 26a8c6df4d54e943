// The decimal text of counts and of signed numbers, and bytes put into a lent buffer: all of a text from a place on, or nothing.
#![tactic(auto)]

ghost use Rattle.std.specs.Prelude.{◌≡◌, ◌≢◌, ℕ, List, [], ◌∷◌, ◌++◌, ◌+◌, ◌≤◌, length};
ghost use Rattle.decimal.specs.Decimal.{most_digits, count_text, signed_text};
ghost use Rattle.decimal.specs.Put.{put_at, after_put};
ghost use Rattle.decimal.specs.Places.{Puts};

// What has a text: bytes, a count, a signed number.
pub trait Text: Copy {
    ghost text: { Self → List ℕ };

    // How many bytes the text has.
    fn size(self) -> usize
        ensures value { result ≡ length (text self) };

    // Writes the text over a part of its size; a part of another size stays as it was.
    fn write(self, part: &mut [u8])
        ensures whole { length part.old ≡ length (text self) → part.new ≡ text self }
        ensures kept { length part.old ≢ length (text self) → part.new ≡ part.old };
}

impl Text for &[u8] {
    ghost text = { λ bytes. bytes.now };

    fn size(self) -> usize {
        self.len()
    }

    // Byte by byte: `copy_from_slice` would want memmove of the firmware, which the archive does not ask for.
    fn write(self, part: &mut [u8]) {
        if part.len() == self.len() {
            for i in 0..self.len() {
                part[i] = self[i];
            }
        }
    }
}

impl Text for u32 {
    ghost text = { count_text };

    fn size(self) -> usize
        ensures value { result ≡ length (count_text self) }
        ensures upper_bound { result ≤ most_digits }
    {
        self.checked_ilog10().unwrap_or(0) as usize + 1
    }

    // The last digit first. By hand: the crate `itoa` states its bytes by a word of its own, and they would have to be copied here besides.
    fn write(self, part: &mut [u8]) {
        if part.len() != self.size() {
            return;
        }
        let mut rest = self;
        for place in (0..part.len()).rev() {
            part[place] = b'0' + (rest % 10) as u8;
            rest /= 10;
        }
    }
}

impl Text for i32 {
    ghost text = { signed_text };

    fn size(self) -> usize
        ensures value { result ≡ length (signed_text self) }
        ensures upper_bound { result ≤ most_digits + 1 }
    {
        let digits = self.unsigned_abs().size();
        if self < 0 { digits + 1 } else { digits }
    }

    fn write(self, part: &mut [u8]) {
        if part.len() != self.size() {
            return;
        }
        let magnitude = self.unsigned_abs();
        if self < 0 {
            part[0] = b'-';
            magnitude.write(&mut part[1..]);
        } else {
            magnitude.write(part);
        }
    }
}

// A place in a lent buffer, where the next text is put.
#[derive(Drop)]
pub struct Place<'a> {
    pub buffer: &'a mut [u8],
    pub at: usize,
}

impl<'a> Place<'a> {
    // The buffer's start.
    pub fn start(buffer: &'a mut [u8]) -> Place<'a>
        ensures value { result.at ≡ 0 }
        ensures buffer_same { result.buffer.now ≡ buffer.old }
        ensures reference_same { result.buffer.ghost_name ≡ buffer.entry.ghost_name }
    {
        Place { buffer, at: 0 }
    }

    // Puts a text at the place, and goes behind it; without room for all of it it puts nothing and stays.
    pub fn put<T: Text>(&mut self, text: T)
        ensures { Puts self.old self.new (T.text text) }
    {
        let size = text.size();
        let at = self.at;
        let room = self.buffer.len();
        if at <= room && size <= room - at {
            let end = at + size;
            text.write(&mut self.buffer[at..end]);
            self.at = end;
        }
    }

    // The same of a text and the byte that ends it, which are no Text together: the size of any text and one more may not fit.
    pub fn put_ended<T: Text>(&mut self, text: T, end: u8)
        ensures { Puts self.old self.new (T.text text ++ (end ∷ [])) }
    {
        let size = text.size();
        let at = self.at;
        let room = self.buffer.len();
        if at <= room && size < room - at {
            self.put(text);
            self.buffer[self.at] = end;
            self.at += 1;
        }
    }
}
