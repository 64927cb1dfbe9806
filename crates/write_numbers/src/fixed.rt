// Big-endian numbers of one, two and four bytes, put at an index of an output; what would lie past the end is not stored.
ghost use Rattle.std.specs.Prelude.{◌≡◌, ℕ};
ghost use Rattle.std.proofs.lemmas.List.Edits.{sets};
ghost use Rattle.grammar.specs.Tables.{Form, u8, u16, u32};
ghost use Rattle.writing.specs.Spell.{wide, numeral};
ghost use Rattle.write_numbers.specs.Fixed.{FixedLaws, u8_laws, u16_laws, u32_laws};

// A number of a fixed width: the form of its row, how many bytes it has, and what it is. Two and four bytes are put as halves, of another type each.
pub trait Fixed: Copy {
    ghost form: { Form };

    ghost WIDTH: { ℕ };

    ghost value: { Self → ℕ };

    const WIDTH: usize;

    // The bytes of the number, big-endian, from index `at` on; nothing is stored past the end. Each width by itself: `to_be_bytes` with `put_bytes`
    // takes 38 instructions where two stores take 11.
    fn put(self, out: &mut [u8], at: usize)
        ensures stores { out.new ≡ sets out.old at (wide WIDTH (value self)) }
        ensures row { numeral form (value self) ≡ wide WIDTH (value self) };

    // What each `impl` must prove.
    ghost laws: { FixedLaws form WIDTH };
}

impl Fixed for u8 {
    ghost form = { u8 };

    ghost WIDTH = { 1 };

    ghost value = { λ n. n };

    ghost laws = { u8_laws };

    const WIDTH: usize = 1;

    fn put(self, out: &mut [u8], at: usize) {
        if at < out.len() {
            out[at] = self;
        }
    }
}

impl Fixed for u16 {
    ghost form = { u16 };

    ghost WIDTH = { 2 };

    ghost value = { λ n. n };

    ghost laws = { u16_laws };

    const WIDTH: usize = 2;

    fn put(self, out: &mut [u8], at: usize) {
        if at < out.len() {
            let high = (self / 256) as u8;
            let low = (self % 256) as u8;
            high.put(&mut *out, at);
            low.put(&mut *out, at + 1);
        }
    }
}

impl Fixed for u32 {
    ghost form = { u32 };

    ghost WIDTH = { 4 };

    ghost value = { λ n. n };

    ghost laws = { u32_laws };

    const WIDTH: usize = 4;

    fn put(self, out: &mut [u8], at: usize) {
        if at < out.len() {
            let high = (self / 65536) as u16;
            let low = (self % 65536) as u16;
            high.put(&mut *out, at);
            low.put(&mut *out, at + 2);
        }
    }
}
