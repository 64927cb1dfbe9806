// The fixed header and the kind that it names, after `FixedHeader` of v5/mod.rs. Any three numbers may be handed over as a header.
ghost use Rattle.std.specs.Prelude.{◌≡◌, ◌+◌, min};
ghost use Rattle.grammar.specs.Record.{kind_of};
ghost use Rattle.kinds.specs.Kinds.{told_kind, kind_row};

use kinds::{Kind, kind_of};

#[derive(Clone, Copy)]
pub struct FixedHeader {
    // kind in the high four bits, flags in the low
    pub byte1: u8,
    // the first byte and those of R: where the R bytes start
    pub fixed_header_len: usize,
    // R
    pub remaining_len: usize,
}

impl FixedHeader {
    // The kind that the high four bits of the first byte name.
    pub fn packet_type(self) -> Kind
        ensures { told_kind result ≡ kind_row (kind_of self.byte1) }
    {
        kind_of(self.byte1 / 16)
    }

    // How many bytes the frame has; the largest usize where the sum is above it, which no header of a stream is.
    pub fn frame_length(self) -> usize
        ensures { result ≡ min (self.fixed_header_len + self.remaining_len) 18446744073709551615 }
    {
        let most: usize = 18446744073709551615;
        if self.remaining_len <= most - self.fixed_header_len {
            self.fixed_header_len + self.remaining_len
        } else {
            most
        }
    }
}
