// PingReq and PingResp: their size, and written.
ghost use Rattle.std.specs.Prelude.{◌≡◌, length, ℕ};
ghost use Rattle.std.proofs.lemmas.List.Edits.{sets};
ghost use Rattle.writing.specs.Handed.{ping};
ghost use Rattle.writing.specs.Write.{size_of, answer_of, out_of};
ghost use Rattle.c_layout.specs.Value.{fit_number};
ghost use Rattle.c_layout.specs.Answer.{answer_numbers};
ghost use Rattle.c_arguments.specs.Given.{limit_given};

use c_arguments::number::bound;
use c_layout::answer::{store_size, store_written};

// The size of either ping: 0, and 2 is stored.
pub fn ecch_ping_size(answer: &mut [u64]) -> u32
    ensures { (k : ℕ) → (result ≡ fit_number (size_of (ping k))) × (answer.new ≡ sets answer.old 0 (answer_numbers (size_of (ping k)))) }
{
    let size = ping::ping_size();
    store_size(size, &mut *answer)
}

// A PingReq written: 0, or the refusal's number.
pub fn ecch_pingreq_write(limited: u8, limit: usize, out: &mut [u8], answer: &mut [u64]) -> u32
    ensures number { result ≡ fit_number (answer_of (limit_given limited limit) (length out.old) (ping 12)) }
    ensures output { out.new ≡ out_of (limit_given limited limit) out.old (ping 12) }
    ensures stored { answer.new ≡ sets answer.old 0 (answer_numbers (answer_of (limit_given limited limit) (length out.old) (ping 12))) }
{
    let written = ping::write_ping_req(bound(limited, limit), &mut *out);
    store_written(written, &mut *answer)
}

// A PingResp written: 0, or the refusal's number.
pub fn ecch_pingresp_write(limited: u8, limit: usize, out: &mut [u8], answer: &mut [u64]) -> u32
    ensures number { result ≡ fit_number (answer_of (limit_given limited limit) (length out.old) (ping 13)) }
    ensures output { out.new ≡ out_of (limit_given limited limit) out.old (ping 13) }
    ensures stored { answer.new ≡ sets answer.old 0 (answer_numbers (answer_of (limit_given limited limit) (length out.old) (ping 13))) }
{
    let written = ping::write_ping_resp(bound(limited, limit), &mut *out);
    store_written(written, &mut *answer)
}
