// Numbers stored into a lent array.
ghost use Rattle.std.specs.Prelude.{◌≡◌};
ghost use Rattle.std.proofs.lemmas.List.Edits.{sets};

// From index 0 on; what would lie past the end is not stored.
pub fn store(out: &mut [u64], xs: &[u64])
    ensures { out.new ≡ sets out.old 0 xs.now }
{
    let n = out.len().min(xs.len());
    out[..n].copy_from_slice(&xs[..n]);
}
