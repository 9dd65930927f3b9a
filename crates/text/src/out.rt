// Bytes put into lent ones, from a place on; those that don't fit are left out.
//
// The place stands beside the bytes, and is no part of a slice of them: it may lie past their end. What is lent is a slice: the library has no heap.
ghost use Rattle.std.specs.Prelude.{◌+◌, ◌≤◌, ◌≡◌, [], ◌∷◌, length, set};
ghost use Rattle.std.proofs.lemmas.List.Edits.{sets};
ghost use Rattle.text.specs.Put.{Put};

// Puts one byte at place k, where out has such a place.
fn store(out: &mut [u8], k: usize, b: u8)
    ensures { out.new ≡ set out.old k b }
{
    if k < out.len() {
        out[k] = b;
    }
}

// Puts one byte; the place after it.
pub(crate) fn put_byte(out: &mut [u8], at: usize, b: u8) -> usize
    requires { at ≤ 0xffff_ffff }
    ensures put { Put out.old at (b ∷ []) result out.new }
    ensures upper_bound { result ≤ at + 1 }
{
    store(out, at, b);
    at + 1
}

// Puts part into out from at on, where it fits. A loop, since most parts are short, and the library's copy is a call out of the archive.
fn put_whole(out: &mut [u8], at: usize, part: &[u8])
    requires { at + length part.now ≤ length out.old }
    ensures { out.new ≡ sets out.old at part.now }
{
    for i in 0..part.len() {
        out[at + i] = part[i];
    }
}

// Puts as much of part into out from at on as out has room for.
fn put_some(out: &mut [u8], at: usize, part: &[u8])
    requires { length out.old ≤ at + length part.now }
    ensures { out.new ≡ sets out.old at part.now }
{
    if at < out.len() {
        let room = out.len() - at;
        put_whole(out, at, &part[..room]);
    }
}

// Puts part into out from at on, as far as out reaches; the place after it.
pub fn put_bytes(out: &mut [u8], at: usize, part: &[u8]) -> usize
    requires { at ≤ 0xffff_ffff }
    ensures { Put out.old at part.now result out.new }
{
    let end = at + part.len();
    if out.len() < end {
        put_some(out, at, part);
        return end;
    }
    put_whole(out, at, part);
    end
}
