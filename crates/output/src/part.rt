// A short text, stored by few stores.

ghost use Rattle.std.specs.Prelude.{◌≡◌, ◌+◌, ◌≤◌, length};
ghost use Rattle.output.specs.Writes.{Writes};

// Stores a part of `N` characters. They are copied into an array first, since a load and a store of
// all at once can only be made where nothing else is stored between.
#[tactic(auto, using(crate::proofs::Parts::writes_copied))]
fn put_fixed<const N: usize>(out: &mut [u8], at: usize, part: &[u8]) -> usize
    requires { (length part.now ≡ N) × (at + N ≤ length out.old) }
    ensures { Writes part.now out.old at out.new result }
{
    let mut copied = [0; N];
    copied.copy_from_slice(part);
    crate::put_all(out, at, &copied)
}

// Stores a part of `N` to twice as many characters, as two stores of `N` that may overlap.
fn put_overlapping<const N: usize>(out: &mut [u8], at: usize, part: &[u8]) -> usize
    requires size { (N ≤ length part.now) × (length part.now ≤ N + N) }
    requires room { at + length part.now ≤ length out.old }
    ensures { Writes part.now out.old at out.new result }
{
    let behind = part.len() - N;
    put_fixed::<N>(out, at, &part[..N]);
    put_fixed::<N>(out, at + behind, &part[behind..])
}

// Stores a part. One of up to 64 characters is one store or two, whose size goes by the part's: a copy of the
// part's length is a call, and a loop, tried for separators of 16 characters, made the list 1.4 times as slow.
pub fn put_part(out: &mut [u8], at: usize, part: &[u8]) -> usize
    requires { at + length part.now ≤ length out.old }
    ensures { Writes part.now out.old at out.new result }
{
    match part.len() {
        1 => crate::put(out, at, part[0]),
        2 => put_fixed::<2>(out, at, part),
        3 => put_overlapping::<2>(out, at, part),
        4..=7 => put_overlapping::<4>(out, at, part),
        8..=16 => put_overlapping::<8>(out, at, part),
        17..=32 => put_overlapping::<16>(out, at, part),
        33..=64 => put_overlapping::<32>(out, at, part),
        _ => crate::put_all(out, at, part),
    }
}
