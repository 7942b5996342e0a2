// The output buffer and what is written into it. A writer stores from `at` on and answers the place
// behind what it wrote; its caller has shown that there is room. The buffer and the place are two
// parameters, since a struct of both behind a `&mut` was tried: each store then goes through memory,
// and a loop takes ten times as long where it is not copied into its caller.
#![tactic(auto)]

ghost use Rattle.std.specs.Prelude.{◌≡◌, [], ◌∷◌, ◌+◌, ◌-◌, ◌*◌, ◌/◌, ◌≤◌, ◌<◌, ◌^◌, length, replicate};
ghost use Rattle.output.specs.Pieces.{leading, every};
ghost use Rattle.output.specs.Writes.{Writes};

mod part;

pub use part::put_part;

// Stores one byte.
pub fn put(out: &mut [u8], at: usize, byte: u8) -> usize
    requires { at < length out.old }
    ensures { Writes (byte ∷ []) out.old at out.new result }
{
    out[at] = byte;
    at + 1
}

// Stores all of `s`. The compiler makes vector code of the loop: `copy_from_slice` is a `memmove`, a name more
// that the archive for C would need from outside.
pub fn put_all(out: &mut [u8], at: usize, s: &[u8]) -> usize
    requires { at + length s.now ≤ length out.old }
    ensures { Writes s.now out.old at out.new result }
{
    let mut next = at;
    for &byte in s {
        next = put(out, next, byte);
    }
    next
}

// Stores all of `s` too, which is seldom long: a string between items. It stands beside `put_all`, which is a
// loop alone.
pub fn put_text(out: &mut [u8], at: usize, s: &[u8]) -> usize
    requires { at + length s.now ≤ length out.old }
    ensures { Writes s.now out.old at out.new result }
{
    put_part(out, at, s)
}

// Stores `count` times one byte.
#[tactic(auto, using(crate::proofs::Writes::part_same))]
pub fn put_fill(out: &mut [u8], at: usize, byte: u8, count: usize) -> usize
    requires { at + count ≤ length out.old }
    ensures { Writes (replicate count byte) out.old at out.new result }
{
    let end = at + count;
    out[at..end].fill(byte);
    end
}

// Stores `byte` where `n` divides `k`, and nothing where not. Here and below `n` is no `NonZero`: it
// is a plain number at its callers, 1, 4 and 16 at most of them, and each would have to be made one.
#[tactic(auto, using(crate::proofs::Writes::writes_nothing), unfolding(crate::specs::Pieces::every))]
pub fn put_every(out: &mut [u8], at: usize, n: usize, k: usize, byte: u8) -> usize
    requires { (0 < n) × (at + length (every n k (byte ∷ [])) ≤ length out.old) }
    ensures { Writes (every n k (byte ∷ [])) out.old at out.new result }
{
    if k % n != 0 {
        return at;
    }
    put(out, at, byte)
}

// Stores `byte` between items, before item `k`: where `n` divides `k`, and not before the first.
#[tactic(auto, using(crate::proofs::Writes::writes_nothing), unfolding(crate::specs::Pieces::leading))]
pub fn put_between(out: &mut [u8], at: usize, n: usize, k: usize, byte: u8) -> usize
    requires { (0 < n) × (at + length (leading (λ j. every n j (byte ∷ [])) k) ≤ length out.old) }
    ensures { Writes (leading (λ j. every n j (byte ∷ [])) k) out.old at out.new result }
{
    if k == 0 {
        return at;
    }
    put_every(out, at, n, k, byte)
}

// How long the texts between `count` items are together: the text before item k has the length
// `whole` where `n` divides k, and `other` where not.
#[tactic(auto, using(crate::proofs::Joined::between_few))]
pub fn between_length(count: usize, n: usize, whole: usize, other: usize) -> usize
    requires { (0 < n) × (count < 2 ^ 32) × (whole < 2 ^ 31) × (other < 2 ^ 31) }
    ensures { result ≡ (count - 1) / n * whole + ((count - 1) - (count - 1) / n) * other }
{
    let gaps = count.saturating_sub(1);
    let wholes = gaps / n;
    wholes * whole + (gaps - wholes) * other
}
