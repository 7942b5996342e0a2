// Digits in groups, lines or chunks: the digits of many groups are made at once, and each group is handed
// to a writer, which stores it with what stands around it.
#![tactic(auto)]

ghost use Rattle.std.specs.Prelude.{◌≡◌, List, ℕ, ◌+◌, ◌*◌, ◌%◌, ◌≤◌, ◌<◌, ◌^◌, length};
ghost use Rattle.output.specs.Writes.{Writes};
ghost use Rattle.digit_groups.specs.InnerGroups.{groups_from, groups_text};

pub use groups::DigitGroups;
pub use output::put_part;

mod groups;

// What writes a group.
pub trait PutGroup {
    // After how many groups the turn of a group begins anew.
    ghost every: { Self → ℕ };
    // The text of a group, by its number and its digits.
    ghost text: { Self → ℕ → List ℕ → List ℕ };

    fn every(&self) -> usize
        ensures { (result ≡ every self.now) × (0 < result) };

    // Stores group `k`. Its turn is k modulo `every`: it is counted, so that no division is made for a
    // group.
    fn put_group(&self, out: &mut [u8], at: usize, k: usize, turn: usize, digits: &[u8]) -> usize
        requires { (k < 2 ^ 32) × (turn ≡ k % every self.now) × (at + length (text self.now k digits.now) ≤ length out.old) }
        ensures { Writes (text self.now k digits.now) out.old at out.new result };
}

// The turn behind a turn.
fn next_turn(turn: usize, every: usize) -> usize
    requires { turn < every }
    ensures { result ≡ (turn + 1) % every }
{
    let next = turn + 1;
    if next == every {
        return 0;
    }
    next
}

impl<'a> DigitGroups<'a> {
    // How many groups have their digits made at once: eight or a multiple where they have places, so
    // that the digits of the next ones start with a byte if these do.
    fn at_once(self) -> usize
        ensures { (0 < result) × (result * self.entry.size ≤ 1024) }
    {
        let most = 1024 / self.size;
        if most < 8 {
            return most;
        }
        most - most % 8
    }
}

// Stores `count` groups from group `first` on, whose digits have places in one array.
fn put_some<W: PutGroup>(
    out: &mut [u8],
    at: usize,
    groups: DigitGroups,
    writer: &W,
    first: usize,
    count: usize,
) -> usize
    requires small { (count * groups.size ≤ 1024) × (first + count ≤ 2 ^ 32) × (groups.from.0 + (first + count) * (groups.size * groups.width.bits) < 2 ^ 64) }
    requires room { at + length (groups_from (W.text writer.now) groups first count) ≤ length out.old }
    ensures { Writes (groups_from (W.text writer.now) groups.entry first count) out.old at out.new result }
{
    let DigitGroups {
        image,
        width,
        size,
        ..
    } = groups;
    let from = groups.from.plus(first * (size * width.bits));
    let mut digits = [0; 1024];
    digits::put_run(&mut digits, 0, image, width, from, count * size);
    let every = writer.every();
    let mut turn = first % every;
    let mut next = at;
    for j in 0..count {
        let group = &digits[j * size..j * size + size];
        next = writer.put_group(out, next, first + j, turn, group);
        turn = next_turn(turn, every);
    }
    next
}

// Stores `count` groups.
pub fn put_groups<W: PutGroup>(
    out: &mut [u8],
    at: usize,
    groups: DigitGroups,
    writer: &W,
    count: usize,
) -> usize
    requires small { (count ≤ 2 ^ 32) × (groups.from.0 + count * (groups.size * groups.width.bits) < 2 ^ 64) }
    requires room { at + length (groups_text (W.text writer.now) groups count) ≤ length out.old }
    ensures { Writes (groups_text (W.text writer.now) groups.entry count) out.old at out.new result }
{
    let most = groups.at_once();
    let mut next = at;
    // The first of the groups that are made at once is computed with.
    for k in (0..count).step_by(most) {
        next = put_some(out, next, groups, writer, k, most.min(count - k));
    }
    next
}
