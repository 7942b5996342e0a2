// Digits in groups with strings between them (document 01, module 4; the Rust's `format_list`). It
// answers a text and its length, or refusal 1, 2 or 8.
#![tactic(auto)]

ghost use Rattle.std.specs.Prelude.{◌≡◌, true, false, cond, eqb, MatchOption, ◌||◌, ◌++◌, ◌+◌, ◌*◌, ◌%◌, ◌≤◌, ◌<◌, ◌^◌, length};
ghost use Rattle.bitvec.specs.Size.{ceil_div};
ghost use Rattle.output.specs.Pieces.{pieces, leading};
ghost use Rattle.output.specs.Writes.{Writes};
ghost use Rattle.outcome.specs.Outcome.{too_long, Exports};
ghost use Rattle.digits.specs.Bytes.{base_bits};
ghost use Rattle.format_list.specs.List.{group_bits, list_outcome};
ghost use Rattle.format_list.specs.InnerGroups.{bad_given, every_of, between_of, list_of};

use bitvec::{BitOffset, Image};
use digit_groups::{DigitGroups, PutGroup};
use outcome::{Export, Refusal};
use shape::{ListGroups, ListOptions};

mod shape;

// The options of a list but its strings.
#[derive(Clone, Copy)]
pub struct FormatListOptions {
    pub base: usize,
    pub digits_per_group: usize,
    pub groups_per_group2: usize,
}

// The strings of a list: before and after it, between its groups, and the second one between them.
#[derive(Clone, Copy)]
pub struct ListStrings<'a> {
    pub before: &'a [u8],
    pub after: &'a [u8],
    pub between: &'a [u8],
    pub between2: &'a [u8],
}

impl<'a> ListStrings<'a> {
    // Whether one of them is too long.
    fn too_long(self) -> bool
        ensures { result ≡ too_long self.entry.before.now || (too_long self.entry.after.now || (too_long self.entry.between.now || too_long self.entry.between2.now)) }
    {
        outcome::too_long(self.before)
            || outcome::too_long(self.after)
            || outcome::too_long(self.between)
            || outcome::too_long(self.between2)
    }
}

// Whether an option but the base is outside its range, or the second string is there and has no place.
#[tactic(auto, unfolding(crate::specs::List::bad_list))]
fn bad_list(options: FormatListOptions, strings: ListStrings) -> bool
    requires { 0 < base_bits options.base }
    ensures { result ≡ bad_given options strings.entry }
{
    outcome::outside(1, 64, options.digits_per_group)
        || 65535 < options.groups_per_group2
        || !strings.between2.is_empty() && options.groups_per_group2 == 0
        || strings.too_long()
}

impl<'a> ListOptions<'a> {
    // The options and strings, or none where one of them is outside its range, the cause of refusal 2.
    #[tactic(auto, using(crate::proofs::Ranges::no_base, crate::proofs::Ranges::digits_inside, crate::proofs::Ranges::placed, crate::proofs::Ranges::outer_short, crate::proofs::Ranges::inner_short))]
    fn new(options: FormatListOptions, strings: ListStrings<'a>) -> Option<ListOptions<'a>>
        ensures { MatchOption result (bad_given options strings.entry ≡ true) (λ o. (bad_given options strings.entry ≡ false) × (o.given ≡ options) × (o.strings ≡ strings.entry)) }
    {
        let width = digits::base_bits(options.base)?;
        if bad_list(options, strings) {
            return None;
        }
        Some(ListOptions {
            given: options,
            strings,
            width,
        })
    }

    // What stands before each group whose number `every` divides: the second string, or the first where
    // there is none.
    fn second(&self) -> &'a [u8]
        ensures { result.now ≡ cond (eqb (length self.now.strings.between2.now) 0) self.now.strings.between.now self.now.strings.between2.now }
    {
        if self.strings.between2.is_empty() {
            return self.strings.between;
        }
        self.strings.between2
    }

    // What stands before group `k`, whose turn is k modulo `every`.
    #[tactic(auto, using(crate::proofs::Strings::between_either), unfolding(output::specs::Pieces::leading))]
    fn string_before(&self, k: usize, turn: usize) -> &'a [u8]
        requires { turn ≡ k % every_of self.now }
        ensures { result.now ≡ leading (between_of self.now) k }
    {
        if k == 0 {
            return b"";
        }
        if turn == 0 {
            return self.second();
        }
        self.strings.between
    }

    // The length of the strings between `count` groups.
    fn gaps_length(self, count: usize) -> usize
        requires { count < 2 ^ 32 }
        ensures { (result ≡ length (pieces (leading (between_of self.entry)) count)) × (result < 2 ^ 60) }
    {
        let one = self.strings.between.len();
        output::between_length(count, self.every(), self.second().len(), one)
    }
}

// A group is the string before it, but before the first, and its digits.
impl<'a> PutGroup for ListOptions<'a> {
    ghost every = { every_of };

    ghost text = { λ o k digits. leading (between_of o) k ++ digits };

    fn every(&self) -> usize {
        if self.strings.between2.is_empty() {
            return 1;
        }
        self.given.groups_per_group2
    }

    fn put_group(&self, out: &mut [u8], at: usize, k: usize, turn: usize, digits: &[u8]) -> usize {
        let next = output::put_text(out, at, self.string_before(k, turn));
        digit_groups::put_part(out, next, digits)
    }
}

impl<'a> ListGroups<'a> {
    // How many groups hold the image.
    fn count(self) -> usize
        ensures { (result ≡ ceil_div self.entry.good.image.len (group_bits self.entry.options.given)) × (result ≤ 16777216) }
    {
        let size = self.options.given.digits_per_group * self.options.width.bits;
        bitvec::parts(self.good.image.len, size)
    }

    // The length of the list.
    fn length(self) -> usize
        ensures { result ≡ length (list_of self.entry) }
    {
        let count = self.count();
        let strings = self.options.strings;
        let gaps = self.options.gaps_length(count);
        let groups = gaps + count * self.options.given.digits_per_group;
        strings.before.len() + groups + strings.after.len()
    }

    // Stores the list.
    fn write(self, out: &mut [u8]) -> usize
        requires { length (list_of self) ≤ length out.old }
        ensures { Writes (list_of self.entry) out.old 0 out.new result }
    {
        let strings = self.options.strings;
        let groups = DigitGroups {
            image: self.good.image,
            width: self.options.width,
            from: BitOffset(0),
            size: self.options.given.digits_per_group,
        };
        let mut next = output::put_all(out, 0, strings.before);
        next = digit_groups::put_groups(out, next, groups, &self.options, self.count());
        output::put_all(out, next, strings.after)
    }
}

// Digits in a base of 2, 4, 8, 16 or 32, 1 to 64 of them a group, with strings of at most 256 bytes
// before, after and between the groups.
#[tactic(auto, using(outcome::proofs::Outcome::exports_text, outcome::proofs::Outcome::exports_no_room), unfolding(crate::specs::List::list_outcome))]
pub fn format_list(
    image: Image,
    options: FormatListOptions,
    strings: ListStrings,
    out: &mut [u8],
) -> Export
    ensures { Exports (list_outcome image.entry.bytes.now image.entry.len options strings.entry.before.now strings.entry.after.now strings.entry.between.now strings.entry.between2.now (length out.old)) result out.old out.new }
{
    let good = image.good().ok_or(Refusal::ImageSize)?;
    let options = ListOptions::new(options, strings).ok_or(Refusal::OptionRange)?;
    let list = ListGroups { good, options };
    let needed = list.length();
    if out.len() < needed {
        return Err(Refusal::NoRoom(needed));
    }
    Ok(list.write(out))
}
