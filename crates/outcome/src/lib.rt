// The answer of an export, and the tests that tell an option outside its range.
#![tactic(auto)]

ghost use Rattle.std.specs.Prelude.{◌≡◌};
ghost use Rattle.outcome.specs.Outcome.{answer_of, refusal_of, outside, too_long};

// The eight refusals of document 01, in the order of their numbers, with the place or the length
// that the paper returns with them.
#[derive(Clone, Copy, PartialEq, Eq)]
pub enum Refusal {
    ImageSize,
    OptionRange,
    SpanRange(usize),
    EmptyImage,
    AddressRange,
    SourceText,
    SpanFault(usize),
    NoRoom(usize),
}

// What an exporter answers: the length of the text, or a refusal. Each exporter tests its room and writes in
// three lines: a trait of a length and a text would say both once more as its laws, and be no plainer.
pub type Export = Result<usize, Refusal>;

// The paper's number and value of an answer.
#[derive(Clone, Copy)]
pub struct Answer {
    pub number: u32,
    pub value: usize,
}

impl From<Refusal> for Answer {
    ghost from_gives = { λ refusal a. (a.number ≡ (refusal_of refusal).number) × (a.value ≡ (refusal_of refusal).value) };

    fn from(refusal: Refusal) -> Answer {
        let (number, value) = match refusal {
            Refusal::ImageSize => (1, 0),
            Refusal::OptionRange => (2, 0),
            Refusal::SpanRange(place) => (3, place),
            Refusal::EmptyImage => (4, 0),
            Refusal::AddressRange => (5, 0),
            Refusal::SourceText => (6, 0),
            Refusal::SpanFault(place) => (7, place),
            Refusal::NoRoom(needed) => (8, needed),
        };
        Answer { number, value }
    }
}

// A text has the number 0 and its length.
impl From<Export> for Answer {
    ghost from_gives = { λ export a. (a.number ≡ (answer_of export).number) × (a.value ≡ (answer_of export).value) };

    fn from(export: Export) -> Answer {
        match export {
            Ok(length) => Answer {
                number: 0,
                value: length,
            },
            Err(refusal) => Answer::from(refusal),
        }
    }
}

// Whether an option is outside its range, the cause of refusal 2.
#[tactic(auto, unfolding(crate::specs::Outcome::outside))]
pub fn outside(low: usize, high: usize, option: usize) -> bool
    ensures { result ≡ outside low high option }
{
    !(low..=high).contains(&option)
}

// Whether a string is longer than 256 bytes, which is outside its range.
#[tactic(auto, unfolding(crate::specs::Outcome::too_long))]
pub fn too_long(s: &[u8]) -> bool
    ensures { result ≡ too_long s.now }
{
    256 < s.len()
}
