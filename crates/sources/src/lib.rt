// The two source texts that a listing shows parts of: the firmware's, which is file 0, and the
// protocol's, which is file 1.
#![tactic(auto)]

ghost use Rattle.std.specs.Prelude.{◌≡◌, ◌≤◌, length};
ghost use Rattle.sources.specs.Sources.{source, excerpt_of, bad_text};

// The start, and the end, that say that a span has no location: a number, since the C interface lends
// it.
pub const NO_LOCATION: u64 = u64::MAX;

// The two source texts as they are lent.
#[derive(Clone, Copy)]
pub struct Sources<'a> {
    pub firmware: &'a [u8],
    pub protocol: &'a [u8],
}

impl<'a> Sources<'a> {
    // The text of a file. It is given by its number, as document 01 says.
    #[tactic(auto, unfolding(crate::specs::Sources::source))]
    fn text(self, file: u8) -> &'a [u8]
        ensures { result.now ≡ source self.entry.firmware.now self.entry.protocol.now file }
    {
        if file == 0 {
            self.firmware
        } else {
            self.protocol
        }
    }

    // The excerpt of a text from `start` to `end`, a part of the lent text itself.
    #[tactic(auto, unfolding(crate::specs::Sources::excerpt_of))]
    pub fn excerpt(self, file: u8, start: usize, end: usize) -> &'a [u8]
        requires { (start ≤ end) × (end ≤ length (source self.firmware.now self.protocol.now file)) }
        ensures { result.now ≡ excerpt_of self.entry.firmware.now self.entry.protocol.now file start end }
    {
        &self.text(file)[start..end]
    }

    // The length of the text of a file.
    pub fn source_length(self, file: u8) -> usize
        ensures { result ≡ length (source self.entry.firmware.now self.entry.protocol.now file) }
    {
        self.text(file).len()
    }
}

// Whether a text is too long or not ASCII, the cause of refusal 6.
#[tactic(auto, unfolding(crate::specs::Sources::bad_text))]
pub fn bad_text(text: &[u8]) -> bool
    ensures { result ≡ bad_text text.now }
{
    if 1048576 < text.len() {
        return true;
    }
    !text.is_ascii()
}
