// A row of a record, taken apart: an exporter's name and words KEY=VALUE, which data/examples.txt
// describes. Rows are bytes, read by loops, and an answer is a value in each case: the check of the same
// over `str`, `Vec` and `Option` took three times as long.
ghost use Rattle.std.specs.Prelude.{◌≡◌, true, ◌≤◌, length};

// The longest text, image or string.
pub(crate) const LONGEST: usize = 4200;

// The number of a key that a row does not have, or that says none: an option outside each range.
pub(crate) const MISSING: usize = usize::MAX;

// Bytes at the front of an array.
#[derive(Drop)]
pub(crate) struct Text {
    all: [u8; LONGEST],
    count: usize,
    ghost inside: { count ≤ 4200 },
}

impl Text {
    pub(crate) fn slice(&self) -> &[u8] {
        &self.all[..self.count]
    }
}

// Whether a text begins with a word.
pub(crate) fn begins(text: &[u8], word: &[u8]) -> bool
    ensures { result ≡ true → length word.now ≤ length text.now }
{
    if text.len() < word.len() {
        return false;
    }
    for place in 0..word.len() {
        if text[place] != word[place] {
            return false;
        }
    }
    true
}

// The row from the value of a key on; nothing where the row does not have the key outside quotes. The key
// comes with its `=`.
pub(crate) fn value<'a>(row: &'a [u8], key: &[u8]) -> &'a [u8] {
    let mut quoted = false;
    for place in 0..row.len() {
        quoted = quoted != (row[place] == b'"');
        let word = &row[place + 1..];
        if row[place] == b' ' && !quoted && begins(word, key) {
            return &word[key.len()..];
        }
    }
    b""
}

pub(crate) fn has(row: &[u8], key: &[u8]) -> bool {
    !value(row, key).is_empty()
}

// A decimal number with one digit more.
pub(crate) fn longer(number: u64, digit: u8) -> u64 {
    number
        .saturating_mul(10)
        .saturating_add(u64::from(digit.wrapping_sub(b'0')))
}

// The decimal number of a key.
pub(crate) fn number(row: &[u8], key: &[u8]) -> usize {
    let text = value(row, key);
    if text.is_empty() {
        return MISSING;
    }
    let mut number = 0;
    for &letter in text {
        if letter == b' ' {
            break;
        }
        if letter < b'0' || b'9' < letter {
            return MISSING;
        }
        number = longer(number, letter);
    }
    number as usize
}

// The same, or another number where the row does not have the key.
pub(crate) fn number_or(row: &[u8], key: &[u8], other: usize) -> usize {
    if has(row, key) {
        number(row, key)
    } else {
        other
    }
}

// The value of a hexadecimal digit in lower case, 16 for any other letter.
fn nibble(digit: u8) -> u8
    ensures { result ≤ 16 }
{
    let letter = digit.wrapping_sub(b'a');
    if letter < 6 {
        return letter + 10;
    }
    let decimal = digit.wrapping_sub(b'0');
    if decimal < 10 { decimal } else { 16 }
}

// The byte of two hexadecimal digits that a text begins with, and what stands behind it.
fn hex_byte(text: &[u8]) -> Option<(u8, &[u8])> {
    let [high, low, rest @ ..] = text else {
        return None;
    };
    let high = nibble(*high);
    let low = nibble(*low);
    if 15 < high || 15 < low {
        return None;
    }
    Some((high * 16 + low, rest))
}

// The same of bytes in quotes.
fn quoted_byte(text: &[u8]) -> Option<(u8, &[u8])> {
    match text {
        [b'\\', b'n', rest @ ..] => Some((b'\n', rest)),
        [b'\\', b't', rest @ ..] => Some((b'\t', rest)),
        [b'\\', b'\\', rest @ ..] => Some((b'\\', rest)),
        [b'\\', b'x', rest @ ..] => hex_byte(rest),
        [] | [b'\\' | b'"', ..] => None,
        [byte, rest @ ..] => Some((*byte, rest)),
    }
}

// The bytes of a key, behind `zeros` zeros, up to one that cannot be read.
pub(crate) fn bytes(row: &[u8], key: &[u8], zeros: usize) -> Text {
    let mut all = [0; LONGEST];
    let mut rest = value(row, key);
    let quoted = begins(rest, b"\"");
    if quoted {
        rest = &rest[1..];
    }
    for count in zeros.min(LONGEST)..LONGEST {
        let next = if quoted {
            quoted_byte(rest)
        } else {
            hex_byte(rest)
        };
        let Some((byte, behind)) = next else {
            return Text { all, count };
        };
        all[count] = byte;
        rest = behind;
    }
    Text {
        all,
        count: LONGEST,
    }
}
