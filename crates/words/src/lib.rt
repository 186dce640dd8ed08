//! The words of a job: bytes parted by spaces and line feeds, each the decimal of a number. A word may come in parts, since leading zeros make it
//! as long as they like.
#![tactic(auto)]

ghost use Rattle.std.specs.Prelude.{◌≡◌, ◌+◌, ◌*◌, ◌≤◌, length};
ghost use Rattle.words.specs.Words.{parts, word_length, first_word, started, tens, with_digit, pushed, read, natural, signed};

// What has been read of a word: whether it began with a minus, and what its digits tell so far, if there are any.
#[derive(Clone, Copy, Debug, PartialEq, Eq)]
pub struct Word {
    pub negative: bool,
    pub value: Option<u64>,
}

fn is_gap(byte: u8) -> bool
    ensures { result ≡ parts byte }
{
    byte == b' ' || byte == b'\n'
}

// How many bytes of a text stand before its first space or line feed.
fn word_length(text: &[u8]) -> usize
    ensures { result ≡ word_length text.now }
{
    for (i, byte) in text.iter().enumerate() {
        if is_gap(*byte) {
            return i;
        }
    }
    text.len()
}

// The word that a text begins with, as a part of the text: empty where a space or line feed stands first.
pub fn first_word<'a>(text: &'a [u8]) -> &'a [u8]
    ensures { result.now ≡ first_word text.now }
{
    &text[..word_length(text)]
}

// Ten times a number and a digit, if 64 bits hold it.
fn tens(value: u64, digit: u8) -> Option<u64>
    ensures { result ≡ tens value digit }
{
    value.checked_mul(10)?.checked_add(u64::from(digit))
}

impl Word {
    // A word of which nothing has been read yet.
    pub fn new() -> Word
        ensures { result ≡ started }
    {
        Word {
            negative: false,
            value: None,
        }
    }

    fn with_digit(self, digit: u8) -> Option<Word>
        ensures { result ≡ with_digit self digit }
    {
        let value = tens(self.value.unwrap_or(0), digit)?;
        Some(Word {
            negative: self.negative,
            value: Some(value),
        })
    }

    fn push(self, byte: u8) -> Option<Word>
        ensures { result ≡ pushed self byte }
    {
        match byte {
            b'0'..=b'9' => self.with_digit(byte - b'0'),
            b'-' if self == Word::new() => Some(Word {
                negative: true,
                value: None,
            }),
            _ => None,
        }
    }

    // More of the word. None where no word of a number of 64 bits goes on so.
    pub fn read(self, part: &[u8]) -> Option<Word>
        ensures { result ≡ read self part.now }
    {
        let mut word = self;
        for byte in part {
            word = word.push(*byte)?;
        }
        Some(word)
    }

    // The whole word as a number from 0 to `most`.
    pub fn natural(self, most: u64) -> Option<u64>
        ensures { result ≡ natural self most }
    {
        let value = self.value?;
        if most < value || (self.negative && value != 0) {
            return None;
        }
        Some(value)
    }

    // The whole word as a number of 32 signed bits.
    pub fn signed(self) -> Option<i32>
        ensures { result ≡ signed self }
    {
        let size = i64::try_from(self.value?).ok()?;
        i32::try_from(if self.negative { -size } else { size }).ok()
    }
}
