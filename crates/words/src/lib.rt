// The words of a DEF text: where they stand, and what they spell.
#![tactic(auto)]

ghost use Rattle.std.specs.Prelude.{◌≡◌};
ghost use Rattle.words.specs.Words.{blank, word_from, spelling, same, spelled_number, layer_of, layer_digits};

// A word: its bytes, the place of the first, and the place after it. Where no word is left, it has no bytes: no Option, since a reader asks what a word spells, no word of the form has no bytes, and 17 wants its place all the same.
#[derive(Clone, Copy)]
pub struct Word<'a> {
    pub bytes: &'a [u8],
    pub at: usize,
    pub next: usize,
}

// The first word from a place on.
pub fn word_from(text: &[u8], place: usize) -> Word<'_>
    ensures at { result.at ≡ (word_from text.now place).at }
    ensures next { result.next ≡ (word_from text.now place).next }
    ensures bytes { result.bytes.now ≡ spelling text.now (word_from text.now place) }
{
    let rest = &text[place.min(text.len())..];
    let blanks = rest.iter().take_while(|b| is_blank(**b)).count();
    let word = &rest[blanks..];
    let length = word.iter().take_while(|b| !is_blank(**b)).count();
    let at = place + blanks;
    Word {
        bytes: &word[..length],
        at,
        next: at + length,
    }
}

impl Word<'_> {
    // The word has these bytes.
    pub fn spells(self, bytes: &[u8]) -> bool
        ensures { result ≡ same self.entry.bytes.now bytes.now }
    {
        self.bytes == bytes
    }

    // The number that the word spells: 1 to 5 digits, 0 to 65,535. Not by std's parse, which takes a sign and more than five digits too.
    pub fn number(self) -> Option<u16>
        ensures { result ≡ spelled_number self.entry.bytes.now }
    {
        if self.bytes.is_empty() || 5 < self.bytes.len() {
            return None;
        }
        let mut value = 0;
        for b in self.bytes {
            if !b.is_ascii_digit() {
                return None;
            }
            value = 10 * value + u32::from(*b - b'0');
        }
        u16::try_from(value).ok()
    }

    // The layer that the word names, `metal1` to `metal16`.
    pub fn layer(self) -> Option<u8>
        ensures { result ≡ layer_of self.entry.bytes.now }
    {
        layer_of_digits(self.bytes.strip_prefix(b"metal")?)
    }
}

// The byte parts words.
#[tactic(auto, unfolding(crate::specs::Words::blank))]
fn is_blank(b: u8) -> bool
    ensures { result ≡ blank b }
{
    // not by matches!, which tests three times where this tests once: def took 1.33 to 1.57 of the time before the design pass by it, and 1.13 to 1.27 so
    b == b' ' || b == b'\n' || b == b'\t' || b == b'\r'
}

// `1` to `16`.
#[tactic(auto, using(crate::specs::Reading::digits_other))]
fn layer_of_digits(digits: &[u8]) -> Option<u8>
    ensures { result ≡ layer_digits digits.now }
{
    match digits {
        [a @ b'1'..=b'9'] => Some(*a - b'0'),
        [b'1', b @ b'0'..=b'6'] => Some(10 + (*b - b'0')),
        _ => None,
    }
}
