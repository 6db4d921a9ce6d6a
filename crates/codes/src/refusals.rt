// The number, the word and the text of a refusal.
ghost use Rattle.codes.specs.Codes.{refusal_number, refusal_word, refusal_text};
ghost use Rattle.std.specs.Prelude.{◌≡◌, Some};

use super::Refusal;
use std::fmt;

impl Refusal {
    // The number by which people and formats know the refusal.
    pub fn number(self) -> u8
        ensures { result ≡ refusal_number self }
    {
        self as u8
    }

    // The word by which people and formats know the refusal.
    pub fn word(self) -> &'static str
        ensures { result.now ≡ refusal_word self }
    {
        match self {
            Refusal::Long => "long",
            Refusal::Word => "word",
            Refusal::Range => "range",
            Refusal::Bracket => "bracket",
            Refusal::Head => "head",
            Refusal::Crowd => "crowd",
            Refusal::Image => "image",
            Refusal::Book => "book",
            Refusal::Full => "full",
            Refusal::Link => "link",
            Refusal::Space => "space",
            Refusal::Bare => "bare",
            Refusal::Party => "party",
            Refusal::Rest => "rest",
        }
    }
}

// The number, a blank and the word.
impl fmt::Display for Refusal {
    ghost output = { λ r. Some (refusal_text r) };

    fn fmt<W: fmt::Write>(&self, f: &mut fmt::Formatter<W>) -> fmt::Result {
        let number = self.number();
        let word = self.word();
        write!(f, "{number} {word}")
    }
}
