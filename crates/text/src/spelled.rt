// Values that words spell.
ghost use Rattle.std.specs.Prelude.{◌≡◌, ℕ, List, Option};
ghost use Rattle.text.specs.Pairs.{Spells};
ghost use Rattle.text.specs.Spelled.{spelled, Words};
ghost use Rattle.text.specs.SpelledLaws.{spells};

// A value that a word spells. Both ways stand in one trait, since one law ties them: of a `TryFrom` and a `Display` each
// has clauses of its own, and generic code would not know that what is read is what was written.
pub trait Spelled: Sized {
    ghost spells: { List ℕ → Option Self };

    ghost text: { Self → List ℕ };

    fn from_word(word: &[u8]) -> Option<Self>
        ensures { result ≡ spells word.now };

    fn to_word(&self) -> &'static [u8]
        ensures { result.now ≡ text self.now };

    ghost laws: { Spells spells text };
}

// A closed list of values, each with a word of its own.
pub trait Listed: Copy + 'static {
    ghost values: { List Self };

    ghost text: { Self → List ℕ };

    fn all() -> &'static [Self]
        ensures { result.now ≡ values };

    fn word(&self) -> &'static [u8]
        ensures { result.now ≡ text self.now };

    // The value that has this word, if one has.
    fn value_of(word: &[u8]) -> Option<Self>
        ensures { result ≡ spelled values text word.now }
    {
        Self::all().iter().copied().find(|x| word == x.word())
    }

    ghost laws: { Words values text };
}

impl<W: Listed> Spelled for W {
    ghost spells = { spelled W.values W.text };

    ghost text = { W.text };

    ghost laws = { spells W.laws };

    fn from_word(word: &[u8]) -> Option<W> {
        W::value_of(word)
    }

    fn to_word(&self) -> &'static [u8] {
        self.word()
    }
}
