// The words with which the lines after the first begin.

ghost use Rattle.std.specs.Prelude.{◌≡◌};
ghost use Rattle.cert_text.specs.Faults.{keyword_word, takes};

/// What stands on a line after the first.
#[derive(Clone, Copy, Debug, PartialEq, Eq)]
pub enum Keyword {
    Period,
    /// The number of tables.
    Tables,
    Table,
    /// The number of drops.
    Drops,
    Drop,
    End,
}

impl Keyword {
    /// The word with which its line begins.
    pub fn word(self) -> &'static [u8]
        ensures { result.now ≡ keyword_word self }
    {
        match self {
            Keyword::Period => b"period",
            Keyword::Tables => b"tables",
            Keyword::Table => b"table",
            Keyword::Drops => b"drops",
            Keyword::Drop => b"drop",
            Keyword::End => b"end",
        }
    }

    /// Whether its line may have so many words.
    pub fn takes(self, many: usize) -> bool
        ensures { result ≡ takes self many }
    {
        match self {
            Keyword::Period | Keyword::Tables | Keyword::Drops => many == 2,
            Keyword::Table => many >= 3,
            Keyword::Drop => many >= 5,
            Keyword::End => many == 1,
        }
    }
}
