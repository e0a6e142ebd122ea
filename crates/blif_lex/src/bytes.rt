// What single bytes are to a text.

ghost use Rattle.std.specs.Prelude.{◌≡◌};
ghost use Rattle.blif_lex.specs.Words as words;

/// Whether the byte parts two words.
pub fn is_blank(byte: u8) -> bool
    ensures { result ≡ words.is_blank byte }
{
    byte == b' ' || byte == b'\t'
}

/// Whether the byte is dropped at the end of a line.
pub fn is_trailing(byte: u8) -> bool
    ensures { result ≡ words.is_trailing byte }
{
    is_blank(byte) || byte == b'\r'
}

/// Whether the byte may stand in a word.
pub fn is_plain(byte: u8) -> bool
    ensures { result ≡ words.is_plain byte }
{
    byte.is_ascii_graphic() && byte != b'\\'
}
