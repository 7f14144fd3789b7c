// Kinds of bytes.
ghost use Rattle.std.specs.Prelude.{◌≡◌, ◌<◌, true, IfSome};
ghost use Rattle.wat_grammar.specs.Tokens.{IsPlain, IsSpace, IsWordByte, digit, escaped};

/// A byte of words: `!` to `~`, but no parenthesis, quotation mark or semicolon.
pub(crate) fn is_word_byte(byte: u8) -> bool
    ensures yes { result ≡ true → IsWordByte byte }
    ensures no { IsWordByte byte → result ≡ true }
{
    matches!(byte, b'!' | b'#'..=b'\'' | b'*'..=b':' | b'<'..=b'~')
}

/// A byte that stands for itself in a string.
pub(crate) fn is_plain(byte: u8) -> bool
    ensures yes { result ≡ true → IsPlain byte }
    ensures no { IsPlain byte → result ≡ true }
{
    byte >= b' ' && byte != 0x7f && byte != b'"' && byte != b'\\'
}

/// A space, a tab, a line feed or a carriage return.
pub(crate) fn is_space(byte: u8) -> bool
    ensures yes { result ≡ true → IsSpace byte }
    ensures no { IsSpace byte → result ≡ true }
{
    matches!(byte, b' ' | b'\t' | b'\n' | b'\r')
}

/// What a byte behind a backslash stands for, where it is no digit.
pub(crate) fn escape_of(byte: u8) -> Option<u8>
    ensures { result ≡ escaped byte }
{
    match byte {
        b't' => Some(b'\t'),
        b'n' => Some(b'\n'),
        b'r' => Some(b'\r'),
        b'"' | b'\'' | b'\\' => Some(byte),
        _ => None,
    }
}

/// The value of a digit of this base.
pub(crate) fn digit_of(base: u8, byte: u8) -> Option<u8>
    ensures value { result ≡ digit base byte }
    ensures within { IfSome result (λ value. value < 16) }
{
    match byte {
        b'0'..=b'9' => Some(byte - b'0'),
        b'A'..=b'F' if base == 16 => Some(byte - b'A' + 10),
        b'a'..=b'f' if base == 16 => Some(byte - b'a' + 10),
        _ => None,
    }
}
