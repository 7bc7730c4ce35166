ghost use Rattle.std.specs.Prelude.{◌≡◌};
ghost use Rattle.cga_lexer.specs.Bytes as spec;
ghost use Rattle.cga_word.specs.Name as name;
ghost use Rattle.std.specs.Char.{is_ascii_digit};

pub(crate) fn is_digit(byte: u8) -> bool
    ensures { result ≡ is_ascii_digit byte }
{
    byte.is_ascii_digit()
}

pub(crate) fn begins_name(byte: u8) -> bool
    ensures { result ≡ name.begins_name byte }
{
    byte.is_ascii_alphabetic() || byte == b'_'
}

fn continues_name(byte: u8) -> bool
    ensures { result ≡ name.continues_name byte }
{
    byte.is_ascii_alphanumeric() || byte == b'_'
}

/// How many bytes at the front can stand in a name.
pub(crate) fn word_len(text: &[u8]) -> usize
    ensures { result ≡ spec.run name.continues_name text.now }
{
    for (len, byte) in text.iter().enumerate() {
        if !continues_name(*byte) {
            return len;
        }
    }
    text.len()
}

/// How many bytes at the front are digits.
pub(crate) fn digits_len(text: &[u8]) -> usize
    ensures { result ≡ spec.run is_ascii_digit text.now }
{
    for (len, byte) in text.iter().enumerate() {
        if !is_digit(*byte) {
            return len;
        }
    }
    text.len()
}

pub(crate) fn at_digit(text: &[u8]) -> bool
    ensures { result ≡ spec.begins is_ascii_digit text.now }
{
    match text {
        [first, ..] => is_digit(*first),
        [] => false,
    }
}

/// A letter or `_` comes next.
pub(crate) fn at_name(text: &[u8]) -> bool
    ensures { result ≡ spec.begins name.begins_name text.now }
{
    match text {
        [first, ..] => begins_name(*first),
        [] => false,
    }
}

/// A letter, a digit or `_` comes next.
pub(crate) fn at_name_byte(text: &[u8]) -> bool
    ensures { result ≡ spec.begins name.continues_name text.now }
{
    match text {
        [first, ..] => continues_name(*first),
        [] => false,
    }
}
