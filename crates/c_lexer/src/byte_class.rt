//! The classes of bytes (C11 5.2.1).

ghost use Rattle.std.specs.Prelude.{◌↔◌, IsTrue};
ghost use Rattle.c_lexer.specs.Bytes.{IsBlank, IsDigit, IsExponent, IsLetter, IsLineBlank};
ghost use Rattle.c_lexer.specs.Bytes.{IsSign, IsWordByte};

pub(crate) fn is_blank(byte: u8) -> bool
    ensures { IsTrue result ↔ IsBlank byte }
{
    matches!(byte, b' ' | b'\t'..=b'\r')
}

pub(crate) fn is_line_blank(byte: u8) -> bool
    ensures { IsTrue result ↔ IsLineBlank byte }
{
    matches!(byte, b' ' | b'\t' | b'\x0b'..=b'\r')
}

pub(crate) fn is_letter(byte: u8) -> bool
    ensures { IsTrue result ↔ IsLetter byte }
{
    matches!(byte, b'a'..=b'z' | b'A'..=b'Z' | b'_')
}

pub(crate) fn is_digit(byte: u8) -> bool
    ensures { IsTrue result ↔ IsDigit byte }
{
    matches!(byte, b'0'..=b'9')
}

pub(crate) fn is_word_byte(byte: u8) -> bool
    ensures { IsTrue result ↔ IsWordByte byte }
{
    is_letter(byte) || is_digit(byte)
}

pub(crate) fn is_exponent(byte: u8) -> bool
    ensures { IsTrue result ↔ IsExponent byte }
{
    matches!(byte, b'e' | b'E' | b'p' | b'P')
}

pub(crate) fn is_sign(byte: u8) -> bool
    ensures { IsTrue result ↔ IsSign byte }
{
    matches!(byte, b'+' | b'-')
}
