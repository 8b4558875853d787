//! Values, verbatim texts and numbers.
ghost use Rattle.std.specs.Prelude.{◌≡◌, ◌<◌, ◌≤◌, ◌++◌, false, length, slice_index, take, decimal};
ghost use Rattle.cpg_schema.specs.Values.{escape, escaped, hex_digit, is_plain};
ghost use Rattle.graph_text.specs.Printing.{Prints};

use crate::printer::{MOST_DIGITS, Printer};
use joern_io::Sink;

/// Whether a byte stands for itself in a value.
fn is_plain_byte(byte: u8) -> bool
    ensures { result ≡ is_plain byte }
{
    byte >= 0x21 && byte <= 0x7E && byte != b'%'
}

/// One of `0` to `9` and `A` to `F`.
fn hex(n: u8) -> u8
    requires small { n < 16 }
    ensures { result ≡ hex_digit n }
{
    if n < 10 { b'0' + n } else { b'A' + (n - 10) }
}

/// How many bytes at the front stand for themselves: all, or those before the first that does not.
fn plain_len(bytes: &[u8]) -> usize
    ensures within { result ≤ length bytes.now }
    ensures plain { escaped (take result bytes.now) ≡ take result bytes.now }
    ensures first { result < length bytes.now → is_plain (slice_index bytes.now result) ≡ false }
{
    for (at, byte) in bytes.iter().enumerate() {
        if !is_plain_byte(*byte) {
            return at;
        }
    }
    bytes.len()
}

impl Printer {
    /// Prints a value: each byte that is not plain as `%` and two hexadecimal digits.
    pub(crate) fn value<S: Sink>(&mut self, sink: &mut S, bytes: &[u8])
        ensures { Prints (S.state sink.old, self.old) (S.state sink.new, self.new)
            (escaped bytes.now) }
    {
        let mut at = 0;
        while at < bytes.len() {
            let count = self.front(sink, &bytes[at..]);
            at += count;
        }
    }

    /// Prints a front of a value: the plain bytes there and the next byte. Returns how many bytes
    /// these are.
    fn front<S: Sink>(&mut self, sink: &mut S, bytes: &[u8]) -> usize
        requires some { 0 < length bytes.now }
        ensures progress { 0 < result }
        ensures within { result ≤ length bytes.now }
        ensures printed { Prints (S.state sink.old, self.old) (S.state sink.new, self.new)
            (escaped (take result bytes.now)) }
    {
        let plain = plain_len(bytes);
        self.text(sink, &bytes[..plain]);
        if plain == bytes.len() {
            return plain;
        }
        self.escape(sink, bytes[plain]);
        plain + 1
    }

    /// Prints a byte that is not plain.
    fn escape<S: Sink>(&mut self, sink: &mut S, byte: u8)
        requires not_plain { is_plain byte ≡ false }
        ensures { Prints (S.state sink.old, self.old) (S.state sink.new, self.new) (escape byte) }
    {
        self.text(sink, &[b'%', hex(byte / 16), hex(byte % 16)]);
    }

    /// Prints a text as it is.
    #[inline(always)]
    pub(crate) fn verbatim<S: Sink>(&mut self, sink: &mut S, text: &str)
        ensures { Prints (S.state sink.old, self.old) (S.state sink.new, self.new) text.now }
    {
        self.text(sink, text.as_bytes());
    }

    /// Prints a number in decimal digits.
    pub(crate) fn number<S: Sink>(&mut self, sink: &mut S, n: u32)
        ensures { Prints (S.state sink.old, self.old) (S.state sink.new, self.new) (decimal n) }
    {
        if n < 10 {
            self.text(sink, &[b'0' + n as u8]);
        } else if self.room() >= MOST_DIGITS {
            self.keep_number(n);
        } else {
            self.flush(sink);
            self.keep_number(n);
        }
    }
}

/// How long the texts beside numbers are that are printed in one piece.
const SHORT: usize = 32;

impl Printer {
    /// Prints a short text and a number behind it.
    #[inline(always)]
    pub(crate) fn numbered<S: Sink>(&mut self, sink: &mut S, text: &[u8], n: u32)
        requires short { length text.now ≤ SHORT }
        ensures { Prints (S.state sink.old, self.old) (S.state sink.new, self.new)
            (text.now ++ decimal n) }
    {
        if self.room() < SHORT + MOST_DIGITS {
            self.flush(sink);
            self.keep_numbered(text, n);
        } else {
            self.keep_numbered(text, n);
        }
    }

    /// Prints a short text and a value behind it.
    #[inline(always)]
    pub(crate) fn valued<S: Sink>(&mut self, sink: &mut S, text: &[u8], bytes: &[u8])
        requires short { length text.now ≤ SHORT }
        ensures { Prints (S.state sink.old, self.old) (S.state sink.new, self.new)
            (text.now ++ escaped bytes.now) }
    {
        if plain_len(bytes) == bytes.len() && bytes.len() <= SHORT && self.room() >= 2 * SHORT {
            self.keep_both(text, bytes);
        } else {
            self.text(sink, text);
            self.value(sink, bytes);
        }
    }

    /// Prints two numbers between three short texts.
    #[inline(always)]
    pub(crate) fn numbers<S: Sink>(
        &mut self,
        sink: &mut S,
        first: &[u8],
        m: u32,
        second: &[u8],
        n: u32,
        third: &[u8],
    )
        requires first { length first.now ≤ SHORT }
        requires second { length second.now ≤ SHORT }
        requires third { length third.now ≤ SHORT }
        ensures { Prints (S.state sink.old, self.old) (S.state sink.new, self.new)
            (first.now ++ (decimal m ++ (second.now ++ (decimal n ++ third.now)))) }
    {
        if self.room() < 3 * SHORT + 2 * MOST_DIGITS {
            self.flush(sink);
            self.keep_two_numbered(first, m, second, n, third);
        } else {
            self.keep_two_numbered(first, m, second, n, third);
        }
    }
}
