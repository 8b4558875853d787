//! A fixed buffer before a sink.
ghost use Rattle.std.specs.Prelude.{◌≡◌, ◌+◌, ◌≤◌, ◌++◌, [], true, false, length, take};
ghost use Rattle.std.specs.Prelude.{IsErr, OnOk, OnErr, decimal};
ghost use Rattle.joern_io.specs.Sinks.{Takes, TakesPrefix};
ghost use Rattle.graph_text.specs.Printing.{Prints};

use crate::digits::digit_count;
use itoa::write_digits;
use joern_io::{Failed, Sink, write_all};
use std::marker::Model;

/// How many bytes wait at most.
const ROOM: usize = 65536;

/// How many digits a number has at most.
pub(crate) const MOST_DIGITS: usize = 10;

/// A fixed buffer before a sink. Callers see the bytes that wait in it, and whether the sink has
/// answered with a fault: from then on the sink stays as it is, and `finish` says so.
#[derive(Drop)]
pub(crate) struct Printer {
    buffer: [u8; ROOM],
    waiting: usize,
    failed: bool,
}

impl Model for Printer {
    ghost use Rattle.std.specs.Prelude.{◌≤◌, take};
    ghost use Rattle.graph_text.specs.declared.printer.TheConstants.{ROOM};
    ghost use Rattle.graph_text.specs.Printing.{Waiting};

    ghost Value = { Waiting };

    ghost view = { λ p. record { bytes = take p.waiting p.buffer; failed = p.failed } };

    ghost invariant = { λ p. p.waiting ≤ ROOM };
}

impl Printer {
    /// A printer in which nothing waits.
    pub(crate) fn new() -> Printer
        ensures nothing { result.bytes ≡ [] }
        ensures no_fault { result.failed ≡ false }
    {
        Printer {
            buffer: [0; ROOM],
            waiting: 0,
            failed: false,
        }
    }

    /// Prints a text as it is.
    #[inline(always)]
    pub(crate) fn text<S: Sink>(&mut self, sink: &mut S, text: &[u8])
        ensures { Prints (S.state sink.old, self.old) (S.state sink.new, self.new) text.now }
    {
        if text.len() <= self.room() {
            self.keep(text);
        } else {
            self.past_room(sink, text);
        }
    }

    /// Prints a text for which there is no room beside what waits.
    #[inline(never)]
    fn past_room<S: Sink>(&mut self, sink: &mut S, text: &[u8])
        ensures { Prints (S.state sink.old, self.old) (S.state sink.new, self.new) text.now }
    {
        self.flush(sink);
        if text.len() <= ROOM {
            self.keep(text);
        } else {
            self.pass(sink, text);
        }
    }

    /// How many bytes more can wait.
    #[inline(always)]
    pub(crate) fn room(&self) -> usize
        ensures { result + length self.now.bytes ≡ ROOM }
    {
        ROOM - self.waiting
    }

    /// Has a text wait for which there is room.
    #[inline(always)]
    fn keep(&mut self, text: &[u8])
        requires fits { length self.old.bytes + length text.now ≤ ROOM }
        ensures bytes { self.new.bytes ≡ self.old.bytes ++ text.now }
        ensures failed { self.new.failed ≡ self.old.failed }
    {
        let end = self.waiting + text.len();
        self.buffer[self.waiting..end].copy_from_slice(text);
        self.waiting = end;
    }

    /// Has the digits of a number wait, for which there is room.
    pub(crate) fn keep_number(&mut self, n: u32)
        requires fits { length self.old.bytes + MOST_DIGITS ≤ ROOM }
        ensures bytes { self.new.bytes ≡ self.old.bytes ++ decimal n }
        ensures failed { self.new.failed ≡ self.old.failed }
    {
        self.waiting = put_number(&mut self.buffer, self.waiting, n);
    }

    /// Has a text and a number behind it wait, for which there is room.
    #[inline(always)]
    pub(crate) fn keep_numbered(&mut self, text: &[u8], n: u32)
        requires fits { length self.old.bytes + length text.now + MOST_DIGITS ≤ ROOM }
        ensures bytes { self.new.bytes ≡ self.old.bytes ++ (text.now ++ decimal n) }
        ensures failed { self.new.failed ≡ self.old.failed }
    {
        let at = put(&mut self.buffer, self.waiting, text);
        self.waiting = put_number(&mut self.buffer, at, n);
    }

    /// Has two texts wait, one behind the other, for which there is room.
    #[inline(always)]
    pub(crate) fn keep_both(&mut self, first: &[u8], second: &[u8])
        requires fits { length self.old.bytes + length first.now + length second.now ≤ ROOM }
        ensures bytes { self.new.bytes ≡ self.old.bytes ++ (first.now ++ second.now) }
        ensures failed { self.new.failed ≡ self.old.failed }
    {
        let at = put(&mut self.buffer, self.waiting, first);
        self.waiting = put(&mut self.buffer, at, second);
    }

    /// Has a text, a number, a second text, a second number and a third text wait, for which there
    /// is room.
    #[inline(always)]
    pub(crate) fn keep_two_numbered(
        &mut self,
        first: &[u8],
        m: u32,
        second: &[u8],
        n: u32,
        third: &[u8],
    )
        requires fits { length self.old.bytes + length first.now + MOST_DIGITS + length second.now
            + MOST_DIGITS + length third.now ≤ ROOM }
        ensures bytes { self.new.bytes ≡ self.old.bytes
            ++ (first.now ++ (decimal m ++ (second.now ++ (decimal n ++ third.now)))) }
        ensures failed { self.new.failed ≡ self.old.failed }
    {
        let at = put(&mut self.buffer, self.waiting, first);
        let at = put_number(&mut self.buffer, at, m);
        let at = put(&mut self.buffer, at, second);
        let at = put_number(&mut self.buffer, at, n);
        self.waiting = put(&mut self.buffer, at, third);
    }

    /// Writes a text past the buffer, in which nothing waits.
    fn pass<S: Sink>(&mut self, sink: &mut S, text: &[u8])
        requires nothing { self.old.bytes ≡ [] }
        ensures { Prints (S.state sink.old, self.old) (S.state sink.new, self.new) text.now }
    {
        if !self.failed {
            self.failed = write_all(sink, text).is_err();
        }
    }

    /// Writes what waits.
    pub(crate) fn flush<S: Sink>(&mut self, sink: &mut S)
        ensures printed { Prints (S.state sink.old, self.old) (S.state sink.new, self.new) [] }
        ensures nothing { self.new.bytes ≡ [] }
    {
        if !self.failed {
            self.failed = write_all(sink, &self.buffer[..self.waiting]).is_err();
        }
        self.waiting = 0;
    }

    /// Ends the printing: writes what waits, and says whether all was written.
    pub(crate) fn finish<S: Sink>(self, sink: &mut S) -> Result<(), Failed>
        ensures ok { OnOk result (Takes (S.state sink.old) (S.state sink.new) self.bytes) }
        ensures failed { OnErr result (self.failed ≡ false →
            TakesPrefix (S.state sink.old) (S.state sink.new) self.bytes) }
        ensures after_fault { self.failed ≡ true →
            IsErr result × (S.state sink.new ≡ S.state sink.old) }
    {
        let mut printer = self;
        printer.flush(sink);
        if printer.failed { Err(Failed) } else { Ok(()) }
    }
}

/// Puts a text into a buffer behind its first `at` bytes, and returns where it ends.
#[inline(always)]
fn put(buffer: &mut [u8; ROOM], at: usize, text: &[u8]) -> usize
    requires { at + length text.now ≤ ROOM }
    ensures end { result ≡ at + length text.now }
    ensures bytes { take result buffer.new ≡ take at buffer.old ++ text.now }
{
    let end = at + text.len();
    buffer[at..end].copy_from_slice(text);
    end
}

/// Puts the digits of a number likewise.
#[inline(always)]
fn put_number(buffer: &mut [u8; ROOM], at: usize, n: u32) -> usize
    requires { at + MOST_DIGITS ≤ ROOM }
    ensures end { result ≡ at + length (decimal n) }
    ensures most { result ≤ at + MOST_DIGITS }
    ensures bytes { take result buffer.new ≡ take at buffer.old ++ decimal n }
{
    let end = at + digit_count(n);
    write_digits(n as u64, buffer, end);
    end
}
