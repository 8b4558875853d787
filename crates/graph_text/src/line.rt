//! One line of parts, as of a refusal.
ghost use Rattle.std.specs.Prelude.{flat_map, OnOk, OnErr};
ghost use Rattle.joern_io.specs.Sinks.{Takes, TakesPrefix};
ghost use Rattle.graph_text.specs.Printing.{Prints};
ghost use Rattle.graph_text.specs.LineParts.{part_text, line_text};

use crate::printer::Printer;
use joern_io::{Failed, Sink};

/// A part of a printed line.
#[derive(Clone, Copy, Debug)]
pub enum LinePart<'a> {
    /// Printed as it is.
    Verbatim(&'a str),
    /// Printed as a value: each byte that is not plain as `%` and two hexadecimal digits.
    Value(&'a [u8]),
    /// Printed in decimal digits.
    Number(u32),
}

/// Prints one line of these parts. Takes no memory.
///
/// `Failed` comes only where the sink counted a fault in this call. Then it took a proper prefix of
/// the line.
pub fn print_line<S: Sink>(parts: &[LinePart<'_>], sink: &mut S) -> Result<(), Failed>
    ensures ok { OnOk result
        (Takes (S.state sink.old) (S.state sink.new) (line_text parts.now)) }
    ensures failed { OnErr result
        (TakesPrefix (S.state sink.old) (S.state sink.new) (line_text parts.now)) }
{
    let mut printer = Printer::new();
    printer.parts(sink, parts);
    printer.text(sink, b"\n");
    printer.finish(sink)
}

impl Printer {
    /// Prints the parts, one after the other.
    fn parts<S: Sink>(&mut self, sink: &mut S, parts: &[LinePart<'_>])
        ensures { Prints (S.state sink.old, self.old) (S.state sink.new, self.new)
            (flat_map part_text parts.now) }
    {
        for part in parts {
            self.part(sink, part);
        }
    }

    /// Prints a part as its kind says.
    fn part<S: Sink>(&mut self, sink: &mut S, part: &LinePart<'_>)
        ensures { Prints (S.state sink.old, self.old) (S.state sink.new, self.new)
            (part_text part.now) }
    {
        match part {
            LinePart::Verbatim(text) => self.verbatim(sink, text),
            LinePart::Value(bytes) => self.value(sink, bytes),
            LinePart::Number(n) => self.number(sink, *n),
        }
    }
}
