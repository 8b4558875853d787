//! The run: what is decided on the words and the files is written.

ghost use Rattle.std.specs.Prelude.{◌≡◌, ◌≤◌, map, string_bytes, IsNone};
ghost use Rattle.joern_io.specs.Files.{KeepsFiles};
ghost use Rattle.joern_io.specs.Sinks.{Takes};
ghost use Rattle.joern_top.specs.Status.{IsAnswer};
ghost use Rattle.joern_top.specs.Words.{command};
ghost use Rattle.joern_top.specs.Messages.{usage_line};
ghost use Rattle.joern_top.specs.Headline.{run_of, AnswersByTheRules, AnswersWhatItCan, Completes};
ghost use Rattle.joern_top.specs.Headline.{ReadFaultHasCause, ReadFaultLine};
ghost use Rattle.joern_top.specs.Headline.{WriteFaultHasCause, WriteFaultPrefix};

use crate::answer::{Answer, decide};
use crate::laws::law_can_answer;
use crate::status::Status;
use crate::write::write_answer;
use joern_io::{Files, Sink};
use std::alloc::Global;

/// Runs the command that the words give, and says how the run ended. It returns for all words,
/// files and sinks.
///
/// The words are those of the command line without the program's own name. With want of memory
/// nothing is written.
pub fn joern_one<F: Files, S: Sink>(
    alloc: Global,
    words: &[String],
    files: &mut F,
    out: &mut S,
) -> Status
    // An answer, which is every status but a fault and want of memory, is the rules' answer: their
    // status, and exactly their bytes.
    ensures answer { AnswersByTheRules
        (run_of F.state S.state words.now files.old files.new out.old out.new result) }

    // Where no device fails, what can be answered is answered Ok with exactly the rules' bytes, or
    // memory is wanting and nothing is written.
    ensures accepts { AnswersWhatItCan
        (run_of F.state S.state words.now files.old files.new out.old out.new result) }

    // Without a fault the rules' status comes, unless memory is wanting.
    ensures complete { Completes
        (run_of F.state S.state words.now files.old files.new out.old out.new result) }

    // A file could not be read: a device failed or the file is not held.
    ensures read_fault { ReadFaultHasCause
        (run_of F.state S.state words.now files.old files.new out.old out.new result) }
    ensures read_fault_line { ReadFaultLine
        (run_of F.state S.state words.now files.old files.new out.old out.new result) }

    // Not all was written: the sink failed.
    ensures write_fault { WriteFaultHasCause
        (run_of F.state S.state words.now files.old files.new out.old out.new result) }
    ensures write_fault_prefix { WriteFaultPrefix
        (run_of F.state S.state words.now files.old files.new out.old out.new result) }

    // Memory is wanting: nothing was written.
    ensures no_memory { result ≡ Status.NoMemory → out.new ≡ out.old }

    // Words that give no command open nothing; Usage is their answer, and that of no others.
    ensures usage { result ≡ Status.Usage → IsNone (command (map string_bytes words.now)) }
    ensures usage_line { result ≡ Status.Usage →
        Takes (S.state out.old) (S.state out.new) usage_line }
    ensures no_command { IsNone (command (map string_bytes words.now)) →
        IsAnswer result → result ≡ Status.Usage }
    ensures untouched { IsNone (command (map string_bytes words.now)) → files.new ≡ files.old }

    ensures keeps { KeepsFiles (F.state files.old) (F.state files.new) }
    ensures never_falls { (S.state out.old).faults ≤ (S.state out.new).faults }
{
    law_can_answer();
    match decide(alloc, words, files) {
        Answer::NoMemory => Status::NoMemory,
        decided => write_answer(&decided, out),
    }
}
