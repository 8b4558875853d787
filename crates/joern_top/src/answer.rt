//! What is answered to the words, as it is decided before anything is written.

ghost use Rattle.std.specs.Prelude.{◌≡◌, ◌≤◌, Some, IfSome, IsNone, map, string_bytes};
ghost use Rattle.std.specs.Prelude.{vec_len};
ghost use Rattle.joern_io.specs.Held.{file_of};
ghost use Rattle.joern_io.specs.Files.{KeepsFiles, RoseOrLacks};
ghost use Rattle.ast_layer.specs.Parts.{source_forest};
ghost use Rattle.joern_top.specs.Answers.{outcome_of, IsDecided, IsOrdered, IfReadFault};
ghost use Rattle.joern_top.specs.Graph.{built_alone};
ghost use Rattle.joern_top.specs.Run.{IsOutcome, IsFileOutcome, built_outcome};
ghost use Rattle.joern_top.specs.Words.{Dump, command};

use crate::graph::{BuiltGraph, FIRST_PASS, build_graph};
use crate::refusal::Refusal;
use crate::source::{SourceStop, read_source};
use crate::status::What;
use crate::words::{Command, read_words};
use ast_layer::Source;
use c_lexer::MAX_FILE_BYTES;
use graph_store::ApplyStop;
use joern_io::{Files, ReadStop, read_all};
use std::alloc::Global;

/// What is answered, before it is written.
#[derive(Drop)]
pub(crate) enum Answer<'a> {
    Usage,
    /// The file of this name could not be read.
    ReadFault { name: &'a str },
    /// There is too much of something, at this number.
    Limit { what: What, at: u32 },
    /// The source of this name is refused.
    Refused { name: &'a str, refusal: Refusal },
    /// The lines of a graph.
    Dump { built: BuiltGraph },
    NoMemory,
}

/// The answer to the words, in the order of refusals.
pub(crate) fn decide<'a, F: Files>(alloc: Global, words: &'a [String], files: &mut F) -> Answer<'a>
    ensures keeps { KeepsFiles (F.state files.old) (F.state files.new) }
    ensures ordered { IsOrdered result }
    ensures no_command { IsNone (command (map string_bytes words.now)) →
        (result ≡ Answer.Usage) × (files.new ≡ files.old) }
    ensures usage { result ≡ Answer.Usage → IsNone (command (map string_bytes words.now)) }
    ensures decided { IfSome (F.state files.old).held (λ held. IsDecided result →
        IsOutcome (map string_bytes words.now) held (outcome_of result)) }
    ensures read_fault { IfReadFault result (λ name.
        (command (map string_bytes words.now) ≡ Some (Dump name))
        × RoseOrLacks (F.state files.old) (F.state files.new) name) }
{
    match read_words(words) {
        None => Answer::Usage,
        Some(Command::Dump { name }) => dump_answer(alloc, name, files),
    }
}

/// The answer to a dump of the file of this name.
fn dump_answer<'a, F: Files>(alloc: Global, name: &'a str, files: &mut F) -> Answer<'a>
    ensures keeps { KeepsFiles (F.state files.old) (F.state files.new) }
    ensures ordered { IsOrdered result }
    ensures no_usage { ¬ (result ≡ Answer.Usage) }
    ensures decided { IfSome (F.state files.old).held (λ held. IsDecided result →
        IsFileOutcome name.now (file_of held name.now) (outcome_of result)) }
    ensures read_fault { IfReadFault result (λ file.
        (file ≡ name.now) × RoseOrLacks (F.state files.old) (F.state files.new) file) }
{
    match read_all(alloc, files, name, MAX_FILE_BYTES as u32) {
        Ok(bytes) => source_answer(alloc, name, bytes),
        Err(ReadStop::Failed) => Answer::ReadFault { name },
        Err(ReadStop::TooLarge) => Answer::Limit {
            what: What::FileBytes,
            at: 0,
        },
        Err(ReadStop::Memory) => Answer::NoMemory,
    }
}

/// The answer to a dump of a file with these bytes.
fn source_answer<'a>(alloc: Global, name: &'a str, bytes: Vec<u8>) -> Answer<'a>
    requires within { vec_len bytes ≤ MAX_FILE_BYTES }
    ensures decided { IsDecided result →
        IsFileOutcome name.now (Some bytes.items) (outcome_of result) }
    ensures ordered { IsOrdered result }
    ensures no_usage { ¬ (result ≡ Answer.Usage) }
    ensures no_read_fault { IfReadFault result (λ _. ⊥) }
{
    match read_source(alloc, name, bytes) {
        Ok(source) => graph_answer(alloc, source),
        Err(SourceStop::Refused(refusal)) => Answer::Refused { name, refusal },
        Err(SourceStop::Memory) => Answer::NoMemory,
    }
}

/// The answer to a dump of a source that was read.
fn graph_answer<'a>(alloc: Global, source: Source) -> Answer<'a>
    ensures decided { IsDecided result →
        outcome_of result ≡ built_outcome (built_alone (source_forest (Some source))) }
    ensures ordered { IsOrdered result }
    ensures no_usage { ¬ (result ≡ Answer.Usage) }
    ensures no_read_fault { IfReadFault result (λ _. ⊥) }
{
    match build_graph(alloc, source) {
        Ok(built) => Answer::Dump { built },
        Err(ApplyStop::TooManyNodes) => Answer::Limit {
            what: What::Nodes,
            at: FIRST_PASS,
        },
        Err(ApplyStop::TooManyEdges) => Answer::Limit {
            what: What::Edges,
            at: FIRST_PASS,
        },
        Err(ApplyStop::Memory) => Answer::NoMemory,
    }
}
