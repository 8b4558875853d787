//! What the words of the command line ask for.

ghost use Rattle.std.specs.Prelude.{◌≡◌, map, string_bytes};
ghost use Rattle.std.specs.Option.{option_map};
ghost use Rattle.joern_top.specs.Words.{command, is_file_name};
ghost use Rattle.joern_top.specs.Commands.{plain_command};

/// What the words ask for.
#[derive(Clone, Copy, Debug)]
pub(crate) enum Command<'a> {
    /// The lines of the graph of one file.
    Dump { name: &'a str },
}

/// The command that the words give: `--do dump NAME`.
pub(crate) fn read_words(words: &[String]) -> Option<Command<'_>>
    ensures { option_map plain_command result ≡ command (map string_bytes words.now) }
{
    match words {
        [option, value, name]
            if option.as_str() == "--do"
                && value.as_str() == "dump"
                && can_name_a_file(name.as_str()) => {
            Some(Command::Dump {
                name: name.as_str(),
            })
        }
        _ => None,
    }
}

/// Whether a word can name a file: it is not empty and does not begin with a dash.
fn can_name_a_file(word: &str) -> bool
    ensures { result ≡ is_file_name word.now }
{
    match word.as_bytes() {
        [] => false,
        [first, ..] => *first != b'-',
    }
}
