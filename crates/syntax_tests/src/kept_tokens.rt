//! Which tokens of a text are kept, and which places they are presumed to have.

ghost use Rattle.std.specs.Prelude.{◌<◌, length};

use c_lexer::laws::law_within_the_text;
use c_lexer::{SourceText, lex};
use line_marks::laws::law_kept_positions;
use line_marks::{Place, Places, StripStop, item_at, places_of, strip};
use std::alloc::Global;
use std::test::Fail;

/// What is kept of a short text: the number of its kept tokens is that of the positions.
fn kept_of(alloc: Global, bytes: &[u8]) -> Result<Result<Vec<u32>, StripStop>, Fail>
    requires { length bytes.now < 100 }
{
    law_within_the_text();
    let tokens = lex(alloc, SourceText { bytes })?;
    Ok(strip(alloc, &tokens))
}

/// The places of the tokens of a short text in the file `m.c`.
fn placed(alloc: Global, bytes: &[u8]) -> Result<Places, Fail>
    requires { length bytes.now < 100 }
{
    let text = SourceText { bytes };
    let tokens = lex(alloc, text)?;
    Ok(places_of(alloc, text, &tokens, "m.c")?)
}

#[test]
fn what_a_parser_of_c11_has_no_grammar_for_is_dropped(rt: HostRuntime) -> Result<(), Fail> {
    for (text, want) in [
        (b"int a;".as_slice(), [0, 1, 2].as_slice()),
        (b"# 1 \"x.c\"\na;".as_slice(), [1, 2].as_slice()),
        (b"#pragma x\na;".as_slice(), [1, 2].as_slice()),
        (b"__extension__ a;".as_slice(), [1, 2].as_slice()),
        (
            b"a __attribute__((b[1], {c})) ;".as_slice(),
            [0, 14].as_slice(),
        ),
        (
            b"a __attribute__((__attribute__)) ;".as_slice(),
            [0, 7].as_slice(),
        ),
        (
            b"a __attribute__\n#pragma x\n((b)) ;".as_slice(),
            [0, 8].as_slice(),
        ),
        (b"f() __asm__(\"x\") ;".as_slice(), [0, 1, 2, 7].as_slice()),
        (b"a __asm__(\"x\") ;".as_slice(), [0, 5].as_slice()),
        // An `__asm__` that names no symbol is kept.
        (b"; __asm__(\"x\")".as_slice(), [0, 1, 2, 3, 4].as_slice()),
        (b"a __asm__([)".as_slice(), [0, 1, 2, 3, 4].as_slice()),
        (b"__asm__(\"x\")".as_slice(), [0, 1, 2, 3].as_slice()),
    ] {
        assert!(rt; text.len() < 100);
        let kept = kept_of(rt.alloc(), text)?.expect(&rt, "is stripped");
        assert_eq!(rt; kept.as_slice(), want);
    }
    Ok(())
}

#[test]
fn an_attribute_without_balanced_parentheses_is_refused(rt: HostRuntime) -> Result<(), Fail> {
    for (text, want) in [
        (b"__attribute__((])".as_slice(), 0),
        (b"int a __attribute__ b".as_slice(), 2),
        (b"__attribute__((a)) __attribute__".as_slice(), 6),
        (b"a __attribute__({)}".as_slice(), 1),
    ] {
        assert!(rt; text.len() < 100);
        let stop = kept_of(rt.alloc(), text)?.err();
        assert_eq!(rt; stop, Some(StripStop::BadAttribute { token: want }));
    }
    Ok(())
}

// `__extension__ a;`: of the kept tokens the first is token 1, and there are two.
#[test]
fn kept_tokens_have_numbers_of_their_own(rt: HostRuntime) -> Result<(), Fail> {
    law_within_the_text();
    law_kept_positions();
    let text = SourceText {
        bytes: b"__extension__ a;",
    };
    let tokens = lex(rt.alloc(), text)?;
    let kept = strip(rt.alloc(), &tokens)?;
    for (number, want) in [(0, Some(14)), (1, Some(15)), (2, None)] {
        let start = item_at(&tokens, &kept, number).map(|token| token.start);
        assert_eq!(rt; start, want);
    }
    Ok(())
}

#[test]
fn the_line_after_a_marker_has_its_number(rt: HostRuntime) -> Result<(), Fail> {
    for (text, want, names) in [
        (
            b"# 7 \"x.c\"\nf\n\ng".as_slice(),
            [(0, 1), (1, 7), (1, 9)].as_slice(),
            ["m.c", "x.c"].as_slice(),
        ),
        // A file that is mentioned again keeps its position, and so does one that is not named.
        (
            b"a\n# 3 \"h.h\"\nb\n# 9 \"m.c\" 2\nc\n\nd\n# 20\ne".as_slice(),
            [
                (0, 1),
                (0, 2),
                (1, 3),
                (1, 4),
                (0, 9),
                (0, 11),
                (0, 12),
                (0, 20),
            ]
            .as_slice(),
            ["m.c", "h.h"].as_slice(),
        ),
    ] {
        assert!(rt; text.len() < 100);
        let Places { places, files } = placed(rt.alloc(), text)?;
        assert_eq!(rt; places.items().len(), want.len());
        for (place, (file, line)) in places.items().iter().zip(want) {
            assert_eq!(rt;
                *place,
                Place {
                    file: *file,
                    line: *line
                }
            );
        }
        assert_eq!(rt; files.items().len(), names.len());
        for (file, name) in files.items().iter().zip(names) {
            assert_eq!(rt; file.items(), name.as_bytes());
        }
    }
    Ok(())
}
