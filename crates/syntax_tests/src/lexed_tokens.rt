//! Shown tokens and stops, and that calls succeed.

use c_lexer::keyword::{KEY_INLINE, KEY_INT};
use c_lexer::mark::{
    MARK_COLON, MARK_LEFT_BRACKET, MARK_PLUS, MARK_PLUS_PLUS, MARK_RIGHT_SHIFT_EQUAL,
    MARK_SEMICOLON,
};
use c_lexer::{Kind, LexStop, Marker, SourceText, Token, lex, marker_of};
use std::test::Fail;

// A comment of two lines, `int x1;` and a carriage return, and after a tab `"\""`.
#[test]
fn a_token_has_its_kind_its_bytes_its_line_and_its_column(rt: HostRuntime) -> Result<(), Fail> {
    let want = [
        Token {
            kind: Kind::Key(KEY_INT),
            start: 10,
            end: 13,
            line: 2,
            column: 6,
        },
        Token {
            kind: Kind::Word,
            start: 14,
            end: 16,
            line: 2,
            column: 10,
        },
        Token {
            kind: Kind::Mark(MARK_SEMICOLON),
            start: 16,
            end: 17,
            line: 2,
            column: 12,
        },
        Token {
            kind: Kind::Text,
            start: 20,
            end: 24,
            line: 3,
            column: 2,
        },
    ];
    let text = SourceText::new(b"/* a\n b */int x1;\r\n\t\"\\\"\"").ok_or("too large")?;
    let tokens = lex(rt.alloc(), text)?;
    assert_eq!(rt; tokens.as_slice(), want.as_slice());
    Ok(())
}

#[test]
fn each_token_is_the_longest_at_its_offset(rt: HostRuntime) -> Result<(), Fail> {
    for (bytes, kinds) in [
        (b" \t/* / * // */\x0b// x".as_slice(), [].as_slice()),
        (b"__inline__".as_slice(), [Kind::Key(KEY_INLINE)].as_slice()),
        (b"intx".as_slice(), [Kind::Word].as_slice()),
        (b"0xE+1".as_slice(), [Kind::Number].as_slice()),
        (b"1...3".as_slice(), [Kind::Number].as_slice()),
        (b"a.1".as_slice(), [Kind::Word, Kind::Number].as_slice()),
        (b"u8'a'".as_slice(), [Kind::Word, Kind::Char].as_slice()),
        (b"L8\"s\"".as_slice(), [Kind::Word, Kind::Text].as_slice()),
        (b"U'ab\"\\''".as_slice(), [Kind::Char].as_slice()),
        (b"u8\"'\\\"\xff\"".as_slice(), [Kind::Text].as_slice()),
        (
            b"<::".as_slice(),
            [Kind::Mark(MARK_LEFT_BRACKET), Kind::Mark(MARK_COLON)].as_slice(),
        ),
        (
            b">>=+++".as_slice(),
            [
                Kind::Mark(MARK_RIGHT_SHIFT_EQUAL),
                Kind::Mark(MARK_PLUS_PLUS),
                Kind::Mark(MARK_PLUS),
            ]
            .as_slice(),
        ),
        (b" # 7 1 2".as_slice(), [Kind::Line].as_slice()),
        (
            b"# 2147483647 \"\" 4\n#pragmatic \x80 \"".as_slice(),
            [Kind::Line, Kind::Pragma].as_slice(),
        ),
    ] {
        let text = SourceText::new(bytes).ok_or("too large")?;
        let tokens = lex(rt.alloc(), text)?;
        assert_eq!(rt; tokens.len(), kinds.len());
        for (token, kind) in tokens.iter().zip(kinds) {
            assert_eq!(rt; token.kind, *kind, "at {}", token.start);
        }
    }
    Ok(())
}

#[test]
fn a_stop_names_its_cause_and_its_offset(rt: HostRuntime) -> Result<(), Fail> {
    for (bytes, stop) in [
        (b"x=$;".as_slice(), LexStop::BadByte { at: 2 }),
        (b"x L''".as_slice(), LexStop::BadByte { at: 3 }),
        (b"x %:".as_slice(), LexStop::BadByte { at: 2 }),
        (b"x # 1".as_slice(), LexStop::BadByte { at: 2 }),
        (b"#1 \"x\"".as_slice(), LexStop::BadByte { at: 0 }),
        (b"# 7 5".as_slice(), LexStop::BadByte { at: 0 }),
        (b"# 7 \"x".as_slice(), LexStop::BadByte { at: 0 }),
        (b"# 2147483648".as_slice(), LexStop::BadByte { at: 0 }),
        (b"x\x80".as_slice(), LexStop::BadByte { at: 1 }),
        (b"int /*/".as_slice(), LexStop::Unclosed { at: 4 }),
        (b"x \"a\n\"".as_slice(), LexStop::Unclosed { at: 2 }),
        (b"\"\\\n\"".as_slice(), LexStop::Unclosed { at: 0 }),
        (b"L'\\'".as_slice(), LexStop::Unclosed { at: 1 }),
    ] {
        let text = SourceText::new(bytes).ok_or("too large")?;
        assert_eq!(rt; lex(rt.alloc(), text).err(), Some(stop));
    }
    Ok(())
}

#[test]
fn a_marker_says_its_line_and_its_file(rt: HostRuntime) -> Result<(), Fail> {
    for (bytes, line, file) in [
        (b"# 0012 1 2".as_slice(), 12, None),
        (b"# 0 \"\"".as_slice(), 0, Some(b"".as_slice())),
        (
            b"# 3 \"d%\\\"\" 1 3".as_slice(),
            3,
            Some(b"d%\\\"".as_slice()),
        ),
    ] {
        let text = SourceText::new(bytes).ok_or("too large")?;
        let tokens = lex(rt.alloc(), text)?;
        assert_eq!(rt; tokens.len(), 1);
        let is_marker = tokens[0].kind == Kind::Line;
        assert!(rt; is_marker);
        assert_eq!(rt; marker_of(text, &tokens[0]), Marker { line, file });
    }
    Ok(())
}

#[test]
fn a_stop_prints_its_cause(rt: HostRuntime) -> Result<(), Fail> {
    for (stop, want) in [
        (LexStop::BadByte { at: 14 }, "no token begins at byte 14"),
        (
            LexStop::Unclosed { at: 5 },
            "what begins at byte 5 does not end",
        ),
        (LexStop::Memory, "want of memory"),
    ] {
        let text = stop.to_string(rt.alloc())?;
        assert_eq!(rt; text.as_str(), want);
    }
    Ok(())
}
