//! Tokens that are taken from a short text.

ghost use Rattle.std.specs.Prelude.{◌<◌, length, IfOk};
ghost use Rattle.std.specs.List.{All};
ghost use Rattle.c_lexer.specs.Reading.{IsWithin};

use crate::{Cursor, Stop};
use c_lexer::laws::law_within_the_text;
use c_lexer::mark::{MARK_LEFT_BRACKET, MARK_RIGHT_BRACKET};
use c_lexer::{Kind, SourceText, Token, lex};
use std::alloc::Global;
use std::test::Fail;

/// The tokens of a short text.
fn tokens_of(alloc: Global, bytes: &[u8]) -> Result<Vec<Token>, Fail>
    requires { length bytes.now < 100 }
    ensures within { IfOk result (λ tokens. All (IsWithin bytes.now) tokens.items) }
{
    law_within_the_text();
    Ok(lex(alloc, SourceText { bytes })?)
}

// `a __extension__ [ T`, of which the second token is not kept.
#[test]
fn kept_tokens_are_taken_one_by_one(rt: HostRuntime) -> Result<(), Fail> {
    let bytes = b"a __extension__ [ T".as_slice();
    let tokens = tokens_of(rt.alloc(), bytes)?;
    assert_eq!(rt; tokens.len(), 4);
    let kept = [0, 2, 3];
    let mut cursor = Cursor::new(bytes, &tokens, &kept);
    assert_eq!(rt; cursor.at(), 0);
    assert_eq!(rt; cursor.left(), 3);
    assert_eq!(rt; cursor.level(), 0);
    assert_eq!(rt; cursor.room(), 257);
    assert_eq!(rt; cursor.ahead(), Some(Kind::Word));
    assert_eq!(rt; cursor.spelling(), b"a".as_slice());
    assert_eq!(rt; cursor.take(cursor.room()), Ok(0));
    assert!(rt; cursor.is_at(Kind::Mark(MARK_LEFT_BRACKET)));
    assert!(rt; !cursor.is_at(Kind::Mark(MARK_RIGHT_BRACKET)));
    assert_eq!(rt;
        cursor.expect(Kind::Word, 257),
        Err(Stop::Offends { token: 1 })
    );
    assert_eq!(rt; cursor.expect(Kind::Mark(MARK_LEFT_BRACKET), 256), Ok(1));
    assert_eq!(rt; cursor.spelling(), b"T".as_slice());
    assert_eq!(rt; cursor.take(0), Err(Stop::TooDeep { token: 2 }));
    assert_eq!(rt; cursor.take(1), Ok(2));
    assert_eq!(rt; cursor.ahead(), None);
    assert_eq!(rt; cursor.spelling(), b"".as_slice());
    assert_eq!(rt; cursor.take(0), Err(Stop::Offends { token: 3 }));
    assert_eq!(rt; cursor.refusal(), Stop::Offends { token: 3 });
    Ok(())
}

// A token of level 256 has room, and one of level 257 none.
#[test]
fn levels_are_left_up_to_256(rt: HostRuntime) -> Result<(), Fail> {
    let mut cursor = Cursor::new(b"", &[], &[]);
    for (level, want) in [(0, 257), (255, 2), (256, 1), (257, 0), (1000, 0)] {
        cursor.set_level(level);
        assert_eq!(rt; cursor.level(), level);
        assert_eq!(rt; cursor.room(), want);
    }
    Ok(())
}
