//! Expressions that are read, where they end, and which tokens are blamed.

use c_lexer::laws::law_within_the_text;
use c_lexer::{SourceText, lex};
use c_reading::{Cursor, Stop};
use c_syntax::read_expr;
use c_tree::{BaseForm, Expr, Prefix, Scopes};
use line_marks::laws::law_kept_positions;
use line_marks::strip;
use std::alloc::Global;
use std::test::Fail;

/// What is read of a text, and the number of the next token. The name `T` is a typedef name.
fn read(alloc: Global, bytes: &[u8]) -> Result<(Result<Expr, Stop>, u32), Fail> {
    law_within_the_text();
    law_kept_positions();
    let text = SourceText::new(bytes).ok_or("the text is too long")?;
    let tokens = lex(alloc, text)?;
    let kept = strip(alloc, &tokens)?;
    let mut scopes = Scopes::new(alloc);
    scopes.declare(b"T", true)?;
    let mut cursor = Cursor::new(text.bytes, &tokens, &kept);
    let result = read_expr(alloc, &mut cursor, &mut scopes);
    Ok((result, cursor.at()))
}

/// How many tokens are read of a text, or why it is not read.
fn read_to(alloc: Global, bytes: &[u8]) -> Result<Result<u32, Stop>, Fail> {
    let (result, at) = read(alloc, bytes)?;
    match result {
        Ok(_) => Ok(Ok(at)),
        Err(stop) => Ok(Err(stop)),
    }
}

/// The prefixes and the base of an expression that is one operand.
fn sole_operand(expr: &Expr) -> Option<(&[Prefix], &BaseForm)> {
    match expr.parts.items() {
        [part] => Some((
            part.value.last.first.prefixes.items(),
            &part.value.last.first.base.form,
        )),
        _ => None,
    }
}

// `( T ) + 1` is a cast of `+1`, and `( x ) + 1` a sum whose first operand is a group.
#[test]
fn a_typedef_name_in_parentheses_is_a_cast(rt: HostRuntime) -> Result<(), Fail> {
    for (text, prefix_count, is_group) in [
        (b"( T ) + 1".as_slice(), 2, false),
        (b"( x ) + 1".as_slice(), 0, true),
    ] {
        let (result, at) = read(rt.alloc(), text)?;
        assert_eq!(rt; at, 5);
        let expr = result?;
        let (prefixes, form) = sole_operand(&expr).ok_or("several parts")?;
        assert_eq!(rt; prefixes.len(), prefix_count);
        assert_eq!(rt; matches!(form, BaseForm::Group(..)), is_group);
    }
    Ok(())
}

#[test]
fn the_longest_run_is_read_and_the_first_offending_token_blamed(
    rt: HostRuntime,
) -> Result<(), Fail> {
    for (text, want) in [
        (b"a".as_slice(), Ok(1)),
        (b"a + ;".as_slice(), Err(2)),
        (b"a + b = c".as_slice(), Ok(3)),
        (b"a = b += c".as_slice(), Ok(5)),
        (b"(T)x = 1".as_slice(), Ok(4)),
        (b"*(T)p = 3".as_slice(), Ok(7)),
        (b"(T){0} = x".as_slice(), Ok(8)),
        (b"a ? b : c = d".as_slice(), Ok(5)),
        (b"++(T)x".as_slice(), Err(4)),
        (b"++(T){1}".as_slice(), Ok(7)),
        (b"sizeof(T)x".as_slice(), Ok(4)),
        (b"sizeof(T){1}.m".as_slice(), Ok(9)),
        (b"sizeof(T)[1]".as_slice(), Ok(4)),
        (b"sizeof(x)[1]".as_slice(), Ok(7)),
        (b"_Alignof(int *){1}".as_slice(), Ok(5)),
        (b"_Alignof x".as_slice(), Err(1)),
        (b"_Alignof(x)".as_slice(), Err(2)),
        (b"f(a, b)(c)[d].T->T++".as_slice(), Ok(17)),
        (b"f(a,)".as_slice(), Err(4)),
        (b"(T){1, 2,}".as_slice(), Ok(9)),
        (b"(T){}".as_slice(), Err(4)),
        (b"\"a\" \"b\" L\"c\" d".as_slice(), Ok(3)),
        (b"T".as_slice(), Err(0)),
        (b"(unsigned long T)1".as_slice(), Err(3)),
        (b"(T T)1".as_slice(), Err(2)),
        (b"(unsigned long **)1".as_slice(), Ok(7)),
        (b"a, b, (c, d)".as_slice(), Ok(9)),
        (b"(a".as_slice(), Err(2)),
        (b"".as_slice(), Err(0)),
        (b"- - & * ~ ! -- x --".as_slice(), Ok(9)),
        (b"a ? b ? c : d : e ? f : g".as_slice(), Ok(13)),
        (b"a ? b".as_slice(), Err(3)),
        (b"a < b > c && d || e ^ 'f' % .5".as_slice(), Ok(13)),
    ] {
        let got = read_to(rt.alloc(), text)?;
        match want {
            Ok(count) => assert_eq!(rt; got, Ok(count)),
            Err(token) => assert_eq!(rt; got, Err(Stop::Offends { token })),
        }
    }
    Ok(())
}

/// The first piece so many times, the middle, and the last piece as often.
fn nested(
    alloc: Global,
    opening: &[u8],
    count: usize,
    middle: &[u8],
    closing: &[u8],
) -> Result<Vec<u8>, Fail> {
    let mut text = Vec::new(alloc);
    for _level in 0..count {
        text.extend_from_slice(opening)?;
    }
    text.extend_from_slice(middle)?;
    for _level in 0..count {
        text.extend_from_slice(closing)?;
    }
    Ok(text)
}

// A bracket and what stands in it are one level deeper, and so is what stands behind a `?` up to
// its `:`. A chain of casts is no deeper than one.
#[test]
fn a_token_of_level_257_is_too_deep_where_it_may_stand(rt: HostRuntime) -> Result<(), Fail> {
    for (opening, count, middle, closing, want) in [
        (
            b"(".as_slice(),
            255,
            b"a".as_slice(),
            b")".as_slice(),
            Ok(511),
        ),
        (
            b"(".as_slice(),
            256,
            b"a".as_slice(),
            b")".as_slice(),
            Ok(513),
        ),
        (
            b"(".as_slice(),
            257,
            b"a".as_slice(),
            b")".as_slice(),
            Err(Stop::TooDeep { token: 256 }),
        ),
        (
            b"(".as_slice(),
            255,
            b"a[1]".as_slice(),
            b")".as_slice(),
            Ok(514),
        ),
        (
            b"(".as_slice(),
            256,
            b"a[1]".as_slice(),
            b")".as_slice(),
            Err(Stop::TooDeep { token: 257 }),
        ),
        (
            b"(".as_slice(),
            256,
            b"[".as_slice(),
            b")".as_slice(),
            Err(Stop::Offends { token: 256 }),
        ),
        (
            b"(".as_slice(),
            256,
            b"a{".as_slice(),
            b")".as_slice(),
            Err(Stop::Offends { token: 257 }),
        ),
        (
            b"a[".as_slice(),
            256,
            b"1".as_slice(),
            b"]".as_slice(),
            Ok(769),
        ),
        (
            b"a[".as_slice(),
            257,
            b"1".as_slice(),
            b"]".as_slice(),
            Err(Stop::TooDeep { token: 513 }),
        ),
        (
            b"a[".as_slice(),
            256,
            b"{".as_slice(),
            b"]".as_slice(),
            Err(Stop::Offends { token: 512 }),
        ),
        (
            b"a?".as_slice(),
            255,
            b"b".as_slice(),
            b":c".as_slice(),
            Ok(1021),
        ),
        (
            b"a?".as_slice(),
            256,
            b"b".as_slice(),
            b":c".as_slice(),
            Ok(1025),
        ),
        (
            b"a?".as_slice(),
            257,
            b"b".as_slice(),
            b":c".as_slice(),
            Err(Stop::TooDeep { token: 514 }),
        ),
        (
            b"a?".as_slice(),
            257,
            b":".as_slice(),
            b":c".as_slice(),
            Err(Stop::Offends { token: 514 }),
        ),
        (
            b"(T)(".as_slice(),
            255,
            b"(T)a".as_slice(),
            b")".as_slice(),
            Ok(1279),
        ),
        (
            b"(T)(".as_slice(),
            256,
            b"a".as_slice(),
            b")".as_slice(),
            Ok(1281),
        ),
        (
            b"(T)(".as_slice(),
            256,
            b"(T)a".as_slice(),
            b")".as_slice(),
            Err(Stop::TooDeep { token: 1024 }),
        ),
        (
            b"(T)(".as_slice(),
            256,
            b"{".as_slice(),
            b")".as_slice(),
            Err(Stop::Offends { token: 1024 }),
        ),
        (
            b"(T)".as_slice(),
            257,
            b"a".as_slice(),
            b"".as_slice(),
            Ok(772),
        ),
    ] {
        let text = nested(rt.alloc(), opening, count, middle, closing)?;
        let got = read_to(rt.alloc(), &text)?;
        assert_eq!(rt; got, want);
    }
    Ok(())
}

#[test]
fn chains_of_a_million_are_read(rt: HostRuntime) -> Result<(), Fail> {
    for (link, rest, want) in [
        (b"a+".as_slice(), b"a".as_slice(), 2_000_001),
        (b"a=".as_slice(), b"a".as_slice(), 2_000_001),
        (b"!".as_slice(), b"a".as_slice(), 1_000_001),
        (b"a,".as_slice(), b"a".as_slice(), 2_000_001),
        (b"\"\"".as_slice(), b"".as_slice(), 1_000_000),
    ] {
        let text = nested(rt.alloc(), link, 1_000_000, rest, b"")?;
        let got = read_to(rt.alloc(), &text)?;
        assert_eq!(rt; got, Ok(want));
    }
    for (first, link, rest, want) in [
        (b"a".as_slice(), b".m".as_slice(), b"".as_slice(), 2_000_001),
        (
            b"(T".as_slice(),
            b"*".as_slice(),
            b")a".as_slice(),
            1_000_004,
        ),
    ] {
        let mut text = Vec::new(rt.alloc());
        text.extend_from_slice(first)?;
        let links = nested(rt.alloc(), link, 1_000_000, rest, b"")?;
        text.extend_from_slice(&links)?;
        let got = read_to(rt.alloc(), &text)?;
        assert_eq!(rt; got, Ok(want));
    }
    Ok(())
}
