//! Levels about 256 in parts that hold one another, and chains of a million links.

use crate::read_parts::{As, joined, nested, read_behind};
use c_reading::Stop;
use std::test::Fail;

// Pieces one within another, between what stands before and behind them.
#[test]
fn a_token_of_level_257_is_too_deep_where_it_may_stand(rt: HostRuntime) -> Result<(), Fail> {
    for (part, (before, behind), (opening, count, middle, closing), want) in [
        (
            As::Expr,
            (b"".as_slice(), b"".as_slice()),
            (b"(".as_slice(), 255, b"(T)a".as_slice(), b")".as_slice()),
            Ok(514),
        ),
        (
            As::Expr,
            (b"".as_slice(), b"".as_slice()),
            (b"(".as_slice(), 256, b"(T)a".as_slice(), b")".as_slice()),
            Err(Stop::TooDeep { token: 256 }),
        ),
        (
            As::Expr,
            (b"".as_slice(), b"".as_slice()),
            (
                b"sizeof(int[".as_slice(),
                128,
                b"1".as_slice(),
                b"])".as_slice(),
            ),
            Ok(769),
        ),
        (
            As::Expr,
            (b"".as_slice(), b"".as_slice()),
            (
                b"sizeof(int[".as_slice(),
                129,
                b"1".as_slice(),
                b"])".as_slice(),
            ),
            Err(Stop::TooDeep { token: 513 }),
        ),
        (
            As::TypeName,
            (b"int ".as_slice(), b"".as_slice()),
            (b"(*".as_slice(), 256, b"".as_slice(), b")".as_slice()),
            Ok(769),
        ),
        (
            As::TypeName,
            (b"int ".as_slice(), b"".as_slice()),
            (b"(*".as_slice(), 257, b"".as_slice(), b")".as_slice()),
            Err(Stop::TooDeep { token: 513 }),
        ),
        (
            As::TypeName,
            (b"int ".as_slice(), b"".as_slice()),
            (b"(".as_slice(), 256, b"".as_slice(), b")".as_slice()),
            Ok(513),
        ),
        (
            As::TypeName,
            (b"int ".as_slice(), b"".as_slice()),
            (b"(".as_slice(), 257, b"".as_slice(), b")".as_slice()),
            Err(Stop::TooDeep { token: 257 }),
        ),
        (
            As::TypeName,
            (b"int ".as_slice(), b"".as_slice()),
            (b"(".as_slice(), 256, b"x".as_slice(), b")".as_slice()),
            Err(Stop::Offends { token: 257 }),
        ),
        (
            As::Declaration,
            (b"int ".as_slice(), b";".as_slice()),
            (b"(".as_slice(), 256, b"x".as_slice(), b")".as_slice()),
            Ok(515),
        ),
        (
            As::Declaration,
            (b"int ".as_slice(), b";".as_slice()),
            (b"(".as_slice(), 257, b"x".as_slice(), b")".as_slice()),
            Err(Stop::TooDeep { token: 257 }),
        ),
        (
            As::Declaration,
            (b"int ".as_slice(), b";".as_slice()),
            (b"(".as_slice(), 256, b")".as_slice(), b")".as_slice()),
            Err(Stop::Offends { token: 257 }),
        ),
        (
            As::Declaration,
            (b"int x[".as_slice(), b"];".as_slice()),
            (b"a[".as_slice(), 255, b"1".as_slice(), b"]".as_slice()),
            Ok(771),
        ),
        (
            As::Declaration,
            (b"int x[".as_slice(), b"];".as_slice()),
            (b"a[".as_slice(), 256, b"1".as_slice(), b"]".as_slice()),
            Err(Stop::TooDeep { token: 514 }),
        ),
        (
            As::Declaration,
            (b"int x[".as_slice(), b"];".as_slice()),
            (b"a[".as_slice(), 255, b"{".as_slice(), b"]".as_slice()),
            Err(Stop::Offends { token: 513 }),
        ),
        (
            As::Declaration,
            (b"int x = ".as_slice(), b";".as_slice()),
            (b"{".as_slice(), 256, b"1".as_slice(), b"}".as_slice()),
            Ok(517),
        ),
        (
            As::Declaration,
            (b"int x = ".as_slice(), b";".as_slice()),
            (b"{".as_slice(), 257, b"1".as_slice(), b"}".as_slice()),
            Err(Stop::TooDeep { token: 259 }),
        ),
        (
            As::Declaration,
            (b"int x = ".as_slice(), b";".as_slice()),
            (b"{".as_slice(), 256, b"}".as_slice(), b"}".as_slice()),
            Err(Stop::Offends { token: 259 }),
        ),
        (
            As::Declaration,
            (b"int x = ".as_slice(), b";".as_slice()),
            (b"(T){".as_slice(), 256, b"1".as_slice(), b"}".as_slice()),
            Ok(1285),
        ),
        (
            As::Declaration,
            (b"int x = ".as_slice(), b";".as_slice()),
            (b"(T){".as_slice(), 257, b"1".as_slice(), b"}".as_slice()),
            Err(Stop::TooDeep { token: 1027 }),
        ),
        (
            As::Declaration,
            (b"int x = ".as_slice(), b";".as_slice()),
            (b"a?".as_slice(), 256, b"b".as_slice(), b":c".as_slice()),
            Ok(1029),
        ),
        (
            As::Declaration,
            (b"int x = ".as_slice(), b";".as_slice()),
            (b"a?".as_slice(), 257, b"b".as_slice(), b":c".as_slice()),
            Err(Stop::TooDeep { token: 517 }),
        ),
        (
            As::Declaration,
            (b"int x = ".as_slice(), b";".as_slice()),
            (b"a?".as_slice(), 257, b":".as_slice(), b":c".as_slice()),
            Err(Stop::Offends { token: 517 }),
        ),
        (
            As::Declaration,
            (b"".as_slice(), b"".as_slice()),
            (
                b"struct { ".as_slice(),
                256,
                b"int x;".as_slice(),
                b"} x;".as_slice(),
            ),
            Ok(1283),
        ),
        (
            As::Declaration,
            (b"".as_slice(), b"".as_slice()),
            (
                b"struct { ".as_slice(),
                257,
                b"int x;".as_slice(),
                b"} x;".as_slice(),
            ),
            Err(Stop::TooDeep { token: 513 }),
        ),
        (
            As::Declaration,
            (b"".as_slice(), b"".as_slice()),
            (
                b"struct { ".as_slice(),
                256,
                b"}".as_slice(),
                b"} x;".as_slice(),
            ),
            Err(Stop::Offends { token: 512 }),
        ),
        (
            As::Declaration,
            (b"int f".as_slice(), b";".as_slice()),
            (b"(int g".as_slice(), 256, b"".as_slice(), b")".as_slice()),
            Ok(1027),
        ),
        (
            As::Declaration,
            (b"int f".as_slice(), b";".as_slice()),
            (b"(int g".as_slice(), 257, b"".as_slice(), b")".as_slice()),
            Err(Stop::TooDeep { token: 770 }),
        ),
        (
            As::Declaration,
            (b"int f".as_slice(), b";".as_slice()),
            (b"(int g".as_slice(), 256, b"{".as_slice(), b")".as_slice()),
            Err(Stop::Offends { token: 770 }),
        ),
        (
            As::Declaration,
            (b"enum { A = ".as_slice(), b"};".as_slice()),
            (
                b"sizeof(enum { B = ".as_slice(),
                127,
                b"1".as_slice(),
                b"})".as_slice(),
            ),
            Ok(1023),
        ),
        (
            As::Declaration,
            (b"enum { A = ".as_slice(), b"};".as_slice()),
            (
                b"sizeof(enum { B = ".as_slice(),
                128,
                b"1".as_slice(),
                b"})".as_slice(),
            ),
            Err(Stop::TooDeep { token: 769 }),
        ),
        (
            As::Declaration,
            (b"_Static_assert(".as_slice(), b", \"s\");".as_slice()),
            (b"(".as_slice(), 255, b"1".as_slice(), b")".as_slice()),
            Ok(517),
        ),
        (
            As::Declaration,
            (b"_Static_assert(".as_slice(), b", \"s\");".as_slice()),
            (b"(".as_slice(), 256, b"1".as_slice(), b")".as_slice()),
            Err(Stop::TooDeep { token: 257 }),
        ),
    ] {
        let inner = nested(rt.alloc(), opening, count, middle, closing)?;
        let begun = joined(rt.alloc(), before, &inner)?;
        let text = joined(rt.alloc(), &begun, behind)?;
        let got = read_behind(rt.alloc(), b"typedef int T;", part, &text)?;
        assert_eq!(rt; got, want);
    }
    Ok(())
}

#[test]
fn chains_of_a_million_are_read(rt: HostRuntime) -> Result<(), Fail> {
    for (part, before, link, behind, want) in [
        (
            As::Expr,
            b"".as_slice(),
            b"a+".as_slice(),
            b"a".as_slice(),
            2000001,
        ),
        (
            As::Expr,
            b"".as_slice(),
            b"a=".as_slice(),
            b"a".as_slice(),
            2000001,
        ),
        (
            As::Expr,
            b"".as_slice(),
            b"!".as_slice(),
            b"a".as_slice(),
            1000001,
        ),
        (
            As::Expr,
            b"".as_slice(),
            b"(T)".as_slice(),
            b"a".as_slice(),
            3000001,
        ),
        (
            As::Expr,
            b"a".as_slice(),
            b".m".as_slice(),
            b"".as_slice(),
            2000001,
        ),
        (
            As::Expr,
            b"".as_slice(),
            b"\"\"".as_slice(),
            b"".as_slice(),
            1000000,
        ),
        (
            As::TypeName,
            b"int".as_slice(),
            b"*".as_slice(),
            b"".as_slice(),
            1000001,
        ),
        (
            As::Declaration,
            b"int ".as_slice(),
            b"*".as_slice(),
            b"x;".as_slice(),
            1000003,
        ),
        (
            As::Declaration,
            b"int a".as_slice(),
            b"[1]".as_slice(),
            b";".as_slice(),
            3000003,
        ),
        (
            As::Declaration,
            b"int ".as_slice(),
            b"a,".as_slice(),
            b"a;".as_slice(),
            2000003,
        ),
        (
            As::Declaration,
            b"void f(".as_slice(),
            b"int,".as_slice(),
            b"int);".as_slice(),
            2000006,
        ),
        (
            As::Declaration,
            b"int x = {".as_slice(),
            b".a".as_slice(),
            b"= 1};".as_slice(),
            2000008,
        ),
        (
            As::Declaration,
            b"int x = {".as_slice(),
            b"1,".as_slice(),
            b"};".as_slice(),
            2000006,
        ),
        (
            As::Declaration,
            b"struct { ".as_slice(),
            b"int a;".as_slice(),
            b"};".as_slice(),
            3000004,
        ),
        (
            As::Declaration,
            b"enum { ".as_slice(),
            b"A,".as_slice(),
            b"};".as_slice(),
            2000004,
        ),
        (
            As::Declaration,
            b"".as_slice(),
            b"const ".as_slice(),
            b"int x;".as_slice(),
            1000003,
        ),
    ] {
        let links = nested(rt.alloc(), link, 1_000_000, behind, b"")?;
        let text = joined(rt.alloc(), before, &links)?;
        let got = read_behind(rt.alloc(), b"typedef int T;", part, &text)?;
        assert_eq!(rt; got, Ok(want));
    }
    Ok(())
}
