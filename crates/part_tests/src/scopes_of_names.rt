//! From where to where a name is a typedef name.

use crate::read_parts::{As, read_as, read_behind};
use c_reading::Stop;
use c_tree::Scopes;
use std::test::Fail;

#[test]
fn what_is_declared_before_decides_what_a_name_is(rt: HostRuntime) -> Result<(), Fail> {
    for (before, part, text, want) in [
        (b"int x;".as_slice(), As::Expr, b"( T ) x".as_slice(), Ok(3)),
        (
            b"int x;".as_slice(),
            As::Declaration,
            b"T x;".as_slice(),
            Err(0),
        ),
        (
            b"typedef int T;".as_slice(),
            As::Expr,
            b"( T ) x".as_slice(),
            Ok(4),
        ),
        // The parameters of a declaration count in its list alone, also for the declarators in it.
        (
            b"typedef int T; int f(T T);".as_slice(),
            As::Declaration,
            b"T x;".as_slice(),
            Ok(3),
        ),
        (
            b"typedef int T;".as_slice(),
            As::Declaration,
            b"int f(int T, T x);".as_slice(),
            Err(6),
        ),
        (
            b"typedef int T;".as_slice(),
            As::Declaration,
            b"int (*f(int T))[sizeof(T){1}];".as_slice(),
            Ok(19),
        ),
        (
            b"typedef int T;".as_slice(),
            As::TypeName,
            b"int (*)(int T, char (*)[(T)1])".as_slice(),
            Err(16),
        ),
        // Members have names of their own.
        (
            b"typedef int T; struct S { T T; T y; };".as_slice(),
            As::Declaration,
            b"T x;".as_slice(),
            Ok(3),
        ),
        // An enumerator counts behind its value, in a structure and in parentheses too, and from
        // then on around them.
        (
            b"typedef int T; int x = sizeof(struct { enum { T = (T)1 } y; });".as_slice(),
            As::Declaration,
            b"T x;".as_slice(),
            Err(0),
        ),
        // A declarator's name counts before its initialiser, and hides for those behind it.
        (
            b"typedef int T;".as_slice(),
            As::Declaration,
            b"int x = (T)1, T, y = (T)1;".as_slice(),
            Err(15),
        ),
        // What was a typedef name is none behind another declaration of it in the same scope.
        (
            b"typedef int T; int T;".as_slice(),
            As::Declaration,
            b"T x;".as_slice(),
            Err(0),
        ),
    ] {
        let got = read_behind(rt.alloc(), before, part, text)?;
        match want {
            Ok(count) => assert_eq!(rt; got, Ok(count)),
            Err(token) => assert_eq!(rt; got, Err(Stop::Offends { token })),
        }
    }
    Ok(())
}

#[test]
fn a_name_of_a_block_hides_a_typedef_name_until_its_end(rt: HostRuntime) -> Result<(), Fail> {
    let mut scopes = Scopes::new(rt.alloc());
    let got = read_as(rt.alloc(), As::Declaration, b"typedef int T;", &mut scopes)?;
    assert_eq!(rt; got, Ok(4));
    scopes.enter()?;
    let got = read_as(rt.alloc(), As::Declaration, b"T T;", &mut scopes)?;
    assert_eq!(rt; got, Ok(3));
    let got = read_as(rt.alloc(), As::Expr, b"( T ) x", &mut scopes)?;
    assert_eq!(rt; got, Ok(3));
    scopes.leave();
    let got = read_as(rt.alloc(), As::Expr, b"( T ) x", &mut scopes)?;
    assert_eq!(rt; got, Ok(4));
    Ok(())
}
