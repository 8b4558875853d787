//! Where parts end, and which token is blamed: the places where a descent that reads as it goes
//! would blame another one, behind `typedef int T;`. An `Err` has the number of the first token
//! that offends.

use crate::read_parts::{As, read_behind};
use c_reading::Stop;
use std::test::Fail;

// Assignment behind what is no target, prefixes and sizes before a type in parentheses, calls and
// initialisers.
#[test]
fn expressions_end_where_nothing_goes_on(rt: HostRuntime) -> Result<(), Fail> {
    for (text, want) in [
        (b"( T ) + 1".as_slice(), Ok(5)),
        (b"( x ) + 1".as_slice(), Ok(5)),
        (b"a + ;".as_slice(), Err(2)),
        (b"a + b = c".as_slice(), Ok(3)),
        (b"sizeof(struct { int a; } *)".as_slice(), Ok(10)),
        (b"(T){.a[1] = 2, {3},}.b".as_slice(), Ok(19)),
        (b"(int (*)(T, ...)){0}".as_slice(), Ok(14)),
        (b"(T)x = 1".as_slice(), Ok(4)),
        (b"*(T)p = 3".as_slice(), Ok(7)),
        (b"(T){0} = x".as_slice(), Ok(8)),
        (b"a ? b : c = d".as_slice(), Ok(5)),
        (b"a ? b = c : d".as_slice(), Ok(7)),
        (b"++(T)x".as_slice(), Err(4)),
        (b"++(T){1}".as_slice(), Ok(7)),
        (b"sizeof(T)x".as_slice(), Ok(4)),
        (b"sizeof(T)[1]".as_slice(), Ok(4)),
        (b"sizeof(x)[1]".as_slice(), Ok(7)),
        (b"sizeof(T){1}.m".as_slice(), Ok(9)),
        (b"_Alignof(T){1}".as_slice(), Ok(4)),
        (b"_Alignof x".as_slice(), Err(1)),
        (b"_Alignof(x)".as_slice(), Err(2)),
        (b"f(a,)".as_slice(), Err(4)),
        (b"(T){}".as_slice(), Err(4)),
        (b"(T){1, 2,}".as_slice(), Ok(9)),
        (b"T".as_slice(), Err(0)),
    ] {
        let got = read_behind(rt.alloc(), b"typedef int T;", As::Expr, text)?;
        match want {
            Ok(count) => assert_eq!(rt; got, Ok(count)),
            Err(token) => assert_eq!(rt; got, Err(Stop::Offends { token })),
        }
    }
    Ok(())
}

// Groups, arrays, qualifiers and specifiers of a declarator that declares nothing.
#[test]
fn type_names_have_no_names(rt: HostRuntime) -> Result<(), Fail> {
    for (text, want) in [
        (b"T".as_slice(), Ok(1)),
        (b"int".as_slice(), Ok(1)),
        (b"x".as_slice(), Err(0)),
        (b"unsigned T".as_slice(), Ok(1)),
        (b"int *const *".as_slice(), Ok(4)),
        (b"int * _Atomic (x)".as_slice(), Ok(3)),
        (b"int x".as_slice(), Ok(1)),
        (b"int (".as_slice(), Err(2)),
        (b"int ((".as_slice(), Err(3)),
        (b"int (*)".as_slice(), Ok(4)),
        (b"int (T)".as_slice(), Ok(4)),
        (b"int (x)".as_slice(), Err(2)),
        (b"int ()".as_slice(), Ok(3)),
        (b"int (())".as_slice(), Ok(5)),
        (b"int (...)".as_slice(), Err(2)),
        (b"int [const *]".as_slice(), Err(4)),
        (b"int [*]".as_slice(), Ok(4)),
        (b"int [static 1]".as_slice(), Ok(5)),
        (b"int [static static".as_slice(), Err(3)),
        (b"register int".as_slice(), Err(0)),
        (b"struct S".as_slice(), Ok(2)),
        (b"struct".as_slice(), Err(1)),
        (b"struct {".as_slice(), Err(2)),
        (b"struct { }".as_slice(), Err(2)),
        (b"enum { }".as_slice(), Err(2)),
        (b"_Atomic(int) *".as_slice(), Ok(5)),
        (b"_Atomic int".as_slice(), Ok(2)),
        (b"_Alignas(1) int".as_slice(), Err(0)),
    ] {
        let got = read_behind(rt.alloc(), b"typedef int T;", As::TypeName, text)?;
        match want {
            Ok(count) => assert_eq!(rt; got, Ok(count)),
            Err(token) => assert_eq!(rt; got, Err(Stop::Offends { token })),
        }
    }
    Ok(())
}

// By places: constant expressions and assertions, arrays, qualifiers, typedef names, groups and
// parameters, bit-fields, bodies, lists that are not empty, storage classes, initialisers, and
// where a name begins to count.
#[test]
fn declarations_are_read_to_their_semicolon(rt: HostRuntime) -> Result<(), Fail> {
    for (text, want) in [
        (b"extern _Float128 h (_Float128 x);".as_slice(), Ok(8)),
        (b"int a, *b, c[1], d(void);".as_slice(), Ok(16)),
        (b"int;".as_slice(), Ok(2)),
        (b";".as_slice(), Err(0)),
        (b"int a[1, 2];".as_slice(), Err(4)),
        (b"struct S { int w : 1, 2; };".as_slice(), Err(8)),
        (b"struct S { int w : 1 = 2; };".as_slice(), Err(7)),
        (b"enum { A = 1 = 2 };".as_slice(), Err(5)),
        (b"enum { A = 1, 2 };".as_slice(), Err(6)),
        (b"int a[] = {[1, 2] = 3};".as_slice(), Err(8)),
        (b"_Alignas(1, 2) int x;".as_slice(), Err(3)),
        (b"_Static_assert(1, \"s\");".as_slice(), Ok(7)),
        (b"_Static_assert(1, 2);".as_slice(), Err(4)),
        (b"_Static_assert(1);".as_slice(), Err(3)),
        (b"_Static_assert(1, 2, \"s\");".as_slice(), Err(4)),
        (
            b"struct S { _Static_assert(1, \"s\"); int x; };".as_slice(),
            Ok(15),
        ),
        (b"void f(int a[static 1]);".as_slice(), Ok(11)),
        (b"void f(int a[static static 1]);".as_slice(), Err(7)),
        (b"void f(int a[const static 1]);".as_slice(), Ok(12)),
        (b"void f(int a[const static const 1]);".as_slice(), Err(8)),
        (b"void f(int a[static const 1]);".as_slice(), Ok(12)),
        (b"void f(int a[static *]);".as_slice(), Err(8)),
        (b"void f(int a[*]);".as_slice(), Ok(10)),
        (b"void f(int a[const *]);".as_slice(), Ok(11)),
        (b"int * _Atomic (x);".as_slice(), Err(3)),
        (b"int * _Atomic x;".as_slice(), Ok(5)),
        (b"static x;".as_slice(), Err(1)),
        (b"T T;".as_slice(), Ok(3)),
        (b"unsigned T;".as_slice(), Ok(3)),
        (b"long T x;".as_slice(), Err(2)),
        (b"T T x;".as_slice(), Err(2)),
        (b"int ();".as_slice(), Err(2)),
        (b"int (x);".as_slice(), Ok(5)),
        (b"int (*x)(T);".as_slice(), Ok(9)),
        (b"void f(int (()));".as_slice(), Ok(10)),
        (b"void f(int (T));".as_slice(), Ok(9)),
        (b"void f(int (x));".as_slice(), Ok(9)),
        (b"void f(...);".as_slice(), Err(3)),
        (b"void f(int, ..., int);".as_slice(), Err(6)),
        (b"void f(int, ...);".as_slice(), Ok(8)),
        (b"void f(a, b);".as_slice(), Err(3)),
        (b"int f(), g(void);".as_slice(), Ok(10)),
        (b"struct S { int : 3; };".as_slice(), Ok(9)),
        (b"struct S { int * : 3; };".as_slice(), Err(5)),
        (b"struct S { int x : 3, : 2, *y; };".as_slice(), Ok(16)),
        (b"int f(void) { }".as_slice(), Err(5)),
        (b"int x = 1 { }".as_slice(), Err(4)),
        (b"struct { };".as_slice(), Err(2)),
        (b"struct;".as_slice(), Err(1)),
        (b"struct S { int x, };".as_slice(), Err(6)),
        (b"enum { };".as_slice(), Err(2)),
        (b"enum { A, };".as_slice(), Ok(6)),
        (b"int a[] = {};".as_slice(), Err(6)),
        (b"int a[] = {1,};".as_slice(), Ok(10)),
        (b"int a[] = {1,,};".as_slice(), Err(8)),
        (b"void f(static int x);".as_slice(), Err(3)),
        (b"void f(register int x);".as_slice(), Ok(8)),
        (b"struct S { register int x; };".as_slice(), Err(3)),
        (b"typedef static int x;".as_slice(), Ok(5)),
        (b"static _Thread_local int x;".as_slice(), Ok(5)),
        (b"inline int f(void);".as_slice(), Ok(7)),
        (b"int x = a + b = c;".as_slice(), Err(6)),
        (b"int x = (T)y = 1;".as_slice(), Err(7)),
        (b"int x = *(T)p = 3;".as_slice(), Ok(11)),
        (b"int x = (T){0} = y;".as_slice(), Ok(12)),
        (b"int x = a, y = b;".as_slice(), Ok(9)),
        (b"enum { T = sizeof(T){1} };".as_slice(), Ok(13)),
        (b"int T = sizeof(T){1};".as_slice(), Err(7)),
        (b"int T = 1, y = (T)2;".as_slice(), Err(10)),
        (b"enum { A = 1, B = A };".as_slice(), Ok(11)),
        (b"struct S { T T; T y; };".as_slice(), Ok(11)),
        (b"int x = {.a[1].b = 2, [3] = {4}};".as_slice(), Ok(23)),
    ] {
        let got = read_behind(rt.alloc(), b"typedef int T;", As::Declaration, text)?;
        match want {
            Ok(count) => assert_eq!(rt; got, Ok(count)),
            Err(token) => assert_eq!(rt; got, Err(Stop::Offends { token })),
        }
    }
    Ok(())
}
