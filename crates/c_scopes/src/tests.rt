//! Names as a parser meets them.

use crate::scopes::Scopes;
use std::test::Fail;

/// Whether `T`, `u`, `f` and the empty name are typedef names.
fn told(scopes: &Scopes) -> [bool; 4] {
    [
        scopes.is_typedef(b"T"),
        scopes.is_typedef(b"u"),
        scopes.is_typedef(b"f"),
        scopes.is_typedef(b""),
    ]
}

// `typedef int T; void f(void) { T T; { typedef int u, T; } }`.
#[test]
fn a_name_is_what_its_last_declaration_in_an_open_scope_says(rt: HostRuntime) -> Result<(), Fail> {
    let mut scopes = Scopes::new(rt.alloc());
    assert_eq!(rt; told(&scopes), [false, false, false, false], "at first");
    scopes.declare(b"T", true)?;
    scopes.declare(b"f", false)?;
    assert_eq!(rt; told(&scopes), [true, false, false, false], "in the file");
    scopes.enter()?;
    assert_eq!(rt; told(&scopes), [true, false, false, false], "in the body");
    scopes.declare(b"T", false)?;
    assert_eq!(rt; told(&scopes), [false, false, false, false], "after `T T;`");
    scopes.enter()?;
    scopes.declare(b"u", true)?;
    scopes.declare(b"T", true)?;
    assert_eq!(rt; told(&scopes), [true, true, false, false], "in the block");
    scopes.leave();
    assert_eq!(rt;
        told(&scopes),
        [false, false, false, false],
        "after the block"
    );
    scopes.leave();
    assert_eq!(rt;
        told(&scopes),
        [true, false, false, false],
        "after the body"
    );
    Ok(())
}

// In each scope the number of its depth is a typedef name, and that of the scope around it hidden.
#[test]
fn a_thousand_scopes_are_open(rt: HostRuntime) -> Result<(), Fail> {
    let mut scopes = Scopes::new(rt.alloc());
    for depth in 0..1_000u32 {
        scopes.enter()?;
        scopes.declare(&depth.to_le_bytes(), true)?;
        scopes.declare(&depth.saturating_sub(1).to_le_bytes(), depth == 0)?;
    }
    for depth in 0..1_000u32 {
        let typedef = scopes.is_typedef(&depth.to_le_bytes());
        assert_eq!(rt; typedef, depth == 999, "{depth}");
    }
    Ok(())
}

#[test]
fn a_scope_has_a_hundred_thousand_names(rt: HostRuntime) -> Result<(), Fail> {
    let mut scopes = Scopes::new(rt.alloc());
    for number in 0..100_000u32 {
        scopes.declare(&number.to_le_bytes(), number % 2 == 0)?;
    }
    for number in 0..100_000u32 {
        let typedef = scopes.is_typedef(&number.to_le_bytes());
        assert_eq!(rt; typedef, number % 2 == 0, "{number}");
    }
    Ok(())
}

// More than a window holds. Of each pair `Aa`, `BB` and `C#` add the same to the hash of a name.
#[test]
fn thirty_two_names_have_one_hash(rt: HostRuntime) -> Result<(), Fail> {
    let mut scopes = Scopes::new(rt.alloc());
    for number in 0..32u32 {
        scopes.declare(&alike(number), true)?;
    }
    for number in 0..32u32 {
        assert!(rt; scopes.is_typedef(&alike(number)), "{number}");
        scopes.declare(&alike(number), number % 3 == 0)?;
    }
    for number in 0..32u32 {
        let typedef = scopes.is_typedef(&alike(number));
        assert_eq!(rt; typedef, number % 3 == 0, "{number} again");
    }
    assert!(rt; !scopes.is_typedef(b"C#C#C#C#C#"));
    Ok(())
}

/// The bits of the number, from the lowest on, as `Aa` for 0 and `BB` for 1.
fn alike(number: u32) -> [u8; 10] {
    let mut name = *b"AaAaAaAaAa";
    for bit in 0..5usize {
        if number & (1 << bit) != 0 {
            name[2 * bit] = b'B';
            name[2 * bit + 1] = b'B';
        }
    }
    name
}
