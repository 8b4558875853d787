//! Files that are read and files that are not, and the trees of two of them.

ghost use Rattle.std.specs.Prelude.{◌<◌, length};

use c_lexer::laws::law_within_the_text;
use c_lexer::mark::{
    MARK_LEFT_BRACE, MARK_LEFT_PAREN, MARK_RIGHT_BRACE, MARK_RIGHT_PAREN, MARK_SEMICOLON,
};
use c_lexer::{SourceText, lex};
use c_tree::{Assign, BaseForm, BlockItem, Item, Slot, StmtKind, Unit, Want, spell};
use first_grammar::{GrammarStop, read_unit};
use line_marks::laws::law_kept_positions;
use line_marks::strip;
use std::alloc::Global;
use std::test::Fail;

/// What is read of a short text.
fn read(alloc: Global, bytes: &[u8]) -> Result<Result<Unit, GrammarStop>, Fail>
    requires { length bytes.now < 100 }
{
    law_within_the_text();
    law_kept_positions();
    let text = SourceText { bytes };
    let tokens = lex(alloc, text)?;
    let kept = strip(alloc, &tokens)?;
    Ok(read_unit(alloc, text, &tokens, &kept))
}

#[test]
fn a_file_of_functions_of_sums_and_assignments_is_read(rt: HostRuntime) -> Result<(), Fail> {
    for (text, is_read) in [
        (b"".as_slice(), true),
        (b"int f(void){}".as_slice(), true),
        (
            b"# 1 \"a.c\"\nint f(void) __asm__(\"g\") {1;2;}".as_slice(),
            true,
        ),
        (b"int f(void){a=b=1+c;}".as_slice(), true),
        (b"int f(void){1=2;f;}".as_slice(), true),
        (b"int f(void){} int g(void){f+g+f;}".as_slice(), true),
        (
            b"int f(void){} int g(void){} int f(void){x;}".as_slice(),
            false,
        ),
        (b"char f(void){}".as_slice(), false),
        (b"int f(int){}".as_slice(), false),
        (b"int f(){}".as_slice(), false),
        (b"int f(void);".as_slice(), false),
        (b"int f(void){".as_slice(), false),
        (b"int f(void){}}".as_slice(), false),
        (b"int f(void){;}".as_slice(), false),
        (b"int f(void){x}".as_slice(), false),
        (b"int f(void){a+b=c;}".as_slice(), false),
        (b"int f(void){a+;}".as_slice(), false),
        (b"int f(void){a b;}".as_slice(), false),
    ] {
        assert!(rt; text.len() < 100);
        match read(rt.alloc(), text)? {
            Ok(_) => assert!(rt; is_read),
            Err(stop) => {
                assert_eq!(rt; stop, GrammarStop::Unbuilt);
                assert!(rt; !is_read);
            }
        }
    }
    Ok(())
}

// `__extension__ int f(void){x=1;}`: the numbers of the tree count the kept tokens, of which `int`
// is the first.
#[test]
fn a_tree_spells_the_kept_tokens_of_its_file(rt: HostRuntime) -> Result<(), Fail> {
    let unit = read(rt.alloc(), b"__extension__ int f(void){x=1;}")??;
    let symbols = spell(rt.alloc(), &unit)?;
    let wants = [
        Want::Among(Slot::Basic),
        Want::Word,
        Want::Mark(MARK_LEFT_PAREN),
        Want::Among(Slot::Basic),
        Want::Mark(MARK_RIGHT_PAREN),
        Want::Mark(MARK_LEFT_BRACE),
        Want::Word,
        Want::Among(Slot::AssignOp),
        Want::Among(Slot::Literal),
        Want::Mark(MARK_SEMICOLON),
        Want::Mark(MARK_RIGHT_BRACE),
    ];
    assert_eq!(rt; symbols.len(), wants.len());
    for (i, (symbol, want)) in symbols.iter().zip(wants).enumerate() {
        assert_eq!(rt; symbol.token as usize, i);
        assert_eq!(rt; symbol.want, want, "at token {i}");
    }
    Ok(())
}

/// The first part of the one expression of a file's one function.
fn sole_part(unit: &Unit) -> Option<&Assign> {
    let [Item::Define { body, .. }] = unit.items.items() else {
        return None;
    };
    let [BlockItem::Do(stmt)] = body.items.items() else {
        return None;
    };
    match &stmt.kind {
        StmtKind::Value(expr, _) => expr.parts.items().first(),
        _ => None,
    }
}

// In `int f(void){a=b=1+c;}` tokens 7 and 9 are `=`, token 10 is `1` and token 11 is `+`.
#[test]
fn what_stands_before_an_equal_sign_is_a_target(rt: HostRuntime) -> Result<(), Fail> {
    let unit = read(rt.alloc(), b"int f(void){a=b=1+c;}")??;
    let part = sole_part(&unit).ok_or("no expression")?;
    let equals = part.targets.items().iter().map(|target| target.1);
    assert!(rt; equals.eq([7, 9]));
    let value = &part.value.last;
    let is_one = match &value.first.base.form {
        BaseForm::Literal(tokens) => tokens.items() == [10].as_slice(),
        _ => false,
    };
    assert!(rt; is_one);
    let pluses = value.rest.items().iter().map(|addend| addend.0);
    assert!(rt; pluses.eq([11]));
    Ok(())
}
