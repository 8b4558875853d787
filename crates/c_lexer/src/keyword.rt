//! Keywords (C11 6.4.1), with some that system headers use.
//!
//! A keyword's number is its position in the list of spellings (`laws::law_names`). An alternative
//! spelling has the number of the keyword that it stands for, and no constant.

ghost use Rattle.std.specs.Prelude.{◌<◌, ◌^◌, length};
ghost use Rattle.c_lexer.specs.Finds.{Finds};
ghost use Rattle.c_lexer.specs.Keywords.{IsKeyword};

use crate::word_table::look_up;

pub const KEY_AUTO: u8 = 0;

pub const KEY_BREAK: u8 = 1;

pub const KEY_CASE: u8 = 2;

pub const KEY_CHAR: u8 = 3;

pub const KEY_CONST: u8 = 4;

pub const KEY_CONTINUE: u8 = 5;

pub const KEY_DEFAULT: u8 = 6;

pub const KEY_DO: u8 = 7;

pub const KEY_DOUBLE: u8 = 8;

pub const KEY_ELSE: u8 = 9;

pub const KEY_ENUM: u8 = 10;

pub const KEY_EXTERN: u8 = 11;

pub const KEY_FLOAT: u8 = 12;

pub const KEY_FOR: u8 = 13;

pub const KEY_GOTO: u8 = 14;

pub const KEY_IF: u8 = 15;

pub const KEY_INLINE: u8 = 16;

pub const KEY_INT: u8 = 17;

pub const KEY_LONG: u8 = 18;

pub const KEY_REGISTER: u8 = 19;

pub const KEY_RESTRICT: u8 = 20;

pub const KEY_RETURN: u8 = 21;

pub const KEY_SHORT: u8 = 22;

pub const KEY_SIGNED: u8 = 23;

pub const KEY_SIZEOF: u8 = 24;

pub const KEY_STATIC: u8 = 25;

pub const KEY_STRUCT: u8 = 26;

pub const KEY_SWITCH: u8 = 27;

pub const KEY_TYPEDEF: u8 = 28;

pub const KEY_UNION: u8 = 29;

pub const KEY_UNSIGNED: u8 = 30;

pub const KEY_VOID: u8 = 31;

pub const KEY_VOLATILE: u8 = 32;

pub const KEY_WHILE: u8 = 33;

pub const KEY_ALIGNAS: u8 = 34;

pub const KEY_ALIGNOF: u8 = 35;

pub const KEY_ATOMIC: u8 = 36;

pub const KEY_BOOL: u8 = 37;

pub const KEY_COMPLEX: u8 = 38;

pub const KEY_GENERIC: u8 = 39;

pub const KEY_IMAGINARY: u8 = 40;

pub const KEY_NORETURN: u8 = 41;

pub const KEY_STATIC_ASSERT: u8 = 42;

pub const KEY_THREAD_LOCAL: u8 = 43;

pub const KEY_BUILTIN_VA_LIST: u8 = 51;

pub const KEY_FLOAT32: u8 = 52;

pub const KEY_FLOAT64: u8 = 53;

pub const KEY_FLOAT128: u8 = 54;

pub const KEY_FLOAT32X: u8 = 55;

pub const KEY_FLOAT64X: u8 = 56;

pub const KEY_ATTRIBUTE: u8 = 57;

pub const KEY_EXTENSION: u8 = 58;

pub const KEY_ASM: u8 = 59;

pub const KEY_INT128: u8 = 65;

/// The keywords with their numbers.
static KEYWORDS: [(&[u8], u8); 66] = [
    (b"auto", KEY_AUTO),
    (b"break", KEY_BREAK),
    (b"case", KEY_CASE),
    (b"char", KEY_CHAR),
    (b"const", KEY_CONST),
    (b"continue", KEY_CONTINUE),
    (b"default", KEY_DEFAULT),
    (b"do", KEY_DO),
    (b"double", KEY_DOUBLE),
    (b"else", KEY_ELSE),
    (b"enum", KEY_ENUM),
    (b"extern", KEY_EXTERN),
    (b"float", KEY_FLOAT),
    (b"for", KEY_FOR),
    (b"goto", KEY_GOTO),
    (b"if", KEY_IF),
    (b"inline", KEY_INLINE),
    (b"int", KEY_INT),
    (b"long", KEY_LONG),
    (b"register", KEY_REGISTER),
    (b"restrict", KEY_RESTRICT),
    (b"return", KEY_RETURN),
    (b"short", KEY_SHORT),
    (b"signed", KEY_SIGNED),
    (b"sizeof", KEY_SIZEOF),
    (b"static", KEY_STATIC),
    (b"struct", KEY_STRUCT),
    (b"switch", KEY_SWITCH),
    (b"typedef", KEY_TYPEDEF),
    (b"union", KEY_UNION),
    (b"unsigned", KEY_UNSIGNED),
    (b"void", KEY_VOID),
    (b"volatile", KEY_VOLATILE),
    (b"while", KEY_WHILE),
    (b"_Alignas", KEY_ALIGNAS),
    (b"_Alignof", KEY_ALIGNOF),
    (b"_Atomic", KEY_ATOMIC),
    (b"_Bool", KEY_BOOL),
    (b"_Complex", KEY_COMPLEX),
    (b"_Generic", KEY_GENERIC),
    (b"_Imaginary", KEY_IMAGINARY),
    (b"_Noreturn", KEY_NORETURN),
    (b"_Static_assert", KEY_STATIC_ASSERT),
    (b"_Thread_local", KEY_THREAD_LOCAL),
    (b"__inline", KEY_INLINE),
    (b"__inline__", KEY_INLINE),
    (b"__restrict", KEY_RESTRICT),
    (b"__restrict__", KEY_RESTRICT),
    (b"__const", KEY_CONST),
    (b"__volatile__", KEY_VOLATILE),
    (b"__signed__", KEY_SIGNED),
    (b"__builtin_va_list", KEY_BUILTIN_VA_LIST),
    (b"_Float32", KEY_FLOAT32),
    (b"_Float64", KEY_FLOAT64),
    (b"_Float128", KEY_FLOAT128),
    (b"_Float32x", KEY_FLOAT32X),
    (b"_Float64x", KEY_FLOAT64X),
    (b"__attribute__", KEY_ATTRIBUTE),
    (b"__extension__", KEY_EXTENSION),
    (b"__asm__", KEY_ASM),
    (b"__const__", KEY_CONST),
    (b"__volatile", KEY_VOLATILE),
    (b"__signed", KEY_SIGNED),
    (b"__complex__", KEY_COMPLEX),
    (b"__alignof__", KEY_ALIGNOF),
    (b"__int128", KEY_INT128),
];

/// The position of a keyword in the table, by the slot of `look_up`. The other slots hold 0.
static POSITIONS: [u8; 256] = [
    16, 33, 0, 0, 0, 0, 0, 55, 0, 0, 0, 0, 0, 0, 0, 0, 7, 0, 48, 0, 0, 20, 34, 0, 0, 0, 0, 0, 0, 0,
    64, 35, 0, 0, 0, 0, 22, 0, 0, 0, 0, 0, 0, 60, 0, 0, 0, 29, 0, 0, 0, 11, 0, 0, 0, 0, 0, 0, 0, 0,
    0, 0, 0, 0, 0, 47, 0, 0, 59, 0, 0, 0, 0, 0, 0, 0, 0, 0, 0, 18, 0, 0, 17, 46, 0, 0, 0, 13, 0, 0,
    0, 0, 6, 1, 0, 2, 0, 0, 0, 0, 0, 0, 0, 0, 0, 0, 0, 0, 32, 0, 0, 0, 0, 0, 0, 0, 24, 0, 0, 30,
    49, 0, 0, 0, 12, 0, 0, 0, 5, 0, 0, 0, 0, 0, 43, 41, 0, 0, 26, 37, 0, 0, 0, 0, 36, 50, 0, 4, 0,
    0, 0, 0, 0, 9, 0, 0, 0, 0, 0, 0, 0, 0, 0, 0, 19, 0, 27, 0, 63, 0, 0, 0, 21, 0, 0, 10, 0, 0, 65,
    0, 61, 0, 40, 0, 0, 0, 0, 0, 0, 52, 0, 15, 0, 25, 0, 0, 56, 51, 57, 0, 45, 54, 0, 0, 0, 0, 0,
    0, 14, 44, 58, 0, 0, 0, 0, 0, 23, 0, 0, 0, 0, 0, 0, 0, 0, 0, 39, 53, 0, 0, 0, 0, 3, 0, 0, 0, 0,
    0, 42, 0, 0, 8, 0, 28, 0, 0, 0, 38, 0, 62, 0, 0, 0, 31, 0, 0,
];

/// The number of a keyword.
pub(crate) fn keyword_of(word: &[u8]) -> Option<u8>
    requires some { 0 < length word.now }
    requires short { length word.now < 2 ^ 32 }
    ensures { Finds (IsKeyword word.now) result }
{
    look_up(&KEYWORDS, &POSITIONS, word)
}
