//! How many digits a number has.

ghost use Rattle.std.specs.Prelude.{◌≡◌, ◌≤◌, length, decimal};

/// How many decimal digits a number has.
#[inline(always)]
pub(crate) fn digit_count(n: u32) -> usize
    ensures count { result ≡ length (decimal n) }
    ensures few { result ≤ 10 }
{
    if n < 10_000 {
        if n < 100 {
            if n < 10 { 1 } else { 2 }
        } else if n < 1000 {
            3
        } else {
            4
        }
    } else if n < 1_000_000 {
        if n < 100_000 { 5 } else { 6 }
    } else if n < 100_000_000 {
        if n < 10_000_000 { 7 } else { 8 }
    } else if n < 1_000_000_000 {
        9
    } else {
        10
    }
}
