//! Lists of the numbers of calls.
ghost use Rattle.std.specs.Prelude.{◌↔◌, IsTrue, Contains};

/// Whether the number stands in the list.
pub(crate) fn is_listed(numbers: &[u32], number: u64) -> bool
    ensures { IsTrue result ↔ Contains numbers.now number }
{
    match u32::try_from(number) {
        Ok(number) => numbers.contains(&number),
        Err(_) => false,
    }
}
