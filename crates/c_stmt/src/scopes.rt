//! Scopes of statements (C11 6.2.1).

ghost use Rattle.c_reading.specs.Reads.{Reads};
ghost use Rattle.c_scopes.specs.Scopes.{left};
ghost use Rattle.c_syntax.specs.Scoping.{input_from};
ghost use Rattle.c_stmt.specs.StatementReaders as spec;
ghost use Rattle.reading.specs.Readers.{changes};

use c_reading::Stop;
use c_syntax::Source;

/// Enters a scope.
#[tactic(auto, unfolding(c_reading::specs::Cursors::input_at))]
pub(crate) fn enter(source: &mut Source<'_>) -> Result<(), Stop>
    ensures { Reads (spec.enter (input_from source.old)) result (input_from source.new) }
{
    source.scopes.enter()?;
    Ok(())
}

/// Leaves the innermost scope, with what was read in it.
#[tactic(auto, unfolding(c_reading::specs::Cursors::input_at))]
pub(crate) fn leave<T>(value: T, source: &mut Source<'_>) -> Result<T, Stop>
    ensures { Reads (changes left value (input_from source.old)) result (input_from source.new) }
{
    source.scopes.leave();
    Ok(value)
}
