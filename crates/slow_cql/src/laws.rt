//! Laws over the definitions alone.
ghost use Rattle.slow_cql.specs.Laws.{CompiledHaveColumns};

/// The program of a text has what its meaning is asked for: each of its queries selects from 1 to 16 columns.
pub fn compiled_have_columns()
    ensures { CompiledHaveColumns }
{}
