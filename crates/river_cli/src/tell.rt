// What was decided is written, and the status that tells it.
ghost use Rattle.river_outside.specs.Causes.{Rose};
ghost use Rattle.river_cli.specs.Does.{Tells, ToldFault, Wrote};

use river_base::Bytes;
use river_outside::{Failed, Sink, Stop, put_all};

// What is written where the words are no sentence.
const USAGE: &[u8] = b"usage: river run|plan|mean|load|upgrade|free\n";

/// Writes what was decided to the sink that takes it, and answers the status to end with.
pub(crate) fn tell<O: Sink, E: Sink>(decided: Result<Bytes, Stop>, out: &mut O, err: &mut E) -> u8
    ensures { Tells decided (O.taken out.old) (O.taken out.new) (Rose O.stays_at_last (O.faults out.old) (O.faults out.new))
        (E.taken err.old) (E.taken err.new) (Rose E.stays_at_last (E.faults err.old) (E.faults err.new)) result }
{
    match decided {
        Ok(text) => write(out, text.as_slice(), 0),
        Err(Stop::Refused(text)) => write(err, text.as_slice(), 1),
        Err(Stop::Usage) => write(err, USAGE, 2),
        Err(Stop::Failed(text)) => write_fault(err, text.as_slice()),
        Err(Stop::Absent(text)) => write_fault(err, text.as_slice()),
        Err(Stop::NoMemory) => 5,
    }
}

// Writes a text; the status is `end`, or 4 where the sink failed.
fn write<K: Sink>(sink: &mut K, text: &[u8], end: u8) -> u8
    ensures { Wrote text.now end (K.taken sink.old) (K.taken sink.new) (Rose K.stays_at_last (K.faults sink.old) (K.faults sink.new)) result }
{
    match put_all(sink, text) {
        Ok(()) => end,
        Err(Failed) => 4,
    }
}

// Writes what is said of a file. The status tells of it alone where it could not be written.
fn write_fault<K: Sink>(sink: &mut K, text: &[u8]) -> u8
    ensures { ToldFault text.now (K.taken sink.old) (K.taken sink.new) (Rose K.stays_at_last (K.faults sink.old) (K.faults sink.new)) result }
{
    let _ = put_all(sink, text);
    3
}
