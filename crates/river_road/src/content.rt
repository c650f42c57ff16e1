// What is read of the file of an input.

use kern_rows::EvenRows;
use river_base::TimedRows;

/// The rows of a file; those of a stream have timestamps.
#[derive(Drop)]
pub enum FileContent {
    Rows(EvenRows),
    Timed(TimedRows),
}
