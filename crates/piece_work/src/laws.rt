//! Laws over the definitions alone.
ghost use Rattle.piece_work.specs.Faults.{FileDecides, ReadDecides};

/// Over files that are told, and where no count rose, the file decides why it is not read, but for
/// want of memory.
pub fn file_decides()
    ensures { FileDecides }
{}

/// And where it is read, nothing but want of memory is left.
pub fn read_decides()
    ensures { ReadDecides }
{}
