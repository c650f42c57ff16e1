//! StreamIt programs over files that are cut into pieces that overlap: the lines of what runs on the pieces print, some let go and some
//! kept, are what the program means for the whole file. Laws over the definitions alone.
#![tactic(auto)]

pub mod laws;
