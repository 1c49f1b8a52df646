//! The progress of a load. Nothing here runs: the contracts are the examples.
ghost use Rattle.honest_examples.specs.Progress.{TheProgressIsKept};

/// The progress schema and the table of files are made, and a file is put and told. Where the table isn't
/// there, it is answered by ERR.
pub fn the_progress_is_kept()
    ensures { TheProgressIsKept }
{}
