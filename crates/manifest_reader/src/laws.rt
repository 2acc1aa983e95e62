//! What the definition of a manifest implies, in the words of the table of its checks. The
//! functions do nothing; their contracts are the laws.
ghost use Rattle.manifest_reader.specs.state.Laws as laws;

/// A manifest is rejected exactly with the fault of the first check of the table that it fails.
pub fn first_check()
    ensures { laws.FirstCheck }
{}

/// A manifest describes a pod exactly if it passes every check of the table.
pub fn every_check()
    ensures { laws.EveryCheck }
{}

/// No manifest is rejected because an allocation failed: only a call returns that.
pub fn never_memory()
    ensures { laws.NeverMemory }
{}
