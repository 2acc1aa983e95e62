//! What is true of every signal and every text. The functions do nothing; their contracts are the
//! laws.

ghost use Rattle.signals.specs.state.Laws as laws;

/// A signal's name names that signal, and a text that names a signal is the signal's name.
pub fn names_are_inverse()
    ensures named { laws.NameNamesItsSignal }
    ensures name { laws.NamedSignalHasTheName }
{}
