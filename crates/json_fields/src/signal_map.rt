//! Reading a map from signals.

ghost use Rattle.std.specs.Prelude.{◌≡◌, option_map};
ghost use Rattle.json_fields.specs.rule.SignalMaps.{is_signal_map, in_map, read_in, read_map};

use crate::fields::field;
use crate::scope::Scope;
use crate::value::Json;
use signals::{BySignal, Signal};

/// Whether this is a map from signals of the scope, which may be left out.
fn is_signal_map<V: Json>(scope: Scope, found: Option<&V>) -> bool
    ensures { result ≡ is_signal_map scope (option_map (λ v. V.data v.now) found.entry) }
{
    match found {
        None => true,
        Some(value) => value.is_object() && !value.has_stranger(&scope),
    }
}

/// What a map has of a signal.
fn in_map<V: Json>(found: Option<&V>, signal: Signal) -> Option<&V>
    ensures { option_map (λ v. V.data v.now) result ≡ in_map (option_map (λ v. V.data v.now) found.entry) signal }
{
    field(found?, signal.name())
}

/// How the value of a signal is read that a map has, or has not.
pub trait ReadSignal {
    ghost use Rattle.std.specs.Prelude.{◌≡◌, Option, Result, option_map};
    ghost use Rattle.serde_json.specs.Data.{Data};
    ghost use Rattle.signals.specs.declared.signal.Signal.{Signal};

    type Read: Copy;

    type Fault: Copy;

    /// What is read of the signal, in the definition's words.
    ghost read_of: { Self → Signal → Option Data → Result Self.Read Self.Fault };

    /// Reads the value of the signal, or what it means that there is none.
    fn read<V: Json>(&self, signal: Signal, found: Option<&V>) -> Result<Self::Read, Self::Fault>
        ensures { result ≡ read_of self.now signal (option_map (λ v. V.data v.now) found.entry) };
}

/// What the reader reads of one signal in a map.
fn read_signal<R: ReadSignal, V: Json>(
    reader: &R,
    found: Option<&V>,
    signal: Signal,
) -> Result<R::Read, R::Fault>
    ensures { result ≡ R.read_of reader.now signal (in_map (option_map (λ v. V.data v.now) found.entry) signal) }
{
    reader.read(signal, in_map(found, signal))
}

#[tactic(auto, unfolding(crate::specs::rule::SignalMaps::read_each))]
fn read_in<R: ReadSignal, V: Json>(
    reader: &R,
    found: Option<&V>,
) -> Result<BySignal<R::Read>, R::Fault>
    ensures { result ≡ read_in (R.read_of reader.now) (option_map (λ v. V.data v.now) found.entry) }
{
    Ok(BySignal {
        memory_available: read_signal(reader, found, Signal::MemoryAvailable)?,
        nodefs_available: read_signal(reader, found, Signal::NodefsAvailable)?,
        imagefs_available: read_signal(reader, found, Signal::ImagefsAvailable)?,
        nodefs_inodes_free: read_signal(reader, found, Signal::NodefsInodesFree)?,
        imagefs_inodes_free: read_signal(reader, found, Signal::ImagefsInodesFree)?,
        pid_available: read_signal(reader, found, Signal::PidAvailable)?,
    })
}

/// What the reader reads of each signal in a map, which may be left out. The fault is the given one if this is no
/// object, or if a name that no signal of the scope has comes with a value other than null; otherwise the first fault
/// that the reader returns, in the order of the signals. (Kubernetes, "Kubelet Configuration": `evictionHard` and the
/// like.)
#[tactic(auto, unfolding(crate::specs::rule::SignalMaps::read_map))]
pub fn read_map<R: ReadSignal, V: Json>(
    scope: Scope,
    fault: R::Fault,
    reader: &R,
    found: Option<&V>,
) -> Result<BySignal<R::Read>, R::Fault>
    ensures { result ≡ read_map scope fault (R.read_of reader.now) (option_map (λ v. V.data v.now) found.entry) }
{
    if !is_signal_map(scope, found) {
        return Err(fault);
    }
    read_in(reader, found)
}
