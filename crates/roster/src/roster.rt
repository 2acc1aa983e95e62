//! The pods of a trace.

ghost use Rattle.std.specs.Prelude.{◌≡◌, ◌++◌, ◌∷◌, [], ◌<◌, Some, None, IfOk, OnOk, string_bytes};
ghost use Rattle.roster.specs.rule.Roll.{nothing, key_of_pod, number_of, is_present, with_pod, without};

use crate::hold::{hold, holder_of, release};
use lists::{NameList, Sequence};
use manifest::PodSpec;
use std::alloc::{AllocError, Global};
use std::marker::Model;

/// The pods of a trace by their numbers, in the order of their arrivals, each with the number of ticks before its
/// arrival and, if it has left, before its departure. No two pods that are present have one key.
#[derive(Drop)]
pub struct Roster {
    pods: Sequence<PodSpec>,
    arrivals: Sequence<usize>,
    departures: Vec<Option<usize>>,
    keys: NameList,
    holders: Vec<Option<usize>>,
}

impl Model for Roster {
    ghost use Rattle.roster.specs.rule.Roll.{Roll, roll};
    ghost use Rattle.roster.specs.state.Holders.{IsKept};

    ghost Value = { Roll };

    ghost view = { λ r. roll r.pods r.arrivals r.departures.items };

    ghost invariant = { λ r. IsKept r.pods r.departures.items r.keys r.holders.items };
}

/// Appends a pod, with the number of ticks before it.
fn enlist(
    pods: &mut Sequence<PodSpec>,
    arrivals: &mut Sequence<usize>,
    departures: &mut Vec<Option<usize>>,
    pod: PodSpec,
    ticks: usize,
) -> Result<(), AllocError>
    ensures pods { OnOk result (pods.new ≡ pods.old ++ pod ∷ []) }
    ensures arrivals { OnOk result (arrivals.new ≡ arrivals.old ++ ticks ∷ []) }
    ensures departures { OnOk result (departures.new.items ≡ departures.old.items ++ None ∷ []) }
{
    pods.push(pod)?;
    arrivals.push(ticks)?;
    departures.push(None)?;
    Ok(())
}

impl Roster {
    /// No pods. Doesn't allocate.
    pub fn new(alloc: Global) -> Roster
        ensures { result ≡ nothing }
    {
        Roster {
            pods: Sequence::new(alloc),
            arrivals: Sequence::new(alloc),
            departures: Vec::new(alloc),
            keys: NameList::new(alloc),
            holders: Vec::new(alloc),
        }
    }

    /// The pods, by number.
    pub fn pods(&self) -> &[PodSpec]
        ensures { result.now ≡ self.now.pods }
    {
        self.pods.as_slice()
    }

    /// Whether the pod with the number has arrived and has not left.
    pub fn is_present(&self, number: usize) -> bool
        ensures { result ≡ is_present self.now.departures number }
    {
        match self.departures.get(number) {
            Some(departure) => departure.is_none(),
            None => false,
        }
    }

    /// The number of the pod that is present and has this key, `NAMESPACE/NAME`, if there is one.
    pub fn number_of(&self, key: &str) -> Option<usize>
        ensures { result ≡ number_of self.now key.now }
    {
        holder_of(&self.keys, &self.holders, key)
    }

    /// A pod arrives after this many ticks, with a key that no pod has that is present.
    pub fn with_pod(self, pod: PodSpec, key: String, ticks: usize) -> Result<Roster, AllocError>
        requires key { string_bytes key ≡ key_of_pod pod }
        requires new { number_of self (string_bytes key) ≡ None }
        ensures { IfOk result (λ roster. roster ≡ with_pod self pod ticks) }
    {
        let Roster {
            mut pods,
            mut arrivals,
            mut departures,
            mut keys,
            mut holders,
        } = self;
        let number = pods.as_slice().len();
        if let Err(fault) = hold(&mut keys, &mut holders, key, number) {
            drop((pods, arrivals, departures, keys, holders, pod));
            return Err(fault);
        }
        match enlist(&mut pods, &mut arrivals, &mut departures, pod, ticks) {
            Ok(()) => Ok(Roster {
                pods,
                arrivals,
                departures,
                keys,
                holders,
            }),
            Err(fault) => {
                drop((pods, arrivals, departures, keys, holders));
                Err(fault)
            }
        }
    }

    /// The pod with the number, which is present and has this key, leaves after this many ticks. Doesn't allocate.
    pub fn leave(&mut self, number: usize, key: &str, ticks: usize)
        requires { number_of self.old key.now ≡ Some number }
        ensures { self.new ≡ without self.old number ticks }
    {
        release(&self.keys, &mut self.holders, key);
        self.departures[number] = Some(ticks);
    }

    /// The pods by number, with the ticks before their arrivals and departures. Doesn't allocate.
    pub fn into_parts(self) -> (Sequence<PodSpec>, Sequence<usize>, Sequence<Option<usize>>)
        ensures pods { result.0 ≡ self.pods }
        ensures arrivals { result.1 ≡ self.arrivals }
        ensures departures { result.2 ≡ self.departures }
    {
        let Roster {
            pods,
            arrivals,
            departures,
            keys: _,
            holders: _,
        } = self;
        (pods, arrivals, Sequence::from_vec(departures))
    }
}
