//! A sample of a pod's use of the node in whole units, as it is kept.

ghost use Rattle.std.specs.Prelude.{◌≡◌, is_none, IfSome};
ghost use Rattle.observations.specs.state.Whole.{amount_as, memory_as, usage_as};

use crate::usage::Usage;
use quantity::Quantity;

/// Marks an amount that is absent: no quantity has this many units.
const ABSENT: u64 = u64::MAX;

/// An amount in whole units, or none, in 8 bytes.
#[derive(Clone, Copy)]
pub(crate) struct Units(u64);

impl Units {
    /// What is kept of an amount, unless it is no whole number of units or has 2^64 thousandths or more.
    fn of(amount: Option<Quantity>) -> Option<Units>
        ensures { IfSome result (λ units. amount_as units ≡ amount) }
    {
        let Some(amount) = amount else {
            return Some(Units(ABSENT));
        };
        let thousandths = u64::try_from(amount.milli()).ok()?;
        (thousandths % 1000 == 0).then_some(Units(thousandths / 1000))
    }

    fn is_absent(self) -> bool
        ensures { result ≡ is_none (amount_as self) }
    {
        self.0 == ABSENT
    }

    fn amount(self) -> Option<Quantity>
        ensures { result ≡ amount_as self }
    {
        if self.0 == ABSENT {
            None
        } else {
            Some(Quantity::from_units(self.0))
        }
    }
}

/// The sample of this many bytes of memory alone.
pub(crate) fn usage_of_memory(bytes: u64) -> Usage
    ensures { result ≡ memory_as bytes }
{
    Usage {
        memory: Some(Quantity::from_units(bytes)),
        volumes: None,
        logs: None,
        writable: None,
        inodes: None,
        pids: None,
    }
}

/// A sample whose amounts are each absent or a whole number of units, in 48 bytes where one of any amounts has 192.
#[derive(Clone, Copy)]
pub(crate) struct WholeUsage {
    memory: Units,
    volumes: Units,
    logs: Units,
    writable: Units,
    inodes: Units,
    pids: Units,
}

impl WholeUsage {
    /// What is kept of a sample, if its amounts are whole.
    pub(crate) fn of(usage: Usage) -> Option<WholeUsage>
        ensures { IfSome result (λ whole. usage_as whole ≡ usage) }
    {
        Some(WholeUsage {
            memory: Units::of(usage.memory)?,
            volumes: Units::of(usage.volumes)?,
            logs: Units::of(usage.logs)?,
            writable: Units::of(usage.writable)?,
            inodes: Units::of(usage.inodes)?,
            pids: Units::of(usage.pids)?,
        })
    }

    /// The bytes of memory, where the sample has them and no other amount.
    pub(crate) fn memory_alone(self) -> Option<u64>
        ensures { IfSome result (λ bytes. memory_as bytes ≡ usage_as self) }
    {
        let alone = self.volumes.is_absent()
            && self.logs.is_absent()
            && self.writable.is_absent()
            && self.inodes.is_absent()
            && self.pids.is_absent();
        if alone && !self.memory.is_absent() {
            Some(self.memory.0)
        } else {
            None
        }
    }

    pub(crate) fn usage(self) -> Usage
        ensures { result ≡ usage_as self }
    {
        Usage {
            memory: self.memory.amount(),
            volumes: self.volumes.amount(),
            logs: self.logs.amount(),
            writable: self.writable.amount(),
            inodes: self.inodes.amount(),
            pids: self.pids.amount(),
        }
    }
}
