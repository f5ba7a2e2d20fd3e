//! What is wrong with a scan.

ghost use Rattle.std.specs.Prelude.{◌≡◌, ◌&&◌, Some, is_none};
ghost use Rattle.ktree.specs.Numbers.{number_of};
ghost use Rattle.ktree.specs.Places.{place_of};
ghost use Rattle.flow_scan.specs.Views.{number_told, place_told};

use ktree::{Place, Refusal};

/// What is wrong with a scan, and where.
#[derive(Clone, Copy, Debug, PartialEq, Eq)]
pub enum ScanFault {
    /// A `scan` line out of place or behind another one, by its `#`; a loop that is none of a scan though a clause says so, by the `#` of its
    /// directive; or a name: another one in a `scan` line, the variable of the scan where its scan phase writes it, and one that the
    /// one phase writes and the other reads (OpenMP 5.2, 5.6).
    Scan(Place),
    /// The variable of the scan, where its input phase uses it in another way than in an update (OpenMP 5.2, 5.5.8).
    Reduced(Place),
}

impl From<ScanFault> for Refusal {
    ghost use Rattle.std.specs.Prelude.{Some};
    ghost use Rattle.ktree.specs.Numbers.{number_of};
    ghost use Rattle.ktree.specs.Places.{place_of};
    ghost use Rattle.flow_scan.specs.Views.{number_told, place_told};

    ghost from_gives = { λ fault refusal. (number_of refusal ≡ number_told fault)
        × (place_of refusal ≡ Some (place_told fault)) };

    fn from(fault: ScanFault) -> Refusal {
        match fault {
            ScanFault::Scan(place) => Refusal::Scan(place),
            ScanFault::Reduced(place) => Refusal::Reduction(place),
        }
    }
}

impl ScanFault {
    /// Where it is.
    pub fn place(self) -> Place
        ensures { result ≡ place_told self }
    {
        match self {
            ScanFault::Scan(place) | ScanFault::Reduced(place) => place,
        }
    }

    /// Whether it is told before another one: that of the earlier place, and at one place that of the lower number.
    fn comes_before(self, other: ScanFault) -> bool {
        let here = self.place();
        let there = other.place();
        match other {
            ScanFault::Scan(_) => (here.line, here.column) <= (there.line, there.column),
            ScanFault::Reduced(_) => (here.line, here.column) < (there.line, there.column),
        }
    }
}

/// A place where a scan is misused.
pub(crate) fn scan_fault(place: Option<Place>) -> Option<ScanFault>
    ensures { is_none result ≡ is_none place }
{
    match place {
        None => None,
        Some(place) => Some(ScanFault::Scan(place)),
    }
}

/// A place where its variable is misused.
pub(crate) fn reduction_fault(place: Option<Place>) -> Option<ScanFault>
    ensures { is_none result ≡ is_none place }
{
    match place {
        None => None,
        Some(place) => Some(ScanFault::Reduced(place)),
    }
}

/// Of two faults, where they are there, the one that is told.
pub(crate) fn earliest(one: Option<ScanFault>, other: Option<ScanFault>) -> Option<ScanFault>
    ensures { is_none result ≡ (is_none one && is_none other) }
{
    let Some(first) = one else {
        return other;
    };
    let Some(second) = other else {
        return one;
    };
    if first.comes_before(second) {
        one
    } else {
        other
    }
}
