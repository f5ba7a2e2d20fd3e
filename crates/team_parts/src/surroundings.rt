//! How the cells of a thread's own lie among all.

ghost use Rattle.std.specs.Prelude.{◌≡◌, ◌+◌, ◌<◌, ◌^◌, length, IfSome};

/// How a thread's own cells lie: those in front of the places of all threads, how many places of others come then, how many are its own, how many places of
/// others follow, and those behind the places of all; and how many they all are.
#[derive(Clone, Copy)]
pub struct Surroundings<'c> {
    pub before: &'c [u64],
    pub left: u64,
    pub count: u64,
    pub right: u64,
    pub behind: &'c [u64],
    pub all: u64,
    pub ghost sum: { all ≡ length before.now + (left + (count + (right + length behind.now))) },
    pub ghost few: { all < 2 ^ 63 },
}

impl<'c> Surroundings<'c> {
    /// How so many cells of a thread's own lie, if all are not more than memory holds.
    pub fn of(
        before: &'c [u64],
        left: u64,
        count: u64,
        right: u64,
        behind: &'c [u64],
    ) -> Option<Surroundings<'c>>
        ensures { IfSome result (λ a. (a.before.now ≡ before.now) × (a.left ≡ left)
            × (a.count ≡ count) × (a.right ≡ right) × (a.behind.now ≡ behind.now)) }
    {
        let front = (before.len() as u64).checked_add(left)?;
        let through = front.checked_add(count)?;
        let back = through.checked_add(right)?;
        let all = back.checked_add(behind.len() as u64)?;
        if all < 1 << 63 {
            Some(Surroundings {
                before,
                left,
                count,
                right,
                behind,
                all,
            })
        } else {
            None
        }
    }
}
