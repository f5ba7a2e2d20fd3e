//! The values that variables may have.

ghost use Rattle.std.specs.Prelude.{◌≡◌, ◌⊎◌, ◌∷◌, ◌↔◌, ◌<◌, ◌*ℤ◌, ◌≤◌, ◌^◌, [], ◌==◌, position, length, drop, unsigned_abs, OnOk, OnErr, IfErr, IsTrue};
ghost use Rattle.std.specs.List.{list_any};
ghost use Rattle.ktree.specs.declared.refusal.Refusal.TheVariants.{Limit, OutOfMemory};

use ktree::limits::LOOP_VALUE;
use ktree::{Place, Refusal, VarId};
use smallvec::SmallVec;
use std::alloc::Global;
use std::marker::Model;

/// The whole numbers from the least to the greatest; none where the least is above the greatest.
#[derive(Clone, Copy, Debug, PartialEq, Eq)]
pub struct Interval {
    pub least: i64,
    pub greatest: i64,
}

impl Interval {
    ghost use Rattle.affine.specs.Box.{least_end, greatest_end, EndsFit};
    ghost use Rattle.affine.specs.Limits.{IsWithin};

    /// 0 alone.
    const ONLY_ZERO: Interval = Interval {
        least: 0,
        greatest: 0,
    };

    /// The product of a factor and an end of an interval.
    fn product(factor: i64, end: i64) -> i128
        requires factor_within { IsWithin (2 ^ 62) factor }
        requires end_within { IsWithin (2 ^ 33) end }
        ensures value { result ≡ factor *ℤ end }
        ensures within { IsWithin (2 ^ 95) result }
    {
        i128::from(factor) * i128::from(end)
    }

    /// The least and the greatest product of the factor and a number of the interval, which has one.
    pub(crate) fn products(self, factor: i64) -> (i128, i128)
        requires factor_within { IsWithin (2 ^ 62) factor }
        requires fits { EndsFit self.least self.greatest }
        ensures least { result.0 ≡ factor *ℤ least_end factor self }
        ensures greatest { result.1 ≡ factor *ℤ greatest_end factor self }
        ensures least_within { IsWithin (2 ^ 95) result.0 }
        ensures greatest_within { IsWithin (2 ^ 95) result.1 }
    {
        let at_least = Interval::product(factor, self.least);
        let at_greatest = Interval::product(factor, self.greatest);
        if factor < 0 {
            (at_greatest, at_least)
        } else {
            (at_least, at_greatest)
        }
    }
}

/// The values that one variable of a box may have.
#[derive(Clone, Copy, Debug, PartialEq, Eq)]
pub struct Side {
    pub variable: VarId,
    pub interval: Interval,
}

/// What fills the places of a short list that no side has taken.
impl Default for Side {
    fn default() -> Side {
        Side {
            variable: VarId(0),
            interval: Interval::ONLY_ZERO,
        }
    }
}

/// Where the variable's first side stands.
fn place_of(sides: &[Side], variable: VarId) -> Option<usize>
    ensures { result ≡ position (λ s. s.variable.0 == variable.0) sides.now }
{
    sides.iter().position(|side| side.variable == variable)
}

/// For each variable the values that it may have, with ends within 2^33 in absolute value. A variable that was given none
/// is 0. Contracts see the list of its sides, the newest first, of which the first that names a variable counts.
#[derive(Clone, Drop)]
pub struct VarBox {
    sides: SmallVec<Side, 8>,
}

impl Model for VarBox {
    ghost use Rattle.std.specs.Prelude.{List, All};
    ghost use Rattle.affine.specs.declared.interval.Side.{Side};

    ghost Value = { List Side };

    ghost use Rattle.affine.specs.Box.{SideFits};

    ghost view = { λ b. b.sides.items };

    ghost invariant = { λ b. All SideFits b.sides.items };
}

impl VarBox {
    ghost use Rattle.affine.specs.Box.{side, interval_at, IsEmpty, EndsFit};

    /// The box in which each variable is 0.
    pub fn new(alloc: Global) -> VarBox
        ensures { result ≡ [] }
    {
        VarBox {
            sides: SmallVec::new(alloc),
        }
    }

    /// Gives the variable the values from the least to the greatest, in place of those that it had.
    ///
    /// # Errors
    ///
    /// Refuses by the limit, at the place, where an end is not within 2^33 in absolute value, and where memory runs out;
    /// the box is then as it was.
    pub fn bind(
        &mut self,
        variable: VarId,
        least: i128,
        greatest: i128,
        place: Place,
    ) -> Result<(), Refusal>
        ensures ok { OnOk result (self.new ≡ side variable.0 least greatest ∷ self.old) }
        ensures fits { OnOk result (EndsFit least greatest) }
        ensures refusal { IfErr result (λ refusal. (refusal ≡ Refusal.OutOfMemory)
            ⊎ ((refusal ≡ Refusal.Limit place) × (¬ (EndsFit least greatest)))) }
        ensures err { OnErr result (self.new ≡ self.old) }
    {
        let limit = u128::from(LOOP_VALUE);
        if least.unsigned_abs() > limit || greatest.unsigned_abs() > limit {
            return Err(Refusal::Limit(place));
        }
        let interval = Interval {
            least: least as i64,
            greatest: greatest as i64,
        };
        self.sides.insert(0, Side { variable, interval })?;
        Ok(())
    }

    /// Takes back the values that were given last.
    pub fn unbind(&mut self)
        requires { 0 < length self.old }
        ensures { self.new ≡ drop 1 self.old }
    {
        self.sides.remove(0);
    }

    /// The values that the variable may have.
    pub fn interval(&self, variable: VarId) -> Interval
        ensures value { result ≡ interval_at self.now variable.0 }
        ensures fits { EndsFit result.least result.greatest }
    {
        match place_of(self.sides.as_slice(), variable) {
            Some(at) => self.sides[at].interval,
            None => Interval::ONLY_ZERO,
        }
    }

    /// How often a variable was given values that were not taken back.
    pub fn len(&self) -> usize
        ensures { result ≡ length self.now }
    {
        self.sides.len()
    }

    /// Whether the variable was given values.
    pub fn has(&self, variable: VarId) -> bool
        ensures { result ≡ list_any (λ s. s.variable.0 == variable.0) self.now }
    {
        self.sides.iter().any(|side| side.variable == variable)
    }

    /// Whether some variable has no value.
    pub fn is_empty(&self) -> bool
        ensures { IsTrue result ↔ IsEmpty self.now }
    {
        for side in self.sides.iter() {
            let interval = self.interval(side.variable);
            if interval.greatest < interval.least {
                return true;
            }
        }
        false
    }
}
