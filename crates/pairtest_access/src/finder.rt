//! What is kept of the accesses of a body.

ghost use Rattle.std.specs.Prelude.{◌≡◌, OnOk, IfOk, IfErr};
ghost use Rattle.ktree.specs.View.{exprs_of};
ghost use Rattle.pairtest_access.specs.Sites.{Site, named};
ghost use Rattle.pairtest_access.specs.Found.{IsMet, IsTouched};
ghost use Rattle.pairtest_access.specs.Refused.{Because, AreNotAffine, Lacks};
ghost use Rattle.pairtest_access.specs.Walk.{MeetsAll};

use crate::subscripts::{inner_canonicals, inner_counts, subscripts, variable_forms};
use crate::told::Touched;
use affine_expr::Fault;
use ktree::{Expr, NamePlaces, VarId};
use pairtest::{Access, Mode};
use pairtest_counter::EnclosingLoops;
use std::alloc::Global;

/// Which of the accesses that are still to come are wanted: every one, or the one with so many before it alone.
#[derive(Clone, Copy)]
pub(crate) enum Wanted {
    Every,
    Only(usize),
    Nothing,
}

/// What is kept of the accesses of a body that has so many loops outside.
#[derive(Drop)]
pub(crate) struct Finder {
    pub outer: usize,
    pub wanted: Wanted,
    pub accesses: Vec<Access>,
    pub touched: Option<Touched>,
}

/// An access inside the loops of a chain, not counted where its subscripts pass the limits.
fn access(
    alloc: Global,
    chain: &EnclosingLoops,
    outer: usize,
    mode: Mode,
    array: VarId,
    expressions: &[Expr],
    mention: &NamePlaces,
) -> Result<Access, Fault>
    ensures ok { IfOk result (IsMet outer
        (record {
          round = chain.now;
          mode = mode;
          array = array.0;
          subscripts = exprs_of expressions.now;
        })) }
    ensures err { IfErr result
        (Because (AreNotAffine chain.now.box (exprs_of expressions.now))) }
{
    let (is_counted, subscripts) = match subscripts(alloc, chain, expressions, mention) {
        Err(Fault::Limit(_)) => (false, Vec::new(alloc)),
        found => (true, found?),
    };
    Ok(Access {
        array,
        mode,
        place: mention.name,
        is_counted,
        subscripts,
        inner: inner_counts(alloc, chain, outer)?,
    })
}

/// What is told of an access inside the loops of a chain.
fn describe_access(
    alloc: Global,
    chain: &EnclosingLoops,
    outer: usize,
    expressions: &[Expr],
    mention: &NamePlaces,
) -> Result<Touched, Fault>
    ensures ok { IfOk result (IsTouched outer chain.now (exprs_of expressions.now)) }
    ensures err { IfErr result
        (Because (AreNotAffine chain.now.box (exprs_of expressions.now))) }
{
    Ok(Touched {
        subscripts: variable_forms(alloc, chain, expressions, mention)?,
        inner: inner_canonicals(alloc, chain, outer)?,
    })
}

impl Finder {
    /// Keeps what is wanted of an object inside the loops of a chain, which is an access where it has subscripts.
    pub(crate) fn meet(
        &mut self,
        alloc: Global,
        chain: &EnclosingLoops,
        mode: Mode,
        array: VarId,
        expressions: &[Expr],
        mention: &NamePlaces,
    ) -> Result<(), Fault>
        ensures ok { OnOk result (MeetsAll self.old
            (named chain.now mode array.0 (exprs_of expressions.now)) self.new) }
        ensures err { IfErr result
            (Because (Lacks (named chain.now mode array.0 (exprs_of expressions.now)))) }
    {
        if expressions.is_empty() {
            return Ok(());
        }
        match self.wanted {
            Wanted::Every => {
                let found = access(alloc, chain, self.outer, mode, array, expressions, mention)?;
                self.accesses.push(found)?;
            }
            Wanted::Only(0) => {
                let told = describe_access(alloc, chain, self.outer, expressions, mention)?;
                self.touched = Some(told);
                self.wanted = Wanted::Nothing;
            }
            Wanted::Only(before) => self.wanted = Wanted::Only(before - 1),
            Wanted::Nothing => {}
        }
        Ok(())
    }
}
