//! How much is declared.

ghost use Rattle.std.specs.Prelude.{◌≡◌, ◌-◌, ◌^◌, min, nat_le, map, is_none};
ghost use Rattle.semantics.specs.Meaning.Places.{size};
ghost use Rattle.semantics.specs.Source.Grammar.{elements};
ghost use Rattle.ktree.specs.View.{declaration_of};

use cparse_cursor::stop::{Fault, Flaw, earlier, unless};
use ktree::Declaration;
use ktree::limits::ELEMENTS;

/// The elements of an array of these lengths, or as many as can be counted.
#[tactic(auto, using(crate::proofs::ExtentLemmas::min_times))]
fn size(lengths: &[u64]) -> u64
    ensures { result ≡ min (size lengths.now) (2 ^ 64 - 1) }
{
    match lengths {
        [] => 1,
        [first, rest @ ..] => first.saturating_mul(size(rest)),
    }
}

/// The first variable with which there are too many elements.
pub fn too_many(variables: &[Declaration]) -> Option<Fault>
    ensures { is_none result ≡ nat_le (elements (map declaration_of variables.now)) (2 ^ 24) }
{
    let mut total = 0u64;
    let mut fault = None;
    for variable in variables {
        total = total.saturating_add(size(&variable.lengths));
        let own = unless(total <= ELEMENTS, Flaw::Limit, variable.place);
        fault = earlier(fault, own);
    }
    fault
}
