//! The lines of sinks and sources.

ghost use Rattle.std.specs.Prelude.{◌≡◌, option_map};
ghost use Rattle.ktree.specs.DirectiveView.{name_of, directive_of};
ghost use Rattle.flow_doacross.specs.Lines.{sink_said, sink_on, is_source, is_source_line, associates};
ghost use Rattle.flow_doacross.specs.Views.{elements_of};

use ktree::{Directive, Place, SinkElement, Written};
use pragma::Directives;

/// The elements of a directive, where it is a sink (OpenMP 5.2, 15.9.6).
fn sink_said(directive: &Directive<Written>) -> Option<&[SinkElement<Written>]>
    ensures { option_map (λ es. elements_of es.now) result
        ≡ sink_said (Some (directive_of name_of directive.now)) }
{
    match directive {
        Directive::DoacrossSink(elements) => Some(elements.as_slice()),
        _ => None,
    }
}

/// Those of the sink on the line at a place.
#[tactic(auto, using(crate::proofs::LinesLaw::sink_none))]
pub(crate) fn sink_at<'d>(
    directives: &'d Directives<'_>,
    place: Place,
) -> Option<&'d [SinkElement<Written>]>
    ensures { option_map (λ es. elements_of es.now) result ≡ sink_on directives.now place.line }
{
    let Ok(directive) = directives.directive(place) else {
        return None;
    };
    sink_said(directive)
}

/// Whether a directive is a source (OpenMP 5.2, 15.10.2).
fn is_source_directive(directive: &Directive<Written>) -> bool
    ensures { result ≡ is_source (Some (directive_of name_of directive.now)) }
{
    match directive {
        Directive::DoacrossSource => true,
        _ => false,
    }
}

/// Whether the line at a place is one.
#[tactic(auto, using(crate::proofs::LinesLaw::source_none))]
pub(crate) fn is_source(directives: &Directives, place: Place) -> bool
    ensures { result ≡ is_source_line directives.now place.line }
{
    let Ok(directive) = directives.directive(place) else {
        return false;
    };
    is_source_directive(directive)
}

/// Whether the directive at a place is that of a loop and associates so many (OpenMP 5.2, 4.4.3 and 4.4.4).
pub(crate) fn associates(directives: &Directives, place: Place, depth: u64) -> bool
    ensures { result ≡ associates directives.now place.line depth }
{
    let Ok(said) = directives.at(place) else {
        return false;
    };
    said.associated_loops() == depth
}
