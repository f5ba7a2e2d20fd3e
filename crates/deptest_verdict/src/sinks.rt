//! The sinks of the loop behind a directive line.

ghost use Rattle.std.specs.Prelude.{◌≡◌};
ghost use Rattle.deptest_verdict.specs.Sinks.{distances_of, line_sinks};

use flow_doacross::DoacrossLoop;

/// The distances of the sinks of the loop behind the line of this number: none where it is no doacross nest.
pub(crate) fn sinks_at(nests: &[DoacrossLoop], line: u32) -> &[Vec<i64>]
    ensures { distances_of result.now ≡ line_sinks nests.now line }
{
    for nest in nests {
        if nest.line.line == line {
            return nest.distances.as_slice();
        }
    }
    &[]
}
