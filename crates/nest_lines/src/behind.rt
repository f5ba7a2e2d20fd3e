//! The line that an item stands behind.

ghost use Rattle.std.specs.Prelude.{◌≡◌};
ghost use Rattle.pragma_region.specs.Listed.{line_of};
ghost use Rattle.nest_lines.specs.Lines.{next_line};

use ktree::{Item, Place};
use pragma::Directives;
use pragma_region::is_left_out;

/// The line behind which the item behind this one stands, by the line behind which this one does; lines that are left out before loops
/// are judged stand before none.
pub fn line_behind(directives: &Directives, before: Option<Place>, item: &Item) -> Option<Place>
    ensures { line_of result ≡ next_line directives.now (line_of before) item.now }
{
    match item {
        Item::Directive(place) => {
            if is_left_out(directives, *place) {
                before
            } else {
                Some(*place)
            }
        }
        Item::Local(_) => None,
        Item::Statement(_) => None,
    }
}
