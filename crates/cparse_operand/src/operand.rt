//! Operands, with what is known of them, so that no operator looks at the trees of its operands.

ghost use Rattle.std.specs.Prelude.{◌≡◌};
ghost use Rattle.cparse_operand.specs.Operands.{typed_in, constant_in, plain_in};

use cparse_cursor::written::Written;
use ktree::Source;

/// What was read as an operand: a number or a condition.
#[derive(Drop)]
pub struct Operand {
    pub source: Source,
    /// Whether its type is `uint64_t` (C11 6.3.1.8).
    pub typed: bool,
    /// Its value, if it is a constant expression (C11 6.6).
    pub constant: Option<u32>,
    /// Whether it has no literal with `ull` outside of subscripts.
    pub plain: bool,
    pub written: Written,
    ghost type_known: { typed ≡ typed_in source },
    ghost value_known: { constant ≡ constant_in source },
    ghost literals_known: { plain ≡ plain_in source },
}
