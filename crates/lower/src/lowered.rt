//! A lowered loop.

ghost use Rattle.std.specs.Prelude.{◌≤◌, length};

use crate::roles::LoweredRoles;
use ktree::{Schedule, VarId};
use lower_block::Compiled;
use nest_loop::Canonical;

/// A worksharing loop as a team runs it (OpenMP 5.2, 11.5): its nest of at most four loops, and the code of its body.
#[derive(Drop)]
pub struct LoweredLoop {
    /// The variables of the loops round it, the outermost first.
    pub around: Vec<VarId>,
    /// Its associated loops, the outermost first (OpenMP 5.2, 4.4.2).
    pub loops: Vec<Canonical>,
    /// The innermost body.
    pub body: Compiled,
    /// What its directive's `schedule` says (OpenMP 5.2, 11.5.3).
    pub schedule: Option<Schedule>,
    /// What its directive's clauses say of variables that leave something behind it.
    pub roles: LoweredRoles,
    pub ghost few: { length loops.items ≤ 4 },
}
