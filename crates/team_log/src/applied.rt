//! Changes of chunks, put into the store.

ghost use Rattle.std.specs.Prelude.{◌≡◌, map};
ghost use Rattle.store.specs.Flat.{values_of};
ghost use Rattle.team_log.specs.Applied.{AreApplied};
ghost use Rattle.team_log.specs.Logged.{joined};

use crate::log::ChunkLog;
use store::Store;

/// Overwrites the store by the changes of all these chunks, one after another.
pub fn apply_all(store: &mut Store, logs: &[ChunkLog])
    ensures applied { AreApplied (values_of store.old) (values_of store.new)
        (joined logs.now).chunks }
    ensures shape { map (λ k. k.lengths) store.new ≡ map (λ k. k.lengths) store.old }
{
    let Some((log, rest)) = logs.split_first() else {
        return;
    };
    log.apply(store);
    apply_all(store, rest);
}
