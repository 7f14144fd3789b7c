// The modules of players.
ghost use Rattle.std.specs.Prelude.{◌≡◌, OnOk};
ghost use Rattle.std.specs.FinMap.{insert};
ghost use Rattle.wasm_link.specs.Kept.{link_view};
ghost use Rattle.player_run.specs.Admission.{Accepts};
ghost use Rattle.hosted_tick.specs.Hosting.{AreLinked, modules_of};

use crate::hosted::NoMemory;
use object_store::Bytes;
use player_run::Linked;
use std::collections::BTreeMap;

/// A player's module: its bytes, and the module that they are, linked to the host calls.
pub(crate) struct HostedModule {
    pub bytes: Bytes,
    pub linked: Linked,
}

impl Drop for HostedModule {
    fn drop(self) {
        let HostedModule {
            bytes: _,
            linked: _,
        } = self;
    }
}

/// The modules by their players.
pub(crate) type Modules = BTreeMap<u32, HostedModule>;

/// Keeps a module as that of a player, in the place of the one that he had.
pub(crate) fn put(
    modules: &mut Modules,
    player: u32,
    bytes: Bytes,
    linked: Linked,
) -> Result<(), NoMemory>
    requires linked { AreLinked modules.old.entries }
    requires accepted { Accepts bytes (link_view linked) }
    ensures kept { OnOk result
        (modules_of modules.new.entries ≡ insert (modules_of modules.old.entries) player bytes) }
    ensures linked { OnOk result (AreLinked modules.new.entries) }
{
    modules.insert(player, HostedModule { bytes, linked })?;
    Ok(())
}
