// A world with modules that were accepted before.
ghost use Rattle.std.specs.Prelude.{◌≡◌, IfOk, OnOk};
ghost use Rattle.std.specs.FinMap.{insert};
ghost use Rattle.wasm_link.specs.Kept.{link_view};
ghost use Rattle.player_run.specs.Admission.{Accepts, IsAccepted};
ghost use Rattle.hosted_tick.specs.Hosting.{AreAccepted, AreLinked, modules_of};
ghost use Rattle.std.specs.FinMap.{from_entries};

use crate::hosted::NoMemory;
use crate::judge::unless_memory;
use crate::modules::{Modules, put};
use object_store::Bytes;
use player_run::{Linked, admit};
use std::alloc::Global;
use std::collections::BTreeMap;

/// The modules of these bytes, each decoded, validated and linked again.
pub(crate) fn link_all(alloc: Global, modules: BTreeMap<u32, Bytes>) -> Result<Modules, NoMemory>
    requires accepted { AreAccepted (from_entries modules.entries) }
    ensures same { IfOk result (λ linked. modules_of linked.entries ≡ from_entries modules.entries) }
    ensures linked { IfOk result (λ linked. AreLinked linked.entries) }
{
    let mut linked = Modules::new(alloc);
    'each: for (player, bytes) in modules {
        add(alloc, player, bytes, &mut linked)?;
    }
    Ok(linked)
}

// Links a module again, and keeps it as that of its player.
fn add(alloc: Global, player: u32, bytes: Bytes, linked: &mut Modules) -> Result<(), NoMemory>
    requires accepted { IsAccepted bytes }
    requires linked { AreLinked linked.old.entries }
    ensures kept { OnOk result
        (modules_of linked.new.entries ≡ insert (modules_of linked.old.entries) player bytes) }
    ensures linked { OnOk result (AreLinked linked.new.entries) }
{
    let module = link(alloc, &bytes)?;
    put(linked, player, bytes, module)
}

// Links a module that was accepted before.
fn link(alloc: Global, bytes: &Bytes) -> Result<Linked, NoMemory>
    requires { IsAccepted bytes.now }
    ensures { IfOk result (λ linked. Accepts bytes.now (link_view linked)) }
{
    match admit(alloc, bytes.as_slice()) {
        Ok(linked) => Ok(linked),
        Err(refusal) => {
            unless_memory(refusal)?;
            unreachable!()
        }
    }
}
