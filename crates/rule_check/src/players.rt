// Rules of players.
ghost use Rattle.std.specs.Prelude.{◌≡◌, MatchBool, map, IfOk};
ghost use Rattle.rule_check.specs.inner.Checks.{IsListed, HasWrongHolder};
ghost use Rattle.rule_check.specs.declared.view.RoomView.{RoomView};

use crate::objects::ObjectRule;
use crate::view::RoomView;
use game_tables::{is_controller, may_have_owner};
use object_store::{Account, Object};
use std::alloc::{AllocError, Global};

/// An owner or reserver is a player, and the kind may have one.
#[derive(Clone, Copy)]
pub struct PlayersHold<'a> {
    pub accounts: &'a [Account],
}

impl ObjectRule for PlayersHold<'_> {
    ghost broken = { λ rule room object. HasWrongHolder rule.accounts.now object };

    fn is_broken(&self, _room: &RoomView, object: &Object) -> bool {
        (object.owner != 0
            && !(may_have_owner(object.kind) && is_listed(self.accounts, object.owner)))
            || (object.other != 0
                && !(is_controller(object.kind) && is_listed(self.accounts, object.other)))
    }
}

fn is_listed(accounts: &[Account], player: u32) -> bool
    ensures { MatchBool result (IsListed accounts.now player) (IsListed accounts.now player → ⊥) }
{
    for account in accounts {
        if account.player == player {
            return true;
        }
    }
    false
}

/// The players that are listed.
pub fn players_of(alloc: Global, accounts: &[Account]) -> Result<Vec<u64>, AllocError>
    ensures { IfOk result (λ players. players.items ≡ map (λ account. account.player) accounts.now) }
{
    accounts
        .iter()
        .map(|account| account.player as u64)
        .collect(alloc)
}
