// What players gain in a tick, beside their accounts.
ghost use Rattle.std.specs.Prelude.{◌≡◌, ◌+◌, ◌==◌, if◌then◌else◌, ℕ, length, IfOk, IfErr};
ghost use Rattle.object_store.specs.Stored.{AreRising};
ghost use Rattle.ruled_tick.specs.inner.Entered.{AreGains, HasNoAccount, IsPlaceOf};

use object_store::Account;

/// Adds points that a player gained to what is beside his account, if he has one. What 64 bits don't hold is
/// more than an account takes.
pub fn add_gain(accounts: &[Account], gains: &mut [u64], player: u32, points: u32)
    requires rising { AreRising accounts.now }
    requires long { length gains.old ≡ length accounts.now }
    ensures { (gain : ℕ → ℕ) → AreGains gain accounts.now gains.old
        → AreGains (λ other. gain other + (if player == other then points else 0)) accounts.now gains.new }
{
    if points == 0 {
        return;
    }
    if let Ok(place) = place_of(accounts, player) {
        gains[place] = gains[place].saturating_add(u64::from(points));
    }
}

// Where the account of a player stands.
fn place_of(accounts: &[Account], player: u32) -> Result<usize, usize>
    requires rising { AreRising accounts.now }
    ensures found { IfOk result (IsPlaceOf accounts.now player) }
    ensures absent { IfErr result (λ place. HasNoAccount accounts.now player) }
{
    accounts.binary_search_by_key(&player, |account| account.player)
}
