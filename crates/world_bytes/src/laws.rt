// Laws of the byte forms.
ghost use Rattle.std.specs.Prelude.{◌≡◌, ℕ, List, ◌++◌};
ghost use Rattle.byte_fields.specs.Front.{Begins};
ghost use Rattle.intent_book.specs.declared.intent.Intent.{Intent};
ghost use Rattle.room_table.specs.Tables.{Table, without_spare};
ghost use Rattle.object_store.specs.declared.account.Account.{Account};
ghost use Rattle.world_bytes.specs.Forms.{HasAccountForm, HasIntentForm, HasRoomForm, SpellsAccount};
ghost use Rattle.world_bytes.specs.Forms.{SpellsIntent, SpellsRoom, account_bytes, intent_bytes, room_bytes};

/// Says that bytes begin with one room at most, with one account at most, and with one intent at most
/// of each player, and that what is written of a value that has a form begins as this value, whatever
/// follows. It does nothing when it runs.
pub fn forms_are_one()
    ensures rooms { (bytes : List ℕ) (one other : Table) (rest more : List ℕ)
        → Begins SpellsRoom bytes one rest → Begins SpellsRoom bytes other more
        → (one ≡ other) × (rest ≡ more) }
    ensures accounts { (bytes : List ℕ) (one other : Account) (rest more : List ℕ)
        → Begins SpellsAccount bytes one rest → Begins SpellsAccount bytes other more
        → (one ≡ other) × (rest ≡ more) }
    ensures written_rooms { (table : Table) (rest : List ℕ) → HasRoomForm table
        → Begins SpellsRoom (room_bytes table ++ rest) (without_spare table) rest }
    ensures written_accounts { (account : Account) (rest : List ℕ) → HasAccountForm account
        → Begins SpellsAccount (account_bytes account ++ rest) account rest }
    ensures intents { (player : ℕ) (bytes : List ℕ) (one other : Intent) (rest more : List ℕ)
        → Begins (SpellsIntent player) bytes one rest → Begins (SpellsIntent player) bytes other more
        → (one ≡ other) × (rest ≡ more) }
    ensures written_intents { (intent : Intent) (rest : List ℕ) → HasIntentForm intent
        → Begins (SpellsIntent intent.player) (intent_bytes intent ++ rest) intent rest }
{}
