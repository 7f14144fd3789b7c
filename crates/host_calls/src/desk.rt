// The desk that answers the calls of a player's module.
ghost use Rattle.std.specs.Prelude.{◌≡◌, ◌≤◌, [], length, IfOk};
ghost use Rattle.world_rules.specs.Checks.{first_failing as failing};
ghost use Rattle.game_tables.specs.Codes.{code_number};
ghost use Rattle.game_tables.specs.Limits.{most_memory};
ghost use Rattle.std.specs.Prelude.{pos};
ghost use Rattle.game_tables.specs.declared.action.Action.TheVariants.{ClaimController};
ghost use Rattle.host_calls.specs.Replies.{act_code, answers, body_in as body_read, claim_code};
ghost use Rattle.host_calls.specs.Replies.{or_code as or_else, read_reply, record_checks};
ghost use Rattle.host_calls.specs.Replies.{removal_code as code_of_removal, removal_wish as wanted_removal};
ghost use Rattle.host_calls.specs.Replies.{reply, reply_of, site_code as code_of_site};
ghost use Rattle.host_calls.specs.Replies.{site_wish as wanted_site, spawn_code as code_of_creep};
ghost use Rattle.host_calls.specs.Replies.{spawn_wish as wanted_creep, wish_of as wanted, write_reply};
ghost use Rattle.host_calls.specs.inner.Wishes.{named, recorded};

use crate::call::Call;
use crate::making::{body_in, held_around, plan_seen, removal_wish, site_wish, spawn_wish};
use crate::number::{answer_of, argument, id_of, level_of, name_number, unsigned_32};
use crate::room::DeskRoom;
use crate::seen::{allowance, field, ground, place, room_index, room_name, standing};
use crate::signatures::parameters;
use crate::wish::{scene_seen, wish_of};
use action_checks::{Scene, first_failing, removal_code, site_code, spawning_code};
use counted_record::CountedRecord;
use game_tables::{Action, Body, Code, most_memory};
use intent_book::{Intent, Recorded};
use object_store::{Bytes, RoomName};
use sight_census::Census;
pub use std::alloc::AllocError as NoMemory;
use std::alloc::Global;
use std::marker::Model;
use visible_view::View;
use wasm_steps::Host;
use wasm_store::Pages;

/// Answers the calls of a player's module in one tick, and keeps what he wants and his memory text.
///
/// All memory is taken when it is made. A call that copies the memory text takes time by its length.
/// One by an id or by a room's index, and one of a field that hangs on the room's controller, takes
/// time by the logarithm of what is seen. One that wants something also looks through what is
/// recorded, by a hash: where actors were chosen to collide, through all of it at most. The first one
/// for a site or a creep in a room counts what stands there, by one look at each of its objects. All
/// other calls take bounded time, whatever is seen and recorded.
pub struct Desk<'a, 'v> {
    view: &'a View<'v>,
    level: u32,
    book: CountedRecord,
    census: Census<'a, 'v>,
    memory: Vec<u8>,
}

impl Drop for Desk<'_, '_> {
    fn drop(self) {
        let Desk {
            view: _,
            level: _,
            book: _,
            census: _,
            memory: _,
        } = self;
    }
}

impl<'a, 'v> Model for Desk<'a, 'v> {
    ghost use Rattle.std.specs.Prelude.{◌≡◌, ◌≤◌, length, vec_capacity};
    ghost use Rattle.game_tables.specs.Limits.{most_memory};
    ghost use Rattle.sight_census.specs.Censuses.{census_of};
    ghost use Rattle.host_calls.specs.Desks.{Desk, global_level};

    ghost Value = { Desk };

    ghost view = { λ d. record { sight = d.view.now; book = d.book; memory = d.memory.items } };

    ghost invariant = { λ d. (d.book.player ≡ d.view.now.account.player)
        × (d.level ≡ global_level d.view.now.account.points) × (length d.memory.items ≤ most_memory)
        × (most_memory ≤ vec_capacity d.memory) × (d.census ≡ census_of d.view.now) };
}

impl<'a, 'v> Desk<'a, 'v> {
    /// The desk of the view's player, with this memory text, and nothing recorded.
    pub fn new(
        alloc: Global,
        view: &'a View<'v>,
        player: u32,
        memory: &[u8],
    ) -> Result<Desk<'a, 'v>, NoMemory>
        requires own { player ≡ view.now.account.player }
        requires memory { length memory.now ≤ most_memory }
        ensures { IfOk result
            (λ desk. desk ≡ record {
              sight = view.now;
              book = record { player = player; entries = [] };
              memory = memory.now;
            }) }
    {
        Desk::over(alloc, view, player, memory, DeskRoom::new(alloc)?)
    }

    /// The same in the room of an earlier desk, of which nothing is left.
    pub fn over(
        alloc: Global,
        view: &'a View<'v>,
        player: u32,
        memory: &[u8],
        room: DeskRoom,
    ) -> Result<Desk<'a, 'v>, NoMemory>
        requires own { player ≡ view.now.account.player }
        requires memory { length memory.now ≤ most_memory }
        ensures { IfOk result
            (λ desk. desk ≡ record {
              sight = view.now;
              book = record { player = player; entries = [] };
              memory = memory.now;
            }) }
    {
        let census = Census::of(alloc, view)?;
        let DeskRoom { mut book, mut text } = room;
        book.clear(player);
        text.clear();
        text.extend_from_slice(memory).unwrap();
        Ok(Desk {
            view,
            level: level_of(view.account().points),
            book,
            census,
            memory: text,
        })
    }

    /// Answers the call of a number. It takes no memory.
    pub fn answer(&mut self, call: u32, args: &[i64], pages: &mut Pages) -> i64
        ensures { record { answer = result; desk = self.new; memory = pages.new }
            ≡ reply call self.old pages.old args.now }
    {
        match Call::of_number(call) {
            Some(found) if parameters(call) == Some(args.len()) => self.reply(found, args, pages),
            _ => told(Code::InvalidArgs),
        }
    }

    /// What the player wants.
    pub fn book(&self) -> &Recorded
        ensures { result.now ≡ self.now.book }
    {
        self.book.recorded()
    }

    /// The player's memory text.
    pub fn memory(&self) -> &[u8]
        ensures text { result.now ≡ self.now.memory }
        ensures most { length result.now ≤ most_memory }
    {
        &self.memory
    }

    /// What the player wants, and his memory text. It takes no memory.
    pub fn finish(self) -> (Recorded, Bytes)
        ensures book { result.0 ≡ self.entry.book }
        ensures memory { result.1 ≡ self.entry.memory }
        ensures most { length result.1 ≤ most_memory }
    {
        let Desk {
            view: _,
            level: _,
            book,
            census: _,
            memory,
        } = self;
        (book.into_recorded(), Bytes::from_vec(memory))
    }

    /// The room in which it worked, for another desk.
    pub fn into_room(self) -> DeskRoom {
        let Desk {
            view: _,
            level: _,
            book,
            census: _,
            memory: text,
        } = self;
        DeskRoom { book, text }
    }

    // Answers a call with as many arguments as its type has.
    fn reply(&mut self, call: Call, args: &[i64], pages: &mut Pages) -> i64
        ensures { record { answer = result; desk = self.new; memory = pages.new }
            ≡ reply_of call self.old pages.old args.now }
    {
        let (first, second, third) = (argument(args, 0), argument(args, 1), argument(args, 2));
        match call {
            Call::Tick => answer_of(self.view.tick()),
            Call::Me => answer_of(u64::from(self.view.account().player)),
            Call::Allowance => answer_of(allowance(self.view.account())),
            Call::Bucket => answer_of(u64::from(self.view.account().bucket)),
            Call::Points => answer_of(self.view.account().points),
            Call::Level => answer_of(u64::from(self.level)),
            Call::Rooms => answer_of(u64::from(self.view.room_count())),
            Call::Room => or_code(room_index(self.view, first), Code::InvalidArgs),
            Call::RoomName => name_or_refusal(room_name(self.view, first)),
            Call::Terrain => or_code(ground(self.view, first, second, third), Code::InvalidArgs),
            Call::Count => answer_of(u64::from(self.view.count())),
            Call::Find => or_code(place(self.view, first), Code::NotFound),
            Call::Get => or_code(field(self.view, first, second), Code::InvalidArgs),
            Call::MemoryLength => answer_of(self.memory.len() as u64),
            Call::MemoryRead => told(self.memory_read(unsigned_32(first), pages)),
            Call::MemoryWrite => {
                told(self.memory_write(unsigned_32(first), unsigned_32(second), pages))
            }
            Call::DropLoad => told(self.act(Action::DropLoad, first, 0, second)),
            Call::Transfer => told(self.act(Action::Transfer, first, second, third)),
            Call::Withdraw => told(self.act(Action::Withdraw, first, second, third)),
            Call::Pickup => told(self.act(Action::Pickup, first, second, 0)),
            Call::Heal => told(self.act(Action::Heal, first, second, 0)),
            Call::RangedHeal => told(self.act(Action::RangedHeal, first, second, 0)),
            Call::Dismantle => told(self.act(Action::Dismantle, first, second, 0)),
            Call::Attack => told(self.act(Action::Attack, first, second, 0)),
            Call::Harvest => told(self.act(Action::Harvest, first, second, 0)),
            Call::Repair => told(self.act(Action::Repair, first, second, 0)),
            Call::Build => told(self.act(Action::Build, first, second, 0)),
            Call::RangedMassAttack => told(self.act(Action::RangedMassAttack, first, 0, 0)),
            Call::RangedAttack => told(self.act(Action::RangedAttack, first, second, 0)),
            Call::Suicide => told(self.act(Action::Suicide, first, 0, 0)),
            Call::ClaimController => told(self.claim(first, second)),
            Call::Upgrade => told(self.act(Action::Upgrade, first, second, 0)),
            Call::Reserve => told(self.act(Action::Reserve, first, second, 0)),
            Call::AttackController => told(self.act(Action::AttackController, first, second, 0)),
            Call::CreateSite => told(self.create_site(first, second, third, argument(args, 3))),
            Call::RemoveSite => told(self.remove_site(first)),
            Call::SpawnCreep => told(self.spawn_creep(
                first,
                unsigned_32(second),
                unsigned_32(third),
                pages,
            )),
            Call::Move => told(self.act(Action::Move, first, 0, second)),
        }
    }

    // Copies the memory text to an address.
    fn memory_read(&self, at: u64, pages: &mut Pages) -> Code
        ensures { record { answer = code_number result; desk = self.now; memory = pages.new }
            ≡ read_reply self.now pages.old at }
    {
        if pages.write_span(at, &self.memory) {
            Code::Done
        } else {
            Code::InvalidArgs
        }
    }

    // Makes the bytes of a span the memory text.
    fn memory_write(&mut self, at: u64, len: u64, pages: &Pages) -> Code
        ensures { record { answer = code_number result; desk = self.new; memory = pages.now }
            ≡ write_reply self.old pages.now at len }
    {
        if len > u64::from(most_memory()) {
            return Code::InvalidArgs;
        }
        let Some(bytes) = pages.read_span(at, len) else {
            return Code::InvalidArgs;
        };
        self.memory.clear();
        self.memory.extend_from_slice(bytes).unwrap();
        Code::Done
    }

    // Records what a call wants. Where the record is full nothing is changed.
    pub(crate) fn record(&mut self, intent: Intent) -> Code
        requires own { intent.player ≡ self.old.book.player }
        ensures code { result ≡ failing (record_checks self.old intent) }
        ensures desk { self.new ≡ recorded self.old intent result }
    {
        if self.book.put(intent) {
            Code::Done
        } else {
            Code::Full
        }
    }

    // Wants an action of a creep, where its checks hold of what is seen.
    pub(crate) fn act(&mut self, action: Action, id: i64, target: i64, amount: i64) -> Code
        ensures code { result ≡ act_code action self.old id target amount }
        ensures desk { self.new
            ≡ recorded self.old (wanted action self.old.sight.account.player id target amount) result }
    {
        match first_failing(action, &scene_seen(self.view, id, target, amount)) {
            Code::Done => {
                let player = self.view.account().player;
                self.record(wish_of(action, player, id, target, amount))
            }
            code => code,
        }
    }

    // Wants to claim a controller, where the checks hold of what is seen, and the player's controllers with
    // those that other creeps of his are to claim are fewer than his level.
    fn claim(&mut self, id: i64, target: i64) -> Code
        ensures code { result ≡ claim_code self.old id target }
        ensures desk { self.new ≡ recorded self.old
            (wanted ClaimController self.old.sight.account.player id target (pos 0)) result }
    {
        let others = self.book.claims_of_others(id_of(id).unwrap_or(0));
        let scene = Scene {
            claims: u64::from(self.census.controllers()) + u64::from(others),
            level: self.level,
            ..scene_seen(self.view, id, target, 0)
        };
        match first_failing(Action::ClaimController, &scene) {
            Code::Done => {
                let player = self.view.account().player;
                self.record(wish_of(Action::ClaimController, player, id, target, 0))
            }
            code => code,
        }
    }

    // Wants a site on a tile of a room that is seen.
    fn create_site(&mut self, room: i64, x: i64, y: i64, kind: i64) -> Code
        ensures code { result ≡ code_of_site self.old room x y kind }
        ensures desk { self.new ≡ recorded self.old
            (wanted_site self.old.sight.account.player room x y kind) result }
    {
        let wish = site_wish(self.view.account().player, room, x, y, kind);
        let Some(plan) = plan_seen(self.view, &mut self.census, &self.book, &wish, room, x, y)
        else {
            return Code::NotFound;
        };
        match site_code(&plan) {
            Code::Done => self.record(wish),
            code => code,
        }
    }

    // Wants a site of the player's that is seen to be removed.
    fn remove_site(&mut self, id: i64) -> Code
        ensures code { result ≡ code_of_removal self.old id }
        ensures desk { self.new ≡ recorded self.old (wanted_removal self.old.sight.account.player id) result }
    {
        let player = self.view.account().player;
        match removal_code(player, standing(self.view, id)) {
            Code::Done => self.record(removal_wish(player, id)),
            code => code,
        }
    }

    // Wants a spawn to make a creep of the body in a span of the module's memory.
    fn spawn_creep(&mut self, id: i64, at: u64, len: u64, pages: &Pages) -> Code
        ensures code { result ≡ code_of_creep self.old id (body_read pages.now at len) }
        ensures desk { self.new ≡ recorded self.old
            (wanted_creep self.old.sight.account.player id (body_read pages.now at len)) result }
    {
        let player = self.view.account().player;
        let body = body_in(pages, at, len);
        let spawn = standing(self.view, id);
        let held = held_around(self.view, &mut self.census, spawn);
        match spawning_code(player, spawn, held, body.as_ref()) {
            Code::Done => self.record(spawn_wish(player, id, body)),
            code => code,
        }
    }
}

impl<'a, 'v> Host for Desk<'a, 'v> {
    ghost answers = { answers };

    fn answer(&mut self, call: u32, args: &[i64], pages: &mut Pages) -> i64 {
        Desk::answer(self, call, args, pages)
    }
}

// What there is, or else a code.
fn or_code(found: Option<u64>, code: Code) -> i64
    ensures { result ≡ or_else code found }
{
    match found {
        Some(number) => answer_of(number),
        None => told(code),
    }
}

// The number of a room's name, where there is one.
fn name_or_refusal(found: Option<RoomName>) -> i64
    ensures { result ≡ named found }
{
    match found {
        Some(name) => name_number(name),
        None => told(Code::InvalidArgs),
    }
}

// A code as a module gets it.
fn told(code: Code) -> i64
    ensures { result ≡ code_number code }
{
    i64::from(code.number())
}
