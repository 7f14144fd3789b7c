// The world as it is stored.
ghost use Rattle.std.specs.Prelude.{◌≡◌, ◌↔◌, IsTrue, ℕ, ◌<◌, ◌≤◌, ◌-◌, ◌+◌, ◌*◌, ◌^◌, [], ◌∷◌, ◌++◌, length};
ghost use Rattle.std.specs.Prelude.{slice_get, option_map, Some, None, IfSome, IfNone, IfOk, OnOk, OnErr};
ghost use Rattle.std.specs.List.Sorted.{IsPartitionPoint};
ghost use Rattle.std.specs.Borrow.{sem};
ghost use Rattle.object_store.specs.Stored.{Stored, AreRising, IsLast, HaveRisingTables, IsRoomNamed};
ghost use Rattle.object_store.specs.Stored.{HasAccount, find_account, with_account};
ghost use Rattle.object_store.specs.Lending.{LendsTable};
ghost use Rattle.object_store.specs.inner.Naming.{HasNumber, room_names, sort_number, AreByName, IsPlaceOf};

use crate::account::Account;
use room_table::RoomTable;
use room_terrain::{RoomName, Terrain};
use std::alloc::{AllocError, Global};
use std::marker::Model;

/// A room with its name, its terrain and its objects.
#[derive(Drop)]
pub struct Room {
    pub name: RoomName,
    pub terrain: Terrain,
    pub table: RoomTable,
}

impl Room {
    /// The same room once more, with the spare of its table.
    fn copy(&self, alloc: Global) -> Result<Room, AllocError>
        ensures { IfOk result (λ copy. copy ≡ self.now) }
    {
        Ok(Room {
            name: self.name,
            terrain: self.terrain.copy(alloc)?,
            table: self.table.copy(alloc, u64::from(self.table.spare()))?,
        })
    }
}

/// A world: its tick, its rooms, and the accounts in rising player.
///
/// A room is found by its name by halving, in the indices of the rooms in the order of their names.
pub struct World {
    tick: u64,
    rooms: Vec<Room>,
    by_name: Vec<u32>,
    accounts: Vec<Account>,
}

impl Drop for World {
    fn drop(self) {
        let World {
            tick: _,
            rooms: _,
            by_name: _,
            accounts: _,
        } = self;
    }
}

impl Model for World {
    ghost use Rattle.std.specs.Prelude.{◌<◌, ◌^◌, length};
    ghost use Rattle.object_store.specs.Stored.{Stored, AreRising};
    ghost use Rattle.object_store.specs.inner.Naming.{room_names, AreByName};
    ghost use Rattle.std.specs.Coded.{codes};
    ghost use Rattle.room_table.specs.Tallies.{tallies_code};

    ghost Value = { Stored };

    ghost coded = { Prim.hlevel (codes, tallies_code) };

    ghost view = { λ w. record { tick = w.tick; rooms = w.rooms.items; accounts = w.accounts.items } };

    ghost invariant = { λ w. (length w.rooms.items < 2 ^ 32) × AreByName
        (room_names w.rooms.items) w.by_name.items × (length w.accounts.items < 2 ^ 32)
        × AreRising w.accounts.items };
}

impl World {
    /// A world without rooms and accounts.
    pub fn empty(alloc: Global, tick: u64) -> World
        ensures { result ≡ record { tick = tick; rooms = []; accounts = [] } }
    {
        World {
            tick,
            rooms: Vec::new(alloc),
            by_name: Vec::new(alloc),
            accounts: Vec::new(alloc),
        }
    }

    /// The number of the world, which counts its ticks.
    pub fn tick(&self) -> u64
        ensures { result ≡ self.now.tick }
    {
        self.tick
    }

    /// Puts the world at a tick.
    pub fn set_tick(&mut self, tick: u64)
        ensures { self.new ≡ record self.old { tick = tick } }
    {
        self.tick = tick;
    }

    /// The number of the rules in force.
    pub fn rules(&self) -> u8
        ensures { result ≡ 1 }
    {
        1
    }

    /// The same world once more, each table with its spare.
    pub fn copy(&self, alloc: Global) -> Result<World, AllocError>
        ensures { IfOk result (λ copy. copy ≡ self.now) }
    {
        Ok(World {
            tick: self.tick,
            rooms: copy_rooms(alloc, &self.rooms)?,
            by_name: Vec::from_slice(alloc, &self.by_name)?,
            accounts: copy_accounts(alloc, &self.accounts)?,
        })
    }

    /// The rooms and the accounts, taken out of the world.
    pub fn into_parts(self) -> (Vec<Room>, Vec<Account>)
        ensures rooms { result.0.items ≡ self.rooms }
        ensures accounts { result.1.items ≡ self.accounts }
    {
        let World {
            tick: _,
            rooms,
            by_name: _,
            accounts,
        } = self;
        (rooms, accounts)
    }

    /// The number of rooms.
    pub fn rooms(&self) -> u32
        ensures { result ≡ length self.now.rooms }
    {
        self.rooms.len() as u32
    }

    /// Says that there are fewer than 2^32 rooms and as few accounts, that the objects of each room stand in
    /// rising id, and the accounts in rising player. It does nothing.
    pub fn stands_in_order(&self)
        ensures rooms { length self.now.rooms < 2 ^ 32 }
        ensures tables { HaveRisingTables self.now.rooms }
        ensures accounts { length self.now.accounts < 2 ^ 32 }
        ensures rising { AreRising self.now.accounts }
    {
        all_rise(&self.rooms);
    }

    /// All rooms, by their index.
    pub fn room_list(&self) -> &[Room]
        ensures all { result.now ≡ self.now.rooms }
        ensures within { length result.now < 2 ^ 32 }
        ensures rising { HaveRisingTables result.now }
    {
        self.stands_in_order();
        &self.rooms
    }

    /// The objects of a room.
    pub fn room(&self, index: u32) -> &RoomTable
        requires { index < length self.now.rooms }
        ensures { option_map (λ room. room.table) (slice_get self.now.rooms index) ≡ Some result.now }
    {
        &self.rooms[index as usize].table
    }

    /// The objects of a room, to be changed.
    pub fn room_mut(&mut self, index: u32) -> &mut RoomTable
        requires { index < length self.old.rooms }
        ensures* writes_back { sem 𝓛 (LendsTable self.entry index result) }
        ensures value { option_map (λ room. room.table) (slice_get self.old.rooms index) ≡ Some result.now }
    {
        let room = &mut self.rooms[index as usize];
        &mut room.table
    }

    /// The least index of a room of a name.
    pub fn find_room(&self, name: RoomName) -> Option<u32>
        ensures some { IfSome result (λ i. IsRoomNamed name self.now.rooms i
            × ((k : ℕ) → k < i → ¬ IsRoomNamed name self.now.rooms k)) }
        ensures none { IfNone result ((k : ℕ) → ¬ IsRoomNamed name self.now.rooms k) }
    {
        let number = name_number(name);
        let place = name_place(&self.rooms, &self.by_name, number, 0);
        if place >= self.by_name.len() {
            return None;
        }
        let index = self.by_name[place];
        let found = name_number(self.rooms[index as usize].name);
        if found == number {
            return Some(index);
        }
        None
    }

    /// The name of a room.
    pub fn name(&self, index: u32) -> RoomName
        requires { index < length self.now.rooms }
        ensures { option_map (λ room. room.name) (slice_get self.now.rooms index) ≡ Some result }
    {
        self.rooms[index as usize].name
    }

    /// The terrain of a room.
    pub fn terrain(&self, index: u32) -> &Terrain
        requires { index < length self.now.rooms }
        ensures { option_map (λ room. room.terrain) (slice_get self.now.rooms index) ≡ Some result.now }
    {
        &self.rooms[index as usize].terrain
    }

    /// The number of accounts.
    pub fn accounts(&self) -> u32
        ensures { result ≡ length self.now.accounts }
    {
        self.accounts.len() as u32
    }

    /// The account of a player.
    pub fn account(&self, player: u32) -> Option<&Account>
        ensures { option_map (λ a. a.now) result ≡ find_account player self.now.accounts }
    {
        let place = account_place(&self.accounts, player);
        match self.accounts.get(place) {
            Some(account) if account.player == player => Some(account),
            _ => None,
        }
    }

    /// The account at a place of the list, from 0 on.
    pub fn nth_account(&self, i: u32) -> Option<&Account>
        ensures { option_map (λ a. a.now) result ≡ slice_get self.now.accounts i }
    {
        self.accounts.get(i as usize)
    }

    /// All accounts, in rising player.
    pub fn account_list(&self) -> &[Account]
        ensures all { result.now ≡ self.now.accounts }
        ensures within { length result.now < 2 ^ 32 }
        ensures rising { AreRising result.now }
    {
        &self.accounts
    }

    /// Adds a room at the end.
    pub fn push_room(
        &mut self,
        name: RoomName,
        terrain: Terrain,
        table: RoomTable,
    ) -> Result<(), AllocError>
        requires index { table.index ≡ length self.old.rooms }
        requires room { length self.old.rooms + 1 < 2 ^ 32 }
        ensures ok { OnOk result
            (self.new ≡ record self.old {
              rooms = self.old.rooms ++ record {
                name = name;
                terrain = terrain;
                table = table;
              } ∷ [];
            }) }
        ensures err { OnErr result (self.new ≡ self.old) }
    {
        let index = self.rooms.len() as u32;
        let place = name_place(&self.rooms, &self.by_name, name_number(name), index);
        self.by_name.reserve(1)?;
        self.rooms.push(Room {
            name,
            terrain,
            table,
        })?;
        self.by_name.insert(place, index).unwrap();
        Ok(())
    }

    /// Adds an account at the end. Accounts are added in rising player.
    pub fn push_account(&mut self, account: Account) -> Result<(), AllocError>
        requires room { length self.old.accounts + 1 < 2 ^ 32 }
        requires rising { IsLast account.player self.old.accounts }
        ensures ok { OnOk result
            (self.new ≡ record self.old { accounts = self.old.accounts ++ account ∷ [] }) }
        ensures err { OnErr result (self.new ≡ self.old) }
    {
        Ok(self.accounts.push(account)?)
    }

    /// Puts an account in the place of the one of its player.
    pub fn set_account(&mut self, account: Account)
        requires there { HasAccount account.player self.old.accounts }
        ensures { self.new ≡ record self.old { accounts = with_account account self.old.accounts } }
    {
        let place = account_place(&self.accounts, account.player);
        self.accounts[place] = account;
    }
}

// What each table keeps: that its objects rise.
fn all_rise(rooms: &[Room])
    ensures { HaveRisingTables rooms.now }
{
    for room in rooms {
        room.table.stands_in_order();
    }
}

// The number of a name.
fn name_number(name: RoomName) -> u64
    ensures { HasNumber name result }
{
    u64::from(name.column.cast_unsigned()) * (1 << 32) + u64::from(name.row.cast_unsigned())
}

// Whether a room comes before a name's number and an index.
fn comes_before(rooms: &[Room], room: u32, number: u64, index: u32) -> bool
    requires { room < length rooms.now }
    ensures { IsTrue result ↔ (sort_number (room_names rooms.now) room < number * 2 ^ 32 + index) }
{
    let its = name_number(rooms[room as usize].name);
    its < number || its == number && room < index
}

// The place of a name's number and an index among the rooms by name.
fn name_place(rooms: &[Room], by_name: &[u32], number: u64, index: u32) -> usize
    requires { AreByName (room_names rooms.now) by_name.now }
    ensures within { result ≤ length by_name.now }
    ensures between { IsPlaceOf (number * 2 ^ 32 + index) (room_names rooms.now) by_name.now result }
{
    let mut low = 0;
    let mut high = by_name.len();
    while low < high {
        let middle = low + (high - low) / 2;
        if comes_before(rooms, by_name[middle], number, index) {
            low = middle + 1;
        } else {
            high = middle;
        }
    }
    low
}

// The place of a player among the accounts, or where it would be.
fn account_place(accounts: &[Account], player: u32) -> usize
    requires { AreRising accounts.now }
    ensures within { result ≤ length accounts.now }
    ensures between { IsPartitionPoint (λ a. a.player < player) (λ a. player ≤ a.player) accounts.now result }
{
    accounts.partition_point(|account| account.player < player)
}

fn copy_rooms(alloc: Global, rooms: &[Room]) -> Result<Vec<Room>, AllocError>
    ensures { IfOk result (λ copy. copy.items ≡ rooms.now) }
{
    let mut copies = Vec::with_capacity(alloc, rooms.len())?;
    for room in rooms {
        copies.push(room.copy(alloc)?)?;
    }
    Ok(copies)
}

fn copy_accounts(alloc: Global, accounts: &[Account]) -> Result<Vec<Account>, AllocError>
    ensures { IfOk result (λ copy. copy.items ≡ accounts.now) }
{
    let mut copies = Vec::with_capacity(alloc, accounts.len())?;
    for account in accounts {
        copies.push(account.copy(alloc)?)?;
    }
    Ok(copies)
}
