// What is counted of all that a player sees.
ghost use Rattle.std.specs.Prelude.{◌≡◌, IfOk, None, length, replicate, slice_get};
ghost use Rattle.sight_census.specs.Censuses.{census_of};

use crate::NoMemory;
use crate::told::Told;
use std::alloc::Global;
use std::marker::Model;
use visible_view::View;

/// What is counted of what a player sees: room by room what he holds for creeps and what is built there, and
/// how many controllers he owns. A room is counted when it is asked for the first time, by one look at each
/// of its objects, so that a player who asks for none pays for none.
#[derive(Drop)]
pub struct Census<'a, 'v> {
    view: &'a View<'v>,
    rooms: Vec<Option<Told>>,
}

impl<'a, 'v> Model for Census<'a, 'v> {
    ghost use Rattle.sight_census.specs.Censuses.{Census, census_of};
    ghost use Rattle.sight_census.specs.inner.Counting.{AreKnown};

    ghost Value = { Census };

    ghost view = { λ c. census_of c.view.now };

    ghost invariant = { λ c. AreKnown (census_of c.view.now).rooms c.rooms.items };
}

impl<'a, 'v> Census<'a, 'v> {
    /// What is counted of what is seen. All its memory is taken here.
    pub fn of(alloc: Global, view: &'a View<'v>) -> Result<Census<'a, 'v>, NoMemory>
        ensures { IfOk result (λ census. census ≡ census_of view.now) }
    {
        Ok(Census {
            view,
            rooms: no_rooms(alloc, view.room_count())?,
        })
    }

    /// What is counted of the room at a place among those that are seen, from 0 on.
    pub fn room(&mut self, place: u32) -> Option<Told>
        ensures told { result ≡ slice_get self.old.rooms place }
        ensures same { self.new ≡ self.old }
    {
        match self.rooms.get(place as usize).copied()? {
            Some(told) => Some(told),
            None => self.count(place),
        }
    }

    // Counts the room at a place.
    fn count(&mut self, place: u32) -> Option<Told>
        ensures told { result ≡ slice_get self.old.rooms place }
        ensures same { self.new ≡ self.old }
    {
        let table = self.view.table_at(place)?;
        let told = Told::of(table, self.view.account().player);
        self.rooms[place as usize] = Some(told);
        Some(told)
    }

    /// How many controllers the player owns.
    pub fn controllers(&self) -> u32
        ensures { result ≡ self.now.controllers }
    {
        self.view.controllers()
    }
}

// As many rooms of which nothing is counted yet.
fn no_rooms(alloc: Global, count: u32) -> Result<Vec<Option<Told>>, NoMemory>
    ensures { IfOk result (λ rooms. rooms.items ≡ replicate count None) }
{
    let mut rooms = Vec::new(alloc);
    rooms.resize(count as usize, None)?;
    Ok(rooms)
}
