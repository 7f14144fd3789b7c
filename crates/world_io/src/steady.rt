// A source and a sink in memory that don't fail.
ghost use Rattle.std.specs.Prelude.{◌≡◌, ℕ, ◌+◌, ◌-◌, ◌<◌, ◌≤◌, ◌↔◌, [], min, drop, take, length};
ghost use Rattle.std.specs.Prelude.{vec_capacity, Some, IsOk, IsErr, IfOk, OnOk, OnErr};
ghost use Rattle.std.specs.Io.{ReadsAtMost, WritesAtMost};
ghost use Rattle.std.specs.Io.KnownBytes.{ReadConsumes, WriteAppends};
ghost use Rattle.world_io.specs.Causes.{HasCause, one_more};

use crate::count::FaultCount;
use crate::sink::Sink;
use crate::source::{Failed, Source};

/// A source in memory that never fails.
#[derive(Drop)]
pub struct SteadySource {
    bytes: Vec<u8>,
    place: usize,
    ghost in_range: { place ≤ length bytes.items },
}

impl SteadySource {
    ghost use Rattle.world_io.specs.Steady.{left_of};

    /// A source that gives these bytes.
    pub fn new(bytes: Vec<u8>) -> Self
        ensures { left_of result ≡ bytes.items }
    {
        SteadySource { bytes, place: 0 }
    }
}

impl Source for SteadySource {
    ghost use Rattle.world_io.specs.Steady.{left_of};

    ghost left = { λ s. Some (left_of s) };

    ghost faults = { λ _. 0 };

    /// Gives as much as there is and the buffer holds.
    fn read(&mut self, buf: &mut [u8]) -> Result<usize, Failed>
        requires { 0 < length buf.old }
        ensures bound { ReadsAtMost result buf.new }
        ensures bytes { ReadConsumes (Some (left_of self.old)) (Some (left_of self.new)) result buf.new }
        ensures cause { HasCause 0 0 result }
        ensures steady { IsOk result }
        ensures most { IfOk result (λ n. n ≡ min (length buf.old) (length (left_of self.old))) }
    {
        let place = self.place;
        let count = fill_front(buf, &self.bytes[place..]);
        self.place = place + count;
        Ok(count)
    }
}

// Copies the front of the bytes into the front of the buffer, as much as there is and as there is room for,
// and says how much.
pub(crate) fn fill_front(buf: &mut [u8], bytes: &[u8]) -> usize
    ensures count { result ≡ min (length buf.old) (length bytes.now) }
    ensures filled { take result buf.new ≡ take (length buf.old) bytes.now }
{
    let count = bytes.len().min(buf.len());
    buf[..count].copy_from_slice(&bytes[..count]);
    count
}

/// A sink in memory that doesn't fail while its room suffices, and takes no memory.
#[derive(Drop)]
pub struct SteadySink {
    room: Vec<u8>,
    used: usize,
    faults: FaultCount,
    ghost in_range: { used ≤ length room.items },
}

impl SteadySink {
    ghost use Rattle.world_io.specs.Steady.{written_to, room_in};

    /// A sink over the vector's whole capacity; the bytes that it holds are gone.
    pub fn over(mut room: Vec<u8>) -> Self
        ensures empty { written_to result ≡ [] }
        ensures room { room_in result ≡ vec_capacity room }
        ensures faults { result.faults.count ≡ 0 }
    {
        room.clear();
        let capacity = room.capacity();
        let Ok(()) = room.resize(capacity, 0) else {
            unreachable!()
        };
        SteadySink {
            room,
            used: 0,
            faults: FaultCount::ZERO,
        }
    }

    /// The bytes that were written.
    pub fn written(&self) -> &[u8]
        ensures { result.now ≡ written_to self.now }
    {
        &self.room[..self.used]
    }
}

impl Sink for SteadySink {
    ghost use Rattle.world_io.specs.Steady.{written_to, room_in};

    ghost written = { λ s. Some (written_to s) };

    ghost faults = { λ s. s.faults.count };

    /// Takes as much as there is room for, and fails where there is none.
    fn write(&mut self, piece: &[u8]) -> Result<usize, Failed>
        requires { 0 < length piece.now }
        ensures bound { WritesAtMost result piece.now }
        ensures some { IfOk result (λ n. 0 < n) }
        ensures bytes { WriteAppends (Some (written_to self.old))
            (Some (written_to self.new)) result piece.now }
        ensures cause { HasCause self.old.faults.count self.new.faults.count result }
        ensures full { IsErr result ↔ (room_in self.old ≡ 0) }
        ensures most { IfOk result (λ n. n ≡ min (length piece.now) (room_in self.old)) }
        ensures room { IfOk result (λ n. room_in self.new + n ≡ room_in self.old) }
        ensures steady { OnOk result (self.new.faults.count ≡ self.old.faults.count) }
        ensures raised { OnErr result (self.new.faults.count ≡ one_more self.old.faults.count) }
    {
        let used = self.used;
        let count = piece.len().min(self.room.len() - used);
        if count == 0 {
            return Err(self.faults.raise());
        }
        self.room[used..used + count].copy_from_slice(&piece[..count]);
        self.used = used + count;
        Ok(count)
    }
}
