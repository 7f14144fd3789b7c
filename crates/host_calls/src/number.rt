// The numbers that pass between a module and its host.
ghost use Rattle.std.specs.Prelude.{◌≡◌};
ghost use Rattle.room_terrain.specs.declared.name.RoomName.{RoomName as NameOfRoom};
ghost use Rattle.host_calls.specs.Desks.{argument as argument_at, as_answer, as_index, global_level};
ghost use Rattle.host_calls.specs.Desks.{signed_32 as low_signed, unsigned_32 as low_unsigned};
ghost use Rattle.host_calls.specs.Replies.{name_number as number_of_name};

use object_store::RoomName;

/// An argument, and 0 past the last.
pub fn argument(args: &[i64], i: usize) -> i64
    ensures { result ≡ argument_at args.now i }
{
    args.get(i).copied().unwrap_or(0)
}

/// An address or a length: the low 32 bits of an argument.
pub fn unsigned_32(value: i64) -> u64
    ensures { result ≡ low_unsigned value }
{
    value.cast_unsigned() % 0x1_0000_0000
}

/// A number with a sign: the low 32 bits of an argument.
pub fn signed_32(value: i64) -> i32
    ensures { result ≡ low_signed value }
{
    (unsigned_32(value) as u32).cast_signed()
}

/// An index or an amount, from an argument of 32 bits. There is none where it is negative.
pub fn index_32(value: i64) -> Option<u32>
    ensures { result ≡ as_index (low_signed value) }
{
    let number = signed_32(value);
    if number < 0 {
        None
    } else {
        Some(number as u32)
    }
}

/// An id. There is none where the argument is negative.
pub fn id_of(value: i64) -> Option<u64>
    ensures { result ≡ as_index value }
{
    if value < 0 { None } else { Some(value as u64) }
}

/// A number as a module gets it.
pub fn answer_of(number: u64) -> i64
    ensures { result ≡ as_answer number }
{
    number.cast_signed()
}

/// A room's name as a number: 256 times the column from -128 on, and the row from there.
pub fn name_number(name: RoomName) -> i64
    ensures { result ≡ number_of_name name }
{
    (i64::from(name.column) + 128) * 256 + i64::from(name.row) + 128
}

/// The global level of so many points.
pub fn level_of(points: u64) -> u32
    ensures { result ≡ global_level points }
{
    (points / 1_000_000).isqrt() as u32 + 1
}
