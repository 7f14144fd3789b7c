// The eight directions.
ghost use Rattle.std.specs.Prelude.{◌≡◌, IfSome, IfNone};
ghost use Rattle.room_terrain.specs.Geometry.{direction_number};
ghost use Rattle.room_terrain.specs.declared.direction.Direction.{Direction};

/// A direction of a step, numbered clockwise from 1 on.
#[derive(Clone, Copy, Debug, PartialEq, Eq)]
pub enum Direction {
    Top = 1,
    TopRight = 2,
    Right = 3,
    BottomRight = 4,
    Bottom = 5,
    BottomLeft = 6,
    Left = 7,
    TopLeft = 8,
}

impl Direction {
    /// Its number, 1 to 8.
    pub fn number(self) -> u8
        ensures { result ≡ direction_number self }
    {
        self as u8
    }

    /// The direction of a number.
    pub fn of_number(number: u8) -> Option<Direction>
        ensures some { IfSome result (λ direction. number ≡ direction_number direction) }
        ensures none { IfNone result ((direction : Direction) → number ≡ direction_number direction → ⊥) }
    {
        match number {
            1 => Some(Direction::Top),
            2 => Some(Direction::TopRight),
            3 => Some(Direction::Right),
            4 => Some(Direction::BottomRight),
            5 => Some(Direction::Bottom),
            6 => Some(Direction::BottomLeft),
            7 => Some(Direction::Left),
            8 => Some(Direction::TopLeft),
            _ => None,
        }
    }
}
