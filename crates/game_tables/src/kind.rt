// The kinds of objects, and the parts of a creep.
ghost use Rattle.std.specs.Prelude.{◌≡◌, IfSome, IfNone};
ghost use Rattle.game_tables.specs.Bodies.{part_cost};
ghost use Rattle.game_tables.specs.Numbers.{kind_number, part_number};
ghost use Rattle.game_tables.specs.Texts.{kind_text, part_text};
ghost use Rattle.game_tables.specs.declared.kind.Kind.{Kind};
ghost use Rattle.game_tables.specs.declared.kind.Part.{Part};

/// What an object is, numbered from 1 on. The last four come with the second rules.
#[derive(Clone, Copy, Debug, PartialEq, Eq)]
pub enum Kind {
    Source = 1,
    Controller = 2,
    Creep = 3,
    Spawn = 4,
    Extension = 5,
    Storage = 6,
    Container = 7,
    Road = 8,
    Pile = 9,
    Site = 10,
    Tower = 11,
    Rampart = 12,
    Wall = 13,
    Tombstone = 14,
}

impl Kind {
    /// Its number, 1 to 14.
    pub fn number(self) -> u8
        ensures { result ≡ kind_number self }
    {
        self as u8
    }

    /// The kind of a number.
    pub fn of_number(number: u8) -> Option<Kind>
        ensures some { IfSome result (λ kind. number ≡ kind_number kind) }
        ensures none { IfNone result ((kind : Kind) → number ≡ kind_number kind → ⊥) }
    {
        match number {
            1 => Some(Kind::Source),
            2 => Some(Kind::Controller),
            3 => Some(Kind::Creep),
            4 => Some(Kind::Spawn),
            5 => Some(Kind::Extension),
            6 => Some(Kind::Storage),
            7 => Some(Kind::Container),
            8 => Some(Kind::Road),
            9 => Some(Kind::Pile),
            10 => Some(Kind::Site),
            11 => Some(Kind::Tower),
            12 => Some(Kind::Rampart),
            13 => Some(Kind::Wall),
            14 => Some(Kind::Tombstone),
            _ => None,
        }
    }

    /// Its text, in lower case.
    pub fn text(self) -> &'static str
        ensures { result.now ≡ kind_text self }
    {
        match self {
            Kind::Source => "source",
            Kind::Controller => "controller",
            Kind::Creep => "creep",
            Kind::Spawn => "spawn",
            Kind::Extension => "extension",
            Kind::Storage => "storage",
            Kind::Container => "container",
            Kind::Road => "road",
            Kind::Pile => "pile",
            Kind::Site => "site",
            Kind::Tower => "tower",
            Kind::Rampart => "rampart",
            Kind::Wall => "wall",
            Kind::Tombstone => "tombstone",
        }
    }

    /// The kind of a text.
    pub fn of_text(text: &str) -> Option<Kind>
        ensures some { IfSome result (λ kind. text.now ≡ kind_text kind) }
        ensures none { IfNone result ((kind : Kind) → text.now ≡ kind_text kind → ⊥) }
    {
        match text {
            "source" => Some(Kind::Source),
            "controller" => Some(Kind::Controller),
            "creep" => Some(Kind::Creep),
            "spawn" => Some(Kind::Spawn),
            "extension" => Some(Kind::Extension),
            "storage" => Some(Kind::Storage),
            "container" => Some(Kind::Container),
            "road" => Some(Kind::Road),
            "pile" => Some(Kind::Pile),
            "site" => Some(Kind::Site),
            "tower" => Some(Kind::Tower),
            "rampart" => Some(Kind::Rampart),
            "wall" => Some(Kind::Wall),
            "tombstone" => Some(Kind::Tombstone),
            _ => None,
        }
    }
}

/// A part of a creep's body, numbered from 1 on.
#[derive(Clone, Copy, Debug, PartialEq, Eq)]
pub enum Part {
    Move = 1,
    Work = 2,
    Carry = 3,
    Attack = 4,
    RangedAttack = 5,
    Tough = 6,
    Heal = 7,
    Claim = 8,
}

impl Part {
    /// Its number, 1 to 8.
    pub fn number(self) -> u8
        ensures { result ≡ part_number self }
    {
        self as u8
    }

    /// The part of a number.
    pub fn of_number(number: u8) -> Option<Part>
        ensures some { IfSome result (λ part. number ≡ part_number part) }
        ensures none { IfNone result ((part : Part) → number ≡ part_number part → ⊥) }
    {
        match number {
            1 => Some(Part::Move),
            2 => Some(Part::Work),
            3 => Some(Part::Carry),
            4 => Some(Part::Attack),
            5 => Some(Part::RangedAttack),
            6 => Some(Part::Tough),
            7 => Some(Part::Heal),
            8 => Some(Part::Claim),
            _ => None,
        }
    }

    /// The energy that it costs.
    pub fn cost(self) -> u32
        ensures { result ≡ part_cost self }
    {
        match self {
            Part::Move => 50,
            Part::Work => 100,
            Part::Carry => 50,
            Part::Attack => 80,
            Part::RangedAttack => 150,
            Part::Tough => 10,
            Part::Heal => 250,
            Part::Claim => 600,
        }
    }

    /// Its text, in lower case.
    pub fn text(self) -> &'static str
        ensures { result.now ≡ part_text self }
    {
        match self {
            Part::Move => "move",
            Part::Work => "work",
            Part::Carry => "carry",
            Part::Attack => "attack",
            Part::RangedAttack => "ranged_attack",
            Part::Tough => "tough",
            Part::Heal => "heal",
            Part::Claim => "claim",
        }
    }

    /// The part of a text.
    pub fn of_text(text: &str) -> Option<Part>
        ensures some { IfSome result (λ part. text.now ≡ part_text part) }
        ensures none { IfNone result ((part : Part) → text.now ≡ part_text part → ⊥) }
    {
        match text {
            "move" => Some(Part::Move),
            "work" => Some(Part::Work),
            "carry" => Some(Part::Carry),
            "attack" => Some(Part::Attack),
            "ranged_attack" => Some(Part::RangedAttack),
            "tough" => Some(Part::Tough),
            "heal" => Some(Part::Heal),
            "claim" => Some(Part::Claim),
            _ => None,
        }
    }
}
