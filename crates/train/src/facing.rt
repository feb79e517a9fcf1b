// Which way something stands along what holds it.
ghost use Rattle.std.specs.Prelude.{◌≡◌, ok_or};
ghost use Rattle.train.specs.Facings.{code, coded, known, composed, opposite, FacingLaws};

#[derive(Clone, Copy, Default, PartialEq, Eq, Debug)]
pub enum Facing {
    #[default]
    NotKnown = 0,
    Direct = 1,
    Inverse = 2,
}

impl Facing {
    /// The number by which the facing is written: 0, 1 or 2.
    pub fn number(self) -> u8
        ensures { result ≡ code self }
    {
        u8::from(self)
    }

    /// The facing that a number writes, if it writes one.
    pub fn from_number(number: u8) -> Option<Facing>
        ensures { result ≡ coded number }
    {
        Facing::try_from(number).ok()
    }

    /// Whether it is direct or inverse.
    pub fn is_known(self) -> bool
        ensures { result ≡ known self }
    {
        match self {
            Facing::NotKnown => false,
            Facing::Direct => true,
            Facing::Inverse => true,
        }
    }

    /// This facing within something that faces as `outer` does.
    pub fn within(self, outer: Facing) -> Facing
        ensures { result ≡ composed self outer }
    {
        match self {
            Facing::NotKnown => Facing::NotKnown,
            Facing::Direct => outer,
            Facing::Inverse => outer.opposed(),
        }
    }

    /// The facing as seen from the other end.
    pub fn opposed(self) -> Facing
        ensures { result ≡ opposite self }
    {
        match self {
            Facing::NotKnown => Facing::NotKnown,
            Facing::Direct => Facing::Inverse,
            Facing::Inverse => Facing::Direct,
        }
    }
}

impl From<Facing> for u8 {
    ghost from_gives = { λ facing n. n ≡ code facing };

    fn from(facing: Facing) -> u8 {
        facing as u8
    }
}

/// A number that writes no facing.
#[derive(Clone, Copy, PartialEq, Eq, Debug)]
pub struct NoFacing {
    pub number: u8,
}

impl TryFrom<u8> for Facing {
    type Error = NoFacing;

    ghost try_from_gives = { λ n read. read ≡ ok_or (coded n) (record { number = n }) };

    fn try_from(number: u8) -> Result<Facing, NoFacing> {
        match number {
            0 => Ok(Facing::NotKnown),
            1 => Ok(Facing::Direct),
            2 => Ok(Facing::Inverse),
            _ => Err(NoFacing { number }),
        }
    }
}

/// The laws of composing facings.
pub fn facings_compose()
    ensures { FacingLaws }
{}
