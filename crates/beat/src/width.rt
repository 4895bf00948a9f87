ghost use Rattle.std.specs.Prelude.{◌≡◌};
ghost use Rattle.beat.specs.Width.{width_of, width_bytes};

use message::refusal::Refusal;

// How many bytes a beat can carry: the lanes of the bus.
#[derive(Clone, Copy)]
pub enum Width {
    One = 1,
    Two = 2,
    Four = 4,
    Eight = 8,
}

impl TryFrom<u8> for Width {
    type Error = Refusal;

    ghost try_from_gives = { λ bytes r. r ≡ width_of bytes };

    fn try_from(bytes: u8) -> Result<Width, Refusal> {
        match bytes {
            1 => Ok(Width::One),
            2 => Ok(Width::Two),
            4 => Ok(Width::Four),
            8 => Ok(Width::Eight),
            _ => Err(Refusal::Parameter),
        }
    }
}

impl From<Width> for u8 {
    ghost from_gives = { λ width bytes. bytes ≡ width_bytes width };

    fn from(width: Width) -> u8 {
        width as u8
    }
}
