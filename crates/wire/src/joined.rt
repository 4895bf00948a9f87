ghost use Rattle.std.specs.Prelude.{◌≡◌};
ghost use Rattle.wire.specs.Joins.{unread};

use message::refusal::Refusal;

// A message at the front of a list of beats, and how many of them are its own.
#[derive(Clone, Copy)]
pub struct Joined<H> {
    pub head: H,
    pub beats: usize,
}

// The beat of a list that is refused. Those before it are read.
#[derive(Clone, Copy)]
pub struct Unread {
    pub beat: usize,
    pub refusal: Refusal,
}

impl Unread {
    pub(crate) fn first(refusal: Refusal) -> Unread
        ensures { result ≡ unread 0 refusal }
    {
        Unread { beat: 0, refusal }
    }
}
