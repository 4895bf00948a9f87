ghost use Rattle.std.specs.Prelude.{◌≡◌, ℕ, ◌+◌, ◌^◌, ◌<◌, List, [], ◌∷◌, length};
ghost use Rattle.beat.specs.declared.width.Width.{Width};
ghost use Rattle.wire.specs.Joins.{Ends, Joins, OnlyLegal, EveryLegal, Again};

use crate::channel::Channel;
use crate::joined::{Joined, Unread};
use beat::begun::Begun;
use beat::width::Width;

// Joins the beats at the front of a list to a message, its data at the front of `buffer`; none if beats are missing. The
// width is a number, as in `cut`.
pub fn join<C: Channel>(
    beats: &[C::Beat],
    width: u8,
    buffer: &mut [u8],
) -> Result<Option<Joined<C::Head>>, Unread>
    ensures answer { Joins C.Channel.rules width beats.now buffer.old result buffer.new }
    ensures only_legal { OnlyLegal C.Channel.rules width beats.now buffer.old result buffer.new }
    ensures every_legal { EveryLegal C.Channel.rules width beats.now buffer.old result buffer.new }
    ensures again { Again C.Channel.rules width beats.now buffer.old result buffer.new }
{
    read::<C>(beats, width, buffer)
}

fn read<C: Channel>(
    beats: &[C::Beat],
    width: u8,
    buffer: &mut [u8],
) -> Result<Option<Joined<C::Head>>, Unread>
    ensures { Joins C.Channel.rules width beats.now buffer.old result buffer.new }
{
    Width::try_from(width).map_err(Unread::first)?;
    let [first, rest @ ..] = beats else {
        return Ok(None);
    };
    match C::begin(*first, width, buffer).map_err(Unread::first)? {
        Begun::Whole(head) => Ok(Some(Joined { head, beats: 1 })),
        Begun::Half(burst) => finish::<C>(burst, rest, buffer),
    }
}

// Reads the beats after the first, as far as they are due and there are any.
fn finish<C: Channel>(
    burst: C::Burst,
    rest: &[C::Beat],
    buffer: &mut [u8],
) -> Result<Option<Joined<C::Head>>, Unread>
    requires { length rest.now + 1 < 2 ^ 64 }
    ensures { (w : Width) (k : C.Channel.Kind) (b : C.Beat) (xs : List ℕ) → C.Channel.waits w k b (b ∷ []) xs burst buffer.old → Ends C.Channel.rules w k b (b ∷ rest.now) xs result buffer.new }
{
    let mut burst = burst;
    for (i, beat) in rest.iter().enumerate() {
        match C::next(burst, *beat, buffer) {
            Ok(Begun::Whole(head)) => return Ok(Some(Joined { head, beats: i + 2 })),
            Ok(Begun::Half(more)) => burst = more,
            Err((refusal, back)) => {
                let _ = C::give_up(back);
                return Err(Unread {
                    beat: i + 1,
                    refusal,
                });
            }
        }
    }
    let _ = C::give_up(burst);
    Ok(None)
}
