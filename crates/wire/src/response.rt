ghost use Rattle.std.specs.Prelude.{◌≡◌, length};
ghost use Rattle.message.specs.declared.response.ResponseHead.{ResponseHead};
ghost use Rattle.message.specs.declared.response.ResponseOpcode.{ResponseOpcode};
ghost use Rattle.message.specs.Response.{response_kinds};
ghost use Rattle.message.specs.Sizes.{response_small};
ghost use Rattle.beat.specs.Channel.{part, Began, Went};
ghost use Rattle.beat.specs.Response.{response_beats, response_laws};
ghost use Rattle.wire.specs.Messages.{Message as MessageOf, HalfRead};
ghost use Rattle.wire.specs.Response.{response_messages, response_owes, response_rules};
ghost use Rattle.wire.specs.Laws;

use crate::channel::Channel;
use beat::begun::Begun;
use beat::burst::{Burst, begin};
use beat::response::{ResponseBeat, Sideband};
use message::refusal::Refusal;
use message::response::ResponseHead;

// Channel D: responses, each beat with what travels beside it.
pub use beat::response::ChannelD;

impl Channel for ChannelD {
    type Head = ResponseHead;

    type Beat = (ResponseBeat, Sideband);

    type Burst = Burst<ChannelD>;

    ghost Kind = { ResponseOpcode };

    ghost Message = { MessageOf ResponseHead };

    ghost rules = { response_rules };

    ghost waits = { λ w k b bs xs u ys. HalfRead response_kinds response_beats response_messages (λ p. part p.head p.width p.come) w k b bs xs u ys };

    ghost waiting = { λ w k b bs xs u ys h. (h.read, h.due) };

    ghost some = { λ w k b room j. Laws.some_due response_kinds response_beats response_small w k b room j };

    ghost sound = { λ w k b bs xs ys r all. Laws.sound response_kinds response_beats response_small response_laws response_messages response_owes w k b bs xs ys r all };

    ghost complete = { λ w k a room b bs l roomy c. Laws.complete response_kinds response_beats response_laws response_messages response_owes w k a l room roomy b bs c };

    ghost counted = { λ w k a bs l c. Laws.counted response_kinds response_beats response_laws response_messages response_owes w k a l bs c };

    ghost cuts = { λ w k a l small. Laws.cut_carries response_kinds response_beats response_laws response_messages response_owes w k a l small };

    fn begin(
        beat: (ResponseBeat, Sideband),
        width: u8,
        buffer: &mut [u8],
    ) -> Result<Begun<ResponseHead, Burst<ChannelD>>, Refusal>
        ensures answer { Began response_kinds response_beats (λ u. part u.head u.width u.come) width beat buffer.old result buffer.new }
        ensures long { length buffer.new ≡ length buffer.old }
    {
        begin::<ChannelD>(beat, width, buffer)
    }

    fn next(
        burst: Burst<ChannelD>,
        beat: (ResponseBeat, Sideband),
        buffer: &mut [u8],
    ) -> Result<Begun<ResponseHead, Burst<ChannelD>>, (Refusal, Burst<ChannelD>)>
        ensures answer { Went response_kinds response_beats (λ u. part u.head u.width u.come) burst beat buffer.old result buffer.new }
        ensures long { length buffer.new ≡ length buffer.old }
    {
        burst.next(beat, buffer)
    }

    fn give_up(burst: Burst<ChannelD>) -> ResponseHead
        ensures { result ≡ burst.head }
    {
        burst.give_up()
    }
}
