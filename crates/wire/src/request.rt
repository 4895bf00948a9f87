ghost use Rattle.std.specs.Prelude.{◌≡◌, length};
ghost use Rattle.message.specs.declared.operation.Operation.{Operation};
ghost use Rattle.message.specs.declared.request.RequestHead.{RequestHead};
ghost use Rattle.message.specs.Request.{operation_kinds};
ghost use Rattle.message.specs.Sizes.{size_small};
ghost use Rattle.beat.specs.Channel.{part, Began, Went};
ghost use Rattle.beat.specs.Request.{request_beats, request_laws};
ghost use Rattle.wire.specs.Messages.{Message as MessageOf, HalfRead};
ghost use Rattle.wire.specs.Request.{request_messages, request_owes, request_rules};
ghost use Rattle.wire.specs.Laws;

use crate::channel::Channel;
use beat::begun::Begun;
use beat::burst::{Burst, begin};
use beat::request::RequestBeat;
use message::refusal::Refusal;
use message::request::RequestHead;

// Channel A: requests. Each channel has an impl of its own, and not one for all: so an edit can spoil one channel's
// calls, and the check shows that its contracts tell.
pub use beat::request::ChannelA;

impl Channel for ChannelA {
    type Head = RequestHead;

    type Beat = RequestBeat;

    type Burst = Burst<ChannelA>;

    ghost Kind = { Operation };

    ghost Message = { MessageOf RequestHead };

    ghost rules = { request_rules };

    ghost waits = { λ w o b bs xs u ys. HalfRead operation_kinds request_beats request_messages (λ p. part p.head p.width p.come) w o b bs xs u ys };

    ghost waiting = { λ w o b bs xs u ys h. (h.read, h.due) };

    ghost some = { λ w o b room j. Laws.some_due operation_kinds request_beats size_small w o b room j };

    ghost sound = { λ w o b bs xs ys r all. Laws.sound operation_kinds request_beats size_small request_laws request_messages request_owes w o b bs xs ys r all };

    ghost complete = { λ w o q room b bs l roomy c. Laws.complete operation_kinds request_beats request_laws request_messages request_owes w o q l room roomy b bs c };

    ghost counted = { λ w o q bs l c. Laws.counted operation_kinds request_beats request_laws request_messages request_owes w o q l bs c };

    ghost cuts = { λ w o q l small. Laws.cut_carries operation_kinds request_beats request_laws request_messages request_owes w o q l small };

    fn begin(
        beat: RequestBeat,
        width: u8,
        buffer: &mut [u8],
    ) -> Result<Begun<RequestHead, Burst<ChannelA>>, Refusal>
        ensures answer { Began operation_kinds request_beats (λ u. part u.head u.width u.come) width beat buffer.old result buffer.new }
        ensures long { length buffer.new ≡ length buffer.old }
    {
        begin::<ChannelA>(beat, width, buffer)
    }

    fn next(
        burst: Burst<ChannelA>,
        beat: RequestBeat,
        buffer: &mut [u8],
    ) -> Result<Begun<RequestHead, Burst<ChannelA>>, (Refusal, Burst<ChannelA>)>
        ensures answer { Went operation_kinds request_beats (λ u. part u.head u.width u.come) burst beat buffer.old result buffer.new }
        ensures long { length buffer.new ≡ length buffer.old }
    {
        burst.next(beat, buffer)
    }

    fn give_up(burst: Burst<ChannelA>) -> RequestHead
        ensures { result ≡ burst.head }
    {
        burst.give_up()
    }
}
