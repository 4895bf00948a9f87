ghost use Rattle.wire.specs.Messages.{Messages, Owes};
ghost use Rattle.wire.specs.Request.{request_messages, request_owes};
ghost use Rattle.wire.specs.Response.{response_messages, response_owes};

use beat::channel::Channel;
use beat::request::ChannelA;
use beat::response::ChannelD;

// The whole messages of a channel: which are legal, and what it owes so that they can be joined.
pub trait Messages: Channel {
    ghost messages: { Messages Self.Kind Self.Head Self.Beat };

    ghost owes: { Owes Self.Kind.kinds Self.beats messages };
}

impl Messages for ChannelA {
    ghost messages = { request_messages };

    ghost owes = { request_owes };
}

impl Messages for ChannelD {
    ghost messages = { response_messages };

    ghost owes = { response_owes };
}
