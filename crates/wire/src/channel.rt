ghost use Rattle.std.specs.Prelude.{◌≡◌, ℕ, ◌<◌, List, length};
ghost use Rattle.beat.specs.declared.width.Width.{Width};
ghost use Rattle.wire.specs.Rules.{Rules, Read, SomeDue, Sound, Complete, Counted, Cuts};
ghost use Rattle.wire.specs.Joins.{Waits, Begins, Continues};

use beat::begun::Begun;
use message::refusal::Refusal;

// A channel of the bus, by its beats and their reader. Whatever holds of its rules is proved once for every channel.
pub trait Channel {
    type Head: Copy;

    type Beat: Copy;

    type Burst;

    // What a message is for, told by opcode and param.
    ghost Kind: { Type 0 };

    // A whole message: its head and its data.
    ghost Message: { Type 0 };

    ghost rules: { Rules Self.Beat Self.Head Kind Message };

    // That a burst waits for its next beat, those before it being read.
    ghost waits: { Waits rules Self.Burst };

    // Reads a first beat.
    fn begin(
        beat: Self::Beat,
        width: u8,
        buffer: &mut [u8],
    ) -> Result<Begun<Self::Head, Self::Burst>, Refusal>
        ensures { Begins rules waits width beat buffer.old result buffer.new };

    // Reads the next beat of a burst.
    fn next(
        burst: Self::Burst,
        beat: Self::Beat,
        buffer: &mut [u8],
    ) -> Result<Begun<Self::Head, Self::Burst>, (Refusal, Self::Burst)>
        ensures { Continues rules waits burst beat buffer.old result buffer.new };

    // Ends a burst that is not finished, and tells the head as far as it has come.
    fn give_up(burst: Self::Burst) -> Self::Head
        ensures { (w : Width) (k : Kind) (b : Self.Beat) (bs : List Self.Beat) (xs : List ℕ) (ys : List ℕ) → waits w k b bs xs burst ys → result ≡ rules.joined_head w k b bs };

    ghost waiting: { (w : Width) (k : Kind) (b : Self.Beat) (bs : List Self.Beat) (xs : List ℕ) (u : Self.Burst) (ys : List ℕ) → waits w k b bs xs u ys → Read rules w k b bs xs ys × (length bs < rules.due w k b) };

    ghost some: { SomeDue rules };

    // Whatever is read whole is a legal message, and the beats of a legal message are read.
    ghost sound: { Sound rules };

    ghost complete: { Complete rules };

    ghost counted: { Counted rules };

    // The cutter's beats of a legal message are among these.
    ghost cuts: { Cuts rules };
}
