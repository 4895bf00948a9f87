ghost use Rattle.std.specs.Prelude.{◌≡◌, ◌≤◌, ◌^◌, true, length, IfOk};
ghost use Rattle.beat.specs.Width.{width_bytes};
ghost use Rattle.beat.specs.Channel.{part, heard, brings_data, Due, Stands, buffer_with, Began, Went, LanesRead};

use crate::begun::Begun;
use crate::channel::Channel;
use crate::judge::judge;
use crate::lanes::Lanes;
use crate::width::Width;
use message::kind::Kind;
use message::refusal::Refusal;
use message::request::whole_mask;

// A message of which beats are still due: its head with the mask so far, and how many beats have come.
// It is not `Drop`, so the check refuses code that lets a half-sent one lapse.
pub struct Burst<C: Channel> {
    pub(crate) head: C::Head,
    pub(crate) width: Width,
    pub(crate) come: usize,
    ghost due: { Due C.Kind.kinds C.beats width head come },
}

// Reads a message's first beat, with its data to the front of `buffer`. The width is a number, as in `cut`.
pub fn begin<C: Channel>(
    beat: C::Beat,
    width: u8,
    buffer: &mut [u8],
) -> Result<Begun<C::Head, Burst<C>>, Refusal>
    ensures answer { Began C.Kind.kinds C.beats (λ u. part u.head u.width u.come) width beat buffer.old result buffer.new }
    ensures lanes { IfOk result (λ g. brings_data C.Kind.kinds C.beats (C.beats.start beat) ≡ true → LanesRead C.Kind.kinds C.beats (λ u. part u.head u.width u.come) width (C.beats.start beat) 0 beat buffer.old g buffer.new) }
{
    let width = Width::try_from(width)?;
    let kind = judge::<C>(None, width, beat, buffer.len())?;
    let head = C::start(beat);
    if !kind.has_data() {
        let mask = whole_mask(C::header(head).size);
        return Ok(Begun::Whole(C::with_mask(head, mask)));
    }
    let burst = Burst {
        head,
        width,
        come: 0,
    };
    Ok(burst.take_in(beat, buffer))
}

impl<C: Channel> Burst<C> {
    // Reads the next beat. A refused one hands the burst back and leaves the buffer as it was.
    pub fn next(
        self,
        beat: C::Beat,
        buffer: &mut [u8],
    ) -> Result<Begun<C::Head, Burst<C>>, (Refusal, Burst<C>)>
        ensures answer { Went C.Kind.kinds C.beats (λ u. part u.head u.width u.come) self beat buffer.old result buffer.new }
        ensures lanes { IfOk result (λ g. LanesRead C.Kind.kinds C.beats (λ u. part u.head u.width u.come) (width_bytes self.width) self.head self.come beat buffer.old g buffer.new) }
    {
        // No `?`: the closure of `map_err` would take the burst that is read on.
        match judge::<C>(Some(self.head), self.width, beat, buffer.len()) {
            Ok(_) => Ok(self.take_in(beat, buffer)),
            Err(refusal) => Err((refusal, self)),
        }
    }

    // Reads the beat that is due, which is not refused.
    fn take_in(self, beat: C::Beat, buffer: &mut [u8]) -> Begun<C::Head, Burst<C>>
        requires { 2 ^ (C.beats.header self.head).size ≤ length buffer.old }
        ensures stands { Stands C.Kind.kinds C.beats (λ u. part u.head u.width u.come) self.width self.head self.come beat result }
        ensures buffer { buffer.new ≡ buffer_with C.Kind.kinds C.beats self.width self.head self.come beat buffer.old }
    {
        let Burst { head, width, come } = self;
        let header = C::header(head);
        let lanes = Lanes::of(width, header.size, header.address);
        lanes.join(heard::<C>(beat), come, buffer);
        let mask = lanes.joined(C::mask(head), C::lane_mask(beat), come);
        let head = C::with_mask(head, mask);
        let come = come + 1;
        if come == lanes.beats(true) {
            Begun::Whole(head)
        } else {
            Begun::Half(Burst { head, width, come })
        }
    }

    // Gives the message up: the head as far as it has come. What came of its data stays in the buffer.
    pub fn give_up(self) -> C::Head
        ensures { result ≡ self.head }
    {
        let Burst {
            head,
            width: _,
            come: _,
        } = self;
        head
    }
}

// The lanes as a reader takes them: denied data are zeros.
fn heard<C: Channel>(beat: C::Beat) -> u64
    ensures { result ≡ heard C.Kind.kinds C.beats beat }
{
    if C::header(C::start(beat)).denied {
        0
    } else {
        C::lanes(beat)
    }
}
