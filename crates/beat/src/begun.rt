ghost use Rattle.std.specs.Prelude.{◌≡◌};
ghost use Rattle.beat.specs.Begun.{IsWhole};

// A message that is being read: whole, or with beats still due. No `Result`: neither is an error, and `?` would hand on
// a half-sent burst as if it were one.
pub enum Begun<H, B> {
    Whole(H),
    Half(B),
}

impl<H, B> Begun<H, B> {
    // The message. A half-sent burst has none to give, so the check refuses to ask one.
    pub fn message(self) -> H
        requires { IsWhole self }
        ensures { self ≡ Begun.Whole result }
    {
        match self {
            Begun::Whole(head) => head,
            Begun::Half(_burst) => unreachable(),
        }
    }
}
