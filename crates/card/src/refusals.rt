// Why a card or a rack refuses a call.
ghost use Rattle.std.specs.Prelude.{◌≡◌};
ghost use Rattle.card.specs.Refusals.{number_of};

#[derive(Clone, Copy, PartialEq, Eq, Debug)]
pub enum Refusal {
    // The card does not take the port; of a rack, none of its cards does.
    PortNotTaken,
    NoSuchLine,
    NoSuchRegister,
    // The card drives the line itself.
    LineDriven,
    // On channels 1 to 3 of a CTC, a byte that is neither an awaited constant nor a control word.
    ByteNotAwaited,
    // An acknowledge inside an instruction.
    InsideInstruction,
    TooFewPlaces,
}

// The number of the refusal in docs/CARDS.md.
impl From<Refusal> for u8 {
    ghost from_gives = { λ refusal number. number ≡ number_of refusal };

    fn from(refusal: Refusal) -> u8 {
        match refusal {
            Refusal::PortNotTaken => 1,
            Refusal::NoSuchLine => 2,
            Refusal::NoSuchRegister => 3,
            Refusal::LineDriven => 4,
            Refusal::ByteNotAwaited => 5,
            Refusal::InsideInstruction => 6,
            Refusal::TooFewPlaces => 7,
        }
    }
}
