// The number of one of the four channels of a CTC.
ghost use Rattle.std.specs.Prelude.{◌≡◌, ◌<◌, [], ◌∷◌};
ghost use Rattle.ctc.specs.Numbers.{channel_of, channel_of_line, rank_of};

use card::Refusal;
use std::marker::Model;

#[derive(Clone, Copy)]
pub(crate) struct ChannelNumber {
    number: u8,
}

impl Model for ChannelNumber {
    ghost use Rattle.std.specs.Prelude.{ℕ, ◌<◌};

    ghost Value = { ℕ };

    ghost view = { λ c. c.number };

    ghost invariant = { λ c. c.number < 4 };

    ghost inverse = { λ n. record { number = n } };
}

// Line k of the card is the trigger of channel k.
impl TryFrom<u8> for ChannelNumber {
    type Error = Refusal;

    ghost try_from_gives = { λ line r. r ≡ channel_of_line line };

    fn try_from(line: u8) -> Result<ChannelNumber, Refusal> {
        if line > 3 {
            return Err(Refusal::NoSuchLine);
        }
        Ok(ChannelNumber { number: line })
    }
}

impl ChannelNumber {
    pub(crate) fn all() -> [ChannelNumber; 4]
        ensures { result ≡ 0 ∷ 1 ∷ 2 ∷ 3 ∷ [] }
    {
        [
            ChannelNumber { number: 0 },
            ChannelNumber { number: 1 },
            ChannelNumber { number: 2 },
            ChannelNumber { number: 3 },
        ]
    }

    // The channel that a port of the card belongs to.
    pub(crate) fn of_port(port: u8) -> ChannelNumber
        ensures { result ≡ channel_of port }
    {
        ChannelNumber { number: port % 4 }
    }

    pub(crate) fn index(self) -> usize
        ensures is { result ≡ self }
        ensures below_four { result < 4 }
    {
        usize::from(self.number)
    }

    // The lower a channel's number, the higher its rank.
    pub(crate) fn rank(self) -> u8
        ensures { result ≡ rank_of self }
    {
        3 - self.number
    }
}
