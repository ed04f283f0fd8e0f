// The control word of a channel.
ghost use Rattle.std.specs.Prelude.{◌≡◌, ◌<◌};
ghost use Rattle.ranks.specs.Ranks.{bit};
ghost use Rattle.ctc_channel.specs.ControlWords.{is_control_word, stops, constant_follows, control_of, divisor_of, prescaler_restarts, starts_armed, edge_acts};

// The bits of a control word that a channel keeps, as bools: an enum for the two values of a bit would only add a conversion
// and a comparison, here and in the definitions.
#[derive(Clone, Copy, Default)]
pub struct Control {
    interrupt: bool,
    // Counter mode, in place of timer mode.
    counter_mode: bool,
    // The divisor 256, in place of 16.
    by_256: bool,
    // The rising edge of the trigger acts, in place of the falling edge.
    rising_edge: bool,
    // In timer mode the channel starts on the trigger.
    start_on_trigger: bool,
}

impl From<u8> for Control {
    ghost from_gives = { λ word control. control ≡ control_of word };

    fn from(word: u8) -> Control {
        Control {
            interrupt: is_set(word, 7),
            counter_mode: is_set(word, 6),
            by_256: is_set(word, 5),
            rising_edge: is_set(word, 4),
            start_on_trigger: is_set(word, 3),
        }
    }
}

impl Control {
    pub(crate) fn interrupt(self) -> bool
        ensures { result ≡ self.interrupt }
    {
        self.interrupt
    }

    pub(crate) fn counts_edges(self) -> bool
        ensures { result ≡ self.counter_mode }
    {
        self.counter_mode
    }

    pub(crate) fn divisor(self) -> u16
        ensures { result ≡ divisor_of self }
    {
        if self.by_256 { 256 } else { 16 }
    }

    // Whether a change to the next control zeroes the prescaler count.
    pub(crate) fn restarts_prescaler(self, next: Control) -> bool
        ensures { result ≡ prescaler_restarts self next }
    {
        (self.by_256 != next.by_256) | (self.counter_mode != next.counter_mode)
    }

    // Whether a channel that is given its constant waits for the trigger.
    pub(crate) fn starts_armed(self) -> bool
        ensures { result ≡ starts_armed self }
    {
        !self.counter_mode & self.start_on_trigger
    }

    // Whether a change of the trigger line from one level to another is an edge that acts.
    pub(crate) fn edge_acts(self, from: bool, to: bool) -> bool
        ensures { result ≡ edge_acts self from to }
    {
        (from != to) & (to == self.rising_edge)
    }
}

// Whether a byte that is not awaited is a control word.
pub fn is_control_word(byte: u8) -> bool
    ensures { result ≡ is_control_word byte }
{
    is_set(byte, 0)
}

// What else a control word says: whether it stops the channel, and whether a constant follows.
pub(crate) fn stops(word: u8) -> bool
    ensures { result ≡ stops word }
{
    is_set(word, 1)
}

pub(crate) fn constant_follows(word: u8) -> bool
    ensures { result ≡ constant_follows word }
{
    is_set(word, 2)
}

fn is_set(byte: u8, number: u8) -> bool
    requires { number < 8 }
    ensures { result ≡ bit byte number }
{
    (byte >> number) % 2 == 1
}
