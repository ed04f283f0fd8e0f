// The registers of a CTC, and what its calls make of them.
ghost use Rattle.std.specs.Prelude.{◌≡◌, ◌&&◌, if◌then◌else◌, None};
ghost use Rattle.ranks.specs.Ranks.{above};
ghost use Rattle.card.specs.Refusals.{answered};
ghost use Rattle.ctc.specs.Chip.{new_ctc, takes, four_ranks, waiting_set, service_set, top_waiting, top_in_service, vector_at, raised, StepsChannel, port_refusal, with_taken, with_ended, ctc_reset, ctc_clocked, channel_at, role_of, control_set, written, write_refusal, read_refusal, counter_at, line_set, line_refusal};
ghost use Rattle.std.specs.Fn.{FnOnceReturnsAtMut};
ghost use Rattle.ctc.specs.Runs.{TimersRequestOnTime, CountersRequestOnTime};

use crate::number::ChannelNumber;
use card::Refusal;
use ctc_channel::{Channel, is_control_word};
use ranks::RankSet;

// What a byte is to the channel that it is written to.
#[derive(Clone, Copy)]
pub enum Role {
    Constant,
    ControlWord,
    VectorHead,
}

#[derive(Drop)]
pub struct Ctc {
    // The port that the card was made for.
    port: u8,
    // The byte that heads the vectors, by its bits 7 to 3.
    vector: u8,
    channels: [Channel; 4],
    waiting: RankSet,
    service: RankSet,
}

impl Ctc {
    pub fn new(port: u8) -> Ctc
        ensures made { result ≡ new_ctc port }
        // The laws speak of every CTC, so of this one in any state.
        ensures timers_request_on_time { TimersRequestOnTime }
        ensures counters_request_on_time { CountersRequestOnTime }
    {
        Ctc {
            port,
            vector: 0,
            channels: [Channel::new(); 4],
            waiting: RankSet::empty(),
            service: RankSet::empty(),
        }
    }

    pub(crate) fn takes_port(&self, port: u8) -> bool
        ensures { result ≡ takes self.now port }
    {
        port / 4 == self.port / 4
    }

    // Of the sixteen ranks that a set has room for, a CTC has the lowest four.
    pub(crate) fn waiting_ranks(&self) -> RankSet
        ensures { result ≡ waiting_set self.now }
    {
        self.waiting.intersection(four_ranks())
    }

    pub(crate) fn service_ranks(&self) -> RankSet
        ensures { result ≡ service_set self.now }
    {
        self.service.intersection(four_ranks())
    }

    // Whether a waiting rank is above every rank in service.
    pub(crate) fn asks(&self) -> bool
        ensures { result ≡ above (top_waiting self.now) (top_in_service self.now) }
    {
        self.waiting_ranks().outranks(self.service_ranks())
    }

    // The rank that an acknowledge takes, if any.
    pub(crate) fn rank_acknowledged(&self, iei: bool) -> Option<u8>
        ensures { result ≡ (if iei && above (top_waiting self.now) (top_in_service self.now) then top_waiting self.now else None) }
    {
        if iei & self.asks() {
            self.waiting_ranks().highest()
        } else {
            None
        }
    }

    // The rank whose service a return ends, if any.
    pub(crate) fn rank_returned(&self, iei: bool) -> Option<u8>
        ensures { result ≡ (if iei then top_in_service self.now else None) }
    {
        if iei {
            self.service_ranks().highest()
        } else {
            None
        }
    }

    pub(crate) fn vector_at(&self, rank: u8) -> u8
        ensures { result ≡ vector_at self.now rank }
    {
        self.vector / 8 * 8 + 2 * 3u8.saturating_sub(rank)
    }

    // The rank stops waiting and enters service.
    pub(crate) fn take(&mut self, rank: u8)
        ensures { self.new ≡ with_taken rank self.old }
    {
        self.waiting.remove(rank);
        self.service.insert(rank);
    }

    // The rank leaves service.
    pub(crate) fn end(&mut self, rank: u8)
        ensures { self.new ≡ with_ended rank self.old }
    {
        self.service.remove(rank);
    }

    #[tactic(auto, using(crate::proofs::Resets::all_reset))]
    pub(crate) fn reset_all(&mut self)
        ensures { self.new ≡ ctc_reset self.old }
    {
        self.vector = 0;
        for channel in &mut self.channels {
            channel.reset();
        }
        self.waiting = RankSet::empty();
        self.service = RankSet::empty();
    }

    fn raise(&mut self, channel: ChannelNumber)
        ensures { self.new ≡ raised channel self.old }
    {
        self.waiting.insert(channel.rank());
    }

    // A step of one channel, which says whether to raise its request.
    fn step_channel<F: FnOnce(&mut Channel) -> bool>(&mut self, channel: ChannelNumber, step: F)
        requires { F.IsAlwaysCallable step }
        ensures { StepsChannel (λ old raises new. FnOnceReturnsAtMut F.FnOnce step old raises new) channel self.old self.new }
    {
        if step(&mut self.channels[channel.index()]) {
            self.raise(channel);
        }
    }

    pub(crate) fn clock_all(&mut self)
        ensures { self.new ≡ ctc_clocked self.old }
    {
        for channel in ChannelNumber::all() {
            self.step_channel(channel, |c| c.clock());
        }
    }

    fn check_port(&self, port: u8) -> Result<(), Refusal>
        ensures { result ≡ answered (port_refusal self.now port) tt }
    {
        if self.takes_port(port) {
            Ok(())
        } else {
            Err(Refusal::PortNotTaken)
        }
    }

    fn role(&self, channel: ChannelNumber, byte: u8) -> Result<Role, Refusal>
        ensures { result ≡ role_of channel (channel_at channel self.now).awaits byte }
    {
        if self.channels[channel.index()].awaits_constant() {
            Ok(Role::Constant)
        } else if is_control_word(byte) {
            Ok(Role::ControlWord)
        } else if channel.index() == 0 {
            Ok(Role::VectorHead)
        } else {
            Err(Refusal::ByteNotAwaited)
        }
    }

    fn take_control_word(&mut self, channel: ChannelNumber, word: u8)
        ensures { self.new ≡ control_set channel word self.old }
    {
        self.channels[channel.index()].take_control_word(word);
        if !self.channels[channel.index()].interrupts() {
            self.waiting.remove(channel.rank());
        }
    }

    pub(crate) fn write_port(&mut self, port: u8, byte: u8) -> Result<(), Refusal>
        ensures answer { result ≡ answered (write_refusal self.old port byte) tt }
        ensures after { self.new ≡ written self.old port byte }
    {
        self.check_port(port)?;
        let channel = ChannelNumber::of_port(port);
        match self.role(channel, byte)? {
            Role::Constant => self.channels[channel.index()].take_constant(byte),
            Role::ControlWord => self.take_control_word(channel, byte),
            Role::VectorHead => self.vector = byte,
        }
        Ok(())
    }

    pub(crate) fn read_port(&self, port: u8) -> Result<u8, Refusal>
        ensures { result ≡ answered (read_refusal self.now port) (counter_at self.now port) }
    {
        self.check_port(port)?;
        let channel = ChannelNumber::of_port(port);
        Ok(self.channels[channel.index()].counter())
    }

    pub(crate) fn set_line(&mut self, port: u8, line: u8, high: bool) -> Result<(), Refusal>
        ensures answer { result ≡ answered (line_refusal self.old port line) tt }
        ensures after { self.new ≡ line_set self.old port line high }
    {
        self.check_port(port)?;
        let channel = ChannelNumber::try_from(line)?;
        self.step_channel(channel, |c| c.change_line(high));
        Ok(())
    }
}

// Ranks 0 to 3.
fn four_ranks() -> RankSet
    ensures { result ≡ four_ranks }
{
    RankSet::from(0b1111)
}
