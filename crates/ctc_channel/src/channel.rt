// One channel of a CTC.
ghost use Rattle.std.specs.Prelude.{◌≡◌};
ghost use Rattle.ctc_channel.specs.Channels.{new_channel, channel_reset, constant_taken, control_taken, clock_raises, channel_clocked, line_raises, line_changed};

use crate::control::{Control, constant_follows, stops};
use count_stage::CountStage;

#[derive(Clone, Copy)]
pub enum Phase {
    Stopped,
    // Given its constant, and waiting for the trigger.
    Armed,
    Running,
}

#[derive(Clone, Copy)]
pub struct Channel {
    stage: CountStage,
    control: Control,
    phase: Phase,
    // The next byte written is its constant.
    awaits: bool,
    // The outside level of its trigger line; true is high.
    level: bool,
}

impl Channel {
    pub fn new() -> Channel
        ensures { result ≡ new_channel }
    {
        Channel {
            stage: CountStage::new(),
            control: Control::default(),
            phase: Phase::Stopped,
            awaits: false,
            level: false,
        }
    }

    pub fn reset(&mut self)
        ensures { self.new ≡ channel_reset self.old }
    {
        self.stage.clear_prescaler();
        self.control = Control::default();
        self.phase = Phase::Stopped;
        self.awaits = false;
    }

    pub fn counter(&self) -> u8
        ensures { result ≡ self.now.stage.counter }
    {
        self.stage.counter()
    }

    pub fn awaits_constant(&self) -> bool
        ensures { result ≡ self.now.awaits }
    {
        self.awaits
    }

    // Whether its time-outs request an interrupt.
    pub fn interrupts(&self) -> bool
        ensures { result ≡ self.now.control.interrupt }
    {
        self.control.interrupt()
    }

    pub fn take_constant(&mut self, constant: u8)
        ensures { self.new ≡ constant_taken constant self.old }
    {
        match self.phase {
            Phase::Stopped => {
                self.stage.start(constant);
                self.phase = if self.control.starts_armed() {
                    Phase::Armed
                } else {
                    Phase::Running
                };
            }
            Phase::Armed | Phase::Running => self.stage.set_constant(constant),
        }
        self.awaits = false;
    }

    pub fn take_control_word(&mut self, word: u8)
        ensures { self.new ≡ control_taken word self.old }
    {
        let control = Control::from(word);
        if self.control.restarts_prescaler(control) {
            self.stage.clear_prescaler();
        }
        self.control = control;
        self.awaits = constant_follows(word);
        if stops(word) {
            self.phase = Phase::Stopped;
        }
    }

    // A clock; whether it raises the channel's request, which is to make it wait.
    pub fn clock(&mut self) -> bool
        ensures raises { result ≡ clock_raises self.old }
        ensures after { self.new ≡ channel_clocked self.old }
    {
        match self.phase {
            Phase::Running if !self.control.counts_edges() => {
                let timed_out = self.stage.clock(self.control.divisor());
                timed_out & self.control.interrupt()
            }
            _ => false,
        }
    }

    // A change of the trigger line; whether it raises the channel's request.
    pub fn change_line(&mut self, high: bool) -> bool
        ensures raises { result ≡ line_raises high self.old }
        ensures after { self.new ≡ line_changed high self.old }
    {
        let acts = self.control.edge_acts(self.level, high);
        self.level = high;
        if !acts {
            return false;
        }
        match self.phase {
            Phase::Armed => {
                self.phase = Phase::Running;
                false
            }
            Phase::Running if self.control.counts_edges() => {
                let timed_out = self.stage.step();
                timed_out & self.control.interrupt()
            }
            _ => false,
        }
    }
}
