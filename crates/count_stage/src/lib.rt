// A down-counter behind a prescaler, as the timers of the cards have.
#![tactic(auto)]

ghost use Rattle.std.specs.Prelude.{◌≡◌};
ghost use Rattle.count_stage.specs.Stage.{started, with_constant, prescaler_cleared, step_times_out, stepped, clock_times_out, clocked};
ghost use Rattle.count_stage.specs.Runs.{ClocksTimeOutAtEveryMultiple, StepsTimeOutAtEveryMultiple};

#[derive(Clone, Copy)]
pub struct CountStage {
    constant: u8,
    // 0 stands for 256.
    counter: u8,
    // The clocks since the last count step that a clock made, fresh start or clearing.
    prescaler: u16,
}

impl CountStage {
    pub fn new() -> CountStage
        ensures { result ≡ started 0 }
    {
        CountStage::fresh(0)
    }

    fn fresh(constant: u8) -> CountStage
        ensures { result ≡ started constant }
    {
        CountStage {
            constant,
            counter: constant,
            prescaler: 0,
        }
    }

    pub fn counter(&self) -> u8
        ensures { result ≡ self.now.counter }
    {
        self.counter
    }

    // A fresh start with this constant.
    pub fn start(&mut self, constant: u8)
        ensures after { self.new ≡ started constant }
        ensures clocks_time_out_at_every_multiple { ClocksTimeOutAtEveryMultiple constant self.new }
        ensures steps_time_out_at_every_multiple { StepsTimeOutAtEveryMultiple constant self.new }
    {
        *self = CountStage::fresh(constant);
    }

    // The counter takes the constant at the next time-out.
    pub fn set_constant(&mut self, constant: u8)
        ensures { self.new ≡ with_constant constant self.old }
    {
        self.constant = constant;
    }

    pub fn clear_prescaler(&mut self)
        ensures { self.new ≡ prescaler_cleared self.old }
    {
        self.prescaler = 0;
    }

    // A count step; whether it is a time-out.
    pub fn step(&mut self) -> bool
        ensures answer { result ≡ step_times_out self.old }
        ensures after { self.new ≡ stepped self.old }
    {
        if self.counter == 1 {
            self.counter = self.constant;
            true
        } else {
            self.counter = self.counter.wrapping_sub(1);
            false
        }
    }

    // A clock, divided by `divisor`; whether it makes a time-out.
    pub fn clock(&mut self, divisor: u16) -> bool
        ensures answer { result ≡ clock_times_out divisor self.old }
        ensures after { self.new ≡ clocked divisor self.old }
    {
        // In 32 bits no sum overflows; `checked_add` in 16 would test for that at each clock too.
        let count = u32::from(self.prescaler) + 1;
        if count < u32::from(divisor) {
            // A count below a divisor fits, so that the 0 never comes.
            self.prescaler = u16::try_from(count).unwrap_or(0);
            false
        } else {
            self.clear_prescaler();
            self.step()
        }
    }
}
