// The two parts of the interface: a card on the interrupt chain, and the same card on the bus.
ghost use Rattle.std.specs.Prelude.{◌≡◌, min};
ghost use Rattle.card.specs.Refusals.{answered};
ghost use Rattle.card.specs.Meaning.{Meaning, waiting_number, pulls, vector_answered, ieo_of, ieo_during_return};
ghost use Rattle.card.specs.Listing.{list_answer, listed_into};
ghost use Rattle.card.specs.Sentences.{Rules, Sentences, ServiceOnlyShrinks};

use crate::refusals::Refusal;

pub trait Chain {
    ghost meaning: { Self → Meaning };

    // The second is the first unaltered, but for what a layer notes beside the card that it holds.
    ghost same: { Self → Self → Type 0 };

    // What each call leaves, the byte that a read answers, and the bytes of the waiting list, by the card's own rules.
    ghost rules: { Rules Self };

    fn takes(&self, port: u8) -> bool
        ensures { result ≡ (meaning self.now).ports port };

    // IEO, the chain wire out of the card, by IEI, the wire into it; true is high.
    fn ieo(&self, iei: bool) -> bool
        ensures { result ≡ ieo_of iei (meaning self.now) };

    // Whether the card pulls INT.
    fn pulls_int(&self, iei: bool) -> bool
        ensures { result ≡ pulls iei (meaning self.now) };

    // The vector of the request that the card takes, if it takes one.
    fn acknowledge(&mut self, iei: bool) -> Option<u8>
        ensures answer { result ≡ vector_answered iei (meaning self.old) }
        ensures after { self.new ≡ rules.after_acknowledge self.old iei };

    // While the processor fetches its return from interrupt, a card that only waits lets the chain through, so that the
    // return reaches the card in service.
    fn ieo_during_return(&self, iei: bool) -> bool
        ensures { result ≡ ieo_during_return iei (meaning self.now) };

    fn return_from_interrupt(&mut self, iei: bool)
        ensures { self.new ≡ rules.after_return self.old iei };

    fn reset(&mut self)
        ensures { self.new ≡ rules.after_reset self.old };

    // How many requests wait; the count stops at 65,535.
    fn waiting_count(&self) -> u16
        ensures { result ≡ min (waiting_number (meaning self.now)) 65535 };

    // Puts the vector of each waiting request at the front of the buffer and answers how many they are, or refuses. The
    // memory is the caller's, and no Vec, since a card allocates none; the answer is a number, which whatever holds the card can
    // hand on.
    fn waiting_list(&self, buffer: &mut [u8]) -> Result<u16, Refusal>
        ensures answer { result ≡ list_answer (waiting_number (meaning self.now)) buffer.old }
        ensures bytes { buffer.new ≡ listed_into (rules.waiting_bytes self.now) buffer.old };

    // A law: each card proves it of its meaning, its rules and what it calls unaltered.
    ghost sentences: { Sentences Self meaning same rules };
}

// That service only shrinks stands on each call: it ties two states, which no invariant of the type can, and a caller finds
// it where the call is. A port with its byte, or with line and level, is no struct: each call would make it only to have it
// taken apart.
pub trait Bus: Chain {
    fn write(&mut self, port: u8, byte: u8) -> Result<(), Refusal>
        ensures answer { result ≡ answered ((Self.Chain.meaning self.old).write_refusal port byte) tt }
        ensures after { self.new ≡ Self.Chain.rules.after_write self.old port byte }
        ensures service_only_shrinks { ServiceOnlyShrinks (Self.Chain.meaning self.old) (Self.Chain.meaning self.new) };

    fn read(&mut self, port: u8) -> Result<u8, Refusal>
        ensures answer { result ≡ answered ((Self.Chain.meaning self.old).read_refusal port) (Self.Chain.rules.byte_read self.old port) }
        ensures after { self.new ≡ Self.Chain.rules.after_read self.old port }
        ensures service_only_shrinks { ServiceOnlyShrinks (Self.Chain.meaning self.old) (Self.Chain.meaning self.new) };

    fn clock(&mut self)
        ensures after { self.new ≡ Self.Chain.rules.after_clock self.old }
        ensures service_only_shrinks { ServiceOnlyShrinks (Self.Chain.meaning self.old) (Self.Chain.meaning self.new) };

    // The port says which card is meant.
    fn change_line(&mut self, port: u8, line: u8, high: bool) -> Result<(), Refusal>
        ensures answer { result ≡ answered ((Self.Chain.meaning self.old).line_refusal port line high) tt }
        ensures after { self.new ≡ Self.Chain.rules.after_line self.old port line high }
        ensures service_only_shrinks { ServiceOnlyShrinks (Self.Chain.meaning self.old) (Self.Chain.meaning self.new) };
}
