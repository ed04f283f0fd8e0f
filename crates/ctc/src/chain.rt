// The CTC on the interrupt chain. As in `bus`, the work is in functions of `chip`, with one definition each as contract; here
// the trait's clauses are proved of them.
ghost use Rattle.std.specs.Prelude.{◌≡◌};
ghost use Rattle.ctc.specs.Chip.{vector_at};
ghost use Rattle.ctc.specs.Card.{ctc_meaning, ctc_rules};
ghost use Rattle.ctc.specs.Sentences.{ctc_sentences};

use crate::chip::Ctc;
use card::{Chain, Refusal, Vectors, list_vectors};

impl Vectors for Ctc {
    ghost vectors = { vector_at };

    fn vector(&self, rank: u8) -> u8 {
        self.vector_at(rank)
    }
}

impl Chain for Ctc {
    ghost meaning = { ctc_meaning };

    ghost same = { λ c d. c ≡ d };

    ghost rules = { ctc_rules };

    ghost sentences = { ctc_sentences };

    fn takes(&self, port: u8) -> bool {
        self.takes_port(port)
    }

    fn ieo(&self, iei: bool) -> bool {
        iei & self.waiting_ranks().is_empty() & self.service_ranks().is_empty()
    }

    fn pulls_int(&self, iei: bool) -> bool {
        iei & self.asks()
    }

    fn acknowledge(&mut self, iei: bool) -> Option<u8> {
        let rank = self.rank_acknowledged(iei)?;
        let vector = self.vector_at(rank);
        self.take(rank);
        Some(vector)
    }

    fn ieo_during_return(&self, iei: bool) -> bool {
        iei & self.service_ranks().is_empty()
    }

    fn return_from_interrupt(&mut self, iei: bool) {
        if let Some(rank) = self.rank_returned(iei) {
            self.end(rank);
        }
    }

    fn reset(&mut self) {
        self.reset_all();
    }

    fn waiting_count(&self) -> u16 {
        self.waiting_ranks().len()
    }

    fn waiting_list(&self, buffer: &mut [u8]) -> Result<u16, Refusal> {
        list_vectors(self, self.waiting_ranks(), buffer)
    }
}
