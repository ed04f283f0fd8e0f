// A set of ranks.
ghost use Rattle.std.specs.Prelude.{◌≡◌, not, is_some};
ghost use Rattle.ranks.specs.Ranks.{adding, removing, both, below, highest, above, how_many};
ghost use Rattle.ranks.specs.RankSets.{ranks, set_of, no_ranks, mask_of, inserted, removed, intersected};

// A set of ranks 0 to 15: bit k is set where rank k is in it.
#[derive(Clone, Copy)]
pub struct RankSet {
    bits: u16,
}

// The set that has these bits.
impl From<u16> for RankSet {
    ghost from_gives = { λ bits set. set ≡ set_of bits };

    fn from(bits: u16) -> RankSet {
        RankSet { bits }
    }
}

impl RankSet {
    pub fn empty() -> RankSet
        ensures { result ≡ no_ranks }
    {
        RankSet { bits: 0 }
    }

    #[tactic(auto, using(crate::proofs::RankSets::empty_tested))]
    pub fn is_empty(self) -> bool
        ensures { result ≡ not (is_some (highest 16 (ranks self))) }
    {
        self.bits == 0
    }

    // By leading zeros (docs/DECISIONS.md), and not by a logarithm. `as` is proved to lose nothing, here and in `len`; a
    // `try_from` would add a failure that cannot come.
    #[tactic(auto, using(crate::proofs::RankSets::leading_few, crate::proofs::RankSets::leading_found))]
    pub fn highest(self) -> Option<u8>
        ensures { result ≡ highest 16 (ranks self) }
    {
        if self.is_empty() {
            None
        } else {
            Some((15 - self.bits.leading_zeros()) as u8)
        }
    }

    // Whether a rank of the set is above every rank of the other.
    #[tactic(auto, using(crate::proofs::RankSets::outranking_found))]
    pub fn outranks(self, other: RankSet) -> bool
        ensures { result ≡ above (highest 16 (ranks self)) (highest 16 (ranks other)) }
    {
        self.bits.leading_zeros() < other.bits.leading_zeros()
    }

    #[tactic(auto, using(crate::proofs::RankSets::all_counted))]
    pub fn len(self) -> u16
        ensures { result ≡ how_many 16 (ranks self) }
    {
        self.bits.count_ones() as u16
    }

    // The ranks that are in both.
    #[tactic(auto, using(crate::proofs::RankSets::ranks_both))]
    pub fn intersection(self, other: RankSet) -> RankSet
        ensures bits { result ≡ intersected self other }
        ensures ranks { ranks result ≡ both (ranks self) (ranks other) }
    {
        RankSet {
            bits: self.bits & other.bits,
        }
    }

    // No set holds a rank above 15: inserting one changes nothing.
    #[tactic(auto, using(crate::proofs::RankSets::ranks_inserted))]
    pub fn insert(&mut self, rank: u8)
        ensures bits { self.new ≡ inserted rank self.old }
        ensures ranks { ranks self.new ≡ below 16 (adding rank (ranks self.old)) }
    {
        self.bits |= mask(rank);
    }

    #[tactic(auto, using(crate::proofs::RankSets::ranks_removed))]
    pub fn remove(&mut self, rank: u8)
        ensures bits { self.new ≡ removed rank self.old }
        ensures ranks { ranks self.new ≡ removing rank (ranks self.old) }
    {
        self.bits &= !mask(rank);
    }
}

// The bit of a rank, and none above 15.
fn mask(rank: u8) -> u16
    ensures { result ≡ mask_of rank }
{
    if rank < 16 { 1 << rank } else { 0 }
}
