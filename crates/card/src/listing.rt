// The waiting list of a card with up to sixteen ranks.
ghost use Rattle.std.specs.Prelude.{◌≡◌, ℕ, ◌≤◌, ◌++◌, length, map, drop};
ghost use Rattle.ranks.specs.Ranks.{how_many, from_the_top};
ghost use Rattle.ranks.specs.RankSets.{ranks};
ghost use Rattle.ranks.specs.RankLists.{rank_list};
ghost use Rattle.card.specs.Listing.{places_of, list_answer, listed_into};

use crate::refusals::Refusal;
use ranks::RankSet;

// What tells the vector of each rank. It is no closure: a function that takes one has to require that it may be called, and
// no public call here requires anything. A struct that holds a closure and a ghost field that it may be called would be a type
// in place of this trait, and no plainer.
pub trait Vectors {
    ghost vectors: { Self → ℕ → ℕ };

    fn vector(&self, rank: u8) -> u8
        ensures { result ≡ vectors self.now rank };
}

// How many bytes of a buffer a waiting list may use.
pub fn places(buffer: &[u8]) -> usize
    ensures { result ≡ places_of buffer.now }
{
    buffer.len().min(4096)
}

// The count, or a refusal where it exceeds the places of the buffer.
pub fn check_room(count: u16, buffer: &[u8]) -> Result<u16, Refusal>
    ensures { result ≡ list_answer count buffer.now }
{
    if usize::from(count) > places(buffer) {
        Err(Refusal::TooFewPlaces)
    } else {
        Ok(count)
    }
}

// Puts the vectors of these ranks at the front of the buffer, the highest rank's first, and answers how many they are, or
// refuses.
pub fn list_vectors<C: Vectors>(
    card: &C,
    waiting: RankSet,
    buffer: &mut [u8],
) -> Result<u16, Refusal>
    ensures answer { result ≡ list_answer (how_many 16 (ranks waiting)) buffer.old }
    ensures bytes { buffer.new ≡ listed_into (from_the_top 16 (ranks waiting) (C.Vectors.vectors card.now)) buffer.old }
{
    let count = check_room(waiting.len(), buffer)?;
    put_vectors(card, waiting, buffer);
    Ok(count)
}

fn put_vectors<C: Vectors>(card: &C, waiting: RankSet, buffer: &mut [u8])
    requires { length (rank_list waiting) ≤ length buffer.old }
    ensures { buffer.new ≡ map (C.Vectors.vectors card.now) (rank_list waiting) ++ drop (length (rank_list waiting)) buffer.old }
{
    for (place, rank) in waiting.into_iter().enumerate() {
        buffer[place] = card.vector(rank);
    }
}
