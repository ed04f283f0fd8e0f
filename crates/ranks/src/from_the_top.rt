// The ranks of a set one after another, the highest first.
ghost use Rattle.std.specs.Prelude.{◌≡◌};
ghost use Rattle.std.specs.Iterator.{YieldsFirst, item_count};
ghost use Rattle.ranks.specs.RankLists.{all_to_come, ranks_left};

use crate::set::RankSet;

// The ranks that are still to come.
#[derive(Drop)]
pub struct FromTheTop {
    left: RankSet,
}

impl IntoIterator for RankSet {
    type Item = u8;

    type IntoIter = FromTheTop;

    ghost into_iter_gives = { λ set it. it ≡ all_to_come set };

    fn into_iter(self) -> FromTheTop {
        FromTheTop { left: self }
    }
}

impl Iterator for FromTheTop {
    type Item = u8;

    ghost next_gives = { YieldsFirst ranks_left };

    ghost remaining = { item_count ranks_left };

    fn next(&mut self) -> Option<u8> {
        let rank = self.left.highest()?;
        self.left.remove(rank);
        Some(rank)
    }
}
