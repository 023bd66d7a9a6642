// What a SACK says of a receiving side whose held chunks are lent as words.
ghost use Rattle.std.specs.Prelude.{◌≡◌};
ghost use Rattle.numbers.specs.Profile.{rail};
ghost use Rattle.reception.specs.Reception.{sacked};

use delivery::Sack;
use numbers::{Keeping, Rail};
use tables::held;
use taking::choosing;

// The SACK, and number-keeping after it.
#[derive(Clone, Copy)]
pub struct Acknowledged {
    pub sack: Sack,
    pub keeping: Keeping,
}

// What it tells; the duplicates are then told.
pub fn sack(keeping: Keeping, words: &[u32; held::WORDS]) -> Acknowledged
    ensures { result ≡ sacked rail keeping words.now }
{
    let free = choosing::free_places(words);
    let blocks = keeping.blocks();
    let dups = keeping.dups;
    Acknowledged {
        sack: Sack {
            point: keeping.point,
            window: (Rail::PAYLOAD * free) as u32,
            blocks,
            dups,
            listed: keeping.listed,
        },
        keeping: keeping.told(),
    }
}
