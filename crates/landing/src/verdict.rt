// What the host is told of the chunks, as words that it lends: four for each chunk.
ghost use Rattle.std.specs.Prelude.{◌≡◌};
ghost use Rattle.landing.specs.Verdicts.{count_after, words_noted};

use arriving::Verdict;
use arriving::walk::CHUNKS;
use numbers::Rail;

// How many words the verdicts of a packet have at most.
pub const WORDS: usize = Rail::VERDICT_WORDS;

// One verdict more; the answer is how many there are then. No packet has more chunks than there is room for.
pub(crate) fn note(verdicts: &mut [u32; WORDS], count: usize, v: Verdict) -> usize
    ensures { (result ≡ count_after count) × (verdicts.new ≡ words_noted verdicts.old count v) }
{
    if count >= CHUNKS {
        return count;
    }
    let at = 4 * count;
    verdicts[at..at + 4].copy_from_slice(&[
        (v.at % 65536) as u32,
        v.value,
        u32::from(v.fate) * 256 + u32::from(v.number),
        u32::from(v.cause) * 256 + u32::from(v.event),
    ]);
    count + 1
}
