// The parts of the head that have flags, as a host keeps them.
ghost use Rattle.std.specs.Prelude.{◌≡◌};

use crate::flags;
use numbers::{Keeping, Rail, Tsn};
use path::{Clock, Control, Path};
use sender::Sender;

#[repr(C)]
#[derive(Clone, Copy)]
pub struct KeptKeeping {
    pub point: Tsn,
    pub come: [u8; Rail::PLACES],
    pub dups: [Tsn; Rail::LISTED],
    pub listed: usize,
}

#[repr(C)]
#[derive(Clone, Copy)]
pub struct KeptClock {
    pub sampled: u8,
    pub srtt: u32,
    pub rttvar: u32,
    pub rto: u32,
}

#[repr(C)]
#[derive(Clone, Copy)]
pub struct KeptPath {
    pub control: Control,
    pub clock: KeptClock,
    pub flight: u32,
    pub running: u8,
    pub until: Tsn,
    pub tries: u8,
}

#[repr(C)]
#[derive(Clone, Copy)]
pub struct KeptSender {
    pub acked: Tsn,
    pub next_tsn: Tsn,
    pub advertised: u32,
    pub oldest: u32,
    pub path: KeptPath,
    pub mode: u8,
}

impl From<KeptKeeping> for Keeping {
    ghost use Rattle.kept.specs.Parts.{unpacked_keeping};

    ghost from_gives = { λ kept keeping. keeping ≡ unpacked_keeping kept };

    fn from(kept: KeptKeeping) -> Keeping {
        let KeptKeeping {
            point,
            come,
            dups,
            listed,
        } = kept;
        let come = flags::flags_of(come);
        Keeping {
            point,
            come,
            dups,
            listed,
        }
    }
}

impl From<Keeping> for KeptKeeping {
    ghost use Rattle.kept.specs.Parts.{packed_keeping};

    ghost from_gives = { λ keeping kept. kept ≡ packed_keeping keeping };

    fn from(keeping: Keeping) -> KeptKeeping {
        let Keeping {
            point,
            come,
            dups,
            listed,
        } = keeping;
        let come = flags::bytes_of(come);
        KeptKeeping {
            point,
            come,
            dups,
            listed,
        }
    }
}

impl From<KeptPath> for Path {
    ghost use Rattle.kept.specs.Parts.{unpacked_path};

    ghost from_gives = { λ kept path. path ≡ unpacked_path kept };

    fn from(kept: KeptPath) -> Path {
        Path {
            control: kept.control,
            clock: Clock {
                sampled: flags::is_yes(kept.clock.sampled),
                srtt: kept.clock.srtt,
                rttvar: kept.clock.rttvar,
                rto: kept.clock.rto,
            },
            flight: kept.flight,
            running: flags::is_yes(kept.running),
            until: kept.until,
            tries: kept.tries,
        }
    }
}

impl From<Path> for KeptPath {
    ghost use Rattle.kept.specs.Parts.{packed_path};

    ghost from_gives = { λ path kept. kept ≡ packed_path path };

    fn from(path: Path) -> KeptPath {
        KeptPath {
            control: path.control,
            clock: KeptClock {
                sampled: flags::byte_of(path.clock.sampled),
                srtt: path.clock.srtt,
                rttvar: path.clock.rttvar,
                rto: path.clock.rto,
            },
            flight: path.flight,
            running: flags::byte_of(path.running),
            until: path.until,
            tries: path.tries,
        }
    }
}

impl From<KeptSender> for Sender {
    ghost use Rattle.kept.specs.Parts.{unpacked_sender};

    ghost from_gives = { λ kept sender. sender ≡ unpacked_sender kept };

    fn from(kept: KeptSender) -> Sender {
        Sender {
            acked: kept.acked,
            next_tsn: kept.next_tsn,
            advertised: kept.advertised,
            oldest: kept.oldest,
            path: Path::from(kept.path),
            mode: kept.mode,
        }
    }
}

impl From<Sender> for KeptSender {
    ghost use Rattle.kept.specs.Parts.{packed_sender};

    ghost from_gives = { λ sender kept. kept ≡ packed_sender sender };

    fn from(sender: Sender) -> KeptSender {
        KeptSender {
            acked: sender.acked,
            next_tsn: sender.next_tsn,
            advertised: sender.advertised,
            oldest: sender.oldest,
            path: KeptPath::from(sender.path),
            mode: sender.mode,
        }
    }
}
