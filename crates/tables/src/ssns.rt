// The next SSNs of the streams, one of 16 bits each.
ghost use Rattle.std.specs.Prelude.{◌≡◌, ◌%◌, get_or, replicate};
ghost use Rattle.numbers.specs.Circle.{ssn0};
ghost use Rattle.numbers.specs.Profile.{rail};
ghost use Rattle.tables.specs.Ssns.{ssns_of, ssn_put};

use numbers::{Rail, Ssn};

// The SSN of the stream i; past the last 0.
pub fn ssn_at(t: &[u16; Rail::STREAMS], i: usize) -> Ssn
    ensures { result ≡ get_or (ssns_of rail t.now) i ssn0 }
{
    if i < Rail::STREAMS { Ssn(t[i]) } else { Ssn(0) }
}

// The SSN of the stream i.
pub fn put_ssn(t: &mut [u16; Rail::STREAMS], i: usize, n: Ssn)
    ensures { t.new ≡ ssn_put rail t.old i n }
{
    if i < Rail::STREAMS {
        t[i] = n.0;
    }
}

// Every SSN is 0.
pub fn clear(t: &mut [u16; Rail::STREAMS])
    ensures { t.new ≡ replicate 128 0 }
{
    *t = [0; Rail::STREAMS];
}
