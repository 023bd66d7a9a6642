// A flag of the record that C lends, as a byte: a `bool` would ask the host for 0 or 1.
ghost use Rattle.std.specs.Prelude.{◌≡◌, map};
ghost use mir.Val.{bool_byte};
ghost use Rattle.scans.specs.Scan.{any};
ghost use Rattle.kept.specs.Flags.{is_yes, is_junk};

use numbers::Rail;

// Whether a byte says yes: every one but 0.
pub fn is_yes(byte: u8) -> bool
    ensures { result ≡ is_yes byte }
{
    byte != 0
}

pub fn byte_of(flag: bool) -> u8
    ensures { result ≡ bool_byte flag }
{
    u8::from(flag)
}

// Whether a byte is neither 0 nor 1.
pub(crate) fn is_junk(byte: u8) -> bool
    ensures { result ≡ is_junk byte }
{
    1 < byte
}

// A fold, which does not end early, so that a machine may take many bytes at a time.
pub(crate) fn has_junk(bytes: &[u8; Rail::PLACES]) -> bool
    ensures { result ≡ any is_junk bytes.now }
{
    bytes.iter().fold(false, |junk, &byte| junk | is_junk(byte))
}

// A loop, and no `map` of the array: that takes its elements one by one from an iterator, thirty times as long, in every call of C.
pub(crate) fn flags_of(bytes: [u8; Rail::PLACES]) -> [bool; Rail::PLACES]
    ensures { result ≡ map is_yes bytes }
{
    let mut flags = [false; Rail::PLACES];
    for i in 0..Rail::PLACES {
        flags[i] = is_yes(bytes[i]);
    }
    flags
}

// A loop too, for the same reason.
pub(crate) fn bytes_of(flags: [bool; Rail::PLACES]) -> [u8; Rail::PLACES]
    ensures { result ≡ map bool_byte flags }
{
    let mut bytes = [0u8; Rail::PLACES];
    for i in 0..Rail::PLACES {
        bytes[i] = byte_of(flags[i]);
    }
    bytes
}
