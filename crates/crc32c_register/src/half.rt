// Half a byte at a time, for the few bytes that eight tables do not take.
ghost use Rattle.std.specs.Prelude.{◌≡◌};
ghost use Rattle.crc32c_register.specs.Register.{bits};

// What half a byte leaves in the register after 4 bits.
static HALVES: [u32; 16] = [
    0x00000000, 0x105ec76f, 0x20bd8ede, 0x30e349b1, 0x417b1dbc, 0x5125dad3, 0x61c69362, 0x7198540d,
    0x82f63b78, 0x92a8fc17, 0xa24bb5a6, 0xb21572c9, 0xc38d26c4, 0xd3d3e1ab, 0xe330a81a, 0xf36e6f75,
];

// The register c after 4 bits.
pub fn after_4(c: u32) -> u32
    ensures { result ≡ bits 4 c }
{
    HALVES[(c % 16) as usize] ^ (c >> 4)
}
