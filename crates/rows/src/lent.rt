// The tables of a record, as the host lends them.
#[derive(Drop)]
pub struct Tables<'a> {
    pub held: &'a mut [u32; 512],
    pub next_in: &'a mut [u16; 128],
    pub places: &'a mut [u32; 1024],
    pub next_out: &'a mut [u16; 128],
    pub kept: &'a mut [u8; 256],
    pub area: &'a mut [u8],
}
