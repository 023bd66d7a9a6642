// Bytes that are kept from one line to the next.
use octets::{part, put_all};

// At most N bytes, the first `length` of the array: the project's rule of no heap.
#[derive(Drop)]
pub(crate) struct Bytes<const N: usize> {
    bytes: [u8; N],
    length: usize,
}

impl<const N: usize> Bytes<N> {
    pub(crate) fn new() -> Self {
        Bytes {
            bytes: [0; N],
            length: 0,
        }
    }

    // Of more than N bytes the first N.
    pub(crate) fn set(&mut self, s: &[u8]) {
        put_all(&mut self.bytes, 0, s);
        self.length = s.len();
    }

    pub(crate) fn as_slice(&self) -> &[u8] {
        part(&self.bytes, 0, self.length)
    }
}
