// What `sheet` answers: in a module of its own, since two names of one module may not differ by case alone.

// The printed bytes, and how many they are; the bytes after them are 0. They stand in a buffer with a length beside it: no heap, and a `Page` only
// lends.
#[derive(Clone, Copy)]
pub struct Sheet {
    pub bytes: [u8; 2048],
    pub len: usize,
}
