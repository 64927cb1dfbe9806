// What is handed over as a name: the first len of the bytes; the rest are 0.
#[derive(Drop)]
pub struct Name {
    pub bytes: [u8; 24],
    pub len: usize,
}
