// Places in a lent stream.

// The bytes from start on, len of them.
#[derive(Clone, Copy)]
pub struct Span {
    pub start: usize,
    pub len: usize,
}

// Where something starts and where it ends; equal where it is absent.
#[derive(Clone, Copy)]
pub struct Bounds {
    pub start: usize,
    pub end: usize,
}
