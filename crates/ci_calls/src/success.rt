//! What a command makes.

/// What a command does where nothing is refused and nothing fails: it writes these files, in order, and then puts the
/// text, which may be any bytes.
#[derive(Drop)]
pub struct Success<'a> {
    pub writes: Vec<Written<'a>>,
    pub text: Vec<u8>,
}

/// A file that a command writes.
#[derive(Drop)]
pub struct Written<'a> {
    pub name: &'a str,
    pub bytes: Vec<u8>,
}
