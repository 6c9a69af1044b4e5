// Lines of words.

/// A word of a line.
#[derive(Clone, Copy)]
pub enum Word<'w> {
    /// These bytes.
    Text(&'w [u8]),
    /// This number, in decimal.
    Number(u64),
    /// This number, which may be larger than a `u64`, in decimal.
    Large(u128),
    /// This name, as it is shown.
    Name(&'w [u8]),
}

/// A line of words, with one space between each two. The first ones may be given together, with the spaces before and between them.
#[derive(Clone, Copy)]
pub struct Words<'w> {
    pub first: &'w [u8],
    pub rest: &'w [Word<'w>],
}

/// A line of a word, three numbers and a name, with one space between each two.
#[derive(Clone, Copy)]
pub struct NumberedLine<'w> {
    pub word: &'w [u8],
    pub first: u64,
    pub second: u64,
    pub third: u64,
    pub name: &'w [u8],
}
