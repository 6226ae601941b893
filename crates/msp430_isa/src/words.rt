/// The words of an instruction: the first `len` of `w`, 1 to 3. The words beyond are 0.
#[derive(Clone, Copy, Debug, PartialEq, Eq)]
pub struct Words {
    pub len: u8,
    pub w: [u16; 3],
}

/// No instruction of the profile begins at this word, or the words end inside it.
#[derive(Clone, Copy, Debug, PartialEq, Eq, Drop)]
pub struct NotInstr {
    pub word: u16,
}
