// The token that a routine finds.
#![tactic(auto)]

// A kind of token, of token::Kind, and the token's length in bytes.
#[derive(Clone, Copy)]
pub struct Token {
    pub kind: usize,
    pub len: usize,
}

// A token, and how many bytes after it are known to begin no prefixed name.
#[derive(Clone, Copy)]
pub struct Next {
    pub token: Token,
    pub clear: usize,
}
