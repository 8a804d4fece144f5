// The numbers of the kinds of token, and of what else a place may hold.
#![tactic(auto)]

#[derive(Drop)]
pub struct Kind {}

impl Kind {
    // No token was found.
    pub const NONE: usize = 0;
    // There is none: the document ends.
    pub const END: usize = 0;

    pub const IRIREF: usize = 1;

    pub const PNAME_NS: usize = 2;

    pub const PNAME_LN: usize = 3;

    pub const BLANK_NODE_LABEL: usize = 4;

    pub const AT_PREFIX: usize = 5;

    pub const AT_BASE: usize = 6;

    pub const LANGTAG: usize = 7;

    pub const INTEGER: usize = 8;

    pub const DECIMAL: usize = 9;

    pub const DOUBLE: usize = 10;

    pub const STRING_LITERAL_QUOTE: usize = 11;

    pub const STRING_LITERAL_SINGLE_QUOTE: usize = 12;

    pub const A: usize = 13;

    pub const TRUE: usize = 14;

    pub const FALSE: usize = 15;

    pub const PREFIX: usize = 16;

    pub const BASE: usize = 17;

    pub const GRAPH: usize = 18;

    pub const DOT: usize = 19;

    pub const COMMA: usize = 20;

    pub const SEMICOLON: usize = 21;

    pub const OPEN_BRACKET: usize = 22;

    pub const CLOSE_BRACKET: usize = 23;

    pub const OPEN_PAREN: usize = 24;

    pub const CLOSE_PAREN: usize = 25;

    pub const OPEN_BRACE: usize = 26;

    pub const CLOSE_BRACE: usize = 27;

    pub const CARETS: usize = 28;

    pub const STRING_LITERAL_LONG_QUOTE: usize = 29;

    pub const STRING_LITERAL_LONG_SINGLE_QUOTE: usize = 30;
    // The last of the kinds.
    pub const LAST: usize = Self::STRING_LITERAL_LONG_SINGLE_QUOTE;
    // No token can be read there. Kinds that are added have numbers below this.
    pub const UNREADABLE: usize = 63;
}
