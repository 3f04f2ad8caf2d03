// The sizes of words and messages.

// The places of a word.
pub const PLACES: usize = 255;

// The bits of a message's word.
pub const WORD_BITS: usize = 32;

// The words of a message.
pub const MESSAGE_WORDS: usize = 7;

// The places that a message takes in a word.
pub const MESSAGE_BITS: usize = WORD_BITS * MESSAGE_WORDS;
