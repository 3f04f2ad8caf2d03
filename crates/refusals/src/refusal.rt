// No Display: a program prints a refusal by its number.
#[derive(Clone, Copy, PartialEq, Eq, Debug)]
pub enum Refusal {
    // The code number is neither 2 nor 3.
    UnknownCode,
    // The reading has not as many places as a word.
    WrongLength,
    // A place of the reading is unsound; the lowest such place.
    Unsound { place: usize },
    // No codeword is reachable.
    Unreadable,
    // The codeword, or the words to encode, carry no message.
    NoMessage,
    // The message's count is at its highest.
    CountFull,
    // The message is new, and the tally has no room for a line.
    TallyFull,
    // The message to strike has no line.
    NoLine,
    // The output is too short for the export.
    ShortOutput,
}
