// The two codes, by the number of errors that each is designed for: that is its code number.
#[derive(Clone, Copy, PartialEq, Eq, Debug)]
pub enum Code {
    // BCH (255,239)
    Two = 2,
    // BCH (255,231)
    Three = 3,
}
