use order::Ordered;

// A kind of strength: how reliable a bit is. Strengths of one kind are compared by their order, "at most as strong as"; two that
// compare both ways are equal in strength.
pub trait Strength: Ordered + Copy {}
