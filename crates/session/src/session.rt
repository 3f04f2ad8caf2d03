// A run over a script: the corrected word that it holds, and how many calls there were and how many were accepted.
ghost use Rattle.std.specs.Prelude.{◌≤◌};

use codes::Word;

mod counting;
mod rows;

#[derive(Drop)]
pub struct Session {
    word: Word,
    calls: u64,
    accepted: u64,
    ghost order: { accepted ≤ calls },
}
