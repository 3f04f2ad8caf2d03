ghost use Rattle.std.specs.Prelude.{◌≡◌, ◌++◌, OnOk};
ghost use Rattle.codes.specs.Calls.{New};
ghost use Rattle.printing.specs.Texts.{summary_text, printed};
ghost use Rattle.session.specs.Steps.{Counted};

use super::Session;
use codes::Word;
use printing::put_line;
use std::alloc::AllocError;

impl Session {
    // A new word, and no calls yet.
    pub fn new() -> Session
        ensures word { New result.word }
        ensures calls { result.calls ≡ 0 }
        ensures accepted { result.accepted ≡ 0 }
    {
        Session {
            word: Word::new(),
            calls: 0,
            accepted: 0,
        }
    }

    // Counts a call. The counts stay at their highest rather than wrap.
    // A bool: all that is counted of an answer is whether it was accepted.
    pub(super) fn count(&mut self, accepted: bool)
        ensures counted { Counted accepted self.old self.new }
        ensures word { self.new.word ≡ self.old.word }
    {
        self.calls = self.calls.saturating_add(1);
        if accepted {
            self.accepted = self.accepted.saturating_add(1);
        }
    }

    // Puts the line that ends a script's output after `out`, on the heap that `out` is on.
    #[tactic(auto, unfolding(printing::specs::Texts::summary_text))]
    pub fn summary(&self, out: &mut Vec<u8>) -> Result<(), AllocError>
        ensures { OnOk result (out.new.items ≡ out.old.items ++ printed (summary_text self.now.calls self.now.accepted)) }
    {
        let calls = self.calls;
        let accepted = self.accepted;
        let refused = calls - accepted;
        let line = format_args!("{calls} calls, {accepted} accepted, {refused} refused");
        put_line(&line, out)
    }
}
