//! The trait of what judges the lines of an input.
ghost use Rattle.std.specs.Prelude.{◌≡◌, true};
ghost use Rattle.line_input.specs.Verdict.{Judged, Rules};

use crate::statuses::RunError;
use std::alloc::Global;
use world_text::Reason;

/// What the lines so far mean. It takes one line after another.
pub trait LineJudge {
    /// What whole lines mean.
    type Whole;

    // What each line means after the others, and when the lines are whole.
    ghost rules: { Rules Self Self.Whole };

    // What holds of the meaning of whole lines.
    ghost fits: { Self.Whole → Type 0 };

    /// Whether the lines are whole, so that none may follow.
    fn is_whole(&self) -> bool
        ensures { result ≡ rules.is_whole self.now };

    /// Takes the next line, which has this number and this text. If it is refused, or memory runs out, the judge must not be used
    /// again.
    fn line(&mut self, alloc: Global, number: u64, text: &[u8]) -> Result<(), RunError>
        ensures { Judged self.new result (rules.says number self.old text.now) };

    /// What the lines mean.
    fn whole(self) -> Self::Whole
        requires { rules.is_whole self ≡ true }
        ensures value { result ≡ rules.whole self }
        ensures fits { fits result };

    /// Why an input without a line is refused.
    fn empty() -> Reason
        ensures { result ≡ rules.empty };
}
