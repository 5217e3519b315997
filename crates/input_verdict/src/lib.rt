//! The verdict on an input: the meaning of its lines, one after another, up to the first that breaks a rule.
//!
//! Contracts see an input by `verdict` (`specs/Verdict`), which folds `judged_as` over its lines; `judge_line` does this for one line.
//! Begin with `specs/Verdict`, `input` and `judge`. `conses` passes several conses of a world at a time (`specs/Conses`). `laws` states the verdict on an input whose world is a dump (`specs/Asking`).
#![tactic(auto)]

mod conses;
mod input;
mod judge;
mod laws;

pub use conses::pass_conses;
pub use input::{InputJudge, JudgedInput, JudgedLine, LineEffect};
pub use judge::{judge_buffered, judge_line, run_error_of};
pub use laws::dumps_are_whole_inputs;
