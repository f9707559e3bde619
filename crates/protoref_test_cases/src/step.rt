//! The forms of a step and of an answer.

/// `rename`, `delete`, `add` or `drop`; of which name or file; which new name or path; and the
/// answer: a refusal, or each changed file with its lengths before and after and with its splices
/// by place, old and new text.
pub type Step<'a> = (&'a str, &'a str, &'a str, &'a str);

/// The number and the name of a refusal, or 0 and `done`.
pub type Said<'a> = (u32, &'a str);
