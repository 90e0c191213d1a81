// Internal: the lines of text that a run prints, put into a buffer that the caller has shown to be long enough, so with a
// `requires`. `file_run`, `salvage`, `picture_samples` and `picture` depend on it. Read specs/Text (the text of each line) and specs/Wrote (what each
// function that writes text promises), then text.
#![tactic(auto)]

pub mod text;
