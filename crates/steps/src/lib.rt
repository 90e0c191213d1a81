// Lists of steps: what a list is, what a run of it gives, and the facts about running, over any list. Read specs/Steps (a
// list and its run), specs/Numbers (a list as numbers), specs/Outcome (the refusals) and specs/Lists (the three lists of the
// forward DST-VII); of proofs/ Count, Inside and Product, which are over any list, Computed, which has the three, and Cases,
// which has the order of the refusals on small lists. The runner is the crate `step_run`; the lists as data are handed out by
// `step_lists`.
#![tactic(auto)]

ghost use Rattle.std.specs.Prelude.{◌≡◌};
ghost use Rattle.steps.specs.Counted.{step_count};

use meaning::Refusal;

/// What a run hands back beside its output: the number of the refusal or 0, and how many multiplying steps it took.
#[repr(C)]
#[derive(Clone, Copy)]
pub struct StepCount {
    pub number: u32,
    pub count: u32,
}

impl From<Result<u32, Refusal>> for StepCount {
    ghost from_gives = { λ run count. count ≡ step_count run };

    fn from(run: Result<u32, Refusal>) -> StepCount
        ensures { result ≡ step_count run }
    {
        match run {
            Ok(count) => StepCount { number: 0, count },
            Err(refusal) => StepCount {
                number: refusal.number(),
                count: 0,
            },
        }
    }
}
