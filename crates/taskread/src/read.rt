// Reading a task file: the set, or the refusal and the all-zero set.
// Lines are taken in order, then rows 5 and 6 of the figures.
use refusals::Outcome;
use tasks::set::TaskSet;

#[derive(Clone, Copy)]
pub struct ReadAnswer {
    pub outcome: Outcome,
    pub set: TaskSet,
}
