// A task's line of a task file, 02 or 03: a task's figures, or the refusal of the lowest row that holds there.
// The reader takes the answer apart and hands a refusal straight up.
#![tactic(auto)]

ghost use Rattle.std.specs.Prelude.{◌≡◌, true, ◌+◌, ◌≤◌, length, drop, eqb};
ghost use Rattle.frameread.specs.Line.{formed};
ghost use Rattle.tasks.specs.Search.{some};
ghost use Rattle.taskfile.specs.File.{line_outcome, task_formed, task_kind, cache_at, task_at, tasks_among};
ghost use Rattle.taskfile.specs.Taken.{Tasked, ids_of};
ghost use Rattle.lineanswer.specs.Answer.{line_or};

use frameread_code::field;
use frames::table::Frame;
use refusals::Refusal;
use tasks::set::{Task, TaskSet};

// The cache cost that a line of this kind gives.
fn cache_at(text: &[u8], at: usize, frame: Frame) -> Option<u16>
    requires at_in_bounds { at ≤ length text.now }
    requires text_value { formed frame (drop at text.now) ≡ true }
    ensures { result ≡ cache_at (drop at text.now) }
{
    match frame {
        Frame::Cached => {
            let cost = field(text, at, Frame::Cached, 4) as u16;
            Some(cost)
        }
        _ => None,
    }
}

// The figures of a task's line of this kind.
fn task_at(text: &[u8], at: usize, frame: Frame) -> Task
    requires at_in_bounds { at ≤ length text.now }
    requires text_value { task_formed (drop at text.now) ≡ true }
    requires frame_value { frame ≡ task_kind (drop at text.now) }
    ensures { result ≡ task_at (drop at text.now) }
{
    let cache = cache_at(text, at, frame);
    Task {
        id: field(text, at, frame, 0) as u8,
        cost: field(text, at, frame, 1) as u32,
        deadline: field(text, at, frame, 2) as u32,
        period: field(text, at, frame, 3) as u32,
        cache,
    }
}

// Whether the id is one of these.
fn holds_id(ids: &[u8], id: u8) -> bool
    ensures { result ≡ some (λ i. eqb i id) ids.now }
{
    ids.contains(&id)
}

// A task's line of this kind, behind so many lines whose tasks have these ids, with no 07 line among them.
pub fn listed_line(
    text: &[u8],
    at: usize,
    frame: Frame,
    lines: usize,
    ids: &[u8],
) -> Result<Task, Refusal>
    requires tasked { Tasked text.now lines at }
    requires ids_value { ids.now ≡ ids_of (tasks_among text.now lines) }
    requires text_value { task_formed (drop at text.now) ≡ true }
    requires frame_value { frame ≡ task_kind (drop at text.now) }
    ensures { result ≡ line_or (line_outcome text.now (lines + 1)) (task_at (drop at text.now)) }
{
    let place = (lines + 1) as u8;
    let full = ids.len() == TaskSet::MOST_TASKS;
    if full {
        return Err(Refusal::Count(place));
    }
    let task = task_at(text, at, frame);
    if holds_id(ids, task.id) {
        return Err(Refusal::Twice(place));
    }
    Ok(task)
}
