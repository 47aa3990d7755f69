//! What three threads have to do.

ghost use Rattle.runs.specs.Trying.{able, after};
ghost use Rattle.std.specs.Prelude.{◌≡◌};
ghost use Rattle.turns_example.specs.Tasks.{does, with_task, task_of};

use runs::NextStep;

/// What a thread has to do: make some moves, or wait until another thread has none left, or make some moves and
/// then something that it can't.
#[derive(Clone, Copy, Debug, PartialEq, Eq)]
pub enum Task {
    Count { left: u32 },
    Await { thread: u32 },
    Breaks { left: u32 },
}

/// What each of three threads has to do.
#[derive(Clone, Copy, Debug, PartialEq, Eq)]
pub struct Tasks {
    pub one: Task,
    pub two: Task,
    pub three: Task,
}

/// What a thread has to do.
fn task_of(tasks: Tasks, thread: u32) -> Task
    ensures { result ≡ task_of tasks thread }
{
    match thread {
        1 => tasks.one,
        2 => tasks.two,
        3 => tasks.three,
        _ => Task::Count { left: 0 },
    }
}

/// The tasks after a thread was given another.
fn with_task(tasks: Tasks, thread: u32, task: Task) -> Tasks
    ensures { result ≡ with_task tasks thread task }
{
    match thread {
        1 => Tasks { one: task, ..tasks },
        2 => Tasks { two: task, ..tasks },
        3 => Tasks {
            three: task,
            ..tasks
        },
        _ => tasks,
    }
}

/// What a thread can do, and the tasks that it leaves.
pub fn attempt(tasks: Tasks, thread: u32) -> (NextStep, Tasks)
    ensures ability { result.0 ≡ able (does tasks thread (task_of tasks thread)) }
    ensures state { result.1 ≡ after tasks (does tasks thread (task_of tasks thread)) }
{
    match task_of(tasks, thread) {
        Task::Count { left: 0 } => (NextStep::Ended, tasks),
        Task::Count { left } => {
            let next = Task::Count { left: left - 1 };
            (NextStep::Moves, with_task(tasks, thread, next))
        }
        Task::Await { thread: other } => match task_of(tasks, other) {
            Task::Count { left: 0 } => {
                let done = Task::Count { left: 0 };
                (NextStep::Moves, with_task(tasks, thread, done))
            }
            _ => (NextStep::Waits, tasks),
        },
        Task::Breaks { left: 0 } => (NextStep::Stuck, tasks),
        Task::Breaks { left } => {
            let next = Task::Breaks { left: left - 1 };
            (NextStep::Moves, with_task(tasks, thread, next))
        }
    }
}
