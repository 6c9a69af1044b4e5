// A task that is held, or none.
ghost use Rattle.std.specs.Prelude.{◌≡◌, ◌↔◌, Some, None, IsSome, IsTrue, option_map};

use crate::box_pointer::BoxPointer;
use crate::task_pointer::TaskPointer;
use sas_axioms::Worklist;
use sas_plan_reasons::LoadedTask;
use std::alloc::Global;
use std::mem::replace;

/// A task with all that its plans need.
pub type HeldTask = LoadedTask<Worklist>;

/// A task that a program in C holds between two calls, or none. It begins with all bytes 0, which is none, and the program never
/// changes or copies what is inside.
#[repr(C)]
#[derive(Drop)]
pub struct SasTask {
    is_there: bool,
    pub pointer: TaskPointer,
    pub ghost agrees: { IsTrue is_there ↔ IsSome pointer.task },
}

impl SasTask {
    /// Holds no task.
    fn none() -> SasTask
        ensures { result.pointer.task ≡ None }
    {
        SasTask {
            is_there: false,
            pointer: TaskPointer::none(),
        }
    }

    /// Holds this task from now on. None may be held before, as its memory would be lost.
    pub fn put(&mut self, task: Box<HeldTask>)
        requires { self.old.pointer.task ≡ None }
        ensures { self.new.pointer.task ≡ Some task.value }
    {
        *self = SasTask {
            is_there: true,
            pointer: TaskPointer::of(BoxPointer::of(task)),
        };
    }

    /// Returns the task that is held, if there is one. None is held then.
    pub fn take(&mut self, alloc: Global) -> Option<Box<HeldTask>>
        ensures task { option_map (λ task. task.value) result ≡ self.old.pointer.task }
        ensures none { self.new.pointer.task ≡ None }
    {
        let SasTask { is_there, pointer } = replace(self, SasTask::none());
        if is_there {
            Some(pointer.into_box_pointer(alloc).into_box())
        } else {
            None
        }
    }
}
