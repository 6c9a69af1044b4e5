// A pointer to a task, as a program in C has it.
ghost use Rattle.std.specs.Prelude.{◌≡◌, Option, Some, None, IsSome};
ghost use Rattle.sas_c.specs.Holding.{owns_task};
ghost use Rattle.sas_core.specs.declared.parts.Parts.{Parts};

use crate::box_pointer::BoxPointer;
use crate::sas_task::HeldTask;
use std::alloc::Global;
use std::marker::Model;
use std::ptr::null_mut;

/// A pointer to a task, whose box it owns, or none. Dropping it drops no task: take the task out before, or its memory is lost.
#[repr(C)]
#[derive(Drop)]
pub struct TaskPointer {
    at: *mut u8,
    pub ghost task: { Option Parts },
}

impl Model for TaskPointer {
    ghost also_owns = { λ p. owns_task p.at p.task };
}

impl TaskPointer {
    /// Points to no task.
    pub fn none() -> TaskPointer
        ensures { result.task ≡ None }
    {
        TaskPointer { at: null_mut() }
    }

    /// Points to this task.
    pub fn of(task: BoxPointer<HeldTask, Global>) -> TaskPointer
        ensures { result.task ≡ Some task.value }
    {
        let BoxPointer { at, alloc: _ } = task;
        TaskPointer { at: at as *mut u8 }
    }

    /// Returns the task.
    pub fn into_box_pointer(self, alloc: Global) -> BoxPointer<HeldTask, Global>
        requires { IsSome self.task }
        ensures { self.task ≡ Some result.value }
    {
        let TaskPointer { at } = self;
        BoxPointer {
            at: at as *mut HeldTask,
            alloc,
        }
    }
}
