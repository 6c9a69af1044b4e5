// Records which groups were used in tests: a hint on which groups an operator depends. No contract mentions it.
use std::cell::Cell;

/// At most this many groups are recorded.
pub const MOST_GROUPS: usize = 4;

/// Groups that were used in tests to show that two facts contradict each other, each once.
#[derive(Clone, Copy)]
pub struct Groups {
    groups: [u32; MOST_GROUPS],
    /// The number of groups, or one more than the maximum if there were too many.
    count: usize,
}

/// The groups that were used in tests since the last call of `clear`, unless they are too many.
#[derive(Drop)]
pub struct DecidingGroups {
    noted: Cell<Groups>,
}

impl Groups {
    /// No groups.
    const NONE: Groups = Groups {
        groups: [0; MOST_GROUPS],
        count: 0,
    };

    /// Returns the groups, or `None` if there were too many.
    pub fn as_slice(&self) -> Option<&[u32]> {
        self.groups.get(..self.count)
    }

    /// Returns whether the group is one of these, or there are too many already.
    #[inline(always)]
    fn has(&self, group: u32) -> bool {
        match self.as_slice() {
            Some(noted) => noted.contains(&group),
            None => true,
        }
    }

    /// Returns these groups and one more.
    fn with(self, group: u32) -> Groups {
        let mut groups = self.groups;
        if let Some(place) = groups.get_mut(self.count) {
            *place = group;
        }
        Groups {
            groups,
            count: self.count.saturating_add(1),
        }
    }
}

impl DecidingGroups {
    /// Returns an empty record.
    pub fn new() -> DecidingGroups {
        DecidingGroups {
            noted: Cell::new(Groups::NONE),
        }
    }

    /// Records that the group was used in a test.
    pub fn decided_by(&self, group: u32) {
        let noted = self.noted.get();
        // Mostly the same group decides again.
        if !noted.has(group) {
            self.noted.set(noted.with(group));
        }
    }

    /// Removes all groups.
    pub fn clear(&self) {
        self.noted.set(Groups::NONE);
    }

    /// Returns the recorded groups.
    pub fn groups(&self) -> Groups {
        self.noted.get()
    }
}
