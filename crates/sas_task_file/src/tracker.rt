// Follows the lines of a task, one after another, by the table of places.
ghost use Rattle.std.specs.Prelude.{◌≡◌, OnOk, OnErr};
ghost use Rattle.sas_task_file.specs.declared.places.Place.{Place};
ghost use Rattle.sas_task_file.specs.declared.places.Move.TheVariants as moves;
ghost use Rattle.sas_task_file.specs.Tracker.{tracker_start, after_move};

use crate::places::{Move, Place};
use sas_core::Items;
use std::alloc::{AllocError, Global};

/// The place after the lines so far, and what is still missing of the lists that have begun.
#[derive(Drop)]
pub struct Tracker {
    pub place: Place,
    /// The number of variables, groups, operators or rules, from the last line with such a number.
    pub total: u32,
    /// How many of them are left.
    pub left: u32,
    /// How many values, facts or effects are left in the current list.
    pub more: usize,
    /// The number of values of each variable.
    pub ranges: Items<u32>,
}

impl Tracker {
    /// Returns a tracker before the first line.
    pub fn new(alloc: Global) -> Self
        ensures { result ≡ tracker_start }
    {
        Tracker {
            place: Place::VersionBegin,
            total: 0,
            left: 0,
            more: 0,
            ranges: Items::new(alloc),
        }
    }

    /// Moves past the next line, which has this number, if it is one.
    pub fn move_on(&mut self, by: Move, number: u32) -> Result<(), AllocError>
        ensures ok { OnOk result (self.new ≡ after_move by number self.old) }
        ensures err { OnErr result ((to : Place) × (by ≡ moves.Range to)) }
    {
        match by {
            Move::To(to) => self.place = to,
            Move::Count(to) => {
                self.total = number;
                self.left = number;
                self.place = to;
            }
            Move::Begin(to) => {
                self.left = self.left.saturating_sub(1);
                self.place = to;
            }
            Move::List(to) => {
                self.more = number as usize;
                self.place = to;
            }
            Move::Range(to) => {
                self.ranges.push(number)?;
                self.more = number as usize;
                self.place = to;
            }
            Move::State(to) => {
                self.more = self.ranges.len();
                self.place = to;
            }
            Move::Item => self.more = self.more.saturating_sub(1),
        }
        Ok(())
    }
}
