//! The files of complete steps: the groups of each are made once, from its rows and the groups below it.
ghost use Rattle.std.specs.Prelude.{◌≡◌, ℕ, ◌+◌, ◌*◌, ◌/◌, ◌<◌, ◌≤◌, ◌^◌, OnOk, OnErr, IsErrOf};
ghost use Rattle.std.specs.Option.{ForSome};
ghost use Rattle.agg_model.specs.ChangeList.{ChangeList};
ghost use Rattle.merge_ranges.specs.declared.name.FileName.{FileName};
ghost use Rattle.visible_files.specs.Held.{count_of};
ghost use Rattle.state_store.specs.Store.{IsStore, Holds, Keeps, Resumes, HasOneTemporary, Goes, HasCauses, IsSettling, steps_held};

use crate::steps::{groups_of_step, prepared, publish_step};
use crate::stop::Stop;
use crate::store::Store;
use agg_outside::{Disk, Keeper};
use std::alloc::Global;
use std::rt::Clock;
use std::sync::Wait;
use std::thread::Threads;

impl<D: Disk, K: Keeper> Store<D, K> {
    /// Writes the files of the first step that has no groups, and makes its groups visible. After an error the groups
    /// are as they were, and no file that stood before is touched but those of the step, which may be written again. A
    /// step that was stopped is written whole by the next call.
    pub fn settle_step<H: Threads + Wait + Clock + Sync>(
        &mut self,
        rt: &H,
        alloc: Global,
    ) -> Result<(), Stop>
        requires sound { (most : ℕ) × IsStore most self.old }
        requires content { self.old.content ≤ 2 ^ 28 }
        requires due { steps_held self.old < self.old.next / self.old.size }
        ensures sound { (most : ℕ) → IsStore most self.old → IsStore most self.new }
        ensures holds { (list : ChangeList) → Holds D.Disk self.old list → OnOk result (Holds D.Disk self.new list) }
        ensures err { (list : ChangeList) → Holds D.Disk self.old list → OnErr result (Keeps D.Disk self.new list) }
        // Of the step at work a first fault leaves at most one temporary name.
        ensures one_temporary { (list : ChangeList) → Holds D.Disk self.old list →
            OnErr result (ForSome (D.files self.new.disk) HasOneTemporary) }
        // Where faults left a step in part, it is written whole, or is in part as before.
        ensures resumed { (list : ChangeList) → Resumes D.Disk self.old list →
            OnOk result (Holds D.Disk self.new list) }
        ensures stopped { (list : ChangeList) → Resumes D.Disk self.old list →
            OnErr result (Resumes D.Disk self.new list) }
        ensures one { OnOk result (steps_held self.new ≡ steps_held self.old + 1) }
        ensures same { IsSettling self.old self.new }
        ensures pins { (n : FileName) → count_of self.new.sets.held n ≡ count_of self.old.sets.held n }
        ensures goes { Goes D.Disk self.old self.new }
        ensures causes { HasCauses D.Disk self.old self.new result }
        ensures unworn { IsErrOf result Stop.Worn → ⊥ }
    {
        let size = self.size;
        let step = self.sets.current().end();
        let below = self.sets.current().groups();
        let groups = groups_of_step(rt, alloc, &mut self.hot, below, step, size)?;
        let next = prepared(alloc, &mut self.sets, &groups)?;
        publish_step(alloc, &mut self.disk, &groups, step)?;
        self.sets.publish(next);
        Ok(())
    }

    /// Writes the files of each complete step that has no groups, in order, and makes its groups visible. After an
    /// error those of the steps before the one at work are written, and no file that stood before is touched but those
    /// of the step at work, which may be written again. A step that was stopped is written whole by the next call.
    pub fn settle<H: Threads + Wait + Clock + Sync>(
        &mut self,
        rt: &H,
        alloc: Global,
    ) -> Result<(), Stop>
        requires sound { (most : ℕ) × IsStore most self.old }
        requires content { self.old.content ≤ 2 ^ 28 }
        ensures sound { (most : ℕ) → IsStore most self.old → IsStore most self.new }
        ensures holds { (list : ChangeList) → Holds D.Disk self.old list → OnOk result (Holds D.Disk self.new list) }
        ensures err { (list : ChangeList) → Holds D.Disk self.old list → OnErr result (Keeps D.Disk self.new list) }
        // Of the step at work a first fault leaves at most one temporary name.
        ensures one_temporary { (list : ChangeList) → Holds D.Disk self.old list →
            OnErr result (ForSome (D.files self.new.disk) HasOneTemporary) }
        // Where faults left a step in part, it is written whole, or is in part as before.
        ensures resumed { (list : ChangeList) → Resumes D.Disk self.old list →
            OnOk result (Holds D.Disk self.new list) }
        ensures stopped { (list : ChangeList) → Resumes D.Disk self.old list →
            OnErr result (Resumes D.Disk self.new list) }
        // All complete steps have their files then.
        ensures all { OnOk result (steps_held self.new ≡ self.old.next / self.old.size) }
        ensures same { IsSettling self.old self.new }
        // Open views pin what they pinned.
        ensures pins { (n : FileName) → count_of self.new.sets.held n ≡ count_of self.old.sets.held n }
        ensures goes { Goes D.Disk self.old self.new }
        ensures causes { HasCauses D.Disk self.old self.new result }
        ensures unworn { IsErrOf result Stop.Worn → ⊥ }
    {
        let complete = self.next / self.size;
        while self.sets.current().end() < complete {
            self.settle_step(rt, alloc)?;
        }
        Ok(())
    }
}
