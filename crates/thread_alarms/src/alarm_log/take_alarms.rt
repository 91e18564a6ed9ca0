//! The steps of the log on its queue.
ghost use Rattle.std.specs.Prelude.{◌≡◌, ◌+◌, List, [], ◌++◌, IsTrue, IsFalse, length, vec_capacity};
ghost use Rattle.thread_rings.specs.declared.alarm_kinds.Alarm.{Alarm};
ghost use Rattle.crossbeam_queue.specs.Passes.{view};
ghost use Rattle.crossbeam_queue.specs.Fifo.{Held};
ghost use Rattle.thread_alarms.specs.alarm_log.Views.{IsHeard};
ghost use Rattle.thread_alarms.specs.alarm_log.Listens.{Listens, SameEars};

use crate::alarm_log::queue_rule::{AlarmQueue, Got, View};
use crate::alarm_log::tagged_alarm::Tagged;
use crossbeam_queue::Pass;
use std::sync::Wait;
use thread_rings::Alarm;

/// Moves the oldest alarm of the queue to the list, or finds the queue empty.
pub(super) fn take<R: Wait>(
    rt: &R,
    queue: &AlarmQueue,
    pass: &mut Pass<Tagged, View>,
    list: &mut Vec<Alarm>,
) -> bool
    requires { Listens queue.now pass.old list.old }
    ensures listens { Listens queue.now pass.new list.new }
    ensures same { SameEars pass.old pass.new × (vec_capacity list.new ≡ vec_capacity list.old) }
    ensures moved { IsTrue result → length list.new.items ≡ length list.old.items + 1 }
    ensures grown { (more : List Alarm) × (list.new.items ≡ list.old.items ++ more) }
    ensures none { IsFalse result → (list.new.items ≡ list.old.items)
        × (view pass.new ≡ view pass.old) × Held 0 (IsHeard (view pass.old)) }
{
    match queue.pop_as::<Got, R>(rt, pass) {
        Some(tagged) => {
            list.push_reserved(tagged.alarm);
            true
        }
        None => false,
    }
}

/// Moves what is left in the queue to the list, until it finds the queue empty.
pub(super) fn drain<R: Wait>(
    rt: &R,
    queue: &AlarmQueue,
    pass: &mut Pass<Tagged, View>,
    list: &mut Vec<Alarm>,
)
    requires { Listens queue.now pass.old list.old }
    ensures listens { Listens queue.now pass.new list.new }
    ensures same { SameEars pass.old pass.new × (vec_capacity list.new ≡ vec_capacity list.old) }
    ensures heard { IsHeard (view pass.new) [] }
{
    for _ in rt.forever() {
        if !take(rt, queue, pass, list) {
            return;
        }
    }
}
