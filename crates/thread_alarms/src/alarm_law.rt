//! Laws of the alarms of a line: how many there are at most, and that more cells change nothing of those that stand. It
//! has no code of its own: each clause is a theorem of definitions. Begin with `alarm_law`.

ghost use Rattle.thread_alarms.specs.alarm_law.AlarmCounts.{AreFew, AreKept};

/// A line has at most two alarms for each window of failures, and one for its end. More cells add alarms at the end.
pub fn alarm_law()
    ensures few { AreFew }
    ensures kept { AreKept }
{}
