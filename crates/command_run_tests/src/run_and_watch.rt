//! The program that runs threads by words, scripts, faults and numbers of threads. What is expected comes of
//! a model of the definitions, or is counted by hand. Rows stand behind functions, so that no proof sees
//! them.

use crate::run_program::wrong_run_of;
use command_rows::{Turns, beginning_row};

/// Words that are no command, and scripts that are faulty or don't fit their rings.
fn refused_rows() -> &'static str {
    "\
    ; => 2;;usage: vcat_run run WORKERS or watch WORKERS|\n\
    run; => 2;;usage: vcat_run run WORKERS or watch WORKERS|\n\
    run 0; => 2;;usage: vcat_run run WORKERS or watch WORKERS|\n\
    run 65; => 2;;usage: vcat_run run WORKERS or watch WORKERS|\n\
    run 2 3; => 2;;usage: vcat_run run WORKERS or watch WORKERS|\n\
    walk; => 2;;usage: vcat_run run WORKERS or watch WORKERS|\n\
    --help; => 2;;usage: vcat_run run WORKERS or watch WORKERS|\n\
    run 2;lines 1|ring 1| => 5;;fault: line 2: missing|help: the line delays has to stand here|\n\
    run 2;lines 1|delays 0|ring 1|lag 1|ticks 20|fail 0 10 20 10| => 6;;fault: slip line 0 window 0|\
        help: a slip of 10 needs a failure of at least 11 frames|"
}

/// Two lines, of which one leaves between two frames, and a command that is refused.
fn two_lines_row() -> &'static str {
    "lines 2|delays 0 3|ring 64|lag 4|ticks 200|add 0 0|add 0 1|add 0 1|frame 60 07*64|remove 90 1|frame 150 09*70| => \
    0+;got 07*64|got 09*70|refused 2 already in|total ticks 200 taken 200 frames 2 commands 3 refused 1 got 2|;"
}

/// Sessions whose alarms are told: one failure, one in which all containers but one vanish, two lines of which one
/// slips in the midst and the other at its end,
/// and none at all.
fn watched_rows() -> &'static str {
    "\
    watch 1;lines 1|delays 0|ring 64|lag 4|ticks 161|fail 0 100 101 0|add 0 0| => \
    0+;total ticks 161 taken 161 frames 0 commands 1 refused 0 got 0|;alarm 0 100 fails|alarm 0 101 returns|\
        alarm 0 161 ends|\n\
    watch 1;lines 1|delays 0|ring 40|lag 4|ticks 200|fail 0 100 140 39|add 0 0| => \
    0+;total ticks 200 taken 200 frames 0 commands 1 refused 0 got 0|;alarm 0 100 fails|alarm 0 101 returns|\
        alarm 0 161 ends|\n\
    watch 3;lines 2|delays 0 3|ring 64|lag 4|ticks 200|fail 0 20 30 2|fail 1 0 4 0|fail 1 190 200 9|add 0 0|\
        @2 add 0 1| => 0+;refused 2 already in|total ticks 200 taken 200 frames 0 commands 2 refused 1 got 0|\
        ;alarm 0 20 fails|alarm 0 28 returns|alarm 0 198 ends|alarm 1 0 fails|alarm 1 4 returns|\
        alarm 1 190 fails|alarm 1 191 ends|\n\
    watch 0; => 2;;usage: vcat_run run WORKERS or watch WORKERS|\n\
    watch 65; => 2;;usage: vcat_run run WORKERS or watch WORKERS|\n\
    watch; => 2;;usage: vcat_run run WORKERS or watch WORKERS|\n\
    watch 2;lines 1|ring 1| => 5;;fault: line 2: missing|help: the line delays has to stand here|"
}

/// Options: a member that goes out of use in a long failure, and one that is held in it; a line that fails at the
/// start, is restored too late, and is told of too late; a sink that stops at a damaged container, and one that goes
/// on.
fn option_rows() -> &'static str {
    "\
    watch 3;lines 2|delays 0 3|ring 8|lag 2|ticks 1400|fail 1 1000 1300 0|add 0 0|add 0 1|frame 1150 07*64|\
        frame 1200 07*64|frame 1210 07*64| => 0+;got 07*64|got 07*64|\
        total ticks 1400 taken 1400 frames 3 commands 2 refused 0 got 2|;alarm 0 1400 ends|alarm 1 1000 fails|\
        alarm 1 1300 returns|alarm 1 1400 ends|\n\
    watch 3;lines 2|delays 0 3|ring 8|lag 2|ticks 1400|holdoff 30|fail 1 1000 1300 0|add 0 0|add 0 1|frame 1150 07*64|\
        frame 1200 07*64|frame 1210 07*64| => 0+;total ticks 1400 taken 1400 frames 3 commands 2 refused 0 got 0|\
        ;alarm 0 1400 ends|alarm 1 1000 fails|alarm 1 1300 returns|alarm 1 1400 ends|\n\
    run 2;lines 1|delays 0|ring 1|lag 1|ticks 300|fail 0 0 16 0|add 0 0|@4 frame 0 00*64| => 0+;got 00*64|\
        @2 got 00*64|total ticks 300 taken 300 frames 4 commands 1 refused 0 got 3|;\n\
    run 2;lines 1|delays 0|ring 1|lag 1|ticks 300|restore 16|fail 0 0 16 0|add 0 0|frame 0 00*64|frame 0 00*64|\
        frame 0 00*64|frame 0 00*64| => 0+;total ticks 300 taken 300 frames 4 commands 1 refused 0 got 0|;\n\
    run 2;lines 1|delays 0|ring 1|lag 1|ticks 300|statuses 32|fail 0 0 16 0|add 0 0|frame 0 00*64|frame 0 00*64|\
        frame 0 00*64|frame 0 00*64| => 0+;total ticks 300 taken 300 frames 4 commands 1 refused 0 got 0|;\n\
    run 2;lines 2|delays 0 0|ring 1|lag 1|ticks 1000|fail 1 900 901 0|add 0 0|add 0 1|frame 914 00*64|frame 914 00*64|\
        frame 914 00*64|frame 914 00*64| => 0+;total ticks 1000 taken 1000 frames 4 commands 2 refused 0 got 0|;\n\
    run 2;lines 2|delays 0 0|ring 1|lag 1|ticks 1000|sink infers|fail 1 900 901 0|add 0 0|add 0 1|frame 914 00*64|\
        frame 914 00*64|frame 914 00*64|frame 914 00*64| => 0+;got 00*64|got 00*64|\
        total ticks 1000 taken 1000 frames 4 commands 2 refused 0 got 2|;\n\
    watch 3;lines 2|delays 0 0|ring 1|lag 1|ticks 1000|sink infers|fail 1 900 901 0|add 0 0|add 0 1|\
        @4 frame 914 00*64| => 0+;got 00*64|got 00*64|total ticks 1000 taken 1000 frames 4 commands 2 \
        refused 0 got 2|;alarm 0 1000 ends|alarm 1 900 fails|alarm 1 901 returns|alarm 1 1000 ends|"
}

/// Inputs that seven octets at a time are read in so many calls, and what is answered where no call fails. A
/// usage reads nothing.
fn read_rows() -> &'static str {
    "\
    run 2;lines 3|delays 0 0 0|ring 1|lag 1|ticks 700|add 0 0|add 0 1|add 0 2|remove 600 1| => \
    13 TIMES 3;;fault: read failed| THEN 0+;total ticks 700 taken 700 frames 0 commands 4 refused 0 got 0|;\n\
    run 2; => 3;;fault: read failed| THEN 5;;fault: line 1: missing|help: the line lines has to stand here|\n\
    run 2;x| => 2 TIMES 3;;fault: read failed| THEN 5;;fault: line 1: word|help: ~|\n\
    run 2;lines 2|delays 0 63|ring 63|lag 5|\
        ticks 1| => 7 TIMES 3;;fault: read failed| THEN 6;;fault: spread 63 0 0 63|\
        help: delays from 0 to 63 and slips of 0 need a ring of at least 64|\n\
    run; => 2;;usage: vcat_run run WORKERS or watch WORKERS|"
}

/// What is answered where the first call of `out` fails, the second, and so on; the last answer is that
/// without a fault. Three lines, of which one leaves, and three frames further apart than a burst goes, whose
/// lines each go out alone; and the first of two.
fn put_rows() -> &'static str {
    "\
    run 2;lines 3|delays 0 0 0|ring 1|lag 1|ticks 700|add 0 0|add 0 1|add 0 2|remove 600 1|frame 0 07*9600|\
        frame 200 08*9600|frame 400 09*9600| => \
    4+;;fault: write failed| THEN \
    4+;got 07*9600|;fault: write failed| THEN \
    4+;got 07*9600|got 08*9600|;fault: write failed| THEN \
    4+;got 07*9600|got 08*9600|got 09*9600|;fault: write failed| THEN \
    0+;got 07*9600|got 08*9600|got 09*9600|total ticks 700 taken 700 frames 3 commands 4 refused 0 got 3|;\n\
    run 2;lines 2|delays 0 3|ring 64|lag 4|ticks 200|add 0 0|@2 add 0 1|frame 60 07*64|remove 90 1|\
        frame 150 09*70| => 4+;;fault: write failed|"
}

/// Notes that can't be written: the status stays.
fn untold_rows() -> &'static str {
    "\
    run 2;x| => 5;;\n\
    watch 2;lines 1|delays 0|ring 1|lag 1|ticks 20|add 0 0| => \
    4+;total ticks 20 taken 20 frames 0 commands 1 refused 0 got 0|;fault: write failed| THEN \
    0+;total ticks 20 taken 20 frames 0 commands 1 refused 0 got 0|;alarm 0 20 ends|"
}

/// A frame and a command over two lines, of whose workers each one waits for all, and the sink until each
/// other one has moved. Until then there is room for 72 ticks, and the frame lands at the 60th.
fn meeting_row() -> &'static str {
    "run 2;lines 2|delays 0 3|ring 64|lag 4|ticks 200|add 0 0|frame 60 07*64| => \
    0+;got 07*64|total ticks 200 taken 200 frames 1 commands 1 refused 0 got 1|;"
}

#[test]
fn answers(rt: HostRuntime) {
    let rows = [
        (Turns::Whole, "", refused_rows()),
        (Turns::Whole, "run 1,run 2,run 3,run 64", two_lines_row()),
        (Turns::Whole, "", watched_rows()),
        (Turns::Whole, "", option_rows()),
        (Turns::Meeting, "", meeting_row()),
    ];
    assert_eq!(rt; wrong_run_of(&rt, rt.alloc(), &rows).as_str(), "");
}

#[test]
fn calls_that_fail_and_scripts_that_are_cut(rt: HostRuntime) {
    let rows = [
        (Turns::Takes, "", read_rows()),
        (Turns::Puts, "", put_rows()),
        (Turns::Tells, "", untold_rows()),
        (Turns::Beginnings, "run 2", beginning_row()),
    ];
    assert_eq!(rt; wrong_run_of(&rt, rt.alloc(), &rows).as_str(), "");
}
