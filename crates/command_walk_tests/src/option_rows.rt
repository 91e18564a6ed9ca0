//! Options of scripts: hold-off, wait to restore, and all statuses in 32 return packets. What is expected comes of a
//! model of the definitions. Rows stand behind functions, so that no proof sees them.

use command_rows::Turns;
use command_walk_rows::wrong_walk_of;

/// One failure that makes two packets in turn unreadable: held or not, and back by how long line 1 waits. Then one from
/// the start, after which the line has to be restored.
fn timer_rows() -> &'static str {
    "\
    trace;lines 2|delays 0 0|ring 1|lag 1|ticks 1700|holdoff 1|fail 1 1024 1048 0|add 0 0|\
        add 0 1| => packet 65 chg 0 act 1 back 7f/0 eos:0 dnu:1 THEN packet 81 chg 0 act 2 back 3f/0 norm:0 eos:1\n\
    trace;lines 2|delays 0 0|ring 1|lag 1|ticks 1700|holdoff 2|fail 1 1024 1048 0|add 0 0|\
        add 0 1| => packet 17 chg 0 act 2 back 3f/0 norm:0 eos:1 THEN packet 65 chg 0 act 2 back 3f/0 norm:0 eos:1 \
        THEN packet 81 chg 0 act 2 back 3f/0 norm:0 eos:1 THEN packet 105 chg 0 act 2 back ff/0 norm:0 eos:1\n\
    trace;lines 2|delays 0 0|ring 1|lag 1|ticks 2000|restore 14|fail 1 1024 1048 0|add 0 0|\
        add 0 1| => packet 80 chg 0 act 1 back ff/0 eos:0 dnu:1 THEN packet 81 chg 0 act 2 back 3f/0 norm:0 eos:1\n\
    trace;lines 2|delays 0 0|ring 1|lag 1|ticks 2000|restore 15|fail 1 1024 1048 0|add 0 0|\
        add 0 1| => packet 96 chg 0 act 1 back ff/0 eos:0 dnu:1 THEN packet 97 chg 0 act 2 back 3f/0 norm:0 eos:1\n\
    trace;lines 2|delays 0 0|ring 1|lag 1|ticks 2000|restore 30|fail 1 1024 1048 0|add 0 0|\
        add 0 1| => packet 97 chg 0 act 2 back 3f/0 norm:0 eos:1\n\
    trace;lines 2|delays 0 0|ring 1|lag 1|ticks 2000|restore 31|fail 1 1024 1048 0|add 0 0|\
        add 0 1| => packet 112 chg 0 act 1 back ff/0 eos:0 dnu:1 THEN packet 113 chg 0 act 2 back 3f/0 norm:0 eos:1\n\
    trace;lines 2|delays 0 0|ring 1|lag 1|ticks 2000|restore 46|fail 1 1024 1048 0|add 0 0|\
        add 0 1| => packet 113 chg 0 act 2 back 3f/0 norm:0 eos:1\n\
    trace;lines 2|delays 0 0|ring 1|lag 1|ticks 2000|restore 47|fail 1 1024 1048 0|add 0 0|\
        add 0 1| => packet 113 chg 0 act 1 back 7f/0 eos:0 dnu:1 THEN packet 124 chg 0 act 1 back ff/0 eos:0 dnu:1\n\
    trace;lines 2|delays 0 0|ring 1|lag 1|ticks 1000|restore 40|fail 1 0 24 0|add 0 0|\
        add 0 1| => packet 48 chg 0 act 1 back ff/0 eos:0 add:1 THEN packet 49 chg 0 act 2 back 3f/0 norm:0 eos:1\n\
    trace;lines 2|delays 0 0|ring 1|lag 1|ticks 1000|restore 0|fail 1 0 24 0|add 0 0|\
        add 0 1| => packet 16 chg 0 act 1 back ff/0 eos:0 add:1 THEN packet 17 chg 0 act 2 back 3f/0 norm:0 eos:1"
}

/// A member that fails five times: it goes out at the first failure that the phase of the reports shows, stays out
/// while it waits to be restored, or is held throughout.
fn flapping_rows() -> &'static str {
    "\
    trace;lines 2|delays 0 0|ring 1|lag 1|ticks 4000|fail 1 1000 1100 0|fail 1 1400 1500 0|fail 1 1800 1900 0|\
        fail 1 2200 2300 0|fail 1 2600 2700 0|add 0 0|\
        add 0 1| => packet 65 chg 0 act 1 back 7f/0 eos:0 dnu:1 THEN packet 81 chg 0 act 2 back 3f/0 norm:0 eos:1 \
        THEN packet 113 chg 0 act 1 back 7f/0 eos:0 dnu:1 THEN packet 129 chg 0 act 2 back 3f/0 norm:0 eos:1\n\
    trace;lines 2|delays 0 0|ring 1|lag 1|ticks 4000|restore 18|fail 1 1000 1100 0|fail 1 1400 1500 0|\
        fail 1 1800 1900 0|fail 1 2200 2300 0|fail 1 2600 2700 0|add 0 0|\
        add 0 1| => packet 65 chg 0 act 1 back 7f/0 eos:0 dnu:1 THEN packet 192 chg 0 act 1 back ff/0 eos:0 dnu:1 \
        THEN packet 193 chg 0 act 2 back 3f/0 norm:0 eos:1\n\
    trace;lines 2|delays 0 0|ring 1|lag 1|ticks 4000|holdoff 8|fail 1 1000 1100 0|fail 1 1400 1500 0|\
        fail 1 1800 1900 0|fail 1 2200 2300 0|fail 1 2600 2700 0|add 0 0|\
        add 0 1| => packet 65 chg 0 act 2 back 3f/0 norm:0 eos:1 THEN packet 113 chg 0 act 2 back 3f/0 norm:0 eos:1 \
        THEN packet 248 chg 0 act 2 back ff/0 norm:0 eos:1"
}

/// And what that costs: 480 rows, 64, and 640.
fn cost_rows() -> &'static str {
    "\
    fates;lines 2|delays 0 0|ring 1|lag 1|ticks 4000|fail 1 1000 1100 0|fail 1 1400 1500 0|fail 1 1800 1900 0|\
        fail 1 2200 2300 0|fail 1 2600 2700 0|add 0 0|add 0 1| => 0+;spoiled 1000 1016 container 1|\
        spoiled 1016 1064 packet 1|spoiled 1400 1416 container 1|spoiled 1416 1528 packet 1|\
        spoiled 1800 1816 container 1|spoiled 1816 1832 packet 1|spoiled 2200 2216 container 1|\
        spoiled 2216 2328 packet 1|spoiled 2600 2616 container 1|spoiled 2616 2728 packet 1|\
        segment 1064 1400 true 1064|segment 1528 1800 true 1528|segment 1832 2200 true 1832|\
        segment 2328 2600 true 2328|segment 2728 4000 true 2728|\
        fates ticks 4000 taken 4000 frames 0 got 0 lost 0 waits 0 refused 0 starts true|;\n\
    fates;lines 2|delays 0 0|ring 1|lag 1|ticks 4000|restore 18|fail 1 1000 1100 0|fail 1 1400 1500 0|\
        fail 1 1800 1900 0|fail 1 2200 2300 0|fail 1 2600 2700 0|add 0 0|add 0 1| => 0+;spoiled 1000 1016 container 1|\
        spoiled 1016 1064 packet 1|segment 1064 4000 true 1064|\
        fates ticks 4000 taken 4000 frames 0 got 0 lost 0 waits 0 refused 0 starts true|;\n\
    fates;lines 2|delays 0 0|ring 1|lag 1|ticks 4000|holdoff 8|fail 1 1000 1100 0|fail 1 1400 1500 0|\
        fail 1 1800 1900 0|fail 1 2200 2300 0|fail 1 2600 2700 0|add 0 0|add 0 1| => 0+;spoiled 1000 1016 container 1|\
        spoiled 1016 1128 packet 1|spoiled 1400 1416 container 1|spoiled 1416 1528 packet 1|\
        spoiled 1800 1816 container 1|spoiled 1816 1928 packet 1|spoiled 2200 2216 container 1|\
        spoiled 2216 2328 packet 1|spoiled 2600 2616 container 1|spoiled 2616 2728 packet 1|\
        segment 1128 1400 true 1128|segment 1528 1800 true 1528|segment 1928 2200 true 1928|\
        segment 2328 2600 true 2328|segment 2728 4000 true 2728|\
        fates ticks 4000 taken 4000 frames 0 got 0 lost 0 waits 0 refused 0 starts true|;"
}

/// A member that is held as long as nothing changes, and goes out where a line is added while it can't be read.
fn change_rows() -> &'static str {
    "\
    trace;lines 3|delays 0 0 0|ring 1|lag 1|ticks 1500|holdoff 20|fail 1 1000 1060 0|add 0 0|\
        add 0 1| => packet 17 chg 0 act 2 back 3f/0 norm:0 eos:1 idle:255 THEN packet 65 chg 0 act 2 back 3f/0 norm:0 \
        eos:1 idle:255 THEN packet 81 chg 0 act 2 back 3f/0 norm:0 eos:1 idle:255 THEN packet 92 chg 0 act 2 back \
        ff/0 norm:0 eos:1 idle:255\n\
    trace;lines 3|delays 0 0 0|ring 1|lag 1|ticks 1500|holdoff 20|fail 1 1000 1060 0|add 0 0|add 0 1|\
        add 1000 2| => packet 62 chg 1 act 2 back ff/0 norm:0 eos:1 add:2 THEN packet 65 chg 1 act 2 back 5f/1 norm:0 \
        dnu:1 eos:2 THEN packet 81 chg 1 act 3 back 1f/1 norm:0 norm:1 eos:2"
}

/// Statuses that take 64 ms, alone and with both timers.
fn statuses_rows() -> &'static str {
    "\
    trace;lines 2|delays 0 0|ring 1|lag 1|ticks 1200|statuses 32|add 0 0|\
        add 0 1| => packet 17 chg 0 act 1 back ff/0 eos:0 add:1 THEN packet 32 chg 0 act 1 back ff/0 eos:0 add:1 THEN \
        packet 33 chg 0 act 2 back 3f/0 norm:0 eos:1\n\
    trace;lines 2|delays 0 0|ring 1|lag 1|ticks 1200|statuses 16|add 0 0|\
        add 0 1| => packet 16 chg 0 act 1 back ff/0 eos:0 add:1 THEN packet 17 chg 0 act 2 back 3f/0 norm:0 eos:1\n\
    trace;lines 2|delays 0 0|ring 1|lag 1|ticks 2600|statuses 32|restore 5|holdoff 1|fail 1 1024 1048 0|add 0 0|\
        add 0 1| => packet 65 chg 0 act 1 back 7f/0 eos:0 dnu:1 THEN packet 66 chg 0 act 1 back ff/0 eos:0 dnu:1 THEN \
        packet 96 chg 0 act 1 back ff/0 eos:0 dnu:1 THEN packet 97 chg 0 act 2 back 3f/0 norm:0 eos:1 THEN packet 128 \
        chg 0 act 2 back ff/0 norm:0 eos:1 THEN packet 129 chg 0 act 2 back 3f/0 norm:0 eos:1"
}

/// Option lines that may stand so, and the first fault of those that may not.
fn faulty_rows() -> &'static str {
    "\
    walk;lines 2|delays 0 0|ring 1|lag 1|ticks 9|holdoff 0|restore 0|\
        statuses 16| => 0+;total ticks 9 taken 9 frames 0 commands 0 refused 0 got 0|;\n\
    walk;lines 2|delays 0 0|ring 1|lag 1|ticks 9|statuses 32|holdoff 5000|\
        restore 62500| => 0+;total ticks 9 taken 9 frames 0 commands 0 refused 0 got 0|;\n\
    walk;lines 2|delays 0 0|ring 1|lag 1|ticks 9|statuses 016| => 5;;fault: line 6: word|help: word 2 is 16 or 32|\n\
    walk;lines 2|delays 0 0|ring 1|lag 1|ticks 9|statuses x| => 5;;fault: line 6: word|help: word 2 is 16 or 32|\n\
    walk;lines 2|delays 0 0|ring 1|lag 1|ticks 9|statuses| => 5;;fault: line 6: word|\
        help: statuses takes 1 word, and 0 follow|\n\
    walk;lines 2|delays 0 0|ring 1|lag 1|ticks 9|holdoff 5001| => 5;;fault: line 6: range|\
        help: word 2 is from 0 to 5000|\n\
    walk;lines 2|delays 0 0|ring 1|lag 1|ticks 9|holdoff 99999999999| => 5;;fault: line 6: number|\
        help: word 2 is a number of one to ten digits|\n\
    walk;lines 2|delays 0 0|ring 1|lag 1|ticks 9|restore 62501| => 5;;fault: line 6: range|\
        help: word 2 is from 0 to 62500|\n\
    walk;lines 2|delays 0 0|ring 1|lag 1|ticks 9|restore 1 2| => 5;;fault: line 6: word|\
        help: restore takes 1 word, and 2 follow|\n\
    walk;lines 2|delays 0 0|ring 1|lag 1|ticks 9|holdoff 3|restore 4|holdoff 3| => 5;;fault: line 8: range|\
        help: there is a holdoff line already|\n\
    walk;lines 2|delays 0 0|ring 1|lag 1|ticks 9|holdoff 3|holdoff 5001| => 5;;fault: line 7: range|\
        help: word 2 is from 0 to 5000|\n\
    walk;lines 2|delays 0 0|ring 1|lag 1|ticks 9|restore 4|restore 4| => 5;;fault: line 7: range|\
        help: there is a restore line already|\n\
    walk;lines 2|delays 0 0|ring 1|lag 1|ticks 9|statuses 32|statuses 16| => 5;;fault: line 7: range|\
        help: there is a statuses line already|\n\
    walk;lines 2|delays 0 0|ring 1|lag 1|ticks 9|statuses 32|statuses 17| => 5;;fault: line 7: word|\
        help: word 2 is 16 or 32|\n\
    walk;lines 2|delays 0 0|ring 1|lag 1|ticks 9|lost 0 1|holdoff 3| => 5;;fault: line 7: order|\
        help: configuration stands before fail and lost|\n\
    walk;lines 2|delays 0 0|ring 1|lag 1|ticks 9|fail 0 1 2 0|statuses 16| => 5;;fault: line 7: order|\
        help: configuration stands before fail and lost|\n\
    walk;lines 2|delays 0 0|ring 1|lag 1|ticks 9|add 0 0|restore 3| => 5;;fault: line 7: order|\
        help: configuration stands before frame, stream, add and remove|\n\
    walk;lines 2|delays 0 0|ring 1|lag 1|ticks 9|drain|holdoff x| => 5;;fault: line 7: order|\
        help: configuration stands before event lines|\n\
    walk;lines 2|delays 0 0|ring 1|lag 1|ticks 9|holdoff 3|ring 1| => 5;;fault: line 7: order|\
        help: the line ring stands already in line 3|\n\
    walk;lines 2|delays 0 0|ring 1|lag 1|ticks 9|restore 3|container vc3| => 5;;fault: line 7: order|\
        help: the line container stands before the line lines|\n\
    walk;lines 2|delays 0 0|ring 1|lag 1|ticks 9|holdoff 3|fail 0 1 2 0|ring 1| => 5;;fault: line 8: order|\
        help: the line ring stands already in line 3|\n\
    walk;lines 2|delays 0 0|ring 1|lag 1|ticks 9|holdoff 1|fail 0 1 2 0|holdoff 3| => 5;;fault: line 8: order|\
        help: the line holdoff stands already in line 6|\n\
    walk;lines 2|delays 0 0|ring 1|lag 1|ticks 9|holdoff 1|restore 1|add 0 0|restore x| => 5;;fault: line 9: order|\
        help: the line restore stands already in line 7|\n\
    walk;lines 2|delays 0 0|ring 1|lag 1|ticks 9|holdoff 1|fail 0 1 2 0|restore 3| => 5;;fault: line 8: order|\
        help: configuration stands before fail and lost|\n\
    walk;lines 2|delays 0 0|ring 1|lag 1|ticks 9|statuses 32|drain|statuses| => 5;;fault: line 8: order|\
        help: the line statuses stands already in line 6|\n\
    walk;lines 2|holdoff 3| => 5;;fault: line 2: missing|help: the line delays has to stand here|\n\
    walk;lines 2|delays 0 0|ring 1|lag 1|statuses 16| => 5;;fault: line 5: missing|\
        help: the line ticks has to stand here|\n\
    walk;restore 1| => 5;;fault: line 1: missing|help: the line lines has to stand here|"
}

/// Two ways, each with each of four options: the way without frames got is the one whose own option says so.
fn paired_rows() -> &'static str {
    "\
    pair;lines 1|delays 0|ring 1|lag 1|ticks 400|fail 0 0 16 0|add 0 0|@4 frame 0 00*64|other|lines 1|\
        delays 0|ring 1|lag 1|ticks 400|fail 0 0 16 0|add 0 0|@4 frame 0 00*64| => 0;got 00*64|@2 got 00*64|\
        total ticks 400 taken 400 frames 4 commands 1 refused 0 got 3|;got 00*64|@2 got 00*64|\
        total ticks 400 taken 400 frames 4 commands 1 refused 0 got 3|\n\
    pair;lines 1|delays 0|ring 1|lag 1|ticks 400|fail 0 0 16 0|add 0 0|@4 frame 0 00*64|other|lines 1|\
        delays 0|ring 1|lag 1|ticks 400|restore 15|fail 0 0 16 0|add 0 0|@4 frame 0 00*64| => 0;got 00*64|\
        @2 got 00*64|total ticks 400 taken 400 frames 4 commands 1 refused 0 got 3|;got 00*64|@2 got 00*64|\
        total ticks 400 taken 400 frames 4 commands 1 refused 0 got 3|\n\
    pair;lines 1|delays 0|ring 1|lag 1|ticks 400|fail 0 0 16 0|add 0 0|@4 frame 0 00*64|other|lines 1|\
        delays 0|ring 1|lag 1|ticks 400|restore 16|fail 0 0 16 0|add 0 0|@4 frame 0 00*64| => 0;got 00*64|\
        @2 got 00*64|total ticks 400 taken 400 frames 4 commands 1 refused 0 got 3|\
        ;total ticks 400 taken 400 frames 4 commands 1 refused 0 got 0|\n\
    pair;lines 1|delays 0|ring 1|lag 1|ticks 400|fail 0 0 16 0|add 0 0|@4 frame 0 00*64|other|lines 1|\
        delays 0|ring 1|lag 1|ticks 400|statuses 32|fail 0 0 16 0|add 0 0|@4 frame 0 00*64| => 0;got 00*64|\
        @2 got 00*64|total ticks 400 taken 400 frames 4 commands 1 refused 0 got 3|\
        ;total ticks 400 taken 400 frames 4 commands 1 refused 0 got 0|\n\
    pair;lines 1|delays 0|ring 1|lag 1|ticks 400|restore 15|fail 0 0 16 0|add 0 0|@4 frame 0 00*64|other|\
        lines 1|delays 0|ring 1|lag 1|ticks 400|fail 0 0 16 0|add 0 0|@4 frame 0 00*64| => 0;got 00*64|\
        @2 got 00*64|total ticks 400 taken 400 frames 4 commands 1 refused 0 got 3|;got 00*64|@2 got 00*64|\
        total ticks 400 taken 400 frames 4 commands 1 refused 0 got 3|\n\
    pair;lines 1|delays 0|ring 1|lag 1|ticks 400|restore 15|fail 0 0 16 0|add 0 0|@4 frame 0 00*64|other|\
        lines 1|delays 0|ring 1|lag 1|ticks 400|restore 15|fail 0 0 16 0|add 0 0|\
        @4 frame 0 00*64| => 0;got 00*64|@2 got 00*64|total ticks 400 taken 400 frames 4 commands 1 refused \
        0 got 3|;got 00*64|@2 got 00*64|total ticks 400 taken 400 frames 4 commands 1 refused 0 got 3|\n\
    pair;lines 1|delays 0|ring 1|lag 1|ticks 400|restore 15|fail 0 0 16 0|add 0 0|@4 frame 0 00*64|other|\
        lines 1|delays 0|ring 1|lag 1|ticks 400|restore 16|fail 0 0 16 0|add 0 0|\
        @4 frame 0 00*64| => 0;got 00*64|@2 got 00*64|total ticks 400 taken 400 frames 4 commands 1 refused \
        0 got 3|;total ticks 400 taken 400 frames 4 commands 1 refused 0 got 0|\n\
    pair;lines 1|delays 0|ring 1|lag 1|ticks 400|restore 15|fail 0 0 16 0|add 0 0|@4 frame 0 00*64|other|\
        lines 1|delays 0|ring 1|lag 1|ticks 400|statuses 32|fail 0 0 16 0|add 0 0|\
        @4 frame 0 00*64| => 0;got 00*64|@2 got 00*64|total ticks 400 taken 400 frames 4 commands 1 refused \
        0 got 3|;total ticks 400 taken 400 frames 4 commands 1 refused 0 got 0|\n\
    pair;lines 1|delays 0|ring 1|lag 1|ticks 400|restore 16|fail 0 0 16 0|add 0 0|frame 0 00*64|frame 0 00*64|\
        frame 0 00*64|frame 0 00*64|other|lines 1|delays 0|ring 1|lag 1|ticks 400|fail 0 0 16 0|add 0 0|frame 0 00*64|\
        frame 0 00*64|frame 0 00*64|frame 0 00*64| => 0;total ticks 400 taken 400 frames 4 commands 1 refused 0 got 0|\
        ;got 00*64|got 00*64|got 00*64|total ticks 400 taken 400 frames 4 commands 1 refused 0 got 3|\n\
    pair;lines 1|delays 0|ring 1|lag 1|ticks 400|restore 16|fail 0 0 16 0|add 0 0|@4 frame 0 00*64|other|\
        lines 1|delays 0|ring 1|lag 1|ticks 400|restore 15|fail 0 0 16 0|add 0 0|\
        @4 frame 0 00*64| => 0;total ticks 400 taken 400 frames 4 commands 1 refused 0 got 0|;got 00*64|\
        @2 got 00*64|total ticks 400 taken 400 frames 4 commands 1 refused 0 got 3|\n\
    pair;lines 1|delays 0|ring 1|lag 1|ticks 400|restore 16|fail 0 0 16 0|add 0 0|@4 frame 0 00*64|other|\
        lines 1|delays 0|ring 1|lag 1|ticks 400|restore 16|fail 0 0 16 0|add 0 0|\
        @4 frame 0 00*64| => 0;total ticks 400 taken 400 frames 4 commands 1 refused 0 got 0|\
        ;total ticks 400 taken 400 frames 4 commands 1 refused 0 got 0|\n\
    pair;lines 1|delays 0|ring 1|lag 1|ticks 400|restore 16|fail 0 0 16 0|add 0 0|@4 frame 0 00*64|other|\
        lines 1|delays 0|ring 1|lag 1|ticks 400|statuses 32|fail 0 0 16 0|add 0 0|\
        @4 frame 0 00*64| => 0;total ticks 400 taken 400 frames 4 commands 1 refused 0 got 0|\
        ;total ticks 400 taken 400 frames 4 commands 1 refused 0 got 0|\n\
    pair;lines 1|delays 0|ring 1|lag 1|ticks 400|statuses 32|fail 0 0 16 0|add 0 0|frame 0 00*64|frame 0 00*64|\
        frame 0 00*64|frame 0 00*64|other|lines 1|delays 0|ring 1|lag 1|ticks 400|fail 0 0 16 0|add 0 0|frame 0 00*64|\
        frame 0 00*64|frame 0 00*64|frame 0 00*64| => 0;total ticks 400 taken 400 frames 4 commands 1 refused 0 got 0|\
        ;got 00*64|got 00*64|got 00*64|total ticks 400 taken 400 frames 4 commands 1 refused 0 got 3|\n\
    pair;lines 1|delays 0|ring 1|lag 1|ticks 400|statuses 32|fail 0 0 16 0|add 0 0|@4 frame 0 00*64|other|\
        lines 1|delays 0|ring 1|lag 1|ticks 400|restore 15|fail 0 0 16 0|add 0 0|\
        @4 frame 0 00*64| => 0;total ticks 400 taken 400 frames 4 commands 1 refused 0 got 0|;got 00*64|\
        @2 got 00*64|total ticks 400 taken 400 frames 4 commands 1 refused 0 got 3|\n\
    pair;lines 1|delays 0|ring 1|lag 1|ticks 400|statuses 32|fail 0 0 16 0|add 0 0|@4 frame 0 00*64|other|\
        lines 1|delays 0|ring 1|lag 1|ticks 400|restore 16|fail 0 0 16 0|add 0 0|\
        @4 frame 0 00*64| => 0;total ticks 400 taken 400 frames 4 commands 1 refused 0 got 0|\
        ;total ticks 400 taken 400 frames 4 commands 1 refused 0 got 0|\n\
    pair;lines 1|delays 0|ring 1|lag 1|ticks 400|statuses 32|fail 0 0 16 0|add 0 0|@4 frame 0 00*64|other|\
        lines 1|delays 0|ring 1|lag 1|ticks 400|statuses 32|fail 0 0 16 0|add 0 0|\
        @4 frame 0 00*64| => 0;total ticks 400 taken 400 frames 4 commands 1 refused 0 got 0|\
        ;total ticks 400 taken 400 frames 4 commands 1 refused 0 got 0|"
}

#[test]
fn options(rt: HostRuntime) {
    let rows = [
        (Turns::Lines, "", timer_rows()),
        (Turns::Lines, "", flapping_rows()),
        (Turns::Whole, "", cost_rows()),
        (Turns::Lines, "", change_rows()),
        (Turns::Lines, "", statuses_rows()),
        (Turns::Whole, "", faulty_rows()),
        (Turns::Whole, "", paired_rows()),
    ];
    assert_eq!(rt; wrong_walk_of(rt.alloc(), &rows).as_str(), "");
}
