//! The option `sink` of scripts: which rows are spoiled where the sink goes on, in a walk and in each way of a pair,
//! and its faults. What is expected comes of a model of the definitions. Rows stand behind functions, so that no proof
//! sees them.

use command_rows::Turns;
use command_walk_rows::wrong_walk_of;

/// One damaged container of one line, where the sink stops and where it goes on; the same of both lines, so that none
/// is read; and a failure of 3 ms. Then a member that is out and silent, which keeps the sink from going on, and a line
/// that never said a word, which doesn't; changes since line 2 or line 1 was read, and one before that. Last with other
/// options.
fn inferred_rows() -> &'static str {
    "\
    fates;lines 2|delays 0 0|ring 1|lag 1|ticks 1000|fail 1 900 901 0|add 0 0|\
        add 0 1| => 0+;spoiled 900 904 container 1|spoiled 904 936 packet 1|segment 936 1000 true 936|\
        fates ticks 1000 taken 1000 frames 0 got 0 lost 0 waits 0 refused 0 starts true|;\n\
    fates;lines 2|delays 0 0|ring 1|lag 1|ticks 1000|sink stops|fail 1 900 901 0|add 0 0|\
        add 0 1| => 0+;spoiled 900 904 container 1|spoiled 904 936 packet 1|segment 936 1000 true 936|\
        fates ticks 1000 taken 1000 frames 0 got 0 lost 0 waits 0 refused 0 starts true|;\n\
    fates;lines 2|delays 0 0|ring 1|lag 1|ticks 1000|sink infers|fail 1 900 901 0|add 0 0|\
        add 0 1| => 0+;spoiled 900 914 container 1|segment 914 1000 true 914|\
        fates ticks 1000 taken 1000 frames 0 got 0 lost 0 waits 0 refused 0 starts true|;\n\
    fates;lines 2|delays 0 0|ring 1|lag 1|ticks 1000|fail 0 900 901 0|fail 1 900 901 0|add 0 0|\
        add 0 1| => 0+;spoiled 900 904 container 0|spoiled 904 936 packet|segment 936 1000 true 936|\
        fates ticks 1000 taken 1000 frames 0 got 0 lost 0 waits 0 refused 0 starts true|;\n\
    fates;lines 2|delays 0 0|ring 1|lag 1|ticks 1000|sink stops|fail 0 900 901 0|fail 1 900 901 0|add 0 0|\
        add 0 1| => 0+;spoiled 900 904 container 0|spoiled 904 936 packet|segment 936 1000 true 936|\
        fates ticks 1000 taken 1000 frames 0 got 0 lost 0 waits 0 refused 0 starts true|;\n\
    fates;lines 2|delays 0 0|ring 1|lag 1|ticks 1000|sink infers|fail 0 900 901 0|fail 1 900 901 0|add 0 0|\
        add 0 1| => 0+;spoiled 900 904 container 0|spoiled 904 936 packet|segment 936 1000 true 936|\
        fates ticks 1000 taken 1000 frames 0 got 0 lost 0 waits 0 refused 0 starts true|;\n\
    fates;lines 2|delays 0 0|ring 1|lag 1|ticks 1700|sink infers|fail 1 1024 1048 0|add 0 0|\
        add 0 1| => 0+;spoiled 1024 1058 container 1|segment 1058 1700 true 1058|\
        fates ticks 1700 taken 1700 frames 0 got 0 lost 0 waits 0 refused 0 starts true|;\n\
    fates;lines 3|delays 0 0 0|ring 1|lag 1|ticks 1400|sink infers|fail 1 1200 1201 0|fail 2 600 1400 0|add 0 0|\
        add 0 1|add 0 2| => 0+;spoiled 600 808 container 2|spoiled 1200 1208 container 1|spoiled 1208 1240 packet 1|\
        segment 808 1200 true 808|segment 1240 1400 true 1240|\
        fates ticks 1400 taken 1400 frames 0 got 0 lost 0 waits 0 refused 0 starts true|;\n\
    fates;lines 3|delays 0 0 0|ring 1|lag 1|ticks 1400|sink infers|fail 1 1200 1201 0|fail 2 0 1400 0|add 0 0|\
        add 0 1| => 0+;spoiled 1200 1218 container 1|segment 1218 1400 true 1218|\
        fates ticks 1400 taken 1400 frames 0 got 0 lost 0 waits 0 refused 0 starts true|;\n\
    fates;lines 3|delays 0 0 0|ring 1|lag 1|ticks 1000|sink infers|fail 2 680 704 0|add 0 0|add 0 2|add 0 1|\
        remove 672 0| => 0+;spoiled 680 696 container 2|spoiled 696 728 packet 2|segment 728 1000 true 728|\
        fates ticks 1000 taken 1000 frames 0 got 0 lost 0 waits 0 refused 0 starts true|;\n\
    fates;lines 3|delays 0 0 0|ring 1|lag 1|ticks 1100|sink infers|fail 1 880 881 0|add 0 0|add 0 1|\
        add 864 2| => 0+;spoiled 880 888 container 1|spoiled 888 920 packet 1|segment 920 1100 true 920|\
        fates ticks 1100 taken 1100 frames 0 got 0 lost 0 waits 0 refused 0 starts true|;\n\
    fates;lines 3|delays 0 0 0|ring 1|lag 1|ticks 1100|sink infers|fail 1 880 881 0|add 0 0|add 0 1|\
        add 856 2| => 0+;spoiled 880 898 container 1|segment 898 1100 true 898|\
        fates ticks 1100 taken 1100 frames 0 got 0 lost 0 waits 0 refused 0 starts true|;\n\
    fates;lines 2|delays 0 0|ring 1|lag 1|ticks 1700|holdoff 2|sink infers|fail 1 1024 1048 0|add 0 0|\
        add 0 1| => 0+;spoiled 1024 1058 container 1|segment 1058 1700 true 1058|\
        fates ticks 1700 taken 1700 frames 0 got 0 lost 0 waits 0 refused 0 starts true|;\n\
    fates;lines 2|delays 0 0|ring 1|lag 1|ticks 2600|statuses 32|restore 5|sink infers|holdoff 1|fail 1 1024 1048 0|\
        add 0 0|add 0 1| => 0+;spoiled 1024 1058 container 1|segment 1058 2600 true 1058|\
        fates ticks 2600 taken 2600 frames 0 got 0 lost 0 waits 0 refused 0 starts true|;"
}

/// A member goes out and comes back as it does where the sink stops. The SQ that line 2 said last is that of line 1 by
/// then.
fn inferred_steps() -> &'static str {
    "\
    trace;lines 2|delays 0 0|ring 1|lag 1|ticks 1700|sink infers|fail 1 1024 1048 0|add 0 0|\
        add 0 1| => packet 65 chg 0 act 1 back 7f/0 eos:0 dnu:1 THEN packet 81 chg 0 act 2 back 3f/0 norm:0 eos:1\n\
    trace;lines 3|delays 0 0 0|ring 1|lag 1|ticks 1000|sink infers|fail 2 680 704 0|add 0 0|add 0 2|add 0 1|\
        remove 672 0| => packet 41 chg 1 act 3 back ff/1 norm:0 eos:2 norm:1 THEN packet 42 chg 0 act 2 back ff/1 \
        idle:255 eos:1 norm:0"
}

/// Lines on the sink that may stand so, and the first fault of those that may not.
fn faulty_rows() -> &'static str {
    "\
    walk;lines 2|delays 0 0|ring 1|lag 1|ticks 9|\
        sink stops| => 0+;total ticks 9 taken 9 frames 0 commands 0 refused 0 got 0|;\n\
    walk;lines 2|delays 0 0|ring 1|lag 1|ticks 9|\
        sink infers| => 0+;total ticks 9 taken 9 frames 0 commands 0 refused 0 got 0|;\n\
    walk;lines 2|delays 0 0|ring 1|lag 1|ticks 9|statuses 32|sink infers|restore 62500|\
        holdoff 5000| => 0+;total ticks 9 taken 9 frames 0 commands 0 refused 0 got 0|;\n\
    walk;lines 2|delays 0 0|ring 1|lag 1|ticks 9|holdoff 0|restore 0|statuses 16|\
        sink stops| => 0+;total ticks 9 taken 9 frames 0 commands 0 refused 0 got 0|;\n\
    walk;lines 2|delays 0 0|ring 1|lag 1|ticks 9|sink goes| => 5;;fault: line 6: word|\
        help: word 2 is stops or infers|\n\
    walk;lines 2|delays 0 0|ring 1|lag 1|ticks 9|sink Stops| => 5;;fault: line 6: word|\
        help: word 2 is stops or infers|\n\
    walk;lines 2|delays 0 0|ring 1|lag 1|ticks 9|sink| => 5;;fault: line 6: word|\
        help: sink takes 1 word, and 0 follow|\n\
    walk;lines 2|delays 0 0|ring 1|lag 1|ticks 9|sink stops infers| => 5;;fault: line 6: word|\
        help: sink takes 1 word, and 2 follow|\n\
    walk;lines 2|delays 0 0|ring 1|lag 1|ticks 9|sink infers|sink stops| => 5;;fault: line 7: range|\
        help: there is a sink line already|\n\
    walk;lines 2|delays 0 0|ring 1|lag 1|ticks 9|sink stops|holdoff 3|sink stops| => 5;;fault: line 8: range|\
        help: there is a sink line already|\n\
    walk;lines 2|delays 0 0|ring 1|lag 1|ticks 9|sink infers|sink goes| => 5;;fault: line 7: word|\
        help: word 2 is stops or infers|\n\
    walk;lines 2|delays 0 0|ring 1|lag 1|ticks 9|lost 0 1|sink infers| => 5;;fault: line 7: order|\
        help: configuration stands before fail and lost|\n\
    walk;lines 2|delays 0 0|ring 1|lag 1|ticks 9|add 0 0|sink goes| => 5;;fault: line 7: order|\
        help: configuration stands before frame, stream, add and remove|\n\
    walk;lines 2|delays 0 0|ring 1|lag 1|ticks 9|drain|sink stops| => 5;;fault: line 7: order|\
        help: configuration stands before event lines|\n\
    walk;lines 2|delays 0 0|ring 1|lag 1|ticks 9|sink stops|ticks 9| => 5;;fault: line 7: order|\
        help: the line ticks stands already in line 5|\n\
    walk;lines 2|delays 0 0|ring 1|lag 1|ticks 9|sink stops|lost 0 1|sink infers| => 5;;fault: line 8: order|\
        help: the line sink stands already in line 6|\n\
    walk;lines 2|sink infers| => 5;;fault: line 2: missing|help: the line delays has to stand here|\n\
    walk;lines 2|delays 0 0|ring 1|lag 1|sink stops|ticks 9| => 5;;fault: line 5: missing|\
        help: the line ticks has to stand here|"
}

/// Two ways, of each of which the sink goes on or doesn't: the way with frames got is the one whose own option says so.
fn paired_rows() -> &'static str {
    "\
    pair;lines 2|delays 0 0|ring 1|lag 1|ticks 1000|fail 1 900 901 0|add 0 0|add 0 1|@4 frame 914 00*64|\
        other|lines 2|delays 0 0|ring 1|lag 1|ticks 1000|fail 1 900 901 0|add 0 0|add 0 1|\
        @4 frame 914 00*64| => 0;total ticks 1000 taken 1000 frames 4 commands 2 refused 0 got 0|\
        ;total ticks 1000 taken 1000 frames 4 commands 2 refused 0 got 0|\n\
    pair;lines 2|delays 0 0|ring 1|lag 1|ticks 1000|fail 1 900 901 0|add 0 0|add 0 1|@4 frame 914 00*64|\
        other|lines 2|delays 0 0|ring 1|lag 1|ticks 1000|sink infers|fail 1 900 901 0|add 0 0|add 0 1|\
        @4 frame 914 00*64| => 0;total ticks 1000 taken 1000 frames 4 commands 2 refused 0 got 0|;got 00*64|\
        got 00*64|total ticks 1000 taken 1000 frames 4 commands 2 refused 0 got 2|\n\
    pair;lines 2|delays 0 0|ring 1|lag 1|ticks 1000|sink infers|fail 1 900 901 0|add 0 0|add 0 1|\
        @4 frame 914 00*64|other|lines 2|delays 0 0|ring 1|lag 1|ticks 1000|fail 1 900 901 0|add 0 0|add 0 1|\
        @4 frame 914 00*64| => 0;got 00*64|got 00*64|total ticks 1000 taken 1000 frames 4 commands 2 refused \
        0 got 2|;total ticks 1000 taken 1000 frames 4 commands 2 refused 0 got 0|\n\
    pair;lines 2|delays 0 0|ring 1|lag 1|ticks 1000|sink infers|fail 1 900 901 0|add 0 0|add 0 1|frame 914 00*64|\
        frame 914 00*64|frame 914 00*64|frame 914 00*64|other|lines 2|delays 0 0|ring 1|lag 1|ticks 1000|sink infers|\
        fail 1 900 901 0|add 0 0|add 0 1|frame 914 00*64|frame 914 00*64|frame 914 00*64|\
        frame 914 00*64| => 0;got 00*64|got 00*64|total ticks 1000 taken 1000 frames 4 commands 2 refused 0 got 2|\
        ;got 00*64|got 00*64|total ticks 1000 taken 1000 frames 4 commands 2 refused 0 got 2|"
}

#[test]
fn sinks(rt: HostRuntime) {
    let rows = [
        (Turns::Whole, "", inferred_rows()),
        (Turns::Lines, "", inferred_steps()),
        (Turns::Whole, "", faulty_rows()),
        (Turns::Whole, "", paired_rows()),
    ];
    assert_eq!(rt; wrong_walk_of(rt.alloc(), &rows).as_str(), "");
}
