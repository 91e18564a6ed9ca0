//! Pairs: two scripts there and back, one way of them, what is wrong with a text, and inputs and outputs that fail.
//! What is expected comes of a model of the definitions. Rows stand behind functions, so that no proof sees them.

use command_rows::Turns;
use command_walk_rows::wrong_walk_of;

/// Frames each way, packets of the way back that are lost by a failure, lags, delays, and items that are refused.
fn paired_rows() -> &'static str {
    "\
    pair;lines 1|delays 0|ring 1|lag 1|ticks 100|add 0 0|frame 0 00*64|other|lines 1|delays 0|ring 1|lag 1|ticks 100|\
        add 0 0| => 0;got 00*64|total ticks 100 taken 100 frames 1 commands 1 refused 0 got 1|\
        ;total ticks 100 taken 100 frames 0 commands 1 refused 0 got 0|\n\
    pair;lines 1|delays 0|ring 1|lag 1|ticks 100|add 0 0|other|lines 1|delays 0|ring 1|lag 1|ticks 100|add 0 0|\
        frame 0 00*64| => 0;total ticks 100 taken 100 frames 0 commands 1 refused 0 got 0|;got 00*64|\
        total ticks 100 taken 100 frames 1 commands 1 refused 0 got 1|\n\
    pair;lines 1|delays 0|ring 1|lag 1|ticks 312|add 0 0|frame 0 00*64|other|lines 1|delays 0|ring 1|lag 1|ticks 312|\
        fail 0 16 17 0|add 0 0| => 0;total ticks 312 taken 312 frames 1 commands 1 refused 0 got 0|\
        ;total ticks 312 taken 312 frames 0 commands 1 refused 0 got 0|\n\
    pair;lines 1|delays 0|ring 1|lag 1|ticks 313|add 0 0|frame 0 00*64|other|lines 1|delays 0|ring 1|lag 1|ticks 313|\
        fail 0 16 17 0|add 0 0| => 0;got 00*64|total ticks 313 taken 313 frames 1 commands 1 refused 0 got 1|\
        ;total ticks 313 taken 313 frames 0 commands 1 refused 0 got 0|\n\
    pair;lines 1|delays 0|ring 1|lag 1|ticks 1|other|lines 1|delays 0|ring 1|lag 1|\
        ticks 1| => 0;total ticks 1 taken 1 frames 0 commands 0 refused 0 got 0|\
        ;total ticks 1 taken 1 frames 0 commands 0 refused 0 got 0|\n\
    pair;lines 1|delays 0|ring 1|lag 1|ticks 1|  other \r|#|| lines 1|delays 0|ring 1|lag 1|\
        ticks 1| => 0;total ticks 1 taken 1 frames 0 commands 0 refused 0 got 0|\
        ;total ticks 1 taken 1 frames 0 commands 0 refused 0 got 0|\n\
    pair;lines 2|delays 0 3|ring 9|lag 2|ticks 420|add 0 0|add 0 1|remove 210 0|frame 0 00*64|frame 200 00*64|other|\
        lines 3|delays 1 0 2|ring 4|lag 2|ticks 420|fail 1 150 170 0|add 0 1|add 5 1|add 30 2|frame 130 00*64|\
        frame 160 00*64| => 0;got 00*64|got 00*64|total ticks 420 taken 420 frames 2 commands 3 refused 0 got 2|\
        ;got 00*64|refused 1 already in|total ticks 420 taken 420 frames 2 commands 2 refused 1 got 1|\n\
    pair;lines 1|delays 0|ring 1|lag 4|ticks 60|add 0 0|frame 0 00*64|frame 0 00*64|frame 0 00*64|other|container vc3|\
        lines 1|delays 0|ring 1|lag 4|ticks 60|add 0 0| => 0;total ticks 60 taken 60 frames 3 commands 1 refused 0 \
        got 0|;total ticks 60 taken 60 frames 0 commands 1 refused 0 got 0|"
}

/// The script of one way: lost runs, what says the same as nothing, options, and texts that have a fault.
fn one_way_rows() -> &'static str {
    "\
    pair there;lines 1|delays 0|ring 1|lag 1|ticks 313|add 0 0|frame 0 00*64|other|lines 1|delays 0|ring 1|\
        lag 1|ticks 313|fail 0 16 17 0|add 0 0| => 0;lines 1|delays 0|ring 1|lag 2|ticks 313|lost 0 1|add 0 0|\
        frame 0 00*64|;\n\
    pair there;# A pair.|container vc3|lines 2|delays 3 0|ring 8|lag 2|ticks 600|statuses 16|sink infers|\
        holdoff 2|fail 1 300 340 2|fail 0 100 110 0|add 00007 1|frame 00 AABB|add 7 0|other|lines 1|delays 5|\
        ring 1|lag 2|ticks 600|restore 3|statuses 32|fail 0 16 17 0|fail 0 200 201 0|fail 0 230 260 0|\
        add 0 0| => 0;container vc3|lines 2|delays 3 0|ring 8|lag 4|ticks 600|sink infers|holdoff 2|\
        fail 0 100 110 0|fail 1 300 340 2|lost 10 15|add 7 1|frame 0 aabb|add 7 0|;\n\
    pair there;lines 1|delays 0|ring 1|lag 5|ticks 9|other|lines 1|delays 0|ring 1|lag 5|ticks 9 => 0;lines 1|\
        delays 0|ring 1|lag 10|ticks 9|;\n\
    pair back;lines 1|delays 0|ring 1|lag 1|ticks 313|add 0 0|frame 0 00*64|other|lines 1|delays 0|ring 1|\
        lag 1|ticks 313|fail 0 16 17 0|add 0 0| => 0;lines 1|delays 0|ring 1|lag 2|ticks 313|fail 0 16 17 0|add 0 0|;\n\
    pair back;# A pair.|container vc3|lines 2|delays 3 0|ring 8|lag 2|ticks 600|statuses 16|sink infers|\
        holdoff 2|fail 1 300 340 2|fail 0 100 110 0|add 00007 1|frame 00 AABB|add 7 0|other|lines 1|delays 5|\
        ring 1|lag 2|ticks 600|restore 3|statuses 32|fail 0 16 17 0|fail 0 200 201 0|fail 0 230 260 0|\
        add 0 0| => 0;lines 1|delays 5|ring 1|lag 4|ticks 600|restore 3|statuses 32|fail 0 16 17 0|\
        fail 0 200 201 0|fail 0 230 260 0|add 0 0|;\n\
    pair back;lines 1|delays 0|ring 1|lag 5|ticks 9|other|lines 1|delays 0|ring 1|lag 5|ticks 9 => 0;lines 1|\
        delays 0|ring 1|lag 10|ticks 9|;\n\
    pair there; => 5;;fault: line 1: missing|help: the line lines has to stand here|\n\
    pair back; => 5;;fault: line 1: missing|help: the line lines has to stand here|\n\
    pair there;lines 1|delays 0|ring 1|lag 1|ticks 20| => 5;;fault: line 6: missing|\
        help: a line other divides the two scripts|\n\
    pair back;lines 1|delays 0|ring 1|lag 1|ticks 20|other|lines 1|delays 0|ring 1|lag 1|ticks 20|other| => 5;;\
        fault: line 12: word|help: ~|\n\
    pair there;lines 1|delays 0|ring 1|lag 1|ticks 20|other|lines 1|delays 0|ring 1|lag 1|ticks 20|\
        lost 0 1| => 6;;fault: pair lost|help: back: a script of a pair has no lost lines; failures of the \
        other way lose its return packets|\n\
    pair back;lines 1|delays 0|ring 1|lag 1|ticks 20|other|lines 1|delays 0|ring 1|lag 1|ticks 21| => 6;;\
        fault: pair ticks 20 21|help: both scripts have one number of ticks|"
}

/// Texts each of which has a fault, with the first one.
fn faulty_rows() -> &'static str {
    "\
    pair; => 5;;fault: line 1: missing|help: the line lines has to stand here|\n\
    pair;lines 1|delays 0|ring 1|lag 1|ticks 1| => 5;;fault: line 6: missing|\
        help: a line other divides the two scripts|\n\
    pair;lines 1|delays 0|ring 1|lag 1|ticks 1|other| => 5;;fault: line 7: missing|\
        help: the line lines has to stand here|\n\
    pair;lines 1|delays 0|ring 1|lag 1|ticks 1|other|lines 1|delays 0|ring 1|lag 1|ticks 1|other| => 5;;\
        fault: line 12: word|help: ~|\n\
    pair;other|lines 1|delays 0|ring 1|lag 1|ticks 1| => 5;;fault: line 1: missing|\
        help: the line lines has to stand here|\n\
    pair;lines 1|other|lines 1|delays 0|ring 1|lag 1|ticks 1| => 5;;fault: line 2: missing|\
        help: the line delays has to stand here|\n\
    pair;lines 1|delays 0|ring 1|lag 1|ticks 1|other 1|lines 1|delays 0|ring 1|lag 1|ticks 1| => 5;;\
        fault: line 6: word|help: ~|\n\
    pair;lines 1|delays 0|ring 1|lag 1|ticks 1|bad|other|bad| => 5;;fault: line 6: word|help: ~|\n\
    pair;lines 1|delays 0|ring 1|lag 1|ticks 1|other|lines 1|bad| => 5;;fault: line 8: word|help: ~|\n\
    pair;lines 1|delays 0|ring 1|lag 1|ticks 1|bad| => 5;;fault: line 6: word|help: ~|\n\
    pair;lines 1|delays 0|ring 1|lag 1|ticks 9|other|lines 1|delays 0|ring 1|lag 1|ticks 9|delays 0| => 5;;\
        fault: line 12: order|help: the line delays stands already in line 8|\n\
    pair;container vc4|lines 1|delays 0|ring 1|lag 1|ticks 9|other|lines 1|delays 0|ring 1|lag 1|ticks 9|\
        add 0 0|container vc4| => 5;;fault: line 14: order|help: the line container stands before the line lines|\n\
    pair;lines 1|delays 0|ring 1|lag 1000|ticks 1|other|lines 1|delays 0|ring 1|lag 2|ticks 1| => 5;;\
        fault: line 4: range|help: word 2 is from 1 to 512|\n\
    pair;lines 2|delays 0 20|ring 1|lag 1|ticks 20|other|lines 2|delays 0 20|ring 1|lag 3|ticks 20| => 6;;\
        fault: spread 20 0 0 1|help: there: delays from 0 to 20 and slips of 0 need a ring of at least 21|\n\
    pair;lines 1|delays 0|ring 1|lag 1|ticks 20|other|lines 2|delays 0 20|ring 1|lag 1|ticks 20| => 6;;\
        fault: spread 20 0 0 1|help: back: delays from 0 to 20 and slips of 0 need a ring of at least 21|\n\
    pair;lines 1|delays 0|ring 1|lag 1|ticks 20|lost 0 1|other|lines 2|delays 0 20|ring 1|lag 1|ticks 20| => 6;\
        ;fault: spread 20 0 0 1|help: back: delays from 0 to 20 and slips of 0 need a ring of at least 21|\n\
    pair;lines 1|delays 0|ring 1|lag 1|ticks 20|lost 0 1|other|lines 1|delays 0|ring 1|lag 2|ticks 21| => 6;;\
        fault: pair lost|help: there: a script of a pair has no lost lines; failures of the other way lose its \
        return packets|\n\
    pair;lines 1|delays 0|ring 1|lag 1|ticks 20|other|lines 1|delays 0|ring 1|lag 1|ticks 20|lost 0 1|\
        tick 1| => 6;;fault: pair lost|help: back: a script of a pair has no lost lines; failures of the other \
        way lose its return packets|\n\
    pair;lines 1|delays 0|ring 1|lag 1|ticks 20|tick 1|other|lines 1|delays 0|ring 1|lag 2|ticks 21| => 6;;\
        fault: pair events|help: there: a script of a pair has no event lines; both ways drain together|\n\
    pair;lines 1|delays 0|ring 1|lag 1|ticks 20|other|lines 1|delays 0|ring 1|lag 2|ticks 21|tick 1| => 6;;\
        fault: pair events|help: back: a script of a pair has no event lines; both ways drain together|\n\
    pair;lines 1|delays 0|ring 1|lag 1|ticks 20|other|lines 1|delays 0|ring 1|lag 2|ticks 21| => 6;;\
        fault: pair lag 1 2|help: both scripts have one lag, from 1 to 256|\n\
    pair;lines 1|delays 0|ring 1|lag 257|ticks 20|other|lines 1|delays 0|ring 1|lag 257|ticks 21| => 6;;\
        fault: pair lag 257 257|help: both scripts have one lag, from 1 to 256|\n\
    pair;lines 1|delays 0|ring 1|lag 1|ticks 20|other|lines 1|delays 0|ring 1|lag 1|ticks 21| => 6;;\
        fault: pair ticks 20 21|help: both scripts have one number of ticks|\n\
    pair;lines 1|delays 0|ring 1|lag 256|ticks 20|other|lines 1|delays 0|ring 1|lag 256|ticks 21| => 6;;\
        fault: pair ticks 20 21|help: both scripts have one number of ticks|\n\
    pair;lines 1|delays 0|ring 1|lag 1|ticks 20|other|lines 1|delays 40|ring 1|lag 1|ticks 20| => 6;;\
        fault: lag 1 least 4|help: back: a delay of 40 and slips of 0 need a lag of at least 4|\n\
    pair;lines 2|delays 40 0|ring 1|lag 4|ticks 20|other|lines 1|delays 0|ring 1|lag 4|ticks 20| => 6;;\
        fault: spread 40 0 0 1|help: there: delays from 0 to 40 and slips of 0 need a ring of at least 41|\n\
    pair;lines 1|delays 0|ring 1|lag 1|ticks 20|other|lines 1|delays 0|ring 1|lag 2|ticks 20| => 6;;\
        fault: pair lag 1 2|help: both scripts have one lag, from 1 to 256|\n\
    pair;lines 1|delays 40|ring 1|lag 4|ticks 20|other|lines 1|delays 0|ring 1|lag 2|ticks 20| => 6;;\
        fault: pair lag 4 2|help: both scripts have one lag, from 4 to 256|\n\
    pair;lines 1|delays 0|ring 1|lag 2|ticks 20|other|lines 1|delays 40|ring 1|lag 4|ticks 20| => 6;;\
        fault: pair lag 2 4|help: both scripts have one lag, from 4 to 256|\n\
    pair;lines 1|delays 0|ring 1|lag 257|ticks 20|other|lines 1|delays 0|ring 1|lag 257|ticks 20| => 6;;\
        fault: pair lag 257 257|help: both scripts have one lag, from 1 to 256|\n\
    pair;lines 1|delays 2047|ring 2048|lag 257|ticks 3000|fail 0 0 3000 2047|other|lines 1|delays 0|ring 1|\
        lag 257|ticks 3000| => 6;;fault: pair lag 257 257|help: both scripts have one lag, at most 256|\n\
    pair;lines 1|delays 0|ring 1|lag 1|ticks 20|other|lines 1|delays 0|ring 1|lag 1|ticks 20|lost 0 1| => 6;;\
        fault: pair lost|help: back: a script of a pair has no lost lines; failures of the other way lose its \
        return packets|\n\
    pair;lines 1|delays 0|ring 1|lag 1|ticks 20|round 1|other|lines 1|delays 0|ring 1|lag 1|ticks 20|\
        round 1| => 6;;fault: pair events|help: there: a script of a pair has no event lines; both ways drain \
        together|"
}

/// What is answered where the first call of the input fails, the second, and so on, and last without a fault.
fn read_rows() -> &'static str {
    "\
    pair;lines 1|delays 0|ring 1|lag 1|ticks 100|add 0 0|frame 0 00*64|other|lines 1|delays 0|ring 1|lag 1|ticks 100|\
        add 0 0| => 36 TIMES 3;;fault: read failed| THEN 0;got 00*64|\
        total ticks 100 taken 100 frames 1 commands 1 refused 0 got 1|\
        ;total ticks 100 taken 100 frames 0 commands 1 refused 0 got 0|"
}

/// And of the output. Short lines go out together.
fn put_rows() -> &'static str {
    "\
    pair;lines 1|delays 0|ring 1|lag 1|ticks 100|add 0 0|frame 0 00*64|other|lines 1|delays 0|ring 1|lag 1|ticks 100|\
        add 0 0| => 4;;fault: write failed| THEN 0;got 00*64|\
        total ticks 100 taken 100 frames 1 commands 1 refused 0 got 1|\
        ;total ticks 100 taken 100 frames 0 commands 1 refused 0 got 0|"
}

/// And of the report of the way back: what was written of the way there stands. Of a fault that can't be told the
/// status stays.
fn told_rows() -> &'static str {
    "\
    pair;lines 1|delays 0|ring 1|lag 1|ticks 100|add 0 0|frame 0 00*64|other|lines 1|delays 0|ring 1|lag 1|ticks 100|\
        add 0 0| => 4;got 00*64|total ticks 100 taken 100 frames 1 commands 1 refused 0 got 1|\
        ;fault: write failed| THEN 0;got 00*64|total ticks 100 taken 100 frames 1 commands 1 refused 0 got 1|\
        ;total ticks 100 taken 100 frames 0 commands 1 refused 0 got 0|\n\
    pair;x| => 5;;"
}

#[test]
fn pairs(rt: HostRuntime) {
    let rows = [
        (Turns::Whole, "", paired_rows()),
        (Turns::Whole, "", faulty_rows()),
        (Turns::Whole, "", one_way_rows()),
        (Turns::Takes, "", read_rows()),
        (Turns::Puts, "", put_rows()),
        (Turns::Tells, "", told_rows()),
    ];
    assert_eq!(rt; wrong_walk_of(rt.alloc(), &rows).as_str(), "");
}
