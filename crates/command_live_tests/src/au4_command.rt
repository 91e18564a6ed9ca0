//! Links of AU-4 frames: what comes of numbered VC-4s on them, what is wrong with a text, and inputs and
//! outputs that fail. What is expected comes of a model of the definitions. Rows stand behind functions, so
//! that no proof sees them.

use command_rows::Turns;
use command_walk_rows::wrong_walk_of;

/// Pointers that stay, move over both ends of their values, and begin anew, in the first frame too.
fn carried_rows() -> &'static str {
    "\
    au4;start 0|frames 4|new 2 5| => \
        0;vc 0 sum 294722|vc 1 sum 294760|vc 2 sum 294798|au4 frames 4 begun 4 back 3 cut 0|;\n\
    au4;start 5|frames 4|new 2 5 => 0;vc 0 sum 294722|vc 2 sum 294798|au4 frames 4 begun 4 back 2 cut 1|;\n\
    au4;start 782|frames 1 => 0;au4 frames 1 begun 1 back 0 cut 0|;\n\
    au4;start 0|frames 1|new 0 0| => 0;vc 0 sum 294722|au4 frames 1 begun 1 back 1 cut 0|;\n\
    au4;start 3|frames 2|new 0 782| => 0;vc 0 sum 294722|au4 frames 2 begun 2 back 1 cut 0|;\n\
    au4;start 1|frames 2|down 1| => 0;vc 0 sum 294722|vc 1 sum 294760|au4 frames 2 begun 2 back 2 cut 0|;\n\
    au4;# moves|start 782|| frames  6 |up 1|new 5 0\r| => \
        0;vc 0 sum 294722|vc 1 sum 294760|vc 2 sum 294798|vc 3 sum 294836|vc 4 sum 294874|\
        au4 frames 6 begun 5 back 5 cut 0|;\n\
    au4;start 0|frames 6|down 1|up 5| => \
        0;vc 0 sum 294722|vc 1 sum 294760|vc 2 sum 294798|vc 3 sum 294836|vc 4 sum 294874|vc 5 sum 294912|\
        au4 frames 6 begun 6 back 6 cut 0|;\n\
    au4;start 00000000|frames 0000000012|new 3 300|new 7 0|new 11 782| => \
        0;vc 0 sum 294722|vc 1 sum 294760|vc 2 sum 294798|vc 3 sum 294836|vc 4 sum 294874|vc 5 sum 294912|\
        vc 7 sum 294988|vc 8 sum 295026|vc 9 sum 295064|vc 10 sum 295102|au4 frames 12 begun 12 back 10 cut 1|;\n\
    au4;start 5|frames 9|up 4|down 8| => \
        0;vc 0 sum 294722|vc 1 sum 294760|vc 2 sum 294798|vc 3 sum 294836|vc 4 sum 294874|vc 5 sum 294912|\
        vc 6 sum 294950|vc 7 sum 294988|au4 frames 9 begun 9 back 8 cut 0|;"
}

/// Texts each of which has a fault, with the first one.
fn faulty_rows() -> &'static str {
    "\
    au4; => 5;;fault: line 1: missing|help: the line start has to stand here|\n\
    au4;frames 3|start 0| => 5;;fault: line 1: missing|help: the line start has to stand here|\n\
    au4;start 0|start 0| => 5;;fault: line 2: missing|help: the line frames has to stand here|\n\
    au4;start 0|#|up 1| => 5;;fault: line 3: missing|help: the line frames has to stand here|\n\
    au4;start 0| => 5;;fault: line 2: missing|help: the line frames has to stand here|\n\
    au4;start 0|frames 3|start 0| => 5;;fault: line 3: order|help: start stands before frames|\n\
    au4;start 0|frames 3|up 1|frames 3| => 5;;fault: line 4: order|help: frames stands before up|\n\
    au4;start 0|frames 3|Up 1| => \
        5;;fault: line 3: word|help: a line begins with one of start, frames, up, down, new|\n\
    au4;start 0|frames 3|keep 1| => \
        5;;fault: line 3: word|help: a line begins with one of start, frames, up, down, new|\n\
    au4;start| => 5;;fault: line 1: word|help: start takes 1 word, and 0 follow|\n\
    au4;start 0 0| => 5;;fault: line 1: word|help: start takes 1 word, and 2 follow|\n\
    au4;start 783| => 5;;fault: line 1: range|help: word 2 is from 0 to 782|\n\
    au4;start 00000000001| => 5;;fault: line 1: number|help: word 2 is a number of one to ten digits|\n\
    au4;start 9999999999| => 5;;fault: line 1: range|help: word 2 is from 0 to 782|\n\
    au4;start x| => 5;;fault: line 1: number|help: word 2 is a number of one to ten digits|\n\
    au4;start 0|frames 0| => 5;;fault: line 2: range|help: word 2 is from 1 to 100000|\n\
    au4;start 0|frames 100001| => 5;;fault: line 2: range|help: word 2 is from 1 to 100000|\n\
    au4;start 0|frames 3|up| => 5;;fault: line 3: word|help: up takes 1 word, and 0 follow|\n\
    au4;start 0|frames 3|up 1 2| => 5;;fault: line 3: word|help: up takes 1 word, and 2 follow|\n\
    au4;start 0|frames 3|up 0| => 5;;fault: line 3: range|help: word 2 is from 1 to 2|\n\
    au4;start 0|frames 3|down 0| => 5;;fault: line 3: range|help: word 2 is from 1 to 2|\n\
    au4;start 0|frames 3|up 3| => 5;;fault: line 3: range|help: word 2 is from 1 to 2|\n\
    au4;start 0|frames 1|up 0| => 5;;fault: line 3: range|help: word 2 is at most 0|\n\
    au4;start 0|frames 1|down 1| => 5;;fault: line 3: range|help: word 2 is at most 0|\n\
    au4;start 0|frames 3|new 1| => 5;;fault: line 3: word|help: new takes 2 words, and 1 follows|\n\
    au4;start 0|frames 3|new 1 2 3| => 5;;fault: line 3: word|help: new takes 2 words, and 3 follow|\n\
    au4;start 0|frames 3|new 3 783| => 5;;fault: line 3: range|help: word 2 is from 0 to 2|\n\
    au4;start 0|frames 3|new 1 783| => 5;;fault: line 3: range|help: word 3 is from 0 to 782|\n\
    au4;start 0|frames 3|new 1 -1| => 5;;fault: line 3: number|help: word 3 is a number of one to ten digits|\n\
    au4;start 0|frames 9|up 1|up 4| => 5;;fault: line 4: order|help: after frame 1 the next one is 5 at least|\n\
    au4;start 0|frames 9|up 5|new 1 783| => 5;;fault: line 4: range|help: word 3 is from 0 to 782|\n\
    au4;start 0|frames 9|up 5|new 1 782| => 5;;fault: line 4: order|help: after frame 5 the next one is 9 at least|\n\
    au4;start 0|frames 9|new 0 0|down 3| => 5;;fault: line 4: order|help: after frame 0 the next one is 4 at least|\n\
    au4;start 0|frames 9|up 1|up 5|down 8| => 5;;fault: line 5: order|help: after frame 5 the next one is 9 at least|\n\
    au4;start 0|frames 9|up 1|up 5|up x| => 5;;fault: line 5: number|help: word 2 is a number of one to ten digits|"
}

/// What is answered where the first call of the input fails, the second, and so on, and last without a fault.
fn read_rows() -> &'static str {
    "\
    au4;start 0|frames 4|new 2 5| => \
        5 TIMES 3;;fault: read failed| THEN \
        0;vc 0 sum 294722|vc 1 sum 294760|vc 2 sum 294798|au4 frames 4 begun 4 back 3 cut 0|;"
}

/// And of the output. Short lines go out together.
fn put_rows() -> &'static str {
    "\
    au4;start 0|frames 4|new 2 5| => \
        4;;fault: write failed| THEN \
        0;vc 0 sum 294722|vc 1 sum 294760|vc 2 sum 294798|au4 frames 4 begun 4 back 3 cut 0|;"
}

/// A note that can't be written: the status stays.
fn untold_rows() -> &'static str {
    "au4;x| => 5;;"
}

#[test]
fn links(rt: HostRuntime) {
    let rows = [
        (Turns::Whole, "", carried_rows()),
        (Turns::Whole, "", faulty_rows()),
        (Turns::Takes, "", read_rows()),
        (Turns::Puts, "", put_rows()),
        (Turns::Tells, "", untold_rows()),
    ];
    assert_eq!(rt; wrong_walk_of(rt.alloc(), &rows).as_str(), "");
}
