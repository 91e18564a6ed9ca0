//! Noise: frames with an FCS of whose stream bits are turned over, what is wrong with a text, and inputs and
//! outputs that fail. What is expected comes of a model of the definitions. Rows stand behind functions, so
//! that no proof sees them.

use command_rows::Turns;
use command_walk_rows::wrong_walk_of;

/// Frames of 64 zeros with flips in idles, core headers and areas, and texts of flips alone or of nothing.
fn noisy_rows() -> &'static str {
    "\
    noise; => 0;noise frames 0 flips 0 got 0 dropped 0|;\n\
    noise;#|| => 0;noise frames 0 flips 0 got 0 dropped 0|;\n\
    noise;flip 0 0| => 0;noise frames 0 flips 1 got 0 dropped 0|;\n\
    noise;flip 7 7| => 0;noise frames 0 flips 1 got 0 dropped 0|;\n\
    noise;frame 00*64| => 0;got 00*64|noise frames 1 flips 0 got 1 dropped 0|;\n\
    noise;frame 00*64|frame 00*64|frame 00*64|flip 8 0| => \
        0;got 00*64|got 00*64|got 00*64|noise frames 3 flips 1 got 3 dropped 0|;\n\
    noise;frame 00*64|frame 00*64|frame 00*64|flip 120 0| => \
        0;got 00*64|got 00*64|noise frames 3 flips 1 got 2 dropped 1|;\n\
    noise;frame 00*64|frame 00*64|frame 00*64|flip 159 7| => 0;got 00*64|noise frames 3 flips 1 got 1 dropped 2|;\n\
    noise;frame 00*64|flip 8 0|flip 8 1| => 0;noise frames 1 flips 2 got 0 dropped 0|;\n\
    noise;frame 00*64|flip 0 0| => 0;got 00*64|noise frames 1 flips 1 got 1 dropped 0|;\n\
    noise;frame 00*64|flip 15 7| => 0;noise frames 1 flips 1 got 0 dropped 1|;\n\
    noise;  frame 0000000000000000000000000000000000000000000000000000000000000000000000000000000000000000000000000000\
        0000000000000000000000000000  ||flip  83   7 \r| => \
        0;noise frames 1 flips 1 got 0 dropped 1|;\n\
    noise;frame 00*64|flip 12 0|flip 17 3| => 0;noise frames 1 flips 2 got 0 dropped 1|;\n\
    noise;frame 00*64|frame 00*64|flip 8 0|flip 11 7|flip 84 1| => 0;noise frames 2 flips 3 got 0 dropped 0|;\n\
    noise;frame aBcD0f00*61|flip 0000000012 0000000000 => 0;noise frames 1 flips 1 got 0 dropped 1|;"
}

/// Texts each of which has a fault, with the first one.
fn faulty_rows() -> &'static str {
    "\
    noise;flop| => 5;;fault: line 1: word|help: a line begins with one of frame, flip|\n\
    noise;Frame 00*64| => 5;;fault: line 1: word|help: a line begins with one of frame, flip|\n\
    noise;frame| => 5;;fault: line 1: word|help: frame takes 1 word, and 0 follow|\n\
    noise;frame 00 00| => 5;;fault: line 1: word|help: frame takes 1 word, and 2 follow|\n\
    noise;frame 0| => 5;;fault: line 1: hex|help: word 2 is an even number of hexadecimal digits|\n\
    noise;frame 0g| => 5;;fault: line 1: hex|help: word 2 is an even number of hexadecimal digits|\n\
    noise;frame 00*63| => 5;;fault: line 1: range|help: word 2 has 64 to 9600 octets|\n\
    noise;flip 0 0|frame 00*64| => 5;;fault: line 2: order|help: frame stands before flip|\n\
    noise;flip 0 0|frame| => 5;;fault: line 2: order|help: frame stands before flip|\n\
    noise;flip| => 5;;fault: line 1: word|help: flip takes 2 words, and 0 follow|\n\
    noise;flip 1| => 5;;fault: line 1: word|help: flip takes 2 words, and 1 follows|\n\
    noise;flip 1 2 3| => 5;;fault: line 1: word|help: flip takes 2 words, and 3 follow|\n\
    noise;flip x 0| => 5;;fault: line 1: number|help: word 2 is a number of one to ten digits|\n\
    noise;flip 0 x| => 5;;fault: line 1: number|help: word 3 is a number of one to ten digits|\n\
    noise;flip 8 0| => 5;;fault: line 1: range|help: word 2 is from 0 to 7|\n\
    noise;flip 8 8| => 5;;fault: line 1: range|help: word 2 is from 0 to 7|\n\
    noise;flip 7 8| => 5;;fault: line 1: range|help: word 3 is from 0 to 7|\n\
    noise;frame 00*64|flip 83 0|flip 84 0| => 5;;fault: line 3: range|help: word 2 is from 0 to 83|\n\
    noise;frame 00*64|flip 84 9| => 5;;fault: line 2: range|help: word 2 is from 0 to 83|\n\
    noise;flip 3 1|flip 3 1| => \
        5;;fault: line 2: order|help: flips rise by place and then by bit; the one before is 3 1|\n\
    noise;flip 3 1|flip 3 0| => \
        5;;fault: line 2: order|help: flips rise by place and then by bit; the one before is 3 1|\n\
    noise;flip 3 1|flip 2 7| => \
        5;;fault: line 2: order|help: flips rise by place and then by bit; the one before is 3 1|\n\
    noise;flip 3 1|flip 3 8| => 5;;fault: line 2: range|help: word 3 is from 0 to 7|\n\
    noise;flip 00000000001 0| => 5;;fault: line 1: number|help: word 2 is a number of one to ten digits|\n\
    noise;flip 9999999999 0| => 5;;fault: line 1: range|help: word 2 is from 0 to 7|\n\
    noise;frame 00*64|flip 3 1|#|frame 00*64| => 5;;fault: line 4: order|help: frame stands before flip|"
}

/// What is answered where the first call of the input fails, the second, and so on, and last without a fault.
fn read_rows() -> &'static str {
    "\
    noise;flip 0 0| => 3 TIMES 3;;fault: read failed| THEN 0;noise frames 0 flips 1 got 0 dropped 0|;"
}

/// And of the output. Short lines go out together.
fn put_rows() -> &'static str {
    "\
    noise;frame 00*64|frame 00*64|flip 100 0| => \
        4;;fault: write failed| THEN \
        0;got 00*64|noise frames 2 flips 1 got 1 dropped 1|;"
}

/// A note that can't be written: the status stays.
fn untold_rows() -> &'static str {
    "noise;x| => 5;;"
}

#[test]
fn noises(rt: HostRuntime) {
    let rows = [
        (Turns::Whole, "", noisy_rows()),
        (Turns::Whole, "", faulty_rows()),
        (Turns::Takes, "", read_rows()),
        (Turns::Puts, "", put_rows()),
        (Turns::Tells, "", untold_rows()),
    ];
    assert_eq!(rt; wrong_walk_of(rt.alloc(), &rows).as_str(), "");
}
