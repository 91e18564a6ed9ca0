//! Channels: frames of clients in a stream that they share, of which octets don't arrive, what is wrong with a text,
//! and inputs and outputs that fail. What is expected comes of a model of the definitions. Rows stand behind
//! functions, so that no proof sees them.

use command_rows::Turns;
use command_walk_rows::wrong_walk_of;

/// Frames in turn, frames that are refused, streams that end early, and cuts in idles, headers and areas.
fn shared_rows() -> &'static str {
    "\
    channels;channels 2|octets 1000|frame 0 00*64|frame 0 00*64|frame 1 00*64| => \
        0;got 0 00*64|got 1 00*64|got 0 00*64|channels frames 3 refused 0 got 3|;\n\
    channels;channels 2|octets 1000|frame 0 00*64|frame 0 00*64|frame 1 00*64|frame 1 00*64|cut 8 84| => \
        0;got 1 00*64|channels frames 4 refused 0 got 1|;\n\
    channels;channels 1|octets 1| => 0;channels frames 0 refused 0 got 0|;\n\
    channels;channels 256|octets 8|#|| => 0;channels frames 0 refused 0 got 0|;\n\
    channels;channels 2|octets 83|frame 0 00*64| => 0;channels frames 1 refused 0 got 0|;\n\
    channels;channels 2|octets 84|frame 0 00*64| => 0;got 0 00*64|channels frames 1 refused 0 got 1|;\n\
    channels;channels 2|octets 500|frame 2 00*64|frame 255 01*64|frame 1 0A*63|frame 1 aB*64|frame 0 00| => \
        0;got 1 ab*64|refused 0 unknown|refused 1 unknown|refused 2 length 63|refused 4 length 1|\
        channels frames 1 refused 4 got 1|;\n\
    channels;channels 1|octets 9700|frame 0 07*9600|frame 0 07*9601| => \
        0;got 0 07*9600|refused 1 length 9601|channels frames 1 refused 1 got 1|;\n\
    channels;channels 3|octets 700|frame 2 22*64|frame 0 00*64|frame 2 23*65|frame 1 11*66|frame 0 01*64| => \
        0;got 0 00*64|got 1 11*66|got 2 22*64|got 0 01*64|got 2 23*65|channels frames 5 refused 0 got 5|;\n\
    channels;channels 1|octets 2000|@16 frame 0 01*64|frame 0 02*64|frame 0 03*64| => 0;got 0 01*64|\
        @15 got 0 01*64|refused 16 queue|refused 17 queue|channels frames 16 refused 2 got 16|;\n\
    channels;channels 2|octets 600|frame 0 00*64|frame 1 01*64|frame 0 02*64|frame 1 03*64|frame 0 04*64|cut 0 4| => \
        0;got 1 01*64|got 0 02*64|got 1 03*64|got 0 04*64|channels frames 5 refused 0 got 4|;\n\
    channels;channels 2|octets 600|frame 0 00*64|frame 1 01*64|frame 0 02*64|frame 1 03*64|frame 0 04*64|cut 100 101|\
        cut 101 110|cut 300 600| => \
        0;got 0 00*64|channels frames 5 refused 0 got 1|;\n\
    channels;channels 2|octets 600|frame 0 00*64|frame 1 01*64|frame 0 02*64|frame 1 03*64|frame 0 04*64|cut 84 85| => \
        0;got 0 00*64|got 0 04*64|channels frames 5 refused 0 got 2|;\n\
    channels;channels 1|octets 300|frame 0 00*64|cut 0 300| => 0;channels frames 1 refused 0 got 0|;\n\
    channels;channels 1|octets 300|frame 0 00*64|frame 0 01*64|cut 84 84| => \
        5;;fault: line 5: range|help: word 3 is from 85 to 300|\n\
    channels;  channels 0000000002  ||octets   0000001000 \r|frame 1  00*64|cut 00 0000000001 => \
        0;channels frames 1 refused 0 got 0|;"
}

/// Texts each of which has a fault, with the first one.
fn faulty_rows() -> &'static str {
    "\
    channels; => 5;;fault: line 1: missing|help: the line channels has to stand here|\n\
    channels;x| => 5;;fault: line 1: word|help: a line begins with one of channels, octets, frame, cut|\n\
    channels;channel 2| => 5;;fault: line 1: word|help: a line begins with one of channels, octets, frame, cut|\n\
    channels;octets 1000| => 5;;fault: line 1: missing|help: the line channels has to stand here|\n\
    channels;channels| => 5;;fault: line 1: word|help: channels takes 1 word, and 0 follow|\n\
    channels;channels 1 2| => 5;;fault: line 1: word|help: channels takes 1 word, and 2 follow|\n\
    channels;channels x| => 5;;fault: line 1: number|help: word 2 is a number of one to ten digits|\n\
    channels;channels 0| => 5;;fault: line 1: range|help: word 2 is from 1 to 256|\n\
    channels;channels 257| => 5;;fault: line 1: range|help: word 2 is from 1 to 256|\n\
    channels;channels 1| => 5;;fault: line 2: missing|help: the line octets has to stand here|\n\
    channels;channels 1|frame 0 00| => 5;;fault: line 2: missing|help: the line octets has to stand here|\n\
    channels;channels 1|channels 1| => 5;;fault: line 2: missing|help: the line octets has to stand here|\n\
    channels;channels 1|octets| => 5;;fault: line 2: word|help: octets takes 1 word, and 0 follow|\n\
    channels;channels 1|octets 0| => 5;;fault: line 2: range|help: word 2 is from 1 to 100000000|\n\
    channels;channels 1|octets 100000001| => 5;;fault: line 2: range|help: word 2 is from 1 to 100000000|\n\
    channels;channels 1|octets 9|octets 9| => 5;;fault: line 3: order|help: octets stands before octets|\n\
    channels;channels 1|octets 9|channels 1| => 5;;fault: line 3: order|help: channels stands before octets|\n\
    channels;channels 1|octets 9|frame| => 5;;fault: line 3: word|help: frame takes 2 words, and 0 follow|\n\
    channels;channels 1|octets 9|frame 0| => 5;;fault: line 3: word|help: frame takes 2 words, and 1 follows|\n\
    channels;channels 1|octets 9|frame 0 00 00| => 5;;fault: line 3: word|help: frame takes 2 words, and 3 follow|\n\
    channels;channels 1|octets 9|frame x 00| => \
        5;;fault: line 3: number|help: word 2 is a number of one to ten digits|\n\
    channels;channels 1|octets 9|frame 256 00| => 5;;fault: line 3: range|help: word 2 is from 0 to 255|\n\
    channels;channels 1|octets 9|frame 256 0| => 5;;fault: line 3: range|help: word 2 is from 0 to 255|\n\
    channels;channels 1|octets 9|frame 0 0| => \
        5;;fault: line 3: hex|help: word 3 is an even number of hexadecimal digits|\n\
    channels;channels 1|octets 9|frame 0 0g| => \
        5;;fault: line 3: hex|help: word 3 is an even number of hexadecimal digits|\n\
    channels;channels 1|octets 9|frame 0 00*65536| => 5;;fault: line 3: range|help: word 3 has 1 to 65535 octets|\n\
    channels;channels 1|octets 9|cut| => 5;;fault: line 3: word|help: cut takes 2 words, and 0 follow|\n\
    channels;channels 1|octets 9|cut 1| => 5;;fault: line 3: word|help: cut takes 2 words, and 1 follows|\n\
    channels;channels 1|octets 9|cut 1 2 3| => 5;;fault: line 3: word|help: cut takes 2 words, and 3 follow|\n\
    channels;channels 1|octets 9|cut x 2| => 5;;fault: line 3: number|help: word 2 is a number of one to ten digits|\n\
    channels;channels 1|octets 9|cut 1 x| => 5;;fault: line 3: number|help: word 3 is a number of one to ten digits|\n\
    channels;channels 1|octets 9|cut 1 1| => 5;;fault: line 3: range|help: word 3 is from 2 to 9|\n\
    channels;channels 1|octets 9|cut 1 10| => 5;;fault: line 3: range|help: word 3 is from 2 to 9|\n\
    channels;channels 1|octets 9|cut 9 10| => 5;;fault: line 3: range|help: word 3 is at most 9|\n\
    channels;channels 1|octets 9|cut 8 9|cut 8 9| => 5;;fault: line 4: order|help: the cut before ends at 9|\n\
    channels;channels 1|octets 9|cut 2 5|cut 4 9| => 5;;fault: line 4: order|help: the cut before ends at 5|\n\
    channels;channels 1|octets 9|cut 2 5|cut 5 10| => 5;;fault: line 4: range|help: word 3 is from 6 to 9|\n\
    channels;channels 1|octets 9|cut 2 5|frame 0 00| => 5;;fault: line 4: order|help: frame stands before cut|\n\
    channels;channels 1|octets 9|cut 2 5|octets 9| => 5;;fault: line 4: order|help: octets stands before cut|\n\
    channels;channels 1|octets 9|cut 9999999999 9| => 5;;fault: line 3: range|help: word 3 is at most 9|\n\
    channels;channels 1|octets 9|cut 10000000000 9| => \
        5;;fault: line 3: number|help: word 2 is a number of one to ten digits|"
}

/// What is answered where the first call of the input fails, the second, and so on, and last without a fault.
fn read_rows() -> &'static str {
    "\
    channels;channels 1|octets 8| => 4 TIMES 3;;fault: read failed| THEN 0;channels frames 0 refused 0 got 0|;"
}

/// And of the output. Short lines go out together.
fn put_rows() -> &'static str {
    "\
    channels;channels 2|octets 600|frame 0 00*64|frame 2 00*64|frame 1 01*64| => \
        4;;fault: write failed| THEN \
        0;got 0 00*64|got 1 01*64|refused 1 unknown|channels frames 2 refused 1 got 2|;"
}

/// A note that can't be written: the status stays.
fn untold_rows() -> &'static str {
    "channels;x| => 5;;"
}

#[test]
fn channels(rt: HostRuntime) {
    let rows = [
        (Turns::Whole, "", shared_rows()),
        (Turns::Whole, "", faulty_rows()),
        (Turns::Takes, "", read_rows()),
        (Turns::Puts, "", put_rows()),
        (Turns::Tells, "", untold_rows()),
    ];
    assert_eq!(rt; wrong_walk_of(rt.alloc(), &rows).as_str(), "");
}
