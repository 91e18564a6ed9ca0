//! The command `live`, whose input comes in small pieces: what is answered, by then and at the end, and what is wrong
//! with a live text. What is expected comes of a model of the definitions. Rows stand behind functions, so that no
//! proof sees them.

use command_rows::Turns;
use command_walk_rows::wrong_walk_of;

/// Nothing is said; a frame comes out in the tick behind it; another waits in a group whose other line has more delay;
/// at the least lag a round in each packet makes no tick. Then blanks, and a last line without its LF.
fn passing_rows() -> &'static str {
    "\
    live;lines 1|delays 0|ring 1|lag 1|ticks 9| => 0;total ticks 0 taken 0 frames 0 commands 0 refused 0 got 0|;\n\
    live;lines 1|delays 0|ring 1|lag 1|ticks 1000|add 0|pass 40|frame aa*64|pass 1| => 0;now 40|got 41 aa*64|\
        now 41|total ticks 41 taken 41 frames 1 commands 1 refused 0 got 1|;\n\
    live;lines 2|delays 0 5|ring 6|lag 2|ticks 1000|add 0|pass 100|frame aa*64|pass 5|pass 1| => 0;now 100|\
        now 105|got 106 aa*64|now 106|total ticks 106 taken 101 frames 1 commands 1 refused 0 got 1|;\n\
    live;lines 1|delays 0|ring 1|lag 1|ticks 1000|pass 100|pass 1| => 0;now 100|now 101|\
        total ticks 101 taken 101 frames 0 commands 0 refused 0 got 0|;\n\
    live;lines 1|delays 0|ring 1|lag 1|ticks 9|# a\r|  pass   03 \r||pass 2| => 0;now 3|now 5|\
        total ticks 5 taken 5 frames 0 commands 0 refused 0 got 0|;\n\
    live;lines 1|delays 0|ring 1|lag 1|ticks 9|pass 1 => 0;now 1|\
        total ticks 1 taken 1 frames 0 commands 0 refused 0 got 0|;"
}

/// What is on its way when a line is cut comes out, and what is made until it is mended doesn't. A cut that is mended
/// in the same tick costs nothing. Then cuts behind a failure with a slip, and one that isn't mended.
fn cut_rows() -> &'static str {
    "\
    live;lines 1|delays 5|ring 1|lag 2|ticks 1000|add 0|pass 100|frame aa*64|pass 3|cut 0|frame bb*64|pass 9|\
        mend 0|pass 25|frame cc*64|pass 1|frame dd*64|pass 6| => 0;now 100|now 103|got 106 aa*64|now 112|now 137|\
        now 138|got 144 dd*64|now 144|total ticks 144 taken 139 frames 4 commands 1 refused 0 got 2|;\n\
    live;lines 1|delays 0|ring 1|lag 1|ticks 1000|add 0|pass 50|cut 0|mend 0|frame aa*64|pass 1|cut 0|frame bb*64|\
        pass 9| => 0;now 50|got 51 aa*64|now 51|now 60|\
        total ticks 60 taken 60 frames 2 commands 1 refused 0 got 1|;\n\
    live;lines 2|delays 0 3|ring 8|lag 2|ticks 5000|fail 1 300 310 2|add 0|pass 310|cut 1|pass 6|cut 0|mend 1|\
        pass 1|mend 0|cut 0|mend 0|pass 9|cut 1| => 0;now 310|now 316|now 317|now 326|\
        total ticks 326 taken 321 frames 0 commands 1 refused 0 got 0|;"
}

/// A refusal of each kind but those of what waits.
fn refused_rows() -> &'static str {
    "\
    live;lines 2|delays 0 0|ring 1|lag 1|ticks 1000|add 0|add 0|remove 1|frame 00|add 2|\
        pass 1| => 0;refused 1 already in|refused 2 not in|refused 3 length 1|refused 4 unknown|now 1|\
        total ticks 1 taken 1 frames 0 commands 1 refused 4 got 0|;"
}

/// With decision steps, each before the frames of its round.
fn traced_rows() -> &'static str {
    "\
    live trace;lines 2|delays 0 0|ring 1|lag 2|ticks 1000|add 0|pass 56|frame aa*64|add 1|pass 1|\
        pass 16| => 0;packet 0 chg 1 act 0 back none add:0 idle:255|packet 1 chg 1 act 0 back none add:0 idle:255|\
        packet 2 chg 1 act 1 back 7f/1 eos:0 idle:255|now 56|packet 3 chg 0 act 1 back ff/1 eos:0 add:1|\
        got 57 aa*64|now 57|packet 4 chg 0 act 1 back ff/1 eos:0 add:1|now 73|\
        total ticks 73 taken 73 frames 1 commands 2 refused 0 got 1|;"
}

/// What becomes of members: each once it is another thing, before the frames of its round, whichever of them is the
/// last one in use. Some that come and go; a command that waits for its step; and a line that is cut.
fn member_rows() -> &'static str {
    "\
    live told;lines 1|delays 0|ring 1|lag 1|ticks 1000|add 0|pass 40|frame aa*64|pass 1|pass 1| => 0;\
        member 9 0 add|member 25 0 norm|now 40|got 41 aa*64|now 41|now 42|\
        total ticks 42 taken 42 frames 1 commands 1 refused 0 got 1|;\n\
    live told;lines 2|delays 0 0|ring 1|lag 2|ticks 1000|add 0|add 1|pass 100|remove 1|pass 100|add 1|remove 0|\
        pass 100| => 0;member 9 0 add|member 41 0 norm|member 41 1 add|now 100|member 105 1 idle|now 200|\
        member 201 1 add|member 233 0 idle|member 297 1 norm|now 300|\
        total ticks 300 taken 300 frames 0 commands 5 refused 0 got 0|;\n\
    live told;lines 2|delays 0 0|ring 1|lag 2|ticks 1000|add 0|pass 56|frame aa*64|add 1|pass 1|pass 16| => 0;\
        member 9 0 add|member 41 0 norm|now 56|member 57 1 add|got 57 aa*64|now 57|now 73|\
        total ticks 73 taken 73 frames 1 commands 2 refused 0 got 1|;\n\
    live told;lines 2|delays 0 0|ring 1|lag 1|ticks 4000|add 0|add 1|pass 1000|cut 1|pass 400|mend 1|pass 400| => 0;\
        member 9 0 add|member 25 0 norm|member 25 1 add|member 281 1 norm|now 1000|member 1049 1 dnu|now 1400|\
        member 1561 1 norm|now 1800|total ticks 1800 taken 1800 frames 0 commands 2 refused 0 got 0|;"
}

/// How many frames wait: behind a pass that changed it, with the frames that were said before it. One that is sent in
/// part doesn't wait, and a frame that is refused doesn't either.
fn waiting_rows() -> &'static str {
    "\
    live told;lines 1|delays 0|ring 1|lag 1|ticks 1000|frame aa*64|frame bb*64|pass 1|pass 1|frame cc*64|pass 1|add 0|\
        pass 60| => 0;queue 2|now 1|now 2|queue 3|now 3|member 9 0 add|member 25 0 norm|got 41 aa*64|got 41 bb*64|\
        got 41 cc*64|queue 0|now 63|total ticks 63 taken 63 frames 3 commands 1 refused 0 got 3|;\n\
    live told;lines 1|delays 0|ring 1|lag 1|ticks 1000|add 0|@257 frame 00*64|pass 41|frame 00*64|pass 1|pass 3| => 0;\
        refused 257 queue|member 9 0 add|member 25 0 norm|@32 got 41 00*64|queue 223|now 41|@32 got 42 00*64|\
        queue 192|now 42|@33 got 43 00*64|@32 got 44 00*64|@33 got 45 00*64|queue 94|now 45|\
        total ticks 45 taken 45 frames 257 commands 1 refused 1 got 162|;"
}

/// The first faulty line, behind the answers to those before it; and slips that don't fit, at the first live line or
/// at the end.
fn faulty_rows() -> &'static str {
    "\
    live;lines 1|delays 0|ring 1|lag 1|ticks 9|pass 4|Pass 1| => 5;now 4|;fault: line 7: word|\
        help: a line begins with one of container, lines, delays, ring, lag, ticks, sink, holdoff, restore, \
        statuses, fail, lost, frame, add, remove, cut, mend, pass|\n\
    live;lines 1|delays 0|ring 1|lag 1|ticks 9|tick 4| => 5;;fault: line 6: word|\
        help: a line begins with one of container, lines, delays, ring, lag, ticks, sink, holdoff, restore, \
        statuses, fail, lost, frame, add, remove, cut, mend, pass|\n\
    live;lines 1|delays 0|ring 1|lag 1|ticks 9|pass 4|fail 0 5 6 0| => 5;now 4|;fault: line 7: order|\
        help: fail and lost stands before live lines|\n\
    live;# a|lines 1|delays 0|ring 1|lag 1|ticks 9|fail 0 3 5 0|ring 1| => 5;;fault: line 8: order|\
        help: the line ring stands already in line 4|\n\
    live;lines 1|delays 0|ring 1|lag 1|ticks 9|sink stops|pass 1|sink stops| => 5;now 1|;fault: line 8: order|\
        help: configuration stands before live lines|\n\
    live;lines 1|delays 0|ring 1|lag 1|ticks 9|container vc4| => 5;;fault: line 6: order|\
        help: the line container stands before the line lines|\n\
    live;lines 1|delays 0|ring 1|lag 1|ticks 9|fail 0 1 5 -3| => 5;;fault: line 6: number|\
        help: word 5 is a number of one to ten digits; a path that gets longer is no slip: SLIP is 0, and delays has \
        the longer delay|\n\
    live;lines 1|delays 0|ring 1|lag 1|ticks 9|add 0||sink stops| => 5;;fault: line 8: order|\
        help: configuration stands before live lines|\n\
    live;lines 1|delays 0|ring 1|lag 1|ticks 9|pass 4|frame 4 00| => 5;now 4|;fault: line 7: word|\
        help: frame takes 1 word, and 2 follow|\n\
    live;lines 1|delays 0|ring 1|lag 1|ticks 9|frame 0a0| => 5;;fault: line 6: hex|\
        help: word 2 is an even number of hexadecimal digits|\n\
    live;lines 1|delays 0|ring 1|lag 1|ticks 9|pass 10| => 5;;fault: line 6: range|help: word 2 is from 1 to 9|\n\
    live;lines 1|delays 0|ring 1|lag 1|ticks 9|pass 9|pass 1| => 5;now 9|;fault: line 7: range|\
        help: word 2 is at most 0|\n\
    live;lines 1|delays 0|ring 1|lag 1|ticks 9|pass 9|frame 00| => 5;now 9|;fault: line 7: order|\
        help: the last tick has passed|\n\
    live;lines 1|delays 0|ring 1|lag 1|ticks 9|cut 1| => 5;;fault: line 6: range|help: word 2 is from 0 to 0|\n\
    live;lines 1|delays 0|ring 1|lag 1|ticks 9|cut 0|pass 1|cut 0| => 5;now 1|;fault: line 8: order|\
        help: line 0 is cut already|\n\
    live;lines 1|delays 0|ring 1|lag 1|ticks 9|pass 4|add 0|mend 0| => 5;now 4|;fault: line 8: order|\
        help: line 0 isn't cut|\n\
    live;lines 1|delays 0|ring 1|lag 1|ticks 9|fail 0 3 5 0|pass 4|cut 0| => 5;now 4|;fault: line 8: order|\
        help: the failure before ends at 5|\n\
    live;lines 1|delays 0|ring 1|lag 1|ticks 9|cut 0|mend 0|cut 0|mend 0|mend 0| => 5;;fault: line 10: order|\
        help: line 0 isn't cut|\n\
    live;lines 1|delays 0|ring 1|lag 1|ticks 9|fail 0 3 5 1|pass 4 4| => 6;;fault: spread 0 0 1 1|\
        help: delays from 0 to 0 and slips of 1 need a ring of at least 2|\n\
    live;lines 1|pass 1| => 5;;fault: line 2: missing|help: the line delays has to stand here|\n\
    live; => 5;;fault: line 1: missing|help: the line lines has to stand here|\n\
    live;lines 1|delays 0|ring 1|lag 1|ticks 9|fail 0 3 5 1| => 6;;fault: spread 0 0 1 1|\
        help: delays from 0 to 0 and slips of 1 need a ring of at least 2|"
}

/// Where the call of the source fails that comes behind so many octets: the answers to the lines whose LF has come.
fn octet_row() -> &'static str {
    "\
    live;lines 1|delays 0|ring 1|lag 1|ticks 1000|add 0|pass 40|frame aa*64|\
        pass 1| => 55 TIMES 3;;fault: read failed| THEN 142 TIMES 3;now 40|;fault: read failed| THEN 3;now 40|\
        got 41 aa*64|now 41|;fault: read failed| THEN 0;now 40|got 41 aa*64|now 41|\
        total ticks 41 taken 41 frames 1 commands 1 refused 0 got 1|;"
}

/// A line that is as long as it may be, and one that is too long, each also where its LF hasn't come.
fn long_rows() -> &'static str {
    "\
    live;lines 1|delays 0|ring 1|lag 1|ticks 9|pass 1|  *131072| => \
        0;now 1|total ticks 1 taken 1 frames 0 commands 0 refused 0 got 0|;\n\
    live;lines 1|delays 0|ring 1|lag 1|ticks 9|pass 1|  *131072 => \
        0;now 1|total ticks 1 taken 1 frames 0 commands 0 refused 0 got 0|;\n\
    live;lines 1|delays 0|ring 1|lag 1|ticks 9|pass 1|   *131072| => 8;now 1|;fault: too long|\n\
    live;lines 1|delays 0|ring 1|lag 1|ticks 9|pass 1|   *131072 => 8;now 1|;fault: too long|"
}

/// What is written where the first put fails, the second, and so on, and last without a fault.
fn put_row() -> &'static str {
    "\
    live;lines 1|delays 0|ring 1|lag 1|ticks 9|pass 4|pass 1| => 4;;fault: write failed| THEN 4;now 4|now 5|;\
        fault: write failed| THEN 0;now 4|now 5|total ticks 5 taken 5 frames 0 commands 0 refused 0 got 0|;"
}

/// A note that can't be written: the status stays.
fn untold_row() -> &'static str {
    "live;x| => 5;;"
}

/// More frames than may wait, of which the last is refused, and one more once some have gone.
fn queue_row() -> &'static str {
    "\
    live;lines 1|delays 0|ring 1|lag 1|ticks 1000|add 0|@257 frame 00*64|pass 41|frame 00*64|\
        pass 1| => 0;refused 257 queue|@32 got 41 00*64|now 41|@32 got 42 00*64|now 42|\
        total ticks 42 taken 42 frames 257 commands 1 refused 1 got 64|;"
}

#[test]
fn conversations(rt: HostRuntime) {
    let rows = [
        (Turns::Pieces, "", passing_rows()),
        (Turns::Pieces, "", cut_rows()),
        (Turns::Pieces, "", refused_rows()),
        (Turns::Pieces, "", traced_rows()),
        (Turns::Pieces, "", member_rows()),
        (Turns::Pieces, "", waiting_rows()),
        (Turns::Pieces, "", faulty_rows()),
        (Turns::Pieces, "", queue_row()),
    ];
    assert_eq!(rt; wrong_walk_of(rt.alloc(), &rows).as_str(), "");
}

#[test]
fn conversations_that_are_cut_short(rt: HostRuntime) {
    let rows = [
        (Turns::Octets, "", octet_row()),
        (Turns::Whole, "", long_rows()),
        (Turns::Puts, "", put_row()),
        (Turns::Tells, "", untold_row()),
    ];
    assert_eq!(rt; wrong_walk_of(rt.alloc(), &rows).as_str(), "");
}
