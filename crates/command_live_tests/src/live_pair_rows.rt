//! The command `live pair`, whose input comes in small pieces: what is answered of both ways, by then and at the end,
//! and what is wrong with a live text of both. What is expected comes of a model of the definitions. Rows stand behind
//! functions, so that no proof sees them.

use command_rows::Turns;
use command_walk_rows::wrong_walk_of;

/// Nothing is said; frames each way, of which the first is lost behind a cut both ways; then blanks, and a last line
/// without its LF.
fn passing_rows() -> &'static str {
    "\
    live pair;lines 1|delays 0|ring 1|lag 1|ticks 9|other|lines 1|delays 0|ring 1|lag 1|ticks 9| => 0;\
        total there ticks 0 taken 0 frames 0 commands 0 refused 0 got 0|\
        total back ticks 0 taken 0 frames 0 commands 0 refused 0 got 0|;\n\
    live pair;lines 1|delays 0|ring 1|lag 1|ticks 1000|other|lines 1|delays 0|ring 1|lag 1|ticks 1000|add there 0|\
        add back 0|pass 100|cut there 0|cut back 0|pass 60|mend there 0|mend back 0|pass 40|frame there aa*64|\
        frame there bb*64|frame back cc*64|frame back dd*64|pass 1| => 0;now 100|now 160|now 200|\
        got there 201 bb*64|got back 201 dd*64|now 201|\
        total there ticks 201 taken 201 frames 2 commands 1 refused 0 got 1|\
        total back ticks 201 taken 201 frames 2 commands 1 refused 0 got 1|;\n\
    live pair;lines 1|delays 0|ring 1|lag 1|ticks 9|#|other \r|lines 1|delays 0|ring 1|lag 1|ticks 9|# a\r|\
        pass   03 \r||pass 2 => 0;now 3|now 5|total there ticks 5 taken 5 frames 0 commands 0 refused 0 got 0|\
        total back ticks 5 taken 5 frames 0 commands 0 refused 0 got 0|;"
}

/// Items are numbered by way, and one that is refused is told at once.
fn refused_rows() -> &'static str {
    "\
    live pair;lines 1|delays 0|ring 1|lag 1|ticks 9|other|lines 1|delays 0|ring 1|lag 1|ticks 9|remove back 0|\
        frame there 00|add back 1|pass 9| => 0;refused back 0 not in|refused there 0 length 1|\
        refused back 1 unknown|now 9|total there ticks 9 taken 9 frames 0 commands 0 refused 1 got 0|\
        total back ticks 9 taken 9 frames 0 commands 0 refused 2 got 0|;"
}

/// A cut of the way back that no frame of the way there meets; and an option that the way back has alone.
fn cut_rows() -> &'static str {
    "\
    live pair;lines 1|delays 0|ring 1|lag 1|ticks 1000|other|lines 1|delays 0|ring 1|lag 1|ticks 1000|add there 0|\
        pass 100|cut back 0|pass 1|mend back 0|frame there aa*64|pass 1| => 0;now 100|now 101|got there 102 aa*64|\
        now 102|total there ticks 102 taken 102 frames 1 commands 1 refused 0 got 1|\
        total back ticks 102 taken 102 frames 0 commands 0 refused 0 got 0|;\n\
    live pair;lines 2|delays 0 0|ring 1|lag 1|ticks 1000|other|lines 2|delays 0 0|ring 1|lag 1|ticks 1000|\
        sink infers|add there 0|add there 1|add back 0|add back 1|pass 900|cut there 1|cut back 1|pass 1|\
        mend there 1|mend back 1|pass 13|frame there aa*64|frame there bb*64|frame there cc*64|frame back aa*64|\
        frame back bb*64|frame back cc*64|pass 1| => 0;now 900|now 901|now 914|got back 915 cc*64|now 915|\
        total there ticks 915 taken 915 frames 3 commands 2 refused 0 got 0|\
        total back ticks 915 taken 915 frames 3 commands 2 refused 0 got 1|;"
}

/// Decision steps of both ways. A packet of the way back that can't be read tells the step there nothing.
fn traced_rows() -> &'static str {
    "\
    live pair trace;lines 1|delays 0|ring 1|lag 1|ticks 1000|other|lines 1|delays 0|ring 1|lag 1|ticks 1000|\
        add there 0|pass 40|cut back 0|pass 30| => 0;packet there 0 chg 1 act 0 back none add:0|\
        packet back 0 chg 0 act 0 back none idle:255|packet there 1 chg 1 act 0 back none add:0|\
        packet back 1 chg 0 act 0 back none idle:255|now 40|packet there 2 chg 1 act 1 back 7f/1 eos:0|\
        packet back 2 chg 0 act 0 back ff/0 idle:255|packet there 3 chg 1 act 1 back lost eos:0|\
        packet back 3 chg 0 act 0 back ff/0 idle:255|now 70|\
        total there ticks 70 taken 70 frames 0 commands 1 refused 0 got 0|\
        total back ticks 70 taken 70 frames 0 commands 0 refused 0 got 0|;"
}

/// What becomes of members, each way over lines of its own. Then a line that is cut: one way alone, both ways, and both
/// ways beside a line that isn't; a status comes back where a line of the other way carries it.
fn member_rows() -> &'static str {
    "\
    live pair told;lines 1|delays 0|ring 1|lag 2|ticks 1000|other|lines 2|delays 1 2|ring 2|lag 2|ticks 1000|\
        add there 0|add back 0|add back 0|pass 100|frame there aa*64|frame back bb*64|pass 1|pass 9| => 0;\
        refused back 1 already in|member there 9 0 add|member back 9 0 add|member there 73 0 norm|\
        member back 73 0 norm|now 100|got there 101 aa*64|now 101|got back 103 bb*64|now 110|\
        total there ticks 110 taken 110 frames 1 commands 1 refused 0 got 1|\
        total back ticks 110 taken 108 frames 1 commands 1 refused 1 got 1|;\n\
    live pair told;lines 1|delays 0|ring 1|lag 1|ticks 4000|other|lines 1|delays 0|ring 1|lag 1|ticks 4000|\
        add there 0|add back 0|pass 1000|cut there 0|pass 400|mend there 0|pass 400| => 0;member there 9 0 add|\
        member back 9 0 add|member there 41 0 norm|member back 41 0 norm|now 1000|member there 1065 0 dnu|now 1400|\
        member there 1577 0 norm|now 1800|total there ticks 1800 taken 1800 frames 0 commands 1 refused 0 got 0|\
        total back ticks 1800 taken 1800 frames 0 commands 1 refused 0 got 0|;\n\
    live pair told;lines 1|delays 0|ring 1|lag 1|ticks 4000|other|lines 1|delays 0|ring 1|lag 1|ticks 4000|\
        add there 0|add back 0|pass 1000|cut there 0|cut back 0|pass 400|mend there 0|mend back 0|pass 400| => 0;\
        member there 9 0 add|member back 9 0 add|member there 41 0 norm|member back 41 0 norm|now 1000|now 1400|\
        now 1800|total there ticks 1800 taken 1800 frames 0 commands 1 refused 0 got 0|\
        total back ticks 1800 taken 1800 frames 0 commands 1 refused 0 got 0|;\n\
    live pair told;lines 2|delays 0 0|ring 1|lag 1|ticks 4000|other|lines 2|delays 0 0|ring 1|lag 1|ticks 4000|\
        add there 0|add there 1|add back 0|add back 1|pass 1000|cut there 1|cut back 1|pass 400|mend there 1|\
        mend back 1|pass 400| => 0;member there 9 0 add|member back 9 0 add|member there 41 0 norm|\
        member there 41 1 add|member back 41 0 norm|member back 41 1 add|member there 297 1 norm|\
        member back 297 1 norm|now 1000|member there 1065 1 dnu|member back 1065 1 dnu|now 1400|\
        member there 1577 1 norm|member back 1577 1 norm|now 1800|\
        total there ticks 1800 taken 1800 frames 0 commands 2 refused 0 got 0|\
        total back ticks 1800 taken 1800 frames 0 commands 2 refused 0 got 0|;"
}

/// What comes in one round: of both steps, and then of both rows.
fn round_rows() -> &'static str {
    "\
    live pair told;lines 2|delays 0 0|ring 1|lag 1|ticks 1000|other|lines 1|delays 0|ring 1|lag 1|ticks 1000|\
        add there 0|add back 0|pass 56|add there 1|frame there aa*64|frame back bb*64|remove back 0|pass 1| => 0;\
        member there 9 0 add|member back 9 0 add|member there 41 0 norm|member back 41 0 norm|now 56|\
        member there 57 1 add|member back 57 0 idle|got there 57 aa*64|got back 57 bb*64|now 57|\
        total there ticks 57 taken 57 frames 1 commands 2 refused 0 got 1|\
        total back ticks 57 taken 57 frames 1 commands 2 refused 0 got 1|;"
}

/// How many frames wait, of each way by itself.
fn waiting_rows() -> &'static str {
    "\
    live pair told;lines 1|delays 0|ring 1|lag 1|ticks 1000|other|lines 1|delays 0|ring 1|lag 1|ticks 1000|\
        frame back aa*64|frame back bb*64|frame there cc*64|pass 1|add there 0|frame there dd*64|pass 1|add back 0|\
        pass 60| => 0;queue there 1|queue back 2|now 1|queue there 2|now 2|member there 9 0 add|member back 9 0 add|\
        member there 41 0 norm|member back 41 0 norm|got there 57 cc*64|got there 57 dd*64|got back 57 aa*64|\
        got back 57 bb*64|queue there 0|queue back 0|now 62|\
        total there ticks 62 taken 62 frames 2 commands 1 refused 0 got 2|\
        total back ticks 62 taken 62 frames 2 commands 1 refused 0 got 2|;\n\
    live pair told;lines 1|delays 0|ring 1|lag 1|ticks 9|other|lines 1|delays 0|ring 1|lag 1|ticks 9|\
        @257 frame there 00*64|frame back aa*64|pass 1|pass 1| => 0;refused there 256 queue|queue there 256|\
        queue back 1|now 1|now 2|total there ticks 2 taken 2 frames 256 commands 0 refused 1 got 0|\
        total back ticks 2 taken 2 frames 1 commands 0 refused 0 got 0|;"
}

/// The first faulty live line, behind the answers to those before it.
fn faulty_rows() -> &'static str {
    "\
    live pair;lines 1|delays 0|ring 1|lag 1|ticks 9|other|lines 1|delays 0|ring 1|lag 1|ticks 9|cut 0| => 5;;\
        fault: line 12: word|help: cut takes 2 words, and 1 follows|\n\
    live pair;lines 1|delays 0|ring 1|lag 1|ticks 9|other|lines 1|delays 0|ring 1|lag 1|ticks 9|pass there 1| => 5;;\
        fault: line 12: word|help: pass takes 1 word, and 2 follow|\n\
    live pair;lines 1|delays 0|ring 1|lag 1|ticks 9|other|lines 1|delays 0|ring 1|lag 1|ticks 9|pass 4|\
        frame There 0a0| => 5;now 4|;fault: line 13: word|help: word 2 is there or back|\n\
    live pair;lines 1|delays 0|ring 1|lag 1|ticks 9|other|lines 1|delays 0|ring 1|lag 1|ticks 9|frame back 0a0| => \
        5;;fault: line 12: hex|help: word 3 is an even number of hexadecimal digits|\n\
    live pair;lines 1|delays 0|ring 1|lag 1|ticks 9|other|lines 1|delays 0|ring 1|lag 1|ticks 9|cut back 1| => 5;;\
        fault: line 12: range|help: word 3 is from 0 to 0|\n\
    live pair;lines 1|delays 0|ring 1|lag 1|ticks 9|other|lines 1|delays 0|ring 1|lag 1|ticks 9|add there 256| => 5;\
        ;fault: line 12: range|help: word 3 is from 0 to 255|\n\
    live pair;lines 1|delays 0|ring 1|lag 1|ticks 9|other|lines 1|delays 0|ring 1|lag 1|ticks 9|pass 10| => 5;;\
        fault: line 12: range|help: word 2 is from 1 to 9|\n\
    live pair;lines 1|delays 0|ring 1|lag 1|ticks 9|other|lines 1|delays 0|ring 1|lag 1|ticks 9|pass 9|pass 1| => 5;\
        now 9|;fault: line 13: range|help: word 2 is at most 0|\n\
    live pair;lines 1|delays 0|ring 1|lag 1|ticks 9|other|lines 1|delays 0|ring 1|lag 1|ticks 9|cut there 0|\
        cut back 0|pass 1|cut back 0| => 5;now 1|;fault: line 15: order|help: line 0 is cut already|\n\
    live pair;lines 1|delays 0|ring 1|lag 1|ticks 9|other|lines 1|delays 0|ring 1|lag 1|ticks 9|cut there 0|\
        mend back 0| => 5;;fault: line 13: order|help: line 0 isn't cut|\n\
    live pair;lines 1|delays 0|ring 1|lag 1|ticks 9|other|lines 1|delays 0|ring 1|lag 1|ticks 9|fail 0 3 5 0|pass 4|\
        cut there 0|cut back 0| => 5;now 4|;fault: line 15: order|help: the failure before ends at 5|\n\
    live pair;lines 1|delays 0|ring 1|lag 1|ticks 9|other|lines 1|delays 0|ring 1|lag 1|ticks 9|pass 9|\
        add back 0| => 5;now 9|;fault: line 13: order|help: the last tick has passed|\n\
    live pair;lines 1|delays 0|ring 1|lag 1|ticks 9|other|lines 1|delays 0|ring 1|lag 1|ticks 9|pass 4|lost 0 1| => \
        5;now 4|;fault: line 13: order|help: fail and lost stands before live lines|\n\
    live pair;lines 1|delays 0|ring 1|lag 1|ticks 9|other|lines 1|delays 0|ring 1|lag 1|ticks 9|pass 4|\
        sink infers| => 5;now 4|;fault: line 13: order|help: configuration stands before live lines|\n\
    live pair;lines 1|delays 0|ring 1|lag 1|ticks 9|other|lines 1|delays 0|ring 1|lag 1|ticks 9|other| => 5;;\
        fault: line 12: word|help: a line begins with one of container, lines, delays, ring, lag, ticks, sink, \
        holdoff, restore, statuses, fail, lost, frame, add, remove, cut, mend, pass|\n\
    live pair;lines 1|delays 0|ring 1|lag 1|ticks 9|other|lines 1|delays 0|ring 1|lag 1|ticks 9|pass 4|tick 4| => 5;\
        now 4|;fault: line 13: word|help: a line begins with one of container, lines, delays, ring, lag, ticks, \
        sink, holdoff, restore, statuses, fail, lost, frame, add, remove, cut, mend, pass|"
}

/// Two configurations that aren't whole, or don't go together: at the first live line, or at the end.
fn division_rows() -> &'static str {
    "\
    live pair;lines 1|delays 0|ring 1|lag 1|ticks 9|other x| => 5;;fault: line 6: word|help: a line begins with one \
        of container, lines, delays, ring, lag, ticks, sink, holdoff, restore, statuses, fail, lost, frame, add, \
        remove, cut, mend, pass|\n\
    live pair;lines 1|delays 0|ring 1|lag 1|ticks 9|pass 1| => 5;;fault: line 6: missing|\
        help: a line other divides the two scripts|\n\
    live pair;lines 1|delays 0|ring 1|lag 1|ticks 9| => 5;;fault: line 6: missing|\
        help: a line other divides the two scripts|\n\
    live pair; => 5;;fault: line 1: missing|help: the line lines has to stand here|\n\
    live pair;lines 1|other| => 5;;fault: line 2: missing|help: the line delays has to stand here|\n\
    live pair;other| => 5;;fault: line 1: missing|help: the line lines has to stand here|\n\
    live pair;lines 1|delays 0|ring 1|lag 1|ticks 9|other|lines 1|pass 1| => 5;;fault: line 8: missing|\
        help: the line delays has to stand here|\n\
    live pair;lines 1|delays 0|ring 1|lag 1|ticks 9|other| => 5;;fault: line 7: missing|\
        help: the line lines has to stand here|\n\
    live pair;lines 1|delays 0|ring 1|lag 1|ticks 9|lost 0 1|other|lines 1|delays 17|ring 1|lag 1|ticks 8| => 6;;\
        fault: lag 1 least 3|help: back: a delay of 17 and slips of 0 need a lag of at least 3|\n\
    live pair;lines 1|delays 0|ring 1|lag 1|ticks 9|fail 0 3 5 1|other|lines 1|delays 0|ring 1|lag 1|ticks 9|\
        pass 4 4| => 6;;fault: spread 0 0 1 1|\
        help: there: delays from 0 to 0 and slips of 1 need a ring of at least 2|\n\
    live pair;lines 1|delays 0|ring 1|lag 1|ticks 9|lost 0 1|other|lines 1|delays 0|ring 1|lag 2|ticks 8| => 6;;\
        fault: pair lost|help: there: a script of a pair has no lost lines; failures of the other way lose its \
        return packets|\n\
    live pair;lines 1|delays 0|ring 1|lag 1|ticks 9|other|lines 1|delays 0|ring 1|lag 1|ticks 9|lost 0 1| => 6;;\
        fault: pair lost|help: back: a script of a pair has no lost lines; failures of the other way lose its \
        return packets|\n\
    live pair;lines 1|delays 0|ring 1|lag 1|ticks 9|other|lines 1|delays 0|ring 1|lag 2|ticks 8|pass 1 1| => 6;;\
        fault: pair lag 1 2|help: both scripts have one lag, from 1 to 256|\n\
    live pair;lines 1|delays 0|ring 1|lag 1|ticks 9|other|lines 1|delays 0|ring 1|lag 1|ticks 8| => 6;;\
        fault: pair ticks 9 8|help: both scripts have one number of ticks|"
}

/// Where the call of the source fails that comes behind so many octets: the answers to the lines whose LF has come.
fn octet_row() -> &'static str {
    "\
    live pair;lines 1|delays 0|ring 1|lag 1|ticks 1000|other|lines 1|delays 0|ring 1|lag 1|ticks 1000|add back 0|\
        pass 60|frame there 00|frame back aa*64|pass 1| => 107 TIMES 3;;fault: read failed| THEN 15 TIMES 3;now 60|;\
        fault: read failed| THEN 147 TIMES 3;now 60|refused there 0 length 1|;fault: read failed| THEN 3;now 60|\
        refused there 0 length 1|got back 61 aa*64|now 61|;fault: read failed| THEN 0;now 60|\
        refused there 0 length 1|got back 61 aa*64|now 61|\
        total there ticks 61 taken 61 frames 0 commands 0 refused 1 got 0|\
        total back ticks 61 taken 61 frames 1 commands 1 refused 0 got 1|;"
}

/// A line that is too long, also where its LF hasn't come.
fn long_rows() -> &'static str {
    "\
    live pair;lines 1|delays 0|ring 1|lag 1|ticks 9|other|lines 1|delays 0|ring 1|lag 1|ticks 9|pass 1|\
        #  *131072| => 8;now 1|;fault: too long|\n\
    live pair;lines 1|delays 0|ring 1|lag 1|ticks 9|other|lines 1|delays 0|ring 1|lag 1|ticks 9|pass 1|\
        #  *131072 => 8;now 1|;fault: too long|"
}

/// What is written where the first put fails, the second, and so on, and last without a fault.
fn put_row() -> &'static str {
    "\
    live pair;lines 1|delays 0|ring 1|lag 1|ticks 9|other|lines 1|delays 0|ring 1|lag 1|ticks 9|pass 4|pass 1| => 4;;\
        fault: write failed| THEN 4;now 4|now 5|;fault: write failed| THEN 0;now 4|now 5|\
        total there ticks 5 taken 5 frames 0 commands 0 refused 0 got 0|\
        total back ticks 5 taken 5 frames 0 commands 0 refused 0 got 0|;"
}

/// A note that can't be written: the status stays.
fn untold_row() -> &'static str {
    "live pair;x| => 5;;"
}

#[test]
fn conversations_of_both_ways(rt: HostRuntime) {
    let rows = [
        (Turns::Pieces, "", passing_rows()),
        (Turns::Pieces, "", refused_rows()),
        (Turns::Pieces, "", cut_rows()),
        (Turns::Pieces, "", traced_rows()),
        (Turns::Pieces, "", member_rows()),
        (Turns::Pieces, "", round_rows()),
        (Turns::Pieces, "", waiting_rows()),
        (Turns::Pieces, "", faulty_rows()),
        (Turns::Pieces, "", division_rows()),
    ];
    assert_eq!(rt; wrong_walk_of(rt.alloc(), &rows).as_str(), "");
}

#[test]
fn conversations_of_both_ways_that_are_cut_short(rt: HostRuntime) {
    let rows = [
        (Turns::Octets, "", octet_row()),
        (Turns::Whole, "", long_rows()),
        (Turns::Puts, "", put_row()),
        (Turns::Tells, "", untold_row()),
    ];
    assert_eq!(rt; wrong_walk_of(rt.alloc(), &rows).as_str(), "");
}
