//! Scripts, their first faults, and what comes of their walks by a model that was written apart. Rows stand
//! behind functions, so that no proof sees them.

use command_rows::Turns;
use command_walk_rows::wrong_walk_of;

/// Texts, and the first fault that is told of each, where there is one.
fn fault_rows() -> &'static str {
    "\
    |# x| => 5;;fault: line 3: missing|help: the line lines has to stand here|\n\
    foo|lines 0 => 5;;fault: line 1: word|help: ~|\n\
    lines 1|foo => 5;;fault: line 2: word|help: ~|\n\
    lines 1|ring 1 => 5;;fault: line 2: missing|help: the line delays has to stand here|\n\
    lines 1|lines 1 => 5;;fault: line 2: missing|help: the line delays has to stand here|\n\
    lines 1|container vc3 => 5;;fault: line 2: missing|help: the line delays has to stand here|\n\
    container vc3|container vc3 => 5;;fault: line 2: missing|help: the line lines has to stand here|\n\
    container vc3|# x|delays 0 => 5;;fault: line 3: missing|help: the line lines has to stand here|\n\
    #|lines 1|# x| => 5;;fault: line 4: missing|help: the line delays has to stand here|\n\
    lines 1|add 0 0 => 5;;fault: line 2: missing|help: the line delays has to stand here|\n\
    ring => 5;;fault: line 1: missing|help: the line lines has to stand here|\n\
    lines 1|delays 0|ring 1|lag 1|ticks 9|ring 1 => 5;;fault: line 6: order|\
        help: the line ring stands already in line 3|\n\
    lines 1|delays 0|ring 1|lag 1|ticks 9|delays 0 => 5;;fault: line 6: order|\
        help: the line delays stands already in line 2|\n\
    lines 1|delays 0|ring 1|lag 1|ticks 9|fail 0 1 2 0|ring 1 => 5;;fault: line 7: order|\
        help: the line ring stands already in line 3|\n\
    # a||lines 1|delays 0|# b|ring 1|lag 1|ticks 9|add 0 0||ring => 5;;fault: line 11: order|\
        help: the line ring stands already in line 6|\n\
    lines 1|delays 0|ring 1|lag 1|ticks 9|tick 1|lag 1 => 5;;fault: line 7: order|\
        help: the line lag stands already in line 4|\n\
    lines 1|delays 0|ring 1|lag 1|ticks 9|container vc3 => 5;;fault: line 6: order|\
        help: the line container stands before the line lines|\n\
    lines 1|delays 0|ring 1|lag 1|ticks 9|container vc4 => 5;;fault: line 6: order|\
        help: the line container stands before the line lines|\n\
    container vc3|lines 1|delays 0|ring 1|lag 1|ticks 9|container vc4 => 5;;fault: line 7: order|\
        help: the line container stands already in line 1|\n\
    lines 1|delays 0|ring 1|lag 1|ticks 9|add 0 0|fail => 5;;fault: line 7: order|\
        help: fail and lost stands before frame, stream, add and remove|\n\
    lines 1|delays 0|ring 1|lag 1|ticks 9|tick 1|lost 0 1 => 5;;fault: line 7: order|\
        help: fail and lost stands before event lines|\n\
    lines 1|delays 0|ring 1|lag 1|ticks 9|drain|add 0 0 => 5;;fault: line 7: order|\
        help: frame, stream, add and remove stands before event lines|\n\
    lines 1|delays 0|ring 1|lag 1|ticks 9|Add 0 0 => 5;;fault: line 6: word|help: ~|\n\
    lines 1|delays 0|ring 1|lag 1|ticks 9|ticks9 => 5;;fault: line 6: word|help: ~|\n\
    lines => 5;;fault: line 1: word|help: lines takes 1 word, and 0 follow|\n\
    lines x y => 5;;fault: line 1: word|help: lines takes 1 word, and 2 follow|\n\
    lines 2|delays 0 => 5;;fault: line 2: word|help: delays takes 2 words, and 1 follows|\n\
    lines 2|delays 0 0 0 => 5;;fault: line 2: word|help: delays takes 2 words, and 3 follow|\n\
    lines 1|delays 0|ring 1|lag 1|ticks 9|fail 0 0 1 => 5;;fault: line 6: word|\
        help: fail takes 4 words, and 3 follow|\n\
    lines 1|delays 0|ring 1|lag 1|ticks 9|lost 0 1 2 => 5;;fault: line 6: word|\
        help: lost takes 2 words, and 3 follow|\n\
    lines 1|delays 0|ring 1|lag 1|ticks 9|frame 0 => 5;;fault: line 6: word|help: frame takes 2 words, and 1 follows|\n\
    lines 1|delays 0|ring 1|lag 1|ticks 9|add 0 0 0 => 5;;fault: line 6: word|help: add takes 2 words, and 3 follow|\n\
    lines 1|delays 0|ring 1|lag 1|ticks 9|carry 0 => 5;;fault: line 6: word|help: carry takes 2 words, and 1 follows|\n\
    lines 1|delays 0|ring 1|lag 1|ticks 9|round => 5;;fault: line 6: word|help: round takes 1 word, and 0 follow|\n\
    lines 1|delays 0|ring 1|lag 1|ticks 9|add 0 => 5;;fault: line 6: word|help: add takes 2 words, and 1 follows|\n\
    lines 1|delays 0|ring 1|lag 1|ticks 9|drain 1 => 5;;fault: line 6: word|help: drain takes 0 words, and 1 follows|\n\
    container vc5 => 5;;fault: line 1: word|help: word 2 is vc3 or vc4|\n\
    lines 00000000001 => 5;;fault: line 1: number|help: word 2 is a number of one to ten digits|\n\
    lines 9999999999 => 5;;fault: line 1: range|help: word 2 is from 1 to 128|\n\
    lines 1x => 5;;fault: line 1: number|help: word 2 is a number of one to ten digits|\n\
    lines -1 => 5;;fault: line 1: number|help: word 2 is a number of one to ten digits|\n\
    lines 0 => 5;;fault: line 1: range|help: word 2 is from 1 to 128|\n\
    lines 129 => 5;;fault: line 1: range|help: word 2 is from 1 to 128|\n\
    lines 3|delays 0 2048 x => 5;;fault: line 2: range|help: word 3 is from 0 to 2047|\n\
    lines 3|delays 0 x 2048 => 5;;fault: line 2: number|help: word 3 is a number of one to ten digits|\n\
    lines 1|delays 0|ring 2049 => 5;;fault: line 3: range|help: word 2 is from 1 to 2048|\n\
    lines 1|delays 0|ring 1|lag 513 => 5;;fault: line 4: range|help: word 2 is from 1 to 512|\n\
    lines 1|delays 0|ring 1|lag 1|ticks 100000001 => 5;;fault: line 5: range|help: word 2 is from 1 to 100000000|\n\
    lines 1|delays 0|ring 1|lag 1|ticks 9|fail 1 0 1 0 => 5;;fault: line 6: range|help: word 2 is from 0 to 0|\n\
    lines 1|delays 0|ring 1|lag 1|ticks 9|fail 0 9999999999 9 x => 5;;fault: line 6: range|help: word 4 is at most 9|\n\
    lines 1|delays 0|ring 1|lag 1|ticks 9|fail 0 99999999999 x 0 => 5;;fault: line 6: number|\
        help: word 3 is a number of one to ten digits|\n\
    lines 1|delays 0|ring 1|lag 1|ticks 9|fail 0 1 5 -3 => 5;;fault: line 6: number|\
        help: word 5 is a number of one to ten digits; a path that gets longer is no slip: SLIP is 0, and delays has \
        the longer delay|\n\
    lines 1|delays 0|ring 1|lag 1|ticks 9|fail 0 1 5 -1234567890 => 5;;fault: line 6: number|\
        help: word 5 is a number of one to ten digits; a path that gets longer is no slip: SLIP is 0, and delays has \
        the longer delay|\n\
    lines 1|delays 0|ring 1|lag 1|ticks 9|fail 0 1 5 -x => 5;;fault: line 6: number|\
        help: word 5 is a number of one to ten digits|\n\
    lines 1|delays 0|ring 1|lag 1|ticks 9|fail 0 1 5 - => 5;;fault: line 6: number|\
        help: word 5 is a number of one to ten digits|\n\
    lines 1|delays 0|ring 1|lag 1|ticks 9|fail 0 1 5 -12345678901 => 5;;fault: line 6: number|\
        help: word 5 is a number of one to ten digits|\n\
    lines 1|delays 0|ring 1|lag 1|ticks 9|fail 0 1 -5 -3 => 5;;fault: line 6: number|\
        help: word 4 is a number of one to ten digits|\n\
    lines 1|delays 0|ring 1|lag 1|ticks 9|fail 0 10 5 -3 => 5;;fault: line 6: range|help: word 4 is at most 9|\n\
    lines 1|delays 0|ring 1|lag 1|ticks 9|fail 0 3 3 0 => 5;;fault: line 6: range|help: word 4 is from 4 to 9|\n\
    lines 1|delays 0|ring 1|lag 1|ticks 9|fail 0 0 10 0 => 5;;fault: line 6: range|help: word 4 is from 1 to 9|\n\
    lines 1|delays 0|ring 1|lag 1|ticks 9|fail 0 8 9 2048 => 5;;fault: line 6: range|help: word 5 is from 0 to 2047|\n\
    lines 1|delays 0|ring 1|lag 1|ticks 9|fail 0 0 x 2048 => 5;;fault: line 6: number|\
        help: word 4 is a number of one to ten digits|\n\
    lines 1|delays 0|ring 1|lag 1|ticks 9|lost 5 5 => 5;;fault: line 6: range|help: word 3 is from 6 to 6250000|\n\
    lines 1|delays 0|ring 1|lag 1|ticks 9|lost 0 6250001 => 5;;fault: line 6: range|\
        help: word 3 is from 1 to 6250000|\n\
    lines 1|delays 0|ring 1|lag 1|ticks 9|lost x 62501 => 5;;fault: line 6: number|\
        help: word 2 is a number of one to ten digits|\n\
    lines 1|delays 0|ring 1|lag 1|ticks 9|frame 9 abc => 5;;fault: line 6: range|help: word 2 is from 0 to 8|\n\
    lines 1|delays 0|ring 1|lag 1|ticks 9|frame 0 abc => 5;;fault: line 6: hex|\
        help: word 3 is an even number of hexadecimal digits|\n\
    lines 1|delays 0|ring 1|lag 1|ticks 9|frame 0 0g => 5;;fault: line 6: hex|\
        help: word 3 is an even number of hexadecimal digits|\n\
    lines 1|delays 0|ring 1|lag 1|ticks 9|frame 1 00|frame 0 0g => 5;;fault: line 7: hex|\
        help: word 3 is an even number of hexadecimal digits|\n\
    lines 1|delays 0|ring 1|lag 1|ticks 9|add x 256 => 5;;fault: line 6: number|\
        help: word 2 is a number of one to ten digits|\n\
    lines 1|delays 0|ring 1|lag 1|ticks 9|add 9 x => 5;;fault: line 6: range|help: word 2 is from 0 to 8|\n\
    lines 1|delays 0|ring 1|lag 1|ticks 9|add 0 256 => 5;;fault: line 6: range|help: word 3 is from 0 to 255|\n\
    lines 1|delays 0|ring 1|lag 1|ticks 9|remove 0 0x => 5;;fault: line 6: number|\
        help: word 3 is a number of one to ten digits|\n\
    lines 1|delays 0|ring 1|lag 1|ticks 9|client 0 => 5;;fault: line 6: range|help: word 2 is from 1 to 1000000|\n\
    lines 1|delays 0|ring 1|lag 1|ticks 9|take 1000001 => 5;;fault: line 6: range|help: word 2 is from 1 to 1000000|\n\
    lines 1|delays 0|ring 1|lag 1|ticks 9|carry 1 1 => 5;;fault: line 6: range|help: word 2 is from 0 to 0|\n\
    lines 1|delays 0|ring 1|lag 1|ticks 9|carry 0 0 => 5;;fault: line 6: range|help: word 3 is from 1 to 1000000|\n\
    lines 1|delays 0|ring 1|lag 1|ticks 9|fail 0 3 5 0|fail 0 4 6 0 => 5;;fault: line 7: order|\
        help: the failure before ends at 5|\n\
    lines 1|delays 0|ring 1|lag 1|ticks 9|fail 0 3 5 0|fail 0 5 6 0|lost 1 3|lost 3 4|\
        lost 3 5 => 5;;fault: line 10: order|help: the loss before ends at 4|\n\
    lines 1|delays 0|ring 1|lag 1|ticks 9|add 5 0|add 4 0 => 5;;fault: line 7: order|\
        help: the command before is due at 5|\n\
    lines 1|delays 0|ring 1|lag 1|ticks 9|add 5 0|remove 4 0 => 5;;fault: line 7: order|\
        help: the command before is due at 5|\n\
    lines 1|delays 0|ring 1|lag 1|ticks 9|add 5 0|add 4 256 => 5;;fault: line 7: range|help: word 3 is from 0 to 255|\n\
    lines 1|delays 0|ring 1|lag 1|ticks 9|frame 5 00|frame 4 00 => 5;;fault: line 7: order|\
        help: the frame before is due at 5|\n\
    lines 1|delays 0|ring 1|lag 1|ticks 9|add 5 0|frame 4 00|add 5 0|frame 3 00 => 5;;fault: line 9: order|\
        help: the frame before is due at 4|\n\
    lines 1\r\r| => 5;;fault: line 1: number|help: word 2 is a number of one to ten digits|\n\
    lines 1\r => 5;;fault: line 1: number|help: word 2 is a number of one to ten digits|\n\
    #\r|\t| => 5;;fault: line 2: word|help: ~|\n\
    lines\t1 => 5;;fault: line 1: word|help: ~|\n\
    lines 1|delays 0|ring 1|lag 1|ticks 9|add 0 0# => 5;;fault: line 6: number|\
        help: word 3 is a number of one to ten digits|\n\
    lines 129|foo => 5;;fault: line 1: range|help: word 2 is from 1 to 128|\n\
    lines 2|delays 0 63|ring 63|lag 5|ticks 9 => 6;;fault: spread 63 0 0 63|\
        help: delays from 0 to 63 and slips of 0 need a ring of at least 64|\n\
    lines 2|delays 0 63|ring 64|lag 4|ticks 9 => 6;;fault: lag 4 least 5|\
        help: a delay of 63 and slips of 0 need a lag of at least 5|\n\
    lines 2|delays 0 64|ring 65|lag 4|ticks 9 => 6;;fault: lag 4 least 5|\
        help: a delay of 64 and slips of 0 need a lag of at least 5|\n\
    lines 2|delays 0 65|ring 66|lag 5|ticks 9 => 6;;fault: lag 5 least 6|\
        help: a delay of 65 and slips of 0 need a lag of at least 6|\n\
    lines 2|delays 0 63|ring 63|lag 4|ticks 9 => 6;;fault: spread 63 0 0 63|\
        help: delays from 0 to 63 and slips of 0 need a ring of at least 64|\n\
    lines 2|delays 0 63|ring 64|lag 5|ticks 100|fail 0 10 20 10 => 6;;fault: slip line 0 window 0|\
        help: a slip of 10 needs a failure of at least 11 frames|\n\
    lines 2|delays 0 63|ring 64|lag 5|ticks 100|fail 1 10 20 9|fail 1 20 22 2|\
        fail 1 30 31 1 => 6;;fault: slip line 1 window 1|help: a slip of 2 needs a failure of at least 3 frames|\n\
    lines 2|delays 0 63|ring 64|lag 5|ticks 100|fail 1 0 1 1|fail 0 0 1 0|\
        fail 0 1 2 1 => 6;;fault: slip line 0 window 1|help: a slip of 1 needs a failure of at least 2 frames|\n\
    lines 2|delays 0 63|ring 64|lag 5|ticks 100|fail 1 10 20 9 => 6;;fault: spread 63 0 9 64|\
        help: delays from 0 to 63 and slips of 9 need a ring of at least 73|\n\
    lines 1|delays 3|ring 8|lag 2|ticks 100|fail 0 10 20 4|\
        fail 0 36 40 3 => 0+;total ticks 100 taken 100 frames 0 commands 0 refused 0 got 0|;\n\
    lines 1|delays 3|ring 7|lag 2|ticks 100|fail 0 10 20 4|fail 0 36 40 3 => 6;;fault: spread 3 3 7 7|\
        help: delays from 3 to 3 and slips of 7 need a ring of at least 8|\n\
    lines 1|delays 3|ring 7|lag 2|ticks 100|fail 0 10 20 4|\
        fail 0 37 40 2 => 0+;total ticks 100 taken 100 frames 0 commands 0 refused 0 got 0|;\n\
    lines 1|delays 3|ring 8|lag 2|ticks 200|fail 0 100 110 3|\
        fail 0 120 130 4 => 0+;total ticks 200 taken 200 frames 0 commands 0 refused 0 got 0|;\n\
    lines 1|delays 3|ring 7|lag 2|ticks 200|fail 0 100 110 3|fail 0 120 130 4 => 6;;fault: spread 3 3 7 7|\
        help: delays from 3 to 3 and slips of 7 need a ring of at least 8|\n\
    lines 1|delays 3|ring 7|lag 2|ticks 200|fail 0 100 110 3|fail 0 126 136 4 => 6;;fault: spread 3 3 7 7|\
        help: delays from 3 to 3 and slips of 7 need a ring of at least 8|\n\
    lines 1|delays 3|ring 5|lag 2|ticks 200|fail 0 100 110 3|\
        fail 0 127 137 4 => 0+;total ticks 200 taken 200 frames 0 commands 0 refused 0 got 0|;\n\
    lines 1|delays 3|ring 4|lag 2|ticks 200|fail 0 100 110 3|fail 0 127 137 4 => 6;;fault: spread 3 3 4 4|\
        help: delays from 3 to 3 and slips of 4 need a ring of at least 5|\n\
    lines 1|delays 14|ring 5|lag 2|ticks 100|fail 0 10 20 3 => 6;;fault: lag 2 least 3|\
        help: a delay of 14 and slips of 3 need a lag of at least 3|"
}

/// As many windows of a line or of the return path as there may be, and one more; and one that begins before the end
/// of others. Frames of as many octets as a line of a script may have, and of one more; and one digit more.
fn limit_rows() -> &'static str {
    "\
    lines 1|delays 0|ring 1|lag 1|ticks 2600|@256 fail 0 %0 %1 0|@256 lost %0 %1| => 0+;\
        total ticks 2600 taken 2600 frames 0 commands 0 refused 0 got 0|;\n\
    lines 1|delays 0|ring 1|lag 1|ticks 2600|@257 fail 0 %0 %1 0| => 5;;fault: line 262: range|\
        help: line 0 has 256 failures already|\n\
    lines 1|delays 0|ring 1|lag 1|ticks 2600|@257 lost %0 %1| => 5;;fault: line 262: range|\
        help: there are 256 lost lines already|\n\
    lines 1|delays 0|ring 1|lag 1|ticks 2600|@255 fail 0 %0 %1 0|fail 0 0 1 0| => 5;;fault: line 261: order|\
        help: the failure before ends at 2541|\n\
    lines 1|delays 0|ring 1|lag 1|ticks 2600|@255 lost %0 %1|lost 0 1| => 5;;fault: line 261: order|\
        help: the loss before ends at 2541|\n\
    lines 1|delays 0|ring 1|lag 1|ticks 9|frame 0 77*65535 => \
    0+;refused 0 length 65535|total ticks 9 taken 9 frames 0 commands 0 refused 1 got 0|;\n\
    lines 1|delays 0|ring 1|lag 1|ticks 9|frame 0 77*65536 => 5;;fault: line 6: range|\
        help: word 3 has 1 to 65535 octets|\n\
    lines 1|delays 0|ring 1|lag 1|ticks 9|frame 0 777*65536 => 5;;fault: line 6: hex|\
        help: word 3 is an even number of hexadecimal digits|"
}

/// In turn: one member that carries payload, and a refusal of each kind but those of full queues; two members
/// of different delays, of which the second fails, and cells of it are slipped; return packets that are lost;
/// three members of which the middle one is removed, twice; three of which the last one is removed, and comes
/// back; events in an odd order, which end before all rows are taken; a failure of one member that lasts
/// until the source leaves it out, and a short one of the other; a line that fails from the start and is
/// added and removed, with rounds, other events, and the rest.
fn walk_rows() -> &'static str {
    "\
    container vc3|lines 1|delays 0|ring 1|lag 1|ticks 60|add 0 0|frame 0 015a*63|frame 0 02c3*1399|\
    frame 1 5a|add 2 0|add 3 1|remove 20 7|frame 41 035a*63| => \
    0+;got 015a*63|got 02c3*1399|got 035a*63|refused 3 length 1|refused 4 already in|refused 5 unknown|\
    refused 6 unknown|total ticks 60 taken 60 frames 3 commands 1 refused 4 got 3|;\n\
    container vc3|lines 2|delays 0 5|ring 8|lag 2|ticks 420|fail 1 375 380 2|add 0 0|add 0 1|frame 0 005a*63|\
    frame 368 01c3*1399|frame 372 025a*63|frame 374 03c3*1399|frame 374 045a*63|frame 378 05c3*1399|\
    frame 380 065a*63|frame 388 07c3*1399| => \
    0+;got 005a*63|got 01c3*1399|got 025a*63|got 03c3*1399|got 045a*63|\
    total ticks 420 taken 420 frames 8 commands 2 refused 0 got 5|;\n\
    container vc3|lines 2|delays 3 0|ring 6|lag 2|ticks 330|lost 0 2|lost 3 4|add 0 1|add 30 0|\
    frame 0 01c3*1399|frame 90 025a*63|frame 320 03c3*1399| => \
    0+;got 01c3*1399|got 025a*63|got 03c3*1399|total ticks 330 taken 330 frames 3 commands 2 refused 0 got 3|;\n\
    container vc3|lines 3|delays 0 1 2|ring 4|lag 2|ticks 700|add 0 0|add 0 1|add 0 2|remove 620 1|\
    remove 620 1|frame 60 3cc3*1399|frame 610 62c3*1399|frame 640 80c3*1399|frame 650 8ac3*1399|\
    frame 660 94c3*1399|frame 670 9ec3*1399|frame 680 a8c3*1399| => \
    0+;got 3cc3*1399|got 62c3*1399|got 80c3*1399|got 8ac3*1399|got 94c3*1399|got 9ec3*1399|got a8c3*1399|\
    refused 4 not in|total ticks 700 taken 700 frames 7 commands 4 refused 1 got 7|;\n\
    container vc3|lines 3|delays 0 1 2|ring 4|lag 2|ticks 700|add 0 2|add 0 1|add 0 0|remove 620 0|add 625 0|\
    frame 60 3cc3*1399|frame 610 62c3*1399|frame 620 6cc3*1399|frame 630 76c3*1399|frame 660 94c3*1399|\
    frame 670 9ec3*1399|frame 680 a8c3*1399| => \
    0+;got 3cc3*1399|got 62c3*1399|got 6cc3*1399|got 76c3*1399|got 94c3*1399|got 9ec3*1399|got a8c3*1399|\
    total ticks 700 taken 700 frames 7 commands 5 refused 0 got 7|;\n\
    container vc3|lines 2|delays 0 2|ring 3|lag 2|ticks 70|add 0 0|add 0 1|frame 0 015a*63|\
    frame 12 02c3*1399|frame 50 035a*63|frame 51 045a*63|take 3|tick 40|operator 1|client 3|tick 40|\
    carry 1 9|carry 0 9|take 2|back 3|round 30|operator 1|tick 9|carry 0 50|round 28|client 9|back 2|take 9|\
    round 3|carry 0 9|carry 1 9|take 9| => \
    0+;got 015a*63|got 02c3*1399|got 035a*63|got 045a*63|\
    total ticks 70 taken 62 frames 4 commands 2 refused 0 got 4|;\n\
    container vc3|lines 2|delays 1 0|ring 9|lag 3|ticks 660|fail 0 520 545 4|fail 0 545 546 0|\
    fail 1 541 543 1|add 0 0|add 0 1|frame 372 74c3*1399|frame 510 fec3*1399|frame 517 05c3*1399|\
    frame 524 0cc3*1399|frame 560 30c3*1399|frame 590 4ec3*1399|frame 600 58c3*1399|frame 640 80c3*1399| => \
    0+;got 74c3*1399|got fec3*1399|got 05c3*1399|got 58c3*1399|got 80c3*1399|\
    total ticks 660 taken 660 frames 8 commands 2 refused 0 got 5|;\n\
    container vc3|lines 3|delays 9 0 4|ring 12|lag 2|ticks 120|fail 2 0 30 1|lost 1 2|add 0 0|add 0 2|\
    remove 17 2|frame 3 035a*63|frame 60 045a*63|frame 60 05c3*1399|carry 2 5|round 70|tick 32|carry 1 40|\
    carry 0 40|carry 2 40|take 99|drain|take 1| => \
    0+;got 035a*63|got 045a*63|got 05c3*1399|total ticks 120 taken 120 frames 3 commands 3 refused 0 got 3|;"
}

#[test]
fn scripts_are_walked_or_refused(rt: HostRuntime) {
    let rows = [
        (Turns::Whole, "walk", fault_rows()),
        (Turns::Whole, "walk", limit_rows()),
        (Turns::Whole, "walk", walk_rows()),
    ];
    assert_eq!(rt; wrong_walk_of(rt.alloc(), &rows).as_str(), "");
}
