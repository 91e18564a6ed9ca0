//! The program that walks by words, inputs and faults. What is expected comes of a model of the definitions,
//! or is counted by hand. Rows stand behind functions, so that no proof sees them.

use command_rows::{Turns, beginning_row};
use command_walk_rows::wrong_walk_of;

/// Walks and loads. At the end a line beyond the group of 64, and a frame for which there is no room behind 256 others.
fn answer_rows() -> &'static str {
    "\
    walk;lines 1|delays 0|ring 1|lag 1|ticks 1| => 0+;total ticks 1 taken 1 frames 0 commands 0 refused 0 got 0|;\n\
    walk;lines 1|delays 0|ring 1|lag 1|ticks 5|tick 2|\
        carry 0 1| => 0+;total ticks 2 taken 0 frames 0 commands 0 refused 0 got 0|;\n\
    walk;lines 1|delays 0|ring 1|lag 1|ticks 1|add 0 0|add 0 0|remove 0 1|frame 0 00*63| => 0+;refused 1 already in|\
        refused 2 unknown|refused 3 length 63|total ticks 1 taken 1 frames 0 commands 1 refused 3 got 0|;\n\
    walk;lines 2|delays 0 0|ring 1|lag 1|ticks 1|add 0 0|add 0 0|remove 0 1 => 0+;refused 1 already in|\
        refused 2 not in|total ticks 1 taken 1 frames 0 commands 1 refused 2 got 0|;\n\
    trace;lines 1|delays 0|ring 1|lag 1|ticks 41|\
        add 0 0| => 0+;total ticks 41 taken 41 frames 0 commands 1 refused 0 got 0|\
        ;packet 0 chg 1 act 0 back none add:0|packet 1 chg 1 act 1 back 7f/1 eos:0|\
        packet 2 chg 1 act 1 back ff/1 eos:0|\n\
    fates;lines 1|delays 0|ring 1|lag 1|ticks 41|add 0 0|frame 0 5a*2324|frame 0 5a*63|\
        frame 0 5a*64| => 0+;frame 1 due 0 got 40 40|frame 2 due 0 refused length 63|frame 3 due 0 waits|\
        fates ticks 41 taken 41 frames 2 got 1 lost 0 waits 1 refused 1 starts true|;\n\
    fates;lines 1|delays 0|ring 40|lag 4|ticks 200|fail 0 100 140 39|add 0 0|frame 0 5a*64|frame 168 5a*64|\
        frame 168 5a*64|frame 168 5a*64| => 0+;spoiled 100 104 container 0|spoiled 104 168 packet|\
        segment 168 200 true 168|frame 1 due 0 got 88 88|frame 2 due 168 hunting 168 168|\
        frame 3 due 168 unsettled 168 168|frame 4 due 168 got 168 168|\
        fates ticks 200 taken 200 frames 4 got 2 lost 2 waits 0 refused 0 starts true|;\n\
    fates;lines 1|delays 0|ring 1|lag 1|ticks 200|fail 0 119 120 0|add 0 0|frame 118 5a*64|frame 119 5a*64|\
        frame 151 5a*64|@2 frame 152 5a*64| => 0+;spoiled 119 120 container 0|spoiled 120 152 packet|\
        segment 152 200 true 152|frame 1 due 118 got 118 118|frame 2 due 119 cut 119 119 119|\
        frame 3 due 151 cut 151 151 151|frame 4 due 152 hunting 152 152|frame 5 due 152 unsettled 152 152|\
        fates ticks 200 taken 200 frames 5 got 1 lost 4 waits 0 refused 0 starts true|;\n\
    fates;lines 1|delays 0|ring 1|lag 1|ticks 200|fail 0 111 112 0|add 0 0|frame 110 5a*64|frame 113 5a*64|\
        frame 114 5a*64|frame 119 5a*64|frame 120 5a*64|frame 136 5a*64| => \
    0+;spoiled 111 114 container 0|spoiled 120 136 packet|segment 114 120 true 114|segment 136 200 true 136|\
        frame 1 due 110 got 110 110|frame 2 due 113 cut 113 113 113|frame 3 due 114 hunting 114 114|\
        frame 4 due 119 unsettled 119 119|frame 5 due 120 cut 120 120 120|frame 6 due 136 hunting 136 136|\
        fates ticks 200 taken 200 frames 6 got 1 lost 5 waits 0 refused 0 starts true|;\n\
    check;lines 1|delays 0|ring 8|lag 4|ticks 600|fail 0 20 40 0|add 0 0|frame 0 5a*64|\
        frame 344 5a*64| => 0+;early 1 344|check unused 0 idle 0 early 1 refused 0|;\n\
    check;lines 2|delays 0 0|ring 8|lag 4|ticks 200|fail 0 24 49 0|add 0 0| => 0+;line 1 unused|window 0 24 49 idle|\
        check unused 1 idle 1 early 0 refused 0|;\n\
    check;lines 2|delays 0 0|ring 8|lag 4|ticks 200|fail 0 24 50 0|add 0 0| => 0+;line 1 unused|\
        check unused 1 idle 0 early 0 refused 0|;\n\
    check;lines 2|delays 0 0|ring 8|lag 4|ticks 300|fail 0 167 168 0|fail 0 168 169 0|add 0 0|remove 150 0|\
        frame 87 5a*64|frame 88 5a*64| => 0+;line 1 unused|window 0 168 169 idle|early 1 88|\
        check unused 1 idle 1 early 1 refused 0|;\n\
    check;lines 1|delays 0|ring 1|lag 1|ticks 60|add 0 0|add 20 0|remove 55 3|frame 5 5a*64|frame 29 5a*63|\
        frame 50 5a*64|round 30| => 0+;line 0 unused|early 1 none|item 1 refused already in|\
        check unused 1 idle 0 early 1 refused 1|;\n\
    check;lines 2|delays 0 0|ring 1|lag 1|ticks 1|add 0 2|add 0 255| => 0+;line 0 unused|line 1 unused|\
        item 0 refused unknown lines 0 to 1|item 1 refused unknown lines 0 to 1|\
        check unused 2 idle 0 early 0 refused 2|;\n\
    check;lines 1|delays 0|ring 1|lag 1|ticks 1| => 0+;line 0 unused|check unused 1 idle 0 early 0 refused 0|;\n\
    h4 0;lines 1|delays 0|ring 1|lag 1|ticks 41|add 0 0| => 0+;000102030405060708090a1b0c0d0e0f|\
        001112130405060708090a1b0c0d0e0f|002132130415164708|;\n\
    h4 0;lines 1|delays 0|ring 1|lag 1|ticks 1| => 0+;00|;\n\
    h4 1;lines 2|delays 0 3|ring 8|lag 2|ticks 120|fail 1 30 40 1|lost 2 3|add 0 0|add 0 1|remove 70 0| => \
    0+;000102030405060708090a1b0c0dfeff|00115213040586a708090a1b0c0dfeff|002152130405367708090a0b0c0d0e1f|\
        003112130415e6e708090a0b0c0d0e1f|004112130415f68708090a0b0c0d0e1f|005112130415963708090a1b0c0d0e0f|\
        006112130405166708090a1b0c0d0e0f|00711213040576d7|;\n\
    h4 1;lines 3|delays 0 0 0|ring 2|lag 1|ticks 300|add 0 0|add 0 1|operator 2|tick 2|carry 0 2|carry 1 2|carry 2 2|\
        take 2|round 20| => 0+;000102030405060708090a1b0c0dfeff|001152130405|;\n\
    make 1 1 1; => 0+;made lines 1 ticks 1|total ticks 1 taken 1 frames 1 commands 1 refused 0 got 0|octets 0 sum 0|;\n\
    make 7 2 400; => 0+;made lines 2 ticks 400|total ticks 400 taken 400 frames 50 commands 2 refused 0 got 50|\
        octets 43246 sum 5512389|;\n\
    stream 9600 400000 0 1000000 1; => 8;;fault: too long|\n\
    walk;lines 2|delays 0 63|ring 64|lag 5|ticks 1| => 0+;total ticks 1 taken 1 frames 0 commands 0 refused 0 got 0|;\n\
    walk;lines 64|delays 0 0 0 0 0 0 0 0 0 0 0 0 0 0 0 0 0 0 0 0 0 0 0 0 0 0 0 0 0 0 0 0 0 0 0 0 0 0 0 0 0 0 0 0 0 0 \
        0 0 0 0 0 0 0 0 0 0 0 0 0 0 0 0 0 0|ring 1|lag 1|ticks 1|add 0 64| => \
    0+;refused 0 unknown|total ticks 1 taken 1 frames 0 commands 0 refused 1 got 0|;\n\
    walk;lines 1|delays 0|ring 1|lag 1|ticks 1|@257 frame 0 5a*64| => 0+;refused 256 queue|\
        total ticks 1 taken 1 frames 256 commands 0 refused 1 got 0|;"
}

/// Scripts that are faulty, or don't fit their rings.
fn faulty_rows() -> &'static str {
    "\
    walk;lines 1|ring 1| => 5;;fault: line 2: missing|help: the line delays has to stand here|\n\
    walk; => 5;;fault: line 1: missing|help: the line lines has to stand here|\n\
    walk;lines 129| => 5;;fault: line 1: range|help: word 2 is from 1 to 128|\n\
    trace;container vc2| => 5;;fault: line 1: word|help: word 2 is vc3 or vc4|\n\
    walk;lines 1|delays 0|ring 1|lag 1|ticks 1|frame 0 abc| => 5;;fault: line 6: hex|\
        help: word 3 is an even number of hexadecimal digits|\n\
    walk;lines 1|delays 0|ring 1|lag 1|ticks 9|add 5 0|add 4 0|x| => 5;;fault: line 7: order|\
        help: the command before is due at 5|\n\
    walk;lines 1|delays 00000000000| => 5;;fault: line 2: number|help: word 2 is a number of one to ten digits|\n\
    walk;lines 2|delays 0 63|ring 63|lag 5|ticks 1| => 6;;fault: spread 63 0 0 63|\
        help: delays from 0 to 63 and slips of 0 need a ring of at least 64|\n\
    walk;lines 2|delays 0 63|ring 64|lag 4|ticks 1| => 6;;fault: lag 4 least 5|\
        help: a delay of 63 and slips of 0 need a lag of at least 5|\n\
    h4 1;lines 1|delays 0|ring 1|lag 1|ticks 1| => 6;;fault: h4 line 1|help: LINE is from 0 to 0|\n\
    h4 127;lines 3|delays 0 0 0|ring 1|lag 1|ticks 9|frame 9 00| => 5;;fault: line 6: range|\
        help: word 2 is from 0 to 8|\n\
    trace;lines 1|delays 0|ring 1|lag 1|ticks 20|fail 0 10 20 10| => 6;;fault: slip line 0 window 0|\
        help: a slip of 10 needs a failure of at least 11 frames|"
}

/// Words that are no command.
fn usage_rows() -> &'static str {
    "\
    ; => 2;;usage: vcat_walk ..\n\
    walk ; => 2;;usage: vcat_walk ..\n\
    walk x; => 2;;usage: vcat_walk ..\n\
    Walk; => 2;;usage: vcat_walk ..\n\
    walk walk; => 2;;usage: vcat_walk ..\n\
    -h; => 2;;usage: vcat_walk ..\n\
    run 2; => 2;;usage: vcat_walk ..\n\
    pair There; => 2;;usage: vcat_walk ..\n\
    pair there back; => 2;;usage: vcat_walk ..\n\
    there; => 2;;usage: vcat_walk ..\n\
    pair -there; => 2;;usage: vcat_walk ..\n\
    make 1 1; => 2;;usage: vcat_walk .."
}

/// Frames that are carried whole or not, in containers of either size; and those that a failure of 40
/// containers with a slip of 39 covers: the second one lies before the first place that is confirmed after
/// it, and the third one is not yet descrambled. The last row makes the events in another order.
fn frame_rows() -> &'static str {
    "\
    walk;lines 1|delays 0|ring 1|lag 1|ticks 41|add 0 0|frame 0 5a*2324| => 0+;got 5a*2324|\
        total ticks 41 taken 41 frames 1 commands 1 refused 0 got 1|;\n\
    walk;lines 1|delays 0|ring 1|lag 1|ticks 41|add 0 0|\
        frame 0 5a*2325| => 0+;total ticks 41 taken 41 frames 1 commands 1 refused 0 got 0|;\n\
    walk;container vc3|lines 1|delays 0|ring 1|lag 1|ticks 41|add 0 0|frame 0 5a*740| => 0+;got 5a*740|\
        total ticks 41 taken 41 frames 1 commands 1 refused 0 got 1|;\n\
    walk;container vc3|lines 1|delays 0|ring 1|lag 1|ticks 41|add 0 0|\
        frame 0 5a*741| => 0+;total ticks 41 taken 41 frames 1 commands 1 refused 0 got 0|;\n\
    walk;lines 1|delays 0|ring 40|lag 4|ticks 200|fail 0 100 140 39|add 0 0|frame 0 5a*64|frame 168 5a*64|\
        frame 168 5a*64|frame 168 5a*64| => 0+;got 5a*64|got 5a*64|\
        total ticks 200 taken 200 frames 4 commands 1 refused 0 got 2|;\n\
    walk;lines 1|delays 0|ring 40|lag 4|ticks 200|fail 0 100 140 39|add 0 0|frame 0 5a*64|frame 168 5a*64|\
        frame 168 5a*64|frame 168 5a*64|tick 9|operator 2|tick 30|carry 0 7|client 9|tick 3|carry 0 100|take 3|\
        round 20|drain| => 0+;got 5a*64|got 5a*64|total ticks 200 taken 200 frames 4 commands 1 refused 0 got 2|;"
}

/// Scripts without frames, and lines of their traces. Of the second one the last end of line is missing.
fn trace_rows() -> &'static str {
    "\
    lines 3|delays 0 0 0|ring 1|lag 1|ticks 700|add 0 0|add 0 1|add 0 2|remove 600 1| => \
    packet 1 chg 0 act 1 back 7f/1 eos:0 add:1 idle:255 THEN packet 2 chg 1 act 1 back ff/0 eos:0 add:1 add:2 THEN \
    packet 17 chg 1 act 3 back 1f/1 norm:0 norm:1 eos:2 THEN packet 33 chg 1 act 3 back 1f/1 norm:0 norm:1 eos:2 THEN \
    packet 37 chg 0 act 2 back ff/1 norm:0 idle:255 eos:1\n\
    lines 3|delays 0 0 0|ring 1|lag 1|ticks 700|add 0 0|add 0 1|add 0 2|remove 600 2 => \
    packet 37 chg 0 act 2 back ff/1 norm:0 eos:1 idle:255\n\
    lines 2|delays 0 0|ring 1|lag 4|ticks 1100|add 0 0|remove 552 0|add 552 1| => \
    packet 34 chg 0 act 0 back ff/1 idle:255 idle:255 THEN packet 36 chg 0 act 0 back 7f/1 idle:255 idle:255 THEN \
    packet 38 chg 1 act 0 back ff/0 idle:255 add:0 THEN packet 68 chg 1 act 1 back 7f/1 idle:255 eos:0\n\
    lines 2|delays 0 0|ring 1|lag 1|ticks 1600|fail 1 1024 1048 0|add 0 0|add 0 1| => \
    packet 33 chg 0 act 2 back 3f/0 norm:0 eos:1 THEN packet 65 chg 0 act 1 back 7f/0 eos:0 dnu:1 THEN \
    packet 97 chg 0 act 2 back 3f/0 norm:0 eos:1\n\
    lines 1|delays 0|ring 1|lag 1|ticks 700|lost 0 1|add 0 0| => \
    packet 1 chg 1 act 0 back lost add:0 THEN packet 2 chg 1 act 0 back ff/1 add:0 THEN packet 33 chg 1 act 1 back \
        7f/1 eos:0\n\
    lines 2|delays 0 0|ring 1|lag 1|ticks 1200|fail 0 0 1100 0|add 0 0|add 0 1| => \
    packet 0 chg 1 act 0 back none add:0 idle:255 THEN packet 1 chg 0 act 0 back ff/1 add:0 add:1 THEN \
    packet 17 chg 1 act 0 back bf/0 add:1 add:0 THEN packet 33 chg 1 act 1 back 7f/1 add:1 eos:0"
}

/// Four frames whose lines go out together, since they are much, and the lines of totals.
fn frames_in_turn() -> &'static str {
    "\
    lines 1|delays 0|ring 1|lag 1|ticks 58|add 0 0|@4 frame 0 5a*9600| => 4+;;fault: write failed| THEN \
        4+;got 5a*9600|@3 got 5a*9600|;fault: write failed| THEN 0+;got 5a*9600|@3 got 5a*9600|\
        total ticks 58 taken 58 frames 4 commands 1 refused 0 got 4|;\n\
    lines 3|delays 0 0 0|ring 1|lag 1|ticks 700|add 0 0|add 0 1|add 0 2|remove 600 1| => \
    4+;;fault: write failed| THEN \
    0+;total ticks 700 taken 700 frames 0 commands 4 refused 0 got 0|;"
}

/// Notes that can't be written: the status stays, but that of a trace. Where a line of a trace can't be
/// written nothing follows it but the note, and on `out` nothing.
fn untold_rows() -> &'static str {
    "\
    walk;x| => 5;;\n\
    decode;x| => 5;;\n\
    frames;x| => 5;;\n\
    x; => 2;;\n\
    trace;lines 1|delays 0|ring 1|lag 1|ticks 41|add 0 0| => 4+;;fault: write failed|\n\
    trace;lines 1|delays 0|ring 1|lag 1|ticks 58|add 0 0|frame 0 5a*64| => \
    4+;;fault: write failed| THEN 4+;;packet 0 chg 1 act 0 back none add:0|fault: write failed|"
}

/// H4 octets, and the packets in them. The first row is a line that is added to an empty group; in the second
/// one the check of its second packet says another value. The third is from outside the program, a line while
/// a group of three is set up: one packet has a wrong bit, one has a code that there is not, one lies where
/// the line is not locked, and the last one is cut.
fn packet_rows() -> &'static str {
    "\
    decode;000102030405060708090a1b0c0d0e0f001112130405060708090a1b0c0d0e0f0021321304151647 => 0;\
    at 8 add sq 0 gid 1 act 0 chg 1 mst 00 ack 0|at 24 eos sq 0 gid 1 act 1 chg 1 mst 00 ack 0|\
        end octets 40 packets 2|;\n\
    decode;000102030405060708090a1b0c0d0e0f001112130405060708090a1b0c0d0e0f0021321304151657 => 0;\
    at 8 add sq 0 gid 1 act 0 chg 1 mst 00 ack 0|at 24 crc said 15 found 14|end octets 40 packets 2|;\n\
    decode;# H4 of line 1 while a group of three is set up, and then from frame 590 on||\
    000102030405060708090a1b0c0dfeff00115213040586a7|08090a0b0c0d0e1f002112130415865708090a1b0c0d0e1f|\
    003112130415C67708090A1B0C0D0E3F004112130415D617|  08090a1b0c0d0e1f005112130415b6a708090a1b0c0d0e1f |\
    006172130415f62708090a1b0c0d0e1f00711213041566c7|08090a1b0c0d0e1f00810e1f20512203043516b708090a0b|\
    0c0dfeff206152030425e6d708090a0b0c0dfeff20715203|0425866708090a0b0c0dfeff208152030425c61708090a0b|\
        0c0dfeff20915203 => 0;\
    at 8 idle sq 255 gid 1 act 0 chg 1 mst 00 ack 0|at 24 add sq 1 gid 1 act 1 chg 0 mst 00 ack 0|\
    at 40 add sq 1 gid 1 act 1 chg 1 mst 00 ack 0|at 56 crc said d1 found fd|\
        at 72 add sq 1 gid 1 act 1 chg 1 mst 00 ack 0|\
    at 88 ctrl 7|at 104 add sq 1 gid 1 act 1 chg 1 mst 00 ack 0|at 140 idle sq 255 gid 0 act 2 chg 0 mst 00 ack 0|\
    at 156 idle sq 255 gid 0 act 2 chg 0 mst 00 ack 0|at 172 idle sq 255 gid 0 act 2 chg 0 mst 00 ack 0|\
        end octets 200 packets 10|;\n\
    decode; => 0;end octets 0 packets 0|;\n\
    frames; => 5;;fault: head: cut|\n\
    frames;frame 0 0102030405| => 5;;fault: head: cut|\n\
    frames;frame 0 020304050607080900| => 5;;fault: head: magic|\n\
    frames;|\r\r|45678901234567890123 => 5;;fault: head: pcapng|\n\
    decode;# none|| 00 \r|0aF0 => 0;end octets 3 packets 0|;\n\
    decode;0001020 => 5;;fault: line 1: hex|help: a line is an even number of hexadecimal digits|\n\
    decode;00||#|0g|0| => 5;;fault: line 4: hex|help: a line is an even number of hexadecimal digits|\n\
    decode;00 01| => 5;;fault: line 1: hex|help: a line is an even number of hexadecimal digits|\n\
    decode;00|00\r => 5;;fault: line 2: hex|help: a line is an even number of hexadecimal digits|\n\
    decode;\t| => 5;;fault: line 1: hex|help: a line is an even number of hexadecimal digits|"
}

/// What one octet that is another does to the packets of the first of these rows: the line locks at the second
/// multiframe or at none; it is unlocked before the first packet, in it, at its last octet, and in the second one.
/// Then packets with the greatest values: right, with a flipped bit, with a code that there is not, with both wrong,
/// where the check is told, and with the ignored bits set.
fn unlocked_rows() -> &'static str {
    "\
    decode;010102030405060708090a1b0c0d0e0f001112130405060708090a1b0c0d0e0f0021321304151647 => 0;\
        at 24 eos sq 0 gid 1 act 1 chg 1 mst 00 ack 0|end octets 40 packets 1|;\n\
    decode;000202030405060708090a1b0c0d0e0f001112130405060708090a1b0c0d0e0f0021321304151647 => 0;\
        at 24 eos sq 0 gid 1 act 1 chg 1 mst 00 ack 0|end octets 40 packets 1|;\n\
    decode;000102030405060708090a1b0c0d0e0f011112130405060708090a1b0c0d0e0f0021321304151647 => 0;\
        end octets 40 packets 0|;\n\
    decode;000102030405060808090a1b0c0d0e0f001112130405060708090a1b0c0d0e0f0021321304151647 => 0;\
        at 24 eos sq 0 gid 1 act 1 chg 1 mst 00 ack 0|end octets 40 packets 1|;\n\
    decode;000102030405060709090a1b0c0d0e0f001112130405060708090a1b0c0d0e0f0021321304151647 => 0;\
        at 24 eos sq 0 gid 1 act 1 chg 1 mst 00 ack 0|end octets 40 packets 1|;\n\
    decode;000102030405060708090a1b0d0d0e0f001112130405060708090a1b0c0d0e0f0021321304151647 => 0;\
        at 24 eos sq 0 gid 1 act 1 chg 1 mst 00 ack 0|end octets 40 packets 1|;\n\
    decode;000102030405060708090a1b0c0d0e0f001112130405060808090a1b0c0d0e0f0021321304151647 => 0;\
        end octets 40 packets 0|;\n\
    decode;000102030405060708090a1b0c0d0e0f001112130405060707090a1b0c0d0e0f0021321304151647 => 0;\
        at 8 add sq 0 gid 1 act 0 chg 1 mst 00 ack 0|end octets 40 packets 1|;\n\
    decode;000102030405060708090a1b0c0d0e0f001112130405060708090a1b0c0d0e0f0022321304151647 => 0;\
        at 8 add sq 0 gid 1 act 0 chg 1 mst 00 ack 0|end octets 40 packets 1|;\n\
    decode;000102030405060708090a1b0c0d0e0f001112130405060708090a1b0c0d0e0f0021321304151648 => 0;\
        at 8 add sq 0 gid 1 act 0 chg 1 mst 00 ack 0|end octets 40 packets 1|;\n\
    decode;0001020304050607a8591a0b0c0d3ecff021f20314759657 => 0;\
        at 8 dnu sq 60 gid 0 act 23 chg 0 mst a5 ack 1|end octets 24 packets 1|;\n\
    decode;0001020304050607a8591a0b0c0d3edff021f20314759657 => 0;\
        at 8 crc said 95 found 83|end octets 24 packets 1|;\n\
    decode;0001020304050607a8591a0b0c0d3ecff021e2031475c627 => 0;at 8 ctrl e|end octets 24 packets 1|;\n\
    decode;0001020304050607a8591a0b0c0d3ecff021e20314759657 => 0;\
        at 8 crc said 95 found c2|end octets 24 packets 1|;\n\
    decode;0001020304050607a859faab3ccd3ecff021f28314754617 => 0;\
        at 8 dnu sq 60 gid 0 act 23 chg 0 mst a5 ack 1|end octets 24 packets 1|;"
}

/// What is answered where the first call of `out` fails, the second, and so on, and last without a fault.
/// Short lines go out together.
fn put_rows() -> &'static str {
    "\
    walk;lines 3|delays 0 0 0|ring 1|lag 1|ticks 700|add 0 0|add 0 1|add 0 2|remove 600 1|\
        @3 frame 0 5a*64| => 4+;;fault: write failed| THEN 0+;got 5a*64|@2 got 5a*64|\
        total ticks 700 taken 700 frames 3 commands 4 refused 0 got 3|;\n\
    walk;lines 3|delays 0 0 0|ring 1|lag 1|ticks 700|add 0 0|add 0 1|add 0 2|remove 600 1|\
        @3 frame 0 5a*9600| => 4+;;fault: write failed| THEN 0+;got 5a*9600|@2 got 5a*9600|\
        total ticks 700 taken 700 frames 3 commands 4 refused 0 got 3|;\n\
    h4 0;lines 1|delays 0|ring 1|lag 1|ticks 9|add 0 0| => 4+;;fault: write failed| THEN 0+;000102030405060708|;\n\
    decode;0001 => 4;;fault: write failed| THEN 0;end octets 2 packets 0|;\n\
    make 7 2 400; => 4+;;fault: write failed| THEN 0+;made lines 2 ticks 400|\
        total ticks 400 taken 400 frames 50 commands 2 refused 0 got 50|octets 43246 sum 5512389|;\n\
    stream 64 1 0 5 1; => 4;;fault: write failed| THEN \
    4;frame 0 02000000000202000000000188b5d659cce65af39af629bafbf27c20ba0c1a1fd4356b8dde623db024a051a09f121cc58e5aca6a\
        dc1dffe48ab8cd1682076840|;fault: write failed| THEN \
    0;frame 0 02000000000202000000000188b5d659cce65af39af629bafbf27c20ba0c1a1fd4356b8dde623db024a051a09f121cc58e5aca6a\
        dc1dffe48ab8cd1682076840|\
    frame 4 02000000000202000000000188b5f4052fa2aae87cc21d28d6b377064916ec35679fb378a227a21df1ac8784e946af0581abb74212\
        7138f3387e961879d60483|;\n\
    decode;000102030405060708090a1b0c0d0e0f001112130405060708090a1b0c0d0e0f0021321304151647 => \
    4;;fault: write failed| THEN 4;at 8 add sq 0 gid 1 act 0 chg 1 mst 00 ack 0|;fault: write failed|"
}

/// Inputs that seven octets at a time are read in so many calls, and what is answered where no call fails.
/// `make`, `stream` and a usage read nothing.
fn read_rows() -> &'static str {
    "\
    walk;lines 3|delays 0 0 0|ring 1|lag 1|ticks 700|add 0 0|add 0 1|add 0 2|\
        remove 600 1| => 13 TIMES 3;;fault: read failed| THEN 0+;total ticks 700 taken 700 frames 0 commands 4 \
        refused 0 got 0|;\n\
    trace;lines 1|delays 0|ring 1|lag 1|ticks 41|\
        add 0 0| => 8 TIMES 3;;fault: read failed| THEN 0+;total ticks 41 taken 41 frames 0 commands 1 refused 0 got \
        0|;packet 0 chg 1 act 0 back none add:0|packet 1 chg 1 act 1 back 7f/1 eos:0|\
        packet 2 chg 1 act 1 back ff/1 eos:0|\n\
    decode;000102030405060708090a1b0c0d0e0f001112130405060708090a1b0c0d0e0f0021321304151647 => 13 TIMES 3;;fault: \
        read failed| THEN 0;at 8 add sq 0 gid 1 act 0 chg 1 mst 00 ack 0|\
        at 24 eos sq 0 gid 1 act 1 chg 1 mst 00 ack 0|end octets 40 packets 2|;\n\
    decode;0001|0203| => 3 TIMES 3;;fault: read failed| THEN 0;end octets 4 packets 0|;\n\
    walk; => 3;;fault: read failed| THEN 5;;fault: line 1: missing|help: the line lines has to stand here|\n\
    walk;x| => 2 TIMES 3;;fault: read failed| THEN 5;;fault: line 1: word|help: ~|\n\
    walk;lines 2|delays 0 63|ring 63|lag 5|ticks 1| => 7 TIMES 3;;fault: read failed| THEN 6;;fault: spread 63 0 0 63|\
        help: delays from 0 to 63 and slips of 0 need a ring of at least 64|\n\
    make 1 1 1; => 0+;made lines 1 ticks 1|total ticks 1 taken 1 frames 1 commands 1 refused 0 got 0|octets 0 sum 0|;\n\
    stream 64 1 0 1 1; => 0;frame 0 02000000000202000000000188b5d659cce65af39af629bafbf27c20ba0c1a1fd4356b8dde623db024\
        a051a09f121cc58e5aca6adc1dffe48ab8cd1682076840|;\n\
    make 1 1; => 2;;usage: vcat_walk .."
}

#[test]
fn answers(rt: HostRuntime) {
    let rows = [
        (Turns::Whole, "", answer_rows()),
        (Turns::Whole, "", faulty_rows()),
        (Turns::Whole, "", usage_rows()),
        (Turns::Whole, "", frame_rows()),
        (Turns::Whole, "", packet_rows()),
        (Turns::Whole, "", unlocked_rows()),
        (Turns::Lines, "trace", trace_rows()),
    ];
    assert_eq!(rt; wrong_walk_of(rt.alloc(), &rows).as_str(), "");
}

#[test]
fn calls_that_fail_and_scripts_that_are_cut(rt: HostRuntime) {
    let rows = [
        (Turns::Takes, "", read_rows()),
        (Turns::Puts, "", put_rows()),
        (Turns::Puts, "walk", frames_in_turn()),
        (Turns::TracedPuts, "trace", frames_in_turn()),
        (Turns::Tells, "", untold_rows()),
        (Turns::Beginnings, "walk", beginning_row()),
    ];
    assert_eq!(rt; wrong_walk_of(rt.alloc(), &rows).as_str(), "");
}
