//! A script of a group of three lines of which one leaves, and what each beginning of it is. What is expected
//! comes of a model of the definitions. As everywhere here texts stand behind functions, so that no proof
//! sees them.

/// Three lines join, and the second one leaves. Turn by turn one octet more comes.
pub fn beginning_row() -> &'static str {
    "\
    lines 3|delays 0 0 0|ring 1|lag 1|ticks 700|add 0 0|add 0 1|add 0 2|\
        remove 600 1| => 5;;fault: line 1: missing|help: the line lines has to stand here| THEN 4 TIMES \
        5;;fault: line 1: word|help: ~| THEN 2 TIMES 5;;fault: line 1: word|\
        help: lines takes 1 word, and 0 follow| THEN 2 TIMES 5;;fault: line 2: missing|\
        help: the line delays has to stand here| THEN 5 TIMES 5;;fault: line 2: word|\
        help: ~| THEN 2 TIMES 5;;fault: line 2: word|help: delays takes 3 words, and 0 follow| THEN 2 TIMES \
        5;;fault: line 2: word|help: delays takes 3 words, and 1 follows| THEN 2 TIMES 5;;fault: line 2: word|\
        help: delays takes 3 words, and 2 follow| THEN 2 TIMES 5;;fault: line 3: missing|\
        help: the line ring has to stand here| THEN 3 TIMES 5;;fault: line 3: word|\
        help: ~| THEN 2 TIMES 5;;fault: line 3: word|help: ring takes 1 word, and 0 follow| THEN 2 TIMES \
        5;;fault: line 4: missing|help: the line lag has to stand here| THEN 2 TIMES 5;;fault: line 4: word|\
        help: ~| THEN 2 TIMES 5;;fault: line 4: word|help: lag takes 1 word, and 0 follow| THEN 2 TIMES \
        5;;fault: line 5: missing|help: the line ticks has to stand here| THEN 3 TIMES 5;;fault: line 5: \
        word|help: ~| THEN 5;;fault: line 5: missing|help: the line ticks has to stand here| THEN 2 TIMES \
        5;;fault: line 5: word|help: ticks takes 1 word, and 0 follow| THEN 0+;total ticks 7 taken 7 frames \
        0 commands 0 refused 0 got 0|; THEN 0+;total ticks 70 taken 70 frames 0 commands 0 refused 0 got 0|\
        ; THEN 2 TIMES 0+;total ticks 700 taken 700 frames 0 commands 0 refused 0 got 0|\
        ; THEN 2 TIMES 5;;fault: line 6: word|help: ~| THEN 2 TIMES 5;;fault: line 6: word|\
        help: add takes 2 words, and 0 follow| THEN 2 TIMES 5;;fault: line 6: word|\
        help: add takes 2 words, and 1 follows| THEN 2 TIMES 0+;total ticks 700 taken 700 frames 0 commands 1 \
        refused 0 got 0|; THEN 2 TIMES 5;;fault: line 7: word|help: ~| THEN 2 TIMES 5;;fault: line 7: word|\
        help: add takes 2 words, and 0 follow| THEN 2 TIMES 5;;fault: line 7: word|\
        help: add takes 2 words, and 1 follows| THEN 2 TIMES 0+;total ticks 700 taken 700 frames 0 commands 2 \
        refused 0 got 0|; THEN 2 TIMES 5;;fault: line 8: word|help: ~| THEN 2 TIMES 5;;fault: line 8: word|\
        help: add takes 2 words, and 0 follow| THEN 2 TIMES 5;;fault: line 8: word|\
        help: add takes 2 words, and 1 follows| THEN 2 TIMES 0+;total ticks 700 taken 700 frames 0 commands 3 \
        refused 0 got 0|; THEN 5 TIMES 5;;fault: line 9: word|help: ~| THEN 2 TIMES 5;;fault: line 9: word|\
        help: remove takes 2 words, and 0 follow| THEN 4 TIMES 5;;fault: line 9: word|\
        help: remove takes 2 words, and 1 follows| THEN 2 TIMES 0+;total ticks 700 taken 700 frames 0 \
        commands 4 refused 0 got 0|;"
}
