//! Words, one by one, and the commands of the program of walks that they are.

use command_rows::{first_wrong, is_told};
use command_walk::WalkCommand;

const WALKS: &str = "\
    walk=> Walk\n\
    trace=> Trace\n\
    fates=> Fates\n\
    check=> Check\n\
    h4 0=> H4 { line: 0 }\n\
    h4 127=> H4 { line: 127 }\n\
    h4 0007=> H4 { line: 7 }\n\
    h4=> usage\n\
    h4 128=> usage\n\
    h4 256=> usage\n\
    h4 x=> usage\n\
    h4 0 0=> usage\n\
    service 1=> Service { interval: 1 }\n\
    service 100000000=> Service { interval: 100000000 }\n\
    service 000008=> Service { interval: 8 }\n\
    service=> usage\n\
    service 0=> usage\n\
    service 100000001=> usage\n\
    service 4294967297=> usage\n\
    service x=> usage\n\
    service 8 8=> usage\n\
    service 1.5=> usage\n\
    service -1=> usage\n\
    SERVICE 8=> usage\n\
    capture=> Capture\n\
    gfp=> Gfp\n\
    frames=> Frames\n\
    decode=> Decode\n\
    noise=> Noise\n\
    noise x=> usage\n\
    au4=> Au4\n\
    au4 x=> usage\n\
    channels=> Channels\n\
    channels x=> usage\n\
    pair=> Pair\n\
    pair x=> usage\n\
    live=> Live { tells: Nothing }\n\
    live trace=> Live { tells: Steps }\n\
    live told=> Live { tells: Members }\n\
    live x=> usage\n\
    live Trace=> usage\n\
    live trace x=> usage\n\
    live told trace=> usage\n\
    live live=> usage\n\
    live pair=> LivePair { tells: Nothing }\n\
    live pair trace=> LivePair { tells: Steps }\n\
    live pair told=> LivePair { tells: Members }\n\
    live pair x=> usage\n\
    live pair pair=> usage\n\
    live pair told x=> usage\n\
    live told pair=> usage\n\
    live there=> usage\n\
    pair live=> usage\n\
    trace live=> usage\n\
    Live=> usage\n\
    make 1 1 1=> Make { number: 1, lines: 1, ticks: 1 }\n\
    make 0 64 1000000=> Make { number: 0, lines: 64, ticks: 1000000 }\n\
    make 18446744073709551615 1 1=> Make { number: 18446744073709551615, lines: 1, ticks: 1 }\n\
    make 000000000000000000000000007 0008 0004000=> Make { number: 7, lines: 8, ticks: 4000 }\n\
    make 18446744073709551616 1 1=> usage\n\
    make 36893488147419103233 1 1=> usage\n\
    make 1 0 1=> usage\n\
    make 1 65 1=> usage\n\
    make 1 257 1=> usage\n\
    make 1 1 0=> usage\n\
    make 1 1 1000001=> usage\n\
    make 1 1 4294967297=> usage\n\
    make +1 1 1=> usage\n\
    make -1 1 1=> usage\n\
    make 1 -1 1=> usage\n\
    make 1 1 -1=> usage\n\
    make -- 1 1 1=> usage\n\
    make 1 1 1 --=> usage\n\
    make --help=> usage\n\
    make 1x 1 1=> usage\n\
    make  1 1=> usage\n\
    make 1 1=> usage\n\
    make 1 1 1 1=> usage\n\
    make=> usage\n\
    stream 64 1 0 30 1=> Stream(Rate { \
        sizes: Sizes { sizes: [64, 0, 0, 0, 0, 0, 0, 0, 0, 0, 0, 0, 0, 0, 0, 0], count: 1 }, \
        mbits: 1, first: 0, end: 30, number: 1 })\n\
    stream 9600 400000 99999999 100000000 18446744073709551615=> \
        Stream(Rate { \
        sizes: Sizes { sizes: [9600, 0, 0, 0, 0, 0, 0, 0, 0, 0, 0, 0, 0, 0, 0, 0], count: 1 }, \
        mbits: 400000, first: 99999999, end: 100000000, number: 18446744073709551615 })\n\
    stream 0064,00000000000065 01 0000000000003 4 0=> Stream(Rate { \
        sizes: Sizes { sizes: [64, 65, 0, 0, 0, 0, 0, 0, 0, 0, 0, 0, 0, 0, 0, 0], count: 2 }, \
        mbits: 1, first: 3, end: 4, number: 0 })\n\
    stream 64,65,66,67,68,69,70,71,72,73,74,75,76,77,78,9600 1 0 30 1=> Stream(Rate { \
        sizes: Sizes { sizes: [64, 65, 66, 67, 68, 69, 70, 71, 72, 73, 74, 75, 76, 77, 78, 9600], count: 16 }, \
        mbits: 1, first: 0, end: 30, number: 1 })\n\
    stream 64,65,66,67,68,69,70,71,72,73,74,75,76,77,78,79,80 1 0 30 1=> usage\n\
    stream 64,63 1 0 30 1=> usage\n\
    stream 64,9601 1 0 30 1=> usage\n\
    stream 64, 1 0 30 1=> usage\n\
    stream ,64 1 0 30 1=> usage\n\
    stream 64,,65 1 0 30 1=> usage\n\
    stream , 1 0 30 1=> usage\n\
    stream 64;65 1 0 30 1=> usage\n\
    stream 63 1 0 30 1=> usage\n\
    stream 9601 1 0 30 1=> usage\n\
    stream 65600 1 0 30 1=> usage\n\
    stream 64 0 0 30 1=> usage\n\
    stream 64 400001 0 30 1=> usage\n\
    stream 64 1 30 30 1=> usage\n\
    stream 64 1 31 30 1=> usage\n\
    stream 64 1 0 100000001 1=> usage\n\
    stream 64 1 100000000 100000000 1=> usage\n\
    stream 64 1 0 4294967297 1=> usage\n\
    stream 64 1 0 30 18446744073709551616=> usage\n\
    stream 64 1 0 30=> usage\n\
    stream 64 1 0 30 1 1=> usage\n\
    stream 64 1 -1 30 1=> usage\n\
    stream 64 1 0 30 x=> usage\n\
    stream=> usage\n\
    Walk=> usage\n\
    walk x=> usage\n\
    walk walk=> usage\n\
    fates x=> usage\n\
    check x=> usage\n\
    capture x=> usage\n\
    gfp x=> usage\n\
    frames x=> usage\n\
    walk --trace=> usage\n\
    walk -h=> usage\n\
    -- walk=> usage\n\
    run 2=> usage\n\
    -=> usage\n\
    --=> usage\n\
    -h=> usage\n\
    --help=> usage\n\
    --version=> usage\n\
    -V=> usage\n\
    help=> usage\n\
    help walk=> usage\n\
    => usage";

#[test]
fn words_are_commands(rt: HostRuntime) {
    let alloc = rt.alloc();
    let wrong = first_wrong::<WalkCommand>(alloc, WALKS);
    assert_eq!(rt;
        (wrong, is_told::<WalkCommand>(alloc, &[], "usage")),
        (None, true)
    );
}
