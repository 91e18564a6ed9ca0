//! Words, one by one, and the commands of the program of runs that they are.

use command_rows::first_wrong;
use command_run::RunCommand;

const RUNS: &str = "\
    run 1=> Run { workers: 1 }\n\
    run 0064=> Run { workers: 64 }\n\
    watch 3=> Watch { workers: 3 }\n\
    watch 65=> usage\n\
    watch=> usage\n\
    run 0=> usage\n\
    run 65=> usage\n\
    run 257=> usage\n\
    run=> usage\n\
    run 1 1=> usage\n\
    run -1=> usage\n\
    run +1=> usage\n\
    run -- 1=> usage\n\
    run --workers=1=> usage\n\
    help run=> usage\n\
    Run 1=> usage\n\
    walk=> usage\n\
    --help=> usage\n\
    => usage";

#[test]
fn words_are_commands(rt: HostRuntime) {
    assert_eq!(rt; first_wrong::<RunCommand>(rt.alloc(), RUNS), None);
}
