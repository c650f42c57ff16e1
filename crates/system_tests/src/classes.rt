// Two threads at the class locks.
use lock_uses::run_two;

/// Two threads add to the tables of the same two classes till each has added as often as is wanted; nothing is lost.
#[test]
fn two_threads_add_to_two_classes(rt: HostRuntime) {
    match run_two(&rt, rt.alloc(), 500) {
        Ok((cells, first, second)) => {
            assert!(rt; first == 500 && second == 500);
            for place in 0..cells.len() {
                assert!(rt; cells.at(place).log().len() == 1000);
            }
        }
        Err(_) => panic!(rt; "memory was wanting"),
    }
}
