use crate::{examples_hold, firsts_join};

#[test]
fn calls_the_laws() {
    examples_hold();
    firsts_join();
}
