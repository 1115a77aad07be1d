//! A sink of the system.

use icescan_print::{Output, write_all};

#[test]
fn outputs_of_the_system(rt: HostRuntime) {
    let mut output = Output::new(Vec::<u8>::new(rt.alloc()));
    assert!(rt; write_all(&mut output, b"text").is_ok());
}
