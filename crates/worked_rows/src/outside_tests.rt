//! The program over a shelf and a sink that never fail.
use gf_abs::run_surely;
use job_io::{SureShelf, SureSink};
use std::test::Fail;

#[test]
fn surely(rt: HostRuntime) -> Result<(), Fail> {
    let alloc = rt.alloc();
    let mut words = Vec::new(alloc);
    words.push(String::from_str(alloc, "bits")?)?;
    let mut shelf = SureShelf::new(Vec::new(alloc));
    let mut sink = SureSink::new();
    assert_eq!(rt; run_surely(alloc, &words, &mut shelf, &mut sink), 2);
    Ok(())
}
