//! Files that are too large: too many bytes, nets or gates.
use crate::program::answer;
use std::alloc::{AllocError, Global};
use std::process::Abort;
use std::test::Fail;

const SIGNATURE: &str = "gfsig 1\nfield 0x3\nword A input poly a\nword Z output poly z\n";

// A text with so many numbered words behind it.
fn with_numbers(alloc: Global, text: &str, word: &str, count: u32) -> Result<Vec<u8>, AllocError> {
    let mut bytes = Vec::new(alloc);
    bytes.extend_from_slice(text.as_bytes())?;
    for number in 0..count {
        let part = format!(in alloc; " {word}{number}")?;
        bytes.extend_from_slice(part.as_bytes())?;
    }
    bytes.extend_from_slice(b"\n.end\n")?;
    Ok(bytes)
}

// A text with this line behind it, so many times.
fn with_lines(alloc: Global, text: &str, line: &str, count: u32) -> Result<Vec<u8>, AllocError> {
    let mut bytes = Vec::new(alloc);
    bytes.extend_from_slice(text.as_bytes())?;
    for _ in 0..count {
        bytes.extend_from_slice(line.as_bytes())?;
    }
    Ok(bytes)
}

// Compares what the program answers over this netlist with a fault's line.
fn check(rt: &impl Abort, alloc: Global, net: Vec<u8>, line: &str) -> Result<(), Fail> {
    let mut files = Vec::new(alloc);
    files.push((
        String::from_str(alloc, "s")?,
        SIGNATURE.as_bytes().to_vec(alloc)?,
    ))?;
    files.push((String::from_str(alloc, "net")?, net))?;
    let (status, bytes) = answer(alloc, &["bits", "s", "net"], files, &[], &[], 100)?;
    assert_eq!(rt; bytes.as_slice(), line.as_bytes());
    assert_eq!(rt; status, 2);
    Ok(())
}

#[test]
fn too_many_bytes(rt: HostRuntime) -> Result<(), Fail> {
    let alloc = rt.alloc();
    let mut net = Vec::new(alloc);
    for _ in 0..67_108_865u32 {
        net.push(b'\n')?;
    }
    check(
        &rt,
        alloc,
        net,
        "fault 11: net has more than 67108864 bytes\n",
    )
}

#[test]
fn too_many_nets(rt: HostRuntime) -> Result<(), Fail> {
    let alloc = rt.alloc();
    let net = with_numbers(alloc, ".model m\n.inputs", "n", 1_048_577)?;
    check(&rt, alloc, net, "fault 38: too many nets in net\n")
}

#[test]
fn too_many_gates(rt: HostRuntime) -> Result<(), Fail> {
    let alloc = rt.alloc();
    let net = with_lines(alloc, ".model m\n.inputs a\n", ".names z\n", 1_048_577)?;
    check(&rt, alloc, net, "fault 38: too many gates in net\n")
}
