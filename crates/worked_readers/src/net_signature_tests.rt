//! What is read of a signature, part by part; signatures that are refused are tried by rows.
use net_signature::{Signature, read_signature};
use net_words::{BasisText, Role, WordText};

// Whether the signature has this field and tower, and the word `Sum` alone.
fn is_signature(signature: &Signature) -> bool {
    match signature.words() {
        [word] => {
            signature.modulus() == 7 && signature.tower() == [2, 1].as_slice() && is_sum(word)
        }
        _ => false,
    }
}

fn is_sum(word: &WordText) -> bool {
    word.line == 5
        && word.name.as_str() == "Sum"
        && word.role == Role::Output
        && has_nets(word)
        && has_basis(word)
}

fn has_nets(word: &WordText) -> bool {
    match word.nets.as_slice() {
        [first, second] => first.as_str() == "n[0]" && second.as_str() == "n[1]",
        _ => false,
    }
}

fn has_basis(word: &WordText) -> bool {
    match &word.basis {
        BasisText::Elements { list } => list.as_slice() == [1, 10].as_slice(),
        _ => false,
    }
}

#[test]
fn data(rt: HostRuntime) {
    let text = b"gfsig 1\nfield 0x007\ntower 0x2 0x1\n\nword Sum output list:0x1,0xA n[0] n[1]\n";
    let signature = read_signature(rt.alloc(), text)
        .ok()
        .expect(&rt, "a signature");
    assert!(rt; is_signature(&signature));
}
