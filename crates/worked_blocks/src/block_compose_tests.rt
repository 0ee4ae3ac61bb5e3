//! Two instances of one block beside what algebra gives.
ghost use Rattle.std.specs.Prelude.{◌≡◌, length, IfOk};
ghost use Rattle.job_input.specs.Setting.{AreBasesOver, AreSaid};
ghost use Rattle.block_compose.specs.Composed.{HasBases, HaveBlockBases};

use block_compose::{BlockBases, compose};
use gf_basis::Basis;
use gf_field::Field;
use gf_tower::AnyField;
use job_input::{PolyBasis, Setting, bases_of, read_hierarchy, read_signed, setting_over};
use job_io::MemShelf;
use net_signature::Signature;
use net_words::WordText;
use poly_mixed::Poly;
use std::alloc::{AllocError, Global};
use std::process::Abort;
use std::test::Fail;

// Files by name, of their texts.
fn files_of(alloc: Global, files: &[(&str, &str)]) -> Result<Vec<(String, Vec<u8>)>, AllocError> {
    let mut pairs = Vec::new(alloc);
    for (name, text) in files {
        pairs.push((
            String::from_str(alloc, name)?,
            text.as_bytes().to_vec(alloc)?,
        ))?;
    }
    Ok(pairs)
}

// The bases of words.
fn list<F: Field>(rt: &impl Abort, alloc: Global, field: &F, words: &[WordText]) -> Vec<Basis>
    ensures long { length result.items ≡ length words.now }
    ensures over { AreBasesOver (F.degree field.now) (F.product field.now) result.items }
{
    let poly = PolyBasis {
        field,
        basis: Basis::poly(field),
    };
    match bases_of(alloc, &poly, words) {
        Ok(bases) => bases,
        Err(_) => panic!(rt; "no bases"),
    }
}

// The bases of the words of a signature with one block.
fn bases<F: Field>(
    rt: &impl Abort,
    alloc: Global,
    field: &F,
    signature: &Signature,
) -> Result<BlockBases, AllocError>
    ensures top { IfOk result (λ bases. HasBases (F.degree field.now) (F.product field.now) bases 0 signature.now.words) }
    ensures block { IfOk result (λ bases. HaveBlockBases (F.degree field.now) (F.product field.now) bases signature.now.blocks) }
{
    let blocks = signature.blocks();
    assert!(rt; blocks.len() == 1);
    let mut bases = BlockBases::new(alloc);
    bases.push(list(rt, alloc, field, signature.words()))?;
    bases.push(list(rt, alloc, field, blocks[0].words()))?;
    Ok(bases)
}

// The composition of the file `net` by words of a signature with one block.
fn composed<F: Field>(
    rt: &impl Abort,
    alloc: Global,
    field: &F,
    signature: Signature,
    shelf: &mut MemShelf,
) -> Result<Poly, AllocError>
    requires { AreSaid signature }
{
    let setting = match setting_over(alloc, field, signature) {
        Ok(setting) => setting,
        Err(_) => panic!(rt; "no setting"),
    };
    let design = match read_hierarchy(alloc, shelf, &setting, "net") {
        Ok(design) => design,
        Err(_) => panic!(rt; "no design"),
    };
    let bases = bases(rt, alloc, field, &setting.signature)?;
    match compose(alloc, field, &design, &setting.signature, &bases, 100) {
        Ok(poly) => Ok(poly),
        Err(fault) => panic!(rt; "{fault}"),
    }
}

// Over the field of 4 elements the block multiplies. The first instance multiplies A and B, and the second the product and A.
#[test]
fn a_product_with_its_factor(rt: HostRuntime) -> Result<(), Fail> {
    let alloc = rt.alloc();
    let signature =
        "gfsig 1\nfield 0x7\nword A input poly a0 a1\nword B input poly b0 b1\nword Z output poly z0 z1\nblock m\nword X input poly x0 x1\nword Y input poly y0 y1\nword P output poly p0 p1\n";
    let top =
        ".model top\n.inputs a0 a1 b0 b1\n.outputs z0 z1\n.subckt m x0=a0 x1=a1 y0=b0 y1=b1 p0=t0 p1=t1\n.subckt m x0=t0 x1=t1 y0=a0 y1=a1 p0=z0 p1=z1\n.model m\n.inputs x0 x1 y0 y1\n.outputs p0 p1\n.names x0 x1 y0 y1 p0\n101- 1\n01-1 1\n1110 1\n1101 1\n.names x0 x1 y0 y1 p1\n10-1 1\n0110 1\n0101 1\n111- 1\n";
    let mut shelf = MemShelf::new(
        files_of(alloc, &[("s", signature), ("net", top)])?,
        Vec::new(alloc),
    );
    let signed = match read_signed(alloc, &mut shelf, "s") {
        Ok(signed) => signed,
        Err(_) => panic!(rt; "no signature"),
    };
    let poly = match signed.field {
        AnyField::Base(field) => composed(&rt, alloc, &field, signed.signature, &mut shelf)?,
        _ => panic!(rt; "another field"),
    };
    let terms = poly.terms(alloc)?;
    assert_eq!(rt; terms.len(), 1);
    for term in &terms {
        assert_eq!(rt; term.coefficient(), 1);
        assert!(rt; *term.mono().exponents() == [2, 1, 0, 0, 0, 0, 0, 0]);
    }
    Ok(())
}
