//! The bases of the words of a top and of its blocks.
ghost use Rattle.std.specs.Prelude.{◌≡◌, [], ◌∷◌, List, length, map, IfOk};
ghost use Rattle.net_words.specs.declared.word.WordText.{WordText};
ghost use Rattle.gf_basis.specs.BasisParts.{elements_of};
ghost use Rattle.job_words.specs.Stop.{GivesBy};
ghost use Rattle.job_input.specs.Setting.{AreBasesOver};
ghost use Rattle.answer_composition.specs.Compose.{ListsOf, WithBlocksOf};
ghost use Rattle.answer_composition.specs.private.Composing.{AreListsOf};

use block_compose::BlockBases;
use gf_basis::Basis;
use gf_field::Field;
use job_input::{PolyBasis, bases_of};
use job_words::Stop;
use net_signature::{Block, Signature};
use std::alloc::Global;

/// The bases of the words of the top of a signature, and then those of the words of each block.
pub(crate) fn all_bases<F: Field>(
    alloc: Global,
    field: &F,
    signature: &Signature,
) -> Result<BlockBases, Stop>
    ensures gives { GivesBy (λ bases. map (map elements_of) bases) result (ListsOf (F.degree field.now) (F.product field.now) signature.now) ⊥ ⊥ }
    ensures are { IfOk result (λ bases. AreListsOf (F.degree field.now) (F.product field.now) signature.now.words signature.now.blocks bases) }
{
    let poly = PolyBasis {
        field,
        basis: Basis::poly(field),
    };
    match bases_of(alloc, &poly, signature.words()) {
        Ok(top) => with_blocks(alloc, field, top, signature.blocks()),
        Err(stop) => Err(stop),
    }
}

// The bases of a top's words, and then those of the words of each block.
fn with_blocks<F: Field>(
    alloc: Global,
    field: &F,
    top: Vec<Basis>,
    blocks: &[Block],
) -> Result<BlockBases, Stop>
    requires { AreBasesOver (F.degree field.now) (F.product field.now) top.items }
    ensures gives { GivesBy (λ bases. map (map elements_of) bases) result (WithBlocksOf (F.degree field.now) (F.product field.now) (map elements_of top.items ∷ []) blocks.now) ⊥ ⊥ }
    ensures are { (words : List WordText) → length top.items ≡ length words → IfOk result (λ bases. AreListsOf (F.degree field.now) (F.product field.now) words blocks.now bases) }
{
    let poly = PolyBasis {
        field,
        basis: Basis::poly(field),
    };
    let mut bases = BlockBases::new(alloc);
    bases.push(top)?;
    for block in blocks {
        let list = match bases_of(alloc, &poly, block.words()) {
            Ok(list) => list,
            Err(stop) => return Err(stop),
        };
        bases.push(list)?;
    }
    Ok(bases)
}
