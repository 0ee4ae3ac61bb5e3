//! What a top of instances is made of.
ghost use Rattle.std.specs.Prelude.{◌≡◌, Ok, IfErr, OnOk};
ghost use Rattle.std.specs.List.{list_any};
ghost use Rattle.net_signature.specs.Body.{is_fed as is_fed_word};
ghost use Rattle.compose_blocks.specs.Planned.{MayFault};
ghost use Rattle.compose_blocks.specs.Structure.{has_feed as signature_has_feed, is_fed_by_line, HasInstancesAlone, IsUnfed};

use crate::PlanFault;
use net_blif::Design;
use net_signature::Signature;
use net_words::{FeedText, Role, WordText};

// Whether a word is fed.
fn is_fed(word: &WordText) -> bool
    ensures { result ≡ is_fed_word word.now }
{
    matches!(word.role, Role::Fed)
}

// Whether one of the words is fed.
fn has_fed_word(words: &[WordText]) -> bool
    ensures { result ≡ list_any is_fed_word words.now }
{
    words.iter().any(is_fed)
}

// Whether a line feeds a net.
fn has_lines(feeds: &[FeedText]) -> bool
    ensures { result ≡ is_fed_by_line feeds.now }
{
    !feeds.is_empty()
}

// Whether something is fed.
fn has_feed(signature: &Signature) -> bool
    ensures { result ≡ signature_has_feed signature.now }
{
    has_fed_word(signature.words()) || has_lines(signature.feeds())
}

/// Refuses a signature with a fed word or a feed.
pub(crate) fn check_unfed(signature: &Signature) -> Result<(), PlanFault>
    ensures unfed { OnOk result (IsUnfed signature.now (Ok tt)) }
    ensures fault { IfErr result (MayFault (IsUnfed signature.now)) }
{
    if has_feed(signature) {
        return Err(PlanFault::FedInTop);
    }
    Ok(())
}

/// Refuses the first gate or latch of the top.
pub(crate) fn check_gates(design: &Design) -> Result<(), PlanFault>
    ensures alone { OnOk result (HasInstancesAlone design.now (Ok tt)) }
    ensures fault { IfErr result (MayFault (HasInstancesAlone design.now)) }
{
    match design.gate_line() {
        None => Ok(()),
        Some(line) => Err(PlanFault::GateInTop { line }),
    }
}
