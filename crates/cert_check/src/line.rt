//! One line of a certificate.
ghost use Rattle.std.specs.Prelude.{◌≡◌, ◌≤◌, ◌↔◌, List, length, IsTrue, IfOk, IfSome};
ghost use Rattle.outcome.specs.Outcome.{Fits};
ghost use Rattle.poly_mixed.specs.Polynomial.{Terms, IsReduced};
ghost use Rattle.cert_check.specs.Fault.{line_refusal};
ghost use Rattle.cert_check.specs.Scan.{digits_first as digits_in_front};
ghost use Rattle.cert_check.specs.Certificate.{after_hash as hash_left, IsInWords, InWords, ClaimOf, PolynomialOf, MultiplierOf, LineOf};
ghost use Rattle.cert_check.specs.private.Kept.{terms_of, IsNumbered};
ghost use Rattle.cert_check.specs.private.Scanning.{left_of};
ghost use Rattle.cert_check.specs.private.Reading.{AreDrivers, multiplier_in, multiplier_named, said_in, IsMultiplier, IsLine, fault_of_poly, fault_of_claim};

use crate::fault::LineFault;
use crate::frame::{Frame, below, claim_text, frame_at};
use crate::scan::{after_sign, digits_first, is_blank};
use net_core::Net;
use poly_mixed::{Generator, Labels, Poly, PolyFault, read_poly};
use std::alloc::Global;

/// A polynomial, or the number of a shared one.
#[derive(Drop)]
pub(crate) enum Multiplier {
    Own(Poly),
    Shared(u32),
}

impl Multiplier {
    /// The polynomial, where these are shared.
    pub(crate) fn among<'a>(&'a self, shared: &'a [Poly]) -> &'a Poly
        requires { IsNumbered (length shared.now) self.now }
        ensures { result.now.terms ≡ multiplier_in (terms_of shared.now) self.now }
    {
        match self {
            Multiplier::Own(poly) => poly,
            Multiplier::Shared(n) => &shared[*n as usize],
        }
    }
}

/// A line after the claim: a pair, or a shared multiplier.
#[derive(Drop)]
pub(crate) enum Line {
    Pair(Generator, Multiplier),
    Share(Poly),
}

// A fault of a polynomial's text as one of the line.
fn fault_of(fault: PolyFault) -> LineFault
    ensures { result ≡ fault_of_poly fault }
{
    match fault {
        PolyFault::Syntax => LineFault::Syntax,
        PolyFault::NoSuchNet => LineFault::NoSuchNet,
        PolyFault::NoSuchBit => LineFault::NoSuchBit,
        PolyFault::OutOfMemory => LineFault::OutOfMemory,
    }
}

// The polynomial that a text says.
fn polynomial(alloc: Global, k: u32, labels: &Labels, text: &[u8]) -> Result<Poly, LineFault>
    requires { (1 ≤ k) × (k ≤ 64) }
    ensures value { Fits line_refusal (λ p. p.terms) result (PolynomialOf k labels.now text.now) }
    ensures reduced { IfOk result (λ p. IsReduced k p.terms) }
{
    match read_poly(alloc, text, k, labels) {
        Ok(poly) => Ok(poly),
        Err(fault) => Err(fault_of(fault)),
    }
}

// What stands after `#`, in version 2.
fn after_hash(version: u32, text: &[u8]) -> Option<&[u8]>
    ensures { left_of result ≡ hash_left version text.now }
{
    if version == 2 {
        after_sign(text, b'#')
    } else {
        None
    }
}

// The number of a shared multiplier, of which there are so many.
fn shared_number(count: u32, bytes: &[u8]) -> Result<Multiplier, LineFault>
    ensures value { result ≡ multiplier_named count (digits_in_front bytes.now) }
{
    let Some((digits, rest)) = digits_first(bytes) else {
        return Err(LineFault::Syntax);
    };
    if !is_blank(rest) {
        return Err(LineFault::Syntax);
    }
    match below(digits, count) {
        Some(n) => Ok(Multiplier::Shared(n)),
        None => Err(LineFault::NoSuchLet),
    }
}

// A polynomial, or in version 2 the number of a shared one.
fn read_multiplier(
    alloc: Global,
    k: u32,
    labels: &Labels,
    version: u32,
    count: u32,
    text: &[u8],
) -> Result<Multiplier, LineFault>
    requires { (1 ≤ k) × (k ≤ 64) }
    ensures value { (shared : List Terms) → length shared ≡ count → Fits line_refusal (multiplier_in shared) result (MultiplierOf k labels.now version shared text.now) }
    ensures is { IfOk result (IsMultiplier k count) }
{
    match after_hash(version, text) {
        Some(rest) => shared_number(count, rest),
        None => match polynomial(alloc, k, labels, text) {
            Ok(poly) => Ok(Multiplier::Own(poly)),
            Err(fault) => Err(fault),
        },
    }
}

/// What a line after the claim says, where so many shared multipliers stand before it; none is the end.
pub(crate) fn read_line(
    alloc: Global,
    k: u32,
    net: &Net,
    drivers: &[Option<u32>],
    labels: &Labels,
    version: u32,
    count: u32,
    line: &[u8],
) -> Result<Option<Line>, LineFault>
    requires k { (1 ≤ k) × (k ≤ 64) }
    requires drivers { AreDrivers net.now drivers.now }
    ensures value { (shared : List Terms) → length shared ≡ count → Fits line_refusal (said_in shared) result (LineOf k net.now labels.now version shared line.now) }
    ensures is { IfOk result (λ said. IfSome said (IsLine k net.now labels.now count)) }
{
    match frame_at(net, drivers, labels, version, count, line) {
        Ok(Frame::Pair(generator, text)) => {
            match read_multiplier(alloc, k, labels, version, count, text) {
                Ok(multiplier) => Ok(Some(Line::Pair(generator, multiplier))),
                Err(fault) => Err(fault),
            }
        }
        Ok(Frame::Share(text)) => match polynomial(alloc, k, labels, text) {
            Ok(poly) => Ok(Some(Line::Share(poly))),
            Err(fault) => Err(fault),
        },
        Ok(Frame::End) => Ok(None),
        Err(fault) => Err(fault),
    }
}

// Whether neither `[` nor `@` stands in a text.
fn is_in_words(text: &[u8]) -> bool
    ensures { IsTrue result ↔ IsInWords text.now }
{
    for byte in text {
        if *byte == b'[' || *byte == b'@' {
            return false;
        }
    }
    true
}

// A fault of a polynomial's text where only a polynomial in words may stand.
fn claim_fault(fault: PolyFault) -> LineFault
    ensures { result ≡ fault_of_claim fault }
{
    match fault {
        PolyFault::OutOfMemory => LineFault::OutOfMemory,
        _ => LineFault::Syntax,
    }
}

// The polynomial in words that a text says.
fn words_polynomial(alloc: Global, k: u32, labels: &Labels, text: &[u8]) -> Result<Poly, LineFault>
    requires { (1 ≤ k) × (k ≤ 64) }
    ensures value { Fits line_refusal (λ p. p.terms) result (InWords k labels.now text.now) }
    ensures reduced { IfOk result (λ p. IsReduced k p.terms) }
{
    if !is_in_words(text) {
        return Err(LineFault::Syntax);
    }
    match read_poly(alloc, text, k, labels) {
        Ok(poly) => Ok(poly),
        Err(fault) => Err(claim_fault(fault)),
    }
}

/// The claim of the second line.
pub(crate) fn read_claim(
    alloc: Global,
    k: u32,
    labels: &Labels,
    line: &[u8],
) -> Result<Poly, LineFault>
    requires { (1 ≤ k) × (k ≤ 64) }
    ensures value { Fits line_refusal (λ p. p.terms) result (ClaimOf k labels.now line.now) }
    ensures reduced { IfOk result (λ p. IsReduced k p.terms) }
{
    match claim_text(labels, line) {
        Ok(text) => words_polynomial(alloc, k, labels, text),
        Err(fault) => Err(fault),
    }
}
