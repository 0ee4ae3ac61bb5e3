//! The lines of a signature before its words: the version, the field and the towers.
ghost use Rattle.std.specs.Prelude.{◌≡◌, ◌≢◌, ◌&&◌, [], ◌∷◌, map, IfOk, IfErr};
ghost use Rattle.net_signature.specs.Statement.{SaysVersion, SaysField, SaysTower};
ghost use Rattle.net_signature.specs.Outcomes.{OrSyntax, Says, Next, tower_comes as comes_tower, begins_tower as begins_a_tower};
ghost use Rattle.net_signature.specs.Signature.{TowerIf};
ghost use Rattle.net_signature.specs.Reading.{Fits, left, end_of, line_of};
ghost use Rattle.net_signature.specs.declared.fault.SigFault.TheVariants.{OutOfMemory};

use crate::element::read_elements;
use crate::fault::SigFault;
use crate::lines::{Lines, Statement};
use crate::token::is_token;
use crate::version::Version;
use std::alloc::Global;
use text_core::read_hex;

/// The first line.
pub fn read_version(lines: &mut Lines) -> Result<Version, SigFault>
    ensures says { Fits (λ version. (version, left lines.new)) result (Next (end_of lines.old) SaysVersion (left lines.old)) }
    ensures end { end_of lines.new ≡ end_of lines.old }
{
    match lines.required() {
        Ok(line) => version_of(&line),
        Err(fault) => Err(fault),
    }
}

// The version that a line says.
fn version_of(line: &Statement) -> Result<Version, SigFault>
    ensures fits { Fits (λ version. version) result (Says (line_of line.now) SaysVersion) }
    ensures no_memory { IfErr result (λ fault. fault ≢ OutOfMemory) }
{
    match line.tokens.as_slice() {
        [keyword, number] => version_from(line.number, keyword, number),
        _ => Err(SigFault::Syntax { line: line.number }),
    }
}

// The version that two tokens of a line say.
fn version_from(line: u32, keyword: &[u8], number: &[u8]) -> Result<Version, SigFault>
    ensures fits { Fits (λ version. version) result (OrSyntax line (SaysVersion (keyword.now ∷ number.now ∷ []))) }
    ensures no_memory { IfErr result (λ fault. fault ≢ OutOfMemory) }
{
    if is_token(keyword, b"gfsig") && is_token(number, b"1") {
        Ok(Version::One)
    } else if is_token(keyword, b"gfsig") && is_token(number, b"2") {
        Ok(Version::Two)
    } else {
        Err(SigFault::Syntax { line })
    }
}

/// The line of the field.
pub fn read_field(lines: &mut Lines) -> Result<u128, SigFault>
    ensures says { Fits (λ modulus. (modulus, left lines.new)) result (Next (end_of lines.old) SaysField (left lines.old)) }
    ensures end { end_of lines.new ≡ end_of lines.old }
{
    match lines.required() {
        Ok(line) => field_of(&line),
        Err(fault) => Err(fault),
    }
}

// The modulus that a line says.
fn field_of(line: &Statement) -> Result<u128, SigFault>
    ensures fits { Fits (λ modulus. modulus) result (Says (line_of line.now) SaysField) }
    ensures no_memory { IfErr result (λ fault. fault ≢ OutOfMemory) }
{
    match line.tokens.as_slice() {
        [keyword, modulus] => field_from(line.number, keyword, modulus),
        _ => Err(SigFault::Syntax { line: line.number }),
    }
}

// The modulus that two tokens of a line say.
fn field_from(number: u32, keyword: &[u8], modulus: &[u8]) -> Result<u128, SigFault>
    ensures fits { Fits (λ modulus. modulus) result (OrSyntax number (SaysField (keyword.now ∷ modulus.now ∷ []))) }
    ensures no_memory { IfErr result (λ fault. fault ≢ OutOfMemory) }
{
    if !is_token(keyword, b"field") {
        return Err(SigFault::Syntax { line: number });
    }
    match read_hex(modulus, u128::MAX) {
        Some(modulus) => Ok(modulus),
        None => Err(SigFault::Syntax { line: number }),
    }
}

/// The coefficients of a tower, if its line may stand here and comes next.
pub fn read_tower(alloc: Global, lines: &mut Lines, may_stand: bool) -> Result<Vec<u64>, SigFault>
    ensures says { Fits (λ v. (v.items, left lines.new)) result (TowerIf (may_stand && comes_tower (left lines.old)) (end_of lines.old) (left lines.old)) }
    ensures end { end_of lines.new ≡ end_of lines.old }
{
    if may_stand && tower_comes(lines)? {
        read_tower_line(alloc, lines)
    } else {
        Ok(Vec::new(alloc))
    }
}

// Whether the line of a tower comes next.
fn tower_comes(lines: &Lines) -> Result<bool, SigFault>
    ensures comes { IfOk result (λ comes. comes ≡ comes_tower (left lines.now)) }
    ensures only { IfErr result (λ e. e ≡ OutOfMemory) }
{
    let mut ahead = lines.from_here();
    match ahead.next()? {
        Some(line) => Ok(begins_tower(&line)),
        None => Ok(false),
    }
}

// Whether a line begins with `tower`.
fn begins_tower(line: &Statement) -> bool
    ensures { result ≡ begins_a_tower (line_of line.now).tokens }
{
    match line.tokens.as_slice() {
        [first, ..] => *first == b"tower".as_slice(),
        [] => false,
    }
}

// The line of a tower.
fn read_tower_line(alloc: Global, lines: &mut Lines) -> Result<Vec<u64>, SigFault>
    ensures says { Fits (λ v. (v.items, left lines.new)) result (Next (end_of lines.old) SaysTower (left lines.old)) }
    ensures end { end_of lines.new ≡ end_of lines.old }
{
    match lines.required() {
        Ok(line) => tower_of(alloc, &line),
        Err(fault) => Err(fault),
    }
}

// The coefficients that a line says.
fn tower_of(alloc: Global, line: &Statement) -> Result<Vec<u64>, SigFault>
    ensures { Fits (λ v. v.items) result (Says (line_of line.now) SaysTower) }
{
    match line.tokens.as_slice() {
        [keyword, numbers @ ..] => tower_from(alloc, line.number, keyword, numbers),
        [] => Err(SigFault::Syntax { line: line.number }),
    }
}

// The coefficients that tokens of a line say.
fn tower_from(
    alloc: Global,
    number: u32,
    keyword: &[u8],
    numbers: &[&[u8]],
) -> Result<Vec<u64>, SigFault>
    ensures { Fits (λ v. v.items) result (OrSyntax number (SaysTower (keyword.now ∷ map (λ t. t.now) numbers.now))) }
{
    if !is_token(keyword, b"tower") || numbers.len() < 1 {
        return Err(SigFault::Syntax { line: number });
    }
    read_elements(alloc, number, numbers)
}
