//! Declarations of names.
ghost use Rattle.std.specs.Prelude.{◌≡◌, ◌⊎◌, Ok, Err, IfOk, IfErr, OnOk};
ghost use Rattle.text_core.specs.Lines.{IsPrinting};
ghost use Rattle.net_core.specs.Inside.{IsNetName};
ghost use Rattle.net_verilog.specs.Declarations.{is_directed as directed_is, was_directed as directed_was};
ghost use Rattle.net_verilog.specs.private.Decimals.{IsSmall};
ghost use Rattle.verilog_reader.specs.Declares.{Declares, is_against as against_is, is_same_range as same_range_is};
ghost use Rattle.verilog_reader.specs.private.Meets.{IsMet};

use crate::bits::bits_found;
use crate::cuts::is_bit;
use crate::scope::Scope;
use net_verilog::{Declared, Direction, VerilogFault};
use std::alloc::{AllocError, Global};

fn is_directed(direction: Direction) -> bool
    ensures { result ≡ directed_is direction }
{
    match direction {
        Direction::Input => true,
        Direction::Output => true,
        Direction::Wire => false,
    }
}

fn was_directed(earlier: Option<Declared>) -> bool
    ensures { result ≡ directed_was earlier }
{
    match earlier {
        None => false,
        Some(d) => d.directed,
    }
}

fn is_same_range(one: Option<(u32, u32)>, other: Option<(u32, u32)>) -> bool
    ensures { result ≡ same_range_is one other }
{
    match one {
        None => other.is_none(),
        Some((a, b)) => match other {
            None => false,
            Some((c, d)) => a == c && b == d,
        },
    }
}

// Whether an earlier declaration of a name is against another.
fn is_against(earlier: Option<Declared>, range: Option<(u32, u32)>, direction: Direction) -> bool
    ensures { result ≡ against_is earlier range direction }
{
    match earlier {
        None => false,
        Some(d) => !is_same_range(d.range, range) || (d.directed && is_directed(direction)),
    }
}

// Whether another declared name makes a net of the same name, where the names of the nets are short.
fn meets(
    alloc: Global,
    declared: &Scope,
    name: &str,
    range: Option<(u32, u32)>,
) -> Result<Option<bool>, AllocError>
    requires name { IsNetName name.now }
    requires prints { IsPrinting name.now }
    requires small { IsSmall range }
    ensures { IfOk result (λ r. IsMet declared.now range name.now r) }
{
    match range {
        None => {
            let met = is_bit(alloc, declared, name)?;
            Ok(Some(met))
        }
        Some((low, high)) => bits_found(alloc, declared, name, low, high),
    }
}

/// Declares a name that stands at a line: where a net of it has a name of more than 255 bytes, the fault is `Syntax`; where it
/// has another range or a second direction, or another declared name makes a net of the same name, it is `Redeclared`.
pub fn declare(
    alloc: Global,
    declared: &mut Scope,
    range: Option<(u32, u32)>,
    direction: Direction,
    line: u32,
    name: &str,
) -> Result<(), VerilogFault>
    requires name { IsNetName name.now }
    requires prints { IsPrinting name.now }
    requires small { IsSmall range }
    ensures made { OnOk result (Declares declared.old range direction (line, name.now) (Ok declared.new)) }
    ensures fault { IfErr result (λ e. (e ≡ VerilogFault.OutOfMemory) ⊎ Declares declared.old range direction (line, name.now) (Err e)) }
{
    let Some(met) = meets(alloc, declared, name, range)? else {
        return Err(VerilogFault::Syntax { line });
    };
    let earlier = declared.find(name);
    if met || is_against(earlier, range, direction) {
        return Err(VerilogFault::Redeclared { line });
    }
    let directed = was_directed(earlier) || is_directed(direction);
    declared.put(name, Declared { range, directed })?;
    Ok(())
}
