//! The reader of expressions.
ghost use Rattle.std.specs.Prelude.{◌≡◌, ◌⊎◌, ◌<◌, ◌≤◌, ◌∷◌, [], None, Some, Ok, Err, IfOk, IfErr, IfSome, IfNone, OnOk, length, drop};
ghost use Rattle.net_core.specs.NetList.{nets};
ghost use Rattle.net_verilog.specs.Tree.{looseness as looseness_of};
ghost use Rattle.net_verilog.specs.Expression.{Expression, open_fault};
ghost use Rattle.net_verilog.specs.private.Gates.{IsDriverOn, IsLastOn, IsStackOn};
ghost use Rattle.net_verilog.specs.private.Places.{left, value_of};
ghost use Rattle.net_verilog.specs.private.Steps.{IsOpening, count_open};
ghost use Rattle.net_verilog.specs.private.Standing.{BreaksExpression, BreaksHeld, EndsExpression, LeadsTo, StaysHeld, allows};
ghost use Rattle.text_core.specs.Lines.{IsPrinting};

use crate::gates::settle;
use crate::stack::Stack;
use crate::target_net::read_net;
use crate::words::{left_out, next_of, start_of, wrong};
use crate::{Cursor, Driver, Frame, Next, Operator, Start, Table, Token, VerilogFault};
use net_core::NetMaker;
use std::alloc::Global;

fn looseness(operator: Operator) -> u32
    ensures same { result ≡ looseness_of operator }
    ensures few { result ≤ 3 }
{
    match operator {
        Operator::And => 1,
        Operator::Xor | Operator::Xnor => 2,
        Operator::Or => 3,
    }
}

// Opens a `(` or a `~` at a token, where not too many are open.
fn open_frame(
    alloc: Global,
    stack: &mut Stack,
    token: &Token<'_>,
    frame: Frame,
) -> Result<(), VerilogFault>
    requires prints { IsPrinting token.now.text.now }
    requires opens { IsOpening frame }
    ensures few { OnOk result (count_open stack.old < 1024) }
    ensures pushed { OnOk result (stack.new ≡ frame ∷ stack.old) }
    ensures fault { IfErr result (λ e. (e ≡ VerilogFault.OutOfMemory) ⊎ (open_fault (count_open stack.old) (value_of token.now) ≡ Some e)) }
{
    if stack.open() >= 1024 {
        return Err(left_out(alloc, token.line, token.text));
    }
    stack.push_open(frame)?;
    Ok(())
}

// Reads one token where an operand is wanted: `(`, `~`, or an operand.
fn begin<'a>(
    alloc: Global,
    maker: &mut NetMaker,
    declared: &Table,
    stack: &mut Stack,
    place: &Cursor<'a>,
) -> Result<(Option<Driver>, Cursor<'a>), VerilogFault>
    requires on { IsStackOn maker.old stack.old }
    ensures met { IfOk result (λ r. LeadsTo declared.now maker.old stack.old None (left place.now) maker.new stack.new r.0 (left r.1)) }
    ensures on { OnOk result (IsStackOn maker.new stack.new) }
    ensures last { IfOk result (λ r. IsLastOn maker.new r.0) }
    ensures shorter { IfOk result (λ r. length r.1.rest.now < length place.now.rest.now) }
    ensures grows { OnOk result (nets maker.old ≤ nets maker.new) }
    ensures fault { IfErr result (λ e. (e ≡ VerilogFault.OutOfMemory) ⊎ BreaksExpression declared.now maker.old stack.old None (left place.now) e) }
{
    let (token, after) = place.next();
    match start_of(&token) {
        Start::Group => match open_frame(alloc, stack, &token, Frame::Group) {
            Ok(()) => Ok((None, after)),
            Err(fault) => Err(fault),
        },
        Start::Not => match open_frame(alloc, stack, &token, Frame::Not { line: token.line }) {
            Ok(()) => Ok((None, after)),
            Err(fault) => Err(fault),
        },
        Start::Bit(bit) => Ok((
            Some(Driver::Literal {
                line: token.line,
                bit,
            }),
            after,
        )),
        Start::Target => match read_net(alloc, maker, declared, place) {
            Ok((net, after)) => Ok((Some(Driver::Wire(net)), after)),
            Err(fault) => Err(fault),
        },
        Start::Other => Err(wrong(alloc, &token)),
    }
}

// Ends a `~` or an operator with its right operand, where the innermost one binds at least as tightly as the cap.
fn end_one(
    alloc: Global,
    maker: &mut NetMaker,
    stack: &mut Stack,
    driver: Driver,
    cap: u32,
) -> Result<Option<Driver>, VerilogFault>
    requires driver { IsDriverOn maker.old driver }
    requires on { IsStackOn maker.old stack.old }
    ensures ended { IfOk result (λ r. IfSome r (λ ended. StaysHeld cap maker.old stack.old driver maker.new stack.new ended)) }
    ensures none { IfOk result (λ r. IfNone r ((maker.new ≡ maker.old) × (stack.new ≡ stack.old) × (cap ≤ 3 → cap ≤ allows stack.new))) }
    ensures group { IfOk result (λ r. IfNone r (cap ≡ 3 → (stack.new ≡ []) ⊎ (stack.new ≡ Frame.Group ∷ drop 1 stack.new))) }
    ensures on { OnOk result (IsStackOn maker.new stack.new) }
    ensures last { IfOk result (λ r. IfSome r (λ ended. IsDriverOn maker.new ended)) }
    ensures shorter { IfOk result (λ r. IfSome r (λ ended. length stack.new < length stack.old)) }
    ensures grows { OnOk result (nets maker.old ≤ nets maker.new) }
    ensures fault { IfErr result (λ e. (e ≡ VerilogFault.OutOfMemory) ⊎ BreaksHeld cap maker.old stack.old driver e) }
{
    match stack.top() {
        None => Ok(None),
        Some(Frame::Group) => Ok(None),
        Some(Frame::Not { line }) => match settle(alloc, maker, driver) {
            Ok(net) => {
                stack.pop();
                Ok(Some(Driver::Not { line, net }))
            }
            Err(fault) => Err(fault),
        },
        Some(
            Frame::Left {
                line,
                operator,
                net: left,
            },
        ) => {
            if looseness(operator) > cap {
                return Ok(None);
            }
            match settle(alloc, maker, driver) {
                Ok(right) => {
                    stack.pop();
                    Ok(Some(Driver::Binary {
                        line,
                        operator,
                        left,
                        right,
                    }))
                }
                Err(fault) => Err(fault),
            }
        }
    }
}

// Ends all that binds at least as tightly as the cap, up to a group.
fn end_all(
    alloc: Global,
    maker: &mut NetMaker,
    stack: &mut Stack,
    driver: Driver,
    cap: u32,
) -> Result<Driver, VerilogFault>
    requires driver { IsDriverOn maker.old driver }
    requires on { IsStackOn maker.old stack.old }
    requires cap { cap ≤ 3 }
    ensures ended { IfOk result (λ ended. StaysHeld cap maker.old stack.old driver maker.new stack.new ended) }
    ensures room { OnOk result (cap ≤ allows stack.new) }
    ensures group { OnOk result (cap ≡ 3 → (stack.new ≡ []) ⊎ (stack.new ≡ Frame.Group ∷ drop 1 stack.new)) }
    ensures on { OnOk result (IsStackOn maker.new stack.new) }
    ensures last { IfOk result (λ ended. IsDriverOn maker.new ended) }
    ensures grows { OnOk result (nets maker.old ≤ nets maker.new) }
    ensures fault { IfErr result (λ e. (e ≡ VerilogFault.OutOfMemory) ⊎ BreaksHeld cap maker.old stack.old driver e) }
{
    let mut last = driver;
    loop {
        match end_one(alloc, maker, stack, last, cap) {
            Ok(Some(ended)) => {
                last = ended;
            }
            Ok(None) => return Ok(last),
            Err(fault) => return Err(fault),
        }
    }
}

// Reads one token where an operand was read: an operator, or a `)` that closes a group; else the expression has ended.
fn go_on<'a>(
    alloc: Global,
    maker: &mut NetMaker,
    stack: &mut Stack,
    driver: Driver,
    place: &Cursor<'a>,
) -> Result<Result<(Option<Driver>, Cursor<'a>), Driver>, VerilogFault>
    requires driver { IsDriverOn maker.old driver }
    requires on { IsStackOn maker.old stack.old }
    ensures met { IfOk result (λ r. IfOk r (λ to. (declared : _) → LeadsTo declared maker.old stack.old (Some driver) (left place.now) maker.new stack.new to.0 (left to.1))) }
    ensures on { OnOk result (IsStackOn maker.new stack.new) }
    ensures last { IfOk result (λ r. IfOk r (λ more. IsLastOn maker.new more.0)) }
    ensures shorter { IfOk result (λ r. IfOk r (λ more. length more.1.rest.now < length place.now.rest.now)) }
    ensures done { IfOk result (λ r. IfErr r (λ last. (declared : _) → EndsExpression declared maker.old stack.old (Some driver) (left place.now) maker.new last)) }
    ensures end { IfOk result (λ r. IfErr r (λ last. IsDriverOn maker.new last)) }
    ensures grows { OnOk result (nets maker.old ≤ nets maker.new) }
    ensures fault { IfErr result (λ e. (e ≡ VerilogFault.OutOfMemory) ⊎ ((declared : _) → BreaksExpression declared maker.old stack.old (Some driver) (left place.now) e)) }
{
    let (token, after) = place.next();
    match next_of(token.kind) {
        Next::Operator(operator) => {
            let last = match end_all(alloc, maker, stack, driver, looseness(operator)) {
                Ok(last) => last,
                Err(fault) => return Err(fault),
            };
            let net = match settle(alloc, maker, last) {
                Ok(net) => net,
                Err(fault) => return Err(fault),
            };
            stack.push_left(token.line, operator, net)?;
            Ok(Ok((None, after)))
        }
        Next::Close => {
            let last = match end_all(alloc, maker, stack, driver, 3) {
                Ok(last) => last,
                Err(fault) => return Err(fault),
            };
            match stack.top() {
                None => Ok(Err(last)),
                Some(_) => {
                    stack.pop();
                    Ok(Ok((Some(last), after)))
                }
            }
        }
        Next::Other => {
            let last = match end_all(alloc, maker, stack, driver, 3) {
                Ok(last) => last,
                Err(fault) => return Err(fault),
            };
            match stack.top() {
                None => Ok(Err(last)),
                Some(_) => Err(wrong(alloc, &token)),
            }
        }
    }
}

// Reads one token of an expression.
fn step<'a>(
    alloc: Global,
    maker: &mut NetMaker,
    declared: &Table,
    stack: &mut Stack,
    last: Option<Driver>,
    place: &Cursor<'a>,
) -> Result<Result<(Option<Driver>, Cursor<'a>), Driver>, VerilogFault>
    requires last { IsLastOn maker.old last }
    requires on { IsStackOn maker.old stack.old }
    ensures met { IfOk result (λ r. IfOk r (λ to. LeadsTo declared.now maker.old stack.old last (left place.now) maker.new stack.new to.0 (left to.1))) }
    ensures on { OnOk result (IsStackOn maker.new stack.new) }
    ensures last { IfOk result (λ r. IfOk r (λ more. IsLastOn maker.new more.0)) }
    ensures shorter { IfOk result (λ r. IfOk r (λ more. length more.1.rest.now < length place.now.rest.now)) }
    ensures done { IfOk result (λ r. IfErr r (λ driver. EndsExpression declared.now maker.old stack.old last (left place.now) maker.new driver)) }
    ensures end { IfOk result (λ r. IfErr r (λ driver. IsDriverOn maker.new driver)) }
    ensures grows { OnOk result (nets maker.old ≤ nets maker.new) }
    ensures fault { IfErr result (λ e. (e ≡ VerilogFault.OutOfMemory) ⊎ BreaksExpression declared.now maker.old stack.old last (left place.now) e) }
{
    match last {
        None => match begin(alloc, maker, declared, stack, place) {
            Ok(more) => Ok(Ok(more)),
            Err(fault) => Err(fault),
        },
        Some(driver) => match go_on(alloc, maker, stack, driver, place) {
            Ok(found) => Ok(found),
            Err(fault) => Err(fault),
        },
    }
}

/// Reads the longest expression with which the tokens from a place begin: what drives its net, and the place after it.
pub fn read_expression<'a>(
    alloc: Global,
    maker: &mut NetMaker,
    declared: &Table,
    place: &Cursor<'a>,
) -> Result<(Driver, Cursor<'a>), VerilogFault>
    ensures read { IfOk result (λ r. Expression declared.now maker.old (left place.now) (Ok (record { net = maker.new; driver = r.0; rest = left r.1 }))) }
    ensures on { IfOk result (λ r. IsDriverOn maker.new r.0) }
    ensures shorter { IfOk result (λ r. length r.1.rest.now ≤ length place.now.rest.now) }
    ensures grows { OnOk result (nets maker.old ≤ nets maker.new) }
    ensures fault { IfErr result (λ e. (e ≡ VerilogFault.OutOfMemory) ⊎ Expression declared.now maker.old (left place.now) (Err e)) }
{
    let mut stack = Stack::new(alloc);
    let mut last = None;
    let mut here = *place;
    loop {
        match step(alloc, maker, declared, &mut stack, last, &here) {
            Ok(Ok((driver, after))) => {
                last = driver;
                here = after;
            }
            Ok(Err(driver)) => return Ok((driver, here)),
            Err(fault) => return Err(fault),
        }
    }
}
