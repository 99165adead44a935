//! One call on a machine, by its number.
ghost use Rattle.std.specs.Prelude.{◌≡◌, ◌≢◌, ◌≤◌, IfErr, OnOk, OnErr};
ghost use Rattle.raspcream.specs.Calls.{Did, MayFail, IsCalled};
ghost use Rattle.raspcream.specs.Refused.{MayRefuse, MayDecline, IsCode};
ghost use Rattle.raspcream.specs.Served.{HasServed};
ghost use Rattle.raspcream.specs.Asked.{HasAsked};
ghost use Rattle.raspcream.specs.declared.reply.TheConstants.{MAX_FIELDS};

use crate::client::Client;
use crate::machine::Machine;
use crate::op::{Op, op_of};
use crate::reply::{Failure, Reply, clear, code_of};
use crate::server::Server;

fn on_server(
    it: &mut Server,
    op: Op,
    arg: u32,
    number: u64,
    input: &[u8],
    out: &mut Reply,
) -> Result<(), Failure>
    ensures kept { OnErr result (it.new ≡ it.old) }
    ensures refused { IfErr result (MayRefuse op arg number input.now it.old) }
    ensures quiet { OnErr result (out.new ≡ out.old) }
    ensures few { out.old.count ≤ MAX_FIELDS → out.new.count ≤ MAX_FIELDS }
    ensures done { OnOk result (HasServed op arg number input.now out.new it.old it.new) }
{
    match op {
        Op::Read => it.read(input, out),
        Op::Eof => it.eof(out),
        Op::Next => it.next(out),
        Op::Pull => it.pull(out),
        Op::DropBody => it.drop_body(out),
        Op::Continue => it.go_on(out),
        Op::Head => it.answer(arg, number, input, out),
        Op::Chunk => it.chunk(input, out),
        Op::End => it.end(out),
        Op::Fail => it.fail(out),
        Op::Front => it.front(out),
        Op::Advance => it.advance(number, out),
        Op::Tick => it.tick(number, out),
        Op::Drain => it.drain(out),
        Op::Accept => it.accept(number, out),
        Op::Frame => it.frame(out),
        Op::Send => it.send(arg, number, input, out),
        Op::State => it.state(out),
        Op::Held => it.held(number, out),
        Op::Ahead => it.ahead(out),
    }
}

fn on_client(
    it: &mut Client,
    op: Op,
    arg: u32,
    number: u64,
    input: &[u8],
    out: &mut Reply,
) -> Result<(), Failure>
    ensures kept { OnErr result (it.new ≡ it.old) }
    ensures refused { IfErr result (MayDecline op arg number input.now it.old) }
    ensures quiet { OnErr result (out.new ≡ out.old) }
    ensures few { out.old.count ≤ MAX_FIELDS → out.new.count ≤ MAX_FIELDS }
    ensures done { OnOk result (HasAsked op arg number input.now out.new it.old it.new) }
{
    match op {
        Op::Read => it.read(input, out),
        Op::Eof => it.eof(out),
        Op::Next => it.next(out),
        Op::Pull => it.pull(out),
        Op::DropBody => it.drop_body(out),
        Op::Head => it.ask(arg, number, input, out),
        Op::Chunk => it.chunk(input, out),
        Op::End => it.end(out),
        Op::Fail => it.fail(out),
        Op::Front => it.front(out),
        Op::Advance => it.advance(number, out),
        Op::Tick => it.tick(number, out),
        Op::State => it.state(out),
        Op::Held => it.held(number, out),
        Op::Continue | Op::Drain | Op::Accept | Op::Frame | Op::Send | Op::Ahead => {
            Err(Failure::Invalid)
        }
    }
}

fn serve(it: &mut Server, op: Op, arg: u32, number: u64, input: &[u8], out: &mut Reply) -> u32
    ensures kept { result ≢ 0 → it.new ≡ it.old }
    ensures reason { IsCode (MayRefuse op arg number input.now it.old) result }
    ensures quiet { result ≢ 0 → out.new ≡ out.old }
    ensures few { out.old.count ≤ MAX_FIELDS → out.new.count ≤ MAX_FIELDS }
    ensures done { result ≡ 0 → HasServed op arg number input.now out.new it.old it.new }
{
    code_of(on_server(it, op, arg, number, input, out))
}

fn request(it: &mut Client, op: Op, arg: u32, number: u64, input: &[u8], out: &mut Reply) -> u32
    ensures kept { result ≢ 0 → it.new ≡ it.old }
    ensures reason { IsCode (MayDecline op arg number input.now it.old) result }
    ensures quiet { result ≢ 0 → out.new ≡ out.old }
    ensures few { out.old.count ≤ MAX_FIELDS → out.new.count ≤ MAX_FIELDS }
    ensures done { result ≡ 0 → HasAsked op arg number input.now out.new it.old it.new }
{
    code_of(on_client(it, op, arg, number, input, out))
}

fn step(machine: &mut Machine, op: Op, arg: u32, number: u64, input: &[u8], out: &mut Reply) -> u32
    ensures kept { result ≢ 0 → machine.new ≡ machine.old }
    ensures reason { IsCode (MayFail op arg number input.now machine.old) result }
    ensures quiet { result ≢ 0 → out.new ≡ out.old }
    ensures few { out.old.count ≤ MAX_FIELDS → out.new.count ≤ MAX_FIELDS }
    ensures done { result ≡ 0 → Did op arg number input.now out.new machine.old machine.new }
{
    match machine {
        Machine::Server(it) => serve(it, op, arg, number, input, out),
        Machine::Client(it) => request(it, op, arg, number, input, out),
    }
}

/// Every call: in `op` its number, and above the lowest byte an argument.
pub fn call(machine: &mut Machine, op: u32, number: u64, input: &[u8], out: &mut Reply) -> u32
    ensures { IsCalled op number input.now machine.old result out.new machine.new }
{
    clear(out);
    match op_of(op % 256) {
        Some(asked) => step(machine, asked, op / 256, number, input, out),
        None => 3,
    }
}
