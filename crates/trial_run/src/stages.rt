// The commands' own runs, each over a desk in memory. On such a desk only a file that is too long, a record that is
// refused, or a stream in which no superframe begins can stop one beside want of memory. None of these is likely, since
// of the first half of the stream the second modulator loses unit 0 alone, but that none comes is not proved: a trial
// tells it as a defect.
ghost use Rattle.std.specs.Prelude.{◌≡◌, ◌<◌, ℕ, List, [], ◌∷◌, codes, length, unwrap_or, Ok, IfOk};
ghost use Rattle.ports.specs.Desk.{file_of};
ghost use Rattle.common_plp.specs.Sharing.{Apart};
ghost use Rattle.gateway_run.specs.GatewayRun.{gateway_work};
ghost use Rattle.modulate_run.specs.Counted.{counted};
ghost use Rattle.file_run.specs.Work.{Ends, Into};
ghost use Rattle.modulate_run.specs.ModulateRun.{modulate_work, output_of};
ghost use Rattle.modulator.specs.StandsFor.{records_of};
ghost use Rattle.receive_run.specs.ReceiveRun.{receive_work};
ghost use Rattle.trial_run.specs.Stages.{HasFile, HasInputs, AreFiles, IsSent, input_names};
ghost use Rattle.trial_run.specs.Trial.{ComesOf};

use crate::stop::TrialStop;
use bit_slice::OutOfMemory;
use gateway_core::front_law;
use gateway_run::GatewayRan;
use modulate_run::ModulateRan;
use plp_config::Plan;
use ports::{MemoryDesk, Word};
use receive_run::ReceiveRan;
use std::alloc::Global;

// What a run reads, and what it writes.
const IN: &str = "in";

const OUT: &str = "out";

/// What a run of the gateway writes, and its numbers.
#[derive(Drop)]
pub struct Sent {
    pub stream: Vec<u8>,
    pub ran: GatewayRan,
}

/// What a run of a modulator writes, and its numbers.
#[derive(Drop)]
pub struct Modulated {
    pub records: Vec<u8>,
    pub ran: ModulateRan,
}

// A desk with one file.
fn desk_with(alloc: Global, name: &str, bytes: &[u8]) -> Result<MemoryDesk, OutOfMemory>
    ensures { IfOk result (λ desk. HasFile desk.state name.now bytes.now) }
{
    let mut desk = MemoryDesk::new(alloc);
    desk.put_file(name, bytes)?;
    Ok(desk)
}

// The bytes of a file of a desk, none if there is no such file.
fn copy_of(alloc: Global, desk: &MemoryDesk, name: &str) -> Result<Vec<u8>, OutOfMemory>
    ensures { IfOk result (λ bytes. bytes.items ≡ unwrap_or (file_of desk.now.state name.now) []) }
{
    Ok(Vec::from_slice(alloc, desk.file(name).unwrap_or(&[]))?)
}

// A desk with the inputs of three PLPs.
fn desk_of_inputs(alloc: Global, inputs: &[Vec<u8>]) -> Result<MemoryDesk, OutOfMemory>
    requires { length inputs.now ≡ 3 }
    ensures { (files : ℕ → List ℕ) → AreFiles files inputs.now → IfOk result (λ desk. HasInputs desk.state files) }
{
    let mut desk = MemoryDesk::new(alloc);
    desk.put_file("0", &inputs[0])?;
    desk.put_file("1", &inputs[1])?;
    desk.put_file("2", &inputs[2])?;
    Ok(desk)
}

// Their names.
fn names_of_inputs(alloc: Global) -> Result<[Word; 3], OutOfMemory>
    ensures { IfOk result (λ names. names ≡ input_names) }
{
    Ok([
        Word::new(alloc, "0")?,
        Word::new(alloc, "1")?,
        Word::new(alloc, "2")?,
    ])
}

fn run_gateway(alloc: Global, plan: &Plan, desk: &mut MemoryDesk) -> Result<GatewayRan, TrialStop>
    requires plps { length plan.now.plps ≡ 3 }
    ensures { IfOk result (λ ran.
        Ends (gateway_work Apart plan.now) desk.old.state desk.new.state (Into (codes "out")) input_names (Ok ran)) }
{
    let names = names_of_inputs(alloc)?;
    Ok(gateway_run::run(alloc, plan, OUT, &names, desk)?)
}

/// Sends the inputs of three PLPs.
pub fn send(alloc: Global, plan: &Plan, inputs: &[Vec<u8>]) -> Result<Sent, TrialStop>
    requires plps { length plan.now.plps ≡ 3 }
    requires inputs { length inputs.now ≡ 3 }
    ensures { (files : ℕ → List ℕ) → AreFiles files inputs.now → IfOk result (λ sent. IsSent plan.now files sent) }
{
    front_law();
    plan.rules_law();
    let mut desk = desk_of_inputs(alloc, inputs)?;
    let ran = run_gateway(alloc, plan, &mut desk)?;
    let stream = copy_of(alloc, &desk, OUT)?;
    Ok(Sent { stream, ran })
}

fn run_modulator(
    alloc: Global,
    plan: &Plan,
    desk: &mut MemoryDesk,
) -> Result<ModulateRan, TrialStop>
    ensures { IfOk result (λ ran.
        Ends (modulate_work plan.now) desk.old.state desk.new.state (Into (codes "out")) (codes "in" ∷ []) (Ok ran)) }
{
    Ok(modulate_run::run(alloc, plan, IN, OUT, desk)?)
}

/// Modulates a stream.
pub fn modulate(alloc: Global, plan: &Plan, stream: &[u8]) -> Result<Modulated, TrialStop>
    ensures records { IfOk result (λ x. x.records.items ≡ output_of plan.now stream.now) }
    ensures ran { IfOk result (λ x. x.ran ≡ counted (records_of plan.now stream.now)) }
{
    let mut desk = desk_with(alloc, IN, stream)?;
    let ran = run_modulator(alloc, plan, &mut desk)?;
    let records = copy_of(alloc, &desk, OUT)?;
    Ok(Modulated { records, ran })
}

fn run_receiver(
    alloc: Global,
    plan: &Plan,
    plp: usize,
    desk: &mut MemoryDesk,
) -> Result<ReceiveRan, TrialStop>
    requires inside { plp < length plan.now.plps }
    ensures { IfOk result (λ ran.
        Ends (receive_work plan.now plp) desk.old.state desk.new.state (Into (codes "out")) (codes "in" ∷ [])
        (Ok ran)) }
{
    Ok(receive_run::run(alloc, plan, plp, IN, OUT, desk)?)
}

/// What the PLP at a place is given back of records.
pub fn receive(alloc: Global, plan: &Plan, plp: usize, records: &[u8]) -> Result<Vec<u8>, TrialStop>
    requires inside { plp < length plan.now.plps }
    ensures { IfOk result (λ bytes. ComesOf plan.now plp records.now bytes.items) }
{
    let mut desk = desk_with(alloc, IN, records)?;
    run_receiver(alloc, plan, plp, &mut desk)?;
    Ok(copy_of(alloc, &desk, OUT)?)
}
