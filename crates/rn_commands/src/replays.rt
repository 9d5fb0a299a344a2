//! The command `replay`: whether a record is that of a run of a net text.
ghost use Rattle.std.specs.Prelude.{◌≡◌, ◌≢◌, ◌≤◌, None, IfOk, IfErr, IfSome, length};
ghost use Rattle.rn_items.specs.Memory.{no_memory};
ghost use Rattle.rn_model.specs.Good.{Good, IsInLimits};
ghost use Rattle.rn_model.specs.declared.log.Options.{Options as RunOptions};
ghost use Rattle.rn_record.specs.RecordText.{IsFormat, record_text};
ghost use Rattle.rn_fire.specs.States.{IsState};
ghost use Rattle.rn_record_reader.specs.Runs.{TellsRecord, Verdict, longest_record};
ghost use Rattle.rn_replay.specs.Replays.{IsWhole, Replays};
ghost use Rattle.rn_commands.specs.NetCommands.{ReplayComesTo};
ghost use Rattle.rn_answering.specs.Lines.{number_line};
ghost use Rattle.rn_commands.specs.Parts.{HasParts, line_length, is_parting};
ghost use Rattle.rn_answering.specs.Refusing.{Concludes, Stops, refusal};
ghost use Rattle.rn_commands.specs.Replaying.{entry_line, replayed_text};
ghost use Rattle.rn_commands.specs.link.Replaying.{RefusesRecord, record_line};

use crate::ends::{end_reason, end_word, fired_count};
use rn_answering::{Answer, RECORD_REFUSED, Stopped, done, net_of, number_line, refused};
use rn_fire::SimState;
use rn_items::NoMemory;
use rn_model::{Options, Reason, System, Told};
use rn_record_reader::{RecordFault, read_record, record_laws};
use rn_replay::ReplayFault;
use std::alloc::Global;
use std::sync::Arc;

// How many bytes the first line has, its line feed counted.
fn line_length(bytes: &[u8]) -> usize
    ensures { result ≡ line_length bytes.now }
{
    for (i, byte) in bytes.iter().enumerate() {
        if *byte == b'\n' {
            return i + 1;
        }
    }
    bytes.len()
}

// Whether a line is the one that parts a net text from a record. The last line may have no line
// feed.
fn is_parting(line: &[u8]) -> bool
    ensures { result ≡ is_parting line.now }
{
    line == b"---\n".as_slice() || line == b"---".as_slice()
}

// The net text and the record of the input of `replay`: what stands before the first line `---`, and
// what stands after it. Without such a line the record is empty.
pub(crate) fn parted(bytes: &[u8]) -> (&[u8], &[u8])
    ensures { HasParts bytes.now result.0.now result.1.now }
{
    let mut at = 0;
    while at < bytes.len() {
        let end = at + line_length(&bytes[at..]);
        if is_parting(&bytes[at..end]) {
            return (&bytes[..at], &bytes[end..]);
        }
        at = end;
    }
    (bytes, &bytes[bytes.len()..])
}

// The refusal of a record, by a code and a number.
fn refused_by(alloc: Global, code: &[u8], number: u32) -> Stopped
    ensures { Stops (λ a. a ≡ refusal RECORD_REFUSED (number_line code.now number)) result }
{
    match number_line(alloc, code, number as u64) {
        Ok(line) => Stopped::Refused(refused(alloc, RECORD_REFUSED, line)),
        Err(no_memory) => Stopped::NoMemory(no_memory),
    }
}

// The refusal of a record that tells no run.
pub(crate) fn refused_record(alloc: Global, fault: RecordFault) -> Stopped
    ensures line { Stops (λ a. a ≡ refusal RECORD_REFUSED (record_line fault)) result }
    ensures memory { fault ≡ RecordFault.NoMemory no_memory → result ≡ Stopped.NoMemory no_memory }
{
    match fault {
        RecordFault::Q1(line) => refused_by(alloc, b"Q1", line),
        RecordFault::Q2(line) => refused_by(alloc, b"Q2", line),
        RecordFault::Q3(line) => refused_by(alloc, b"Q3", line),
        RecordFault::Q4(line) => refused_by(alloc, b"Q4", line),
        RecordFault::NoMemory(no_memory) => Stopped::NoMemory(no_memory),
    }
}

// The refusal of a record that tells what isn't true.
pub(crate) fn refused_replay(alloc: Global, fault: ReplayFault) -> Stopped
    ensures line { Stops (λ a. a ≡ refusal RECORD_REFUSED (entry_line fault)) result }
    ensures memory { fault ≡ ReplayFault.NoMemory no_memory → result ≡ Stopped.NoMemory no_memory }
{
    match fault {
        ReplayFault::V1(entry) => refused_by(alloc, b"V1", entry),
        ReplayFault::V2(entry) => refused_by(alloc, b"V2", entry),
        ReplayFault::V3(entry) => refused_by(alloc, b"V3", entry),
        ReplayFault::V4(entry) => refused_by(alloc, b"V4", entry),
        ReplayFault::V5(entry) => refused_by(alloc, b"V5", entry),
        ReplayFault::NoMemory(no_memory) => Stopped::NoMemory(no_memory),
    }
}

// What the bytes of a record of this format tell: a run that ends once, of which they are the text.
pub(crate) fn told_of(
    alloc: Global,
    system: &System,
    format: u32,
    bytes: &[u8],
) -> Result<Told, Stopped>
    requires good { Good system.now }
    requires format { IsFormat format }
    requires few { length bytes.now ≤ longest_record }
    ensures tells { IfOk result (λ told.
        TellsRecord system.now format bytes.now (Verdict.tells told.entries told.marks)) }
    ensures whole { IfOk result (λ told. IsWhole told.entries) }
    ensures spelled { IfOk result (λ told. bytes.now ≡ record_text format system.now told) }
    ensures refused { (options : RunOptions) →
        IfErr result (Stops (RefusesRecord format system.now options bytes.now)) }
{
    record_laws();
    match read_record(alloc, system, format, bytes) {
        Ok(told) => Ok(told),
        Err(fault) => Err(refused_record(alloc, fault)),
    }
}

// The state at the end of what is told.
pub(crate) fn replayed(
    alloc: Global,
    system: System,
    options: Options,
    told: &Told,
) -> Result<SimState, ReplayFault>
    requires good { Good system }
    requires limits { IsInLimits options }
    requires whole { IsWhole told.now.entries }
    ensures { Replays system options told.now result }
{
    let system = Arc::new(alloc, system)?;
    rn_replay::replay(alloc, system, options, told)
}

// The text of a record that is accepted, as `ok 5 dead`.
fn replayed_text(alloc: Global, count: u64, reason: &Reason) -> Result<Vec<u8>, NoMemory>
    ensures { IfOk result (λ text. text.items ≡ replayed_text count reason.now) }
{
    let number = count.to_string(alloc)?;
    let mut text = Vec::from_slice(alloc, b"ok ")?;
    text.extend_from_slice(number.as_bytes())?;
    text.push(b' ')?;
    text.extend_from_slice(end_word(reason))?;
    text.push(b'\n')?;
    Ok(text)
}

// The same of a state whose log has ended.
fn state_text(alloc: Global, state: &SimState) -> Result<Vec<u8>, NoMemory>
    requires { state.now.ended ≢ None }
    ensures text { IfOk result (λ text. IfSome state.now.ended (λ reason.
        text.items ≡ replayed_text (length state.now.fired) reason)) }
    ensures state { IsState state.now }
{
    replayed_text(alloc, fired_count(state), end_reason(state))
}

/// What `replay` comes to on this input, with these options.
pub fn replay(alloc: Global, options: Options, bytes: &[u8]) -> Result<Answer, Stopped>
    requires limits { IsInLimits options }
    requires few { length bytes.now ≤ longest_record }
    ensures { Concludes (ReplayComesTo options bytes.now) result }
{
    let (net, rest) = parted(bytes);
    let accepted = net_of(alloc, net)?;
    let told = told_of(alloc, &accepted.system, accepted.notation, rest)?;
    match replayed(alloc, accepted.system, options, &told) {
        Ok(state) => {
            let text = state_text(alloc, &state)?;
            Ok(done(alloc, text))
        }
        Err(fault) => Err(refused_replay(alloc, fault)),
    }
}
