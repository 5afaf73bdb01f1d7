ghost use Rattle.std.specs.Prelude.{◌≡◌, ◌≤◌, ◌↔◌, IsTrue, IfOk, OnErr, List as Phases, length};
ghost use Rattle.ct_faults.specs.Bytes.{most_bytes};
ghost use Rattle.ct_types.specs.declared.command.Journaled.{Journaled};
ghost use Rattle.ct_print.specs.Growing.{grown};
ghost use Rattle.ct_script.specs.Size.{IsWithin};
ghost use Rattle.ct_run.specs.declared.status.Status.{Status as Ending};
ghost use Rattle.ct_run.specs.Steps.{Performs};
ghost use Rattle.ct_run.specs.Top.{code_of, DiskChange, source_change, sink_change, disk_change, IsRun, Says, Writes, Answers, Runs, Ends, all_of, fault_text};

use crate::play::play_script;
use crate::{Gate, Status};
use ct_faults::{Disk, ReadError, Sink, Source, read_all, write_all};
use ct_print::Transcript;
use ct_script::{Script, ScriptError, read_script};
use ct_types::Memory;
use std::alloc::{AllocError, Global};
use std::sync::Wait;
use std::thread::Threads;

/// How a call ended, with the disk that it was handed.
#[derive(Drop)]
pub struct Done<D> {
    /// The number of its `Status`.
    pub status: u8,
    pub disk: D,
}

/// Writes a line of the program's own. Where a write fails the sink has a front part of it; the status stays.
fn say<K: Sink>(sink: &mut K, text: &[u8])
    ensures { Says (sink_change K.held K.faults sink.old sink.new)
        text.now }
{
    let _ = write_all(sink, text);
}

/// Writes the transcript of a run: `Done`, or `WriteFault` where a write failed, or `Memory` where a reply wanted memory.
fn write_run<K: Sink>(transcript: &Transcript, sink: &mut K) -> Status
    ensures { (journals : Phases (Phases Journaled)) → transcript.now ≡ grown journals → Writes result
        (sink_change K.held K.faults sink.old sink.new)
        journals }
{
    let written = write_all(sink, transcript.as_bytes());
    if transcript.wanted_memory() {
        return Status::Memory;
    }
    match written {
        Ok(()) => Status::Done,
        Err(_) => Status::WriteFault,
    }
}

/// Says which line of a script is at fault, and the least rule that it breaks.
fn say_fault<K: Sink>(alloc: Global, sink: &mut K, line: u32, rule: u8) -> Result<(), AllocError>
    ensures ok { IfOk result (λ _. Says (sink_change K.held K.faults sink.old sink.new)
        (fault_text line rule)) }
    ensures err { OnErr result (K.held sink.new ≡ K.held sink.old) }
{
    let text = format!(in alloc; "BadScript line {line} rule {rule}\n")?;
    say(sink, text.as_bytes());
    Ok(())
}

/// Plays a script, and writes its transcript. The disk comes back as it was handed in.
fn perform<K: Sink, D, G: Gate>(
    alloc: Global,
    script: &Script,
    sink: &mut K,
    disk: D,
    gate: &G,
) -> (Status, D)
    requires { IsWithin most_bytes script.now }
    ensures performs { Performs result.0
        (sink_change K.held K.faults sink.old sink.new)
        script.now }
    ensures disk { result.1 ≡ disk }
{
    let (played, disk) = play_script(alloc, script, disk, gate);
    let status = match played {
        Err(Memory) => Status::Memory,
        Ok(transcript) => write_run(&transcript, sink),
    };
    (status, disk)
}

/// Plays the script that the bytes are, or says that they are none. The disk comes back as it was handed in.
fn answer<K: Sink, D, G: Gate>(
    alloc: Global,
    bytes: &[u8],
    sink: &mut K,
    disk: D,
    gate: &G,
) -> (Status, D)
    requires { length bytes.now ≤ most_bytes }
    ensures answers { Answers result.0
        (sink_change K.held K.faults sink.old sink.new)
        bytes.now }
    ensures disk { result.1 ≡ disk }
{
    match read_script(alloc, bytes) {
        Err(ScriptError::Memory) => (Status::Memory, disk),
        Err(ScriptError::BadScript { line, rule }) => match say_fault(alloc, sink, line, rule) {
            Ok(()) => (Status::BadScript, disk),
            Err(_) => (Status::Memory, disk),
        },
        Ok(script) => perform(alloc, &script, sink, disk, gate),
    }
}

/// Reads the source to its end, and answers its bytes. The disk comes back as it was handed in.
fn run<S: Source, K: Sink, D, G: Gate>(
    alloc: Global,
    source: &mut S,
    sink: &mut K,
    disk: D,
    gate: &G,
) -> (Status, D)
    ensures runs { (disks : DiskChange) → Runs result.0
        (source_change S.left S.faults source.old source.new)
        (sink_change K.held K.faults sink.old sink.new)
        disks }
    ensures disk { result.1 ≡ disk }
{
    match read_all(alloc, source) {
        Ok(bytes) => answer(alloc, bytes.as_bytes(), sink, disk, gate),
        Err(ReadError::ReadFault) => {
            say(sink, b"ReadFault\n");
            (Status::ReadFault, disk)
        }
        Err(ReadError::TooLarge) => {
            say(sink, b"TooLarge\n");
            (Status::TooLarge, disk)
        }
        Err(ReadError::Memory) => (Status::Memory, disk),
    }
}

/// Whether the words are `run` alone.
fn is_run(words: &[String]) -> bool
    ensures { IsTrue result ↔ IsRun words.now }
{
    match words {
        [word] => word.as_str() == "run",
        _ => false,
    }
}

/// Does what the words ask for. The disk comes back as it was handed in.
fn end<S: Source, K: Sink, D, G: Gate>(
    alloc: Global,
    words: &[String],
    source: &mut S,
    sink: &mut K,
    disk: D,
    gate: &G,
) -> (Status, D)
    ensures ends { (disks : DiskChange) → Ends result.0 words.now
        (source_change S.left S.faults source.old source.new)
        (sink_change K.held K.faults sink.old sink.new)
        disks }
    ensures disk { result.1 ≡ disk }
{
    if is_run(words) {
        run(alloc, source, sink, disk, gate)
    } else {
        say(sink, b"Usage\n");
        (Status::Usage, disk)
    }
}

/// Reads the source to its end, plays the script that it gives, and writes the transcript to the sink. The words are
/// those of the command line after the program's name. The gate is told before and after each statement. This project's
/// own.
///
/// The status is the number of a `Status`, and says what came of the call: `Usage` exactly where the words are not `run`
/// alone, `BadScript` exactly where the bytes are no script, `TooLarge` exactly where more than 16,777,216 bytes were
/// taken, `ReadFault` and `WriteFault` only where the count of the source and of the sink rose. `Memory` may come at any
/// time, and a front part of the transcript is then written, which may be all or nothing of it. Each machine that a run
/// passes is sound: its database is valid, its entries apply in turn to the empty one, and what waits in the transactions
/// of its sessions applies to it. The disk comes back as it was handed in.
pub fn run_top<R: Threads + Wait, S: Source, K: Sink, D: Disk + Send, G: Gate + Sync>(
    _rt: &R,
    alloc: Global,
    words: &[String],
    source: &mut S,
    sink: &mut K,
    disk: D,
    gate: &G,
) -> Done<D>
    ensures ends { (status : Ending) × (result.status ≡ code_of status) × Ends status words.now
        (source_change S.left S.faults source.old source.new)
        (sink_change K.held K.faults sink.old sink.new)
        (disk_change D.faults disk result.disk) }
    ensures disk { result.disk ≡ disk }
{
    let (status, disk) = end(alloc, words, source, sink, disk, gate);
    Done {
        status: status.code(),
        disk,
    }
}
