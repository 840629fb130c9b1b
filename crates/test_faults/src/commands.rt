//! Runs a script on a machine whose arena has no memory left after the creation of the machine, and on a machine with
//! ample memory. The outputs for each command, each vector instruction and a million steps must be the same, and the
//! second machine must not allocate memory either.

use crate::growths::{LARGE, arena_with, machine_size};
use anyhow::{Result, ensure};
use bumpalo::Bump;
use std::alloc::{Allocator, Global};
use std::str::Utf8Error;
use std::{fs, str};
use vec_monitor::{Image, Machine, ReaderSource, WriterSink, run};

/// Ticks in a time slice: a thousand slices are a million steps.
const QUANTUM: usize = 1000;

/// The commands of user 1 before the instructions.
const BEFORE: &str = "1 enter
1 map 10000 1 rwx
1 map 20000 1 rw
1 set x5 8
1 set x7 ce
1 set x10 20000
";

/// The number of lines and of single-stepped instructions, and `differ`: 1 if the outputs differ, else 0.
#[derive(Drop)]
pub(crate) struct Answers {
    pub lines: usize,
    pub stepped: usize,
    pub differ: u64,
}

/// A script with the commands, and then with each of the instructions, which executes in a single step.
fn script_of(alloc: Global, commands: &str, instructions: &str) -> Result<String> {
    let mut script = String::from_str(alloc, commands)?;
    script.push_str(BEFORE)?;
    for instruction in instructions.lines() {
        writeln!(script, "1 asm 10000 {instruction}\n1 setpc 10000\n1 step 1")?;
    }
    Ok(script)
}

/// The output of a script on a machine.
fn output_of<A: Allocator>(
    alloc: Global,
    machine: &mut Machine<'_, A>,
    script: &str,
) -> Result<Vec<u8>> {
    let mut output = Vec::new(alloc);
    let mut source = ReaderSource::new(script.as_bytes());
    let mut sink = WriterSink::new(&mut output);
    run(machine, &mut source, &mut sink)?;
    Ok(output)
}

/// The output of a script on a machine that uses up its arena.
fn output_without_memory(alloc: Global, images: &[Image<'_>], script: &str) -> Result<Vec<u8>> {
    let arena: Bump = arena_with(alloc, machine_size(alloc)?)?;
    let mut machine = Machine::new(&arena, QUANTUM, images)?;
    ensure!(arena.try_alloc(0u8).is_err(), "the arena isn't used up");
    output_of(alloc, &mut machine, script)
}

/// The output of a script on a machine in an arena with ample memory. Returns an error if the script allocates memory.
fn output_with_memory(alloc: Global, images: &[Image<'_>], script: &str) -> Result<Vec<u8>> {
    let arena = arena_with(alloc, LARGE)?;
    let mut machine = Machine::new(&arena, QUANTUM, images)?;
    let left = arena.chunk_capacity();
    let output = output_of(alloc, &mut machine, script)?;
    ensure!(arena.chunk_capacity() == left, "the script took memory");
    Ok(output)
}

/// The numbers for the output of the machine without memory; `wanted` is the output of the machine with memory.
fn answers_of(output: &[u8], wanted: &[u8]) -> Result<Answers, Utf8Error> {
    let mut lines = 0usize;
    let mut stepped = 0usize;
    for line in str::from_utf8(output)?.lines() {
        lines = lines.saturating_add(1);
        if line.starts_with("1 stepped 1 ") {
            stepped = stepped.saturating_add(1);
        }
    }
    Ok(Answers {
        lines,
        stepped,
        differ: u64::from(output != wanted),
    })
}

/// The script from the files.
fn read_script(rt: &HostRuntime) -> Result<String> {
    let commands = fs::read_to_string(rt, "every_command")?;
    let instructions = fs::read_to_string(rt, "vector_instructions")?;
    script_of(rt.alloc(), commands.as_str(), instructions.as_str())
}

/// Runs the script on the two machines, and compares their outputs.
pub(crate) fn compared_answers(rt: &HostRuntime) -> Result<Answers> {
    let good = fs::read(rt, "good")?;
    let images = [Image {
        name: "good",
        bytes: good.as_slice(),
    }];
    let script = read_script(rt)?;
    let output = output_without_memory(rt.alloc(), &images, script.as_str())?;
    let wanted = output_with_memory(rt.alloc(), &images, script.as_str())?;
    Ok(answers_of(output.as_slice(), wanted.as_slice())?)
}
