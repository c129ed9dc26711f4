//! Writes an exception store in a file, scans it or merges it, for `bench/store`. Without words it
//! does all of that over memory.
#![tactic(auto)]

ghost use Rattle.std.specs.Prelude.{◌≡◌, ◌+◌, ◌*◌, ◌<◌, ◌≤◌, ◌^◌, IfSome};
ghost use Rattle.std.specs.List.Sorted.{IsStrictlyIncreasing};

mod pair;

use pair::Pair;
use std::alloc::Global;
use std::env;
use std::io::{self, Stdin, Stdout};
use std::process::ExitCode;
use vab_real::FilePort;
use vab_space::{Chunk, need_at};

/// The most exceptions, and the most blocks from one to the next.
const MOST: u64 = 1 << 20;

/// The most blocks of a partition.
const MOST_BLOCKS: u64 = 1 << 40;

/// How many exceptions a store has, how many chunks lie from one to the next, and their size.
#[derive(Clone, Copy)]
struct Shape {
    count: u64,
    step: u64,
    chunk: Chunk,
}

impl Shape {
    // Blocks of the partition, where there are not too many.
    fn blocks(&self) -> Option<u64>
        ensures { IfSome result (λ n. (n ≤ 2 ^ 40) × (self.now.count ≤ 2 ^ 20)) }
    {
        if self.count > MOST {
            return None;
        }
        let chunks = self.count.checked_mul(self.step)?;
        let blocks = chunks.checked_mul(self.chunk.blocks())?;
        if blocks > MOST_BLOCKS {
            None
        } else {
            Some(blocks)
        }
    }

    fn pair(&self, alloc: Global) -> Option<Pair> {
        let blocks = self.blocks()?;
        Pair::new(alloc, blocks, need_at(self.count, self.chunk), self.chunk).ok()
    }

    // The chunks that stand in the store.
    fn olds(&self, alloc: Global) -> Option<Vec<u64>>
        ensures { IfSome result (λ v. IsStrictlyIncreasing v.items) }
    {
        if self.count > MOST || self.step > MOST || self.step == 0 {
            return None;
        }
        let mut olds = Vec::new(alloc);
        let mut next = 0;
        for _i in 0..self.count {
            olds.push(next).ok()?;
            next += self.step;
        }
        Some(olds)
    }
}

type Device = FilePort<Stdin, Stdout>;

// Writes a store whose blocks hold 7s, or zeros where the image is left out.
fn write(alloc: Global, d: &mut Device, shape: Shape, whole: bool) -> Option<String> {
    let pair = shape.pair(alloc)?;
    let olds = shape.olds(alloc)?;
    let mut image = Vec::new(alloc);
    if whole {
        image.resize(shape.blocks()? as usize * 4096, 7u8).ok()?;
    }
    if !pair.write(d, &olds, &image) {
        return None;
    }
    format!(in alloc; "{} written", shape.count).ok()
}

// Scans the store so many times.
fn scan(alloc: Global, d: &mut Device, shape: Shape, times: u64) -> Option<String> {
    let pair = shape.pair(alloc)?;
    let mut found = 0;
    for _ in 0..times {
        found = pair.scan(alloc, d)?.count();
    }
    format!(in alloc; "{found} scanned").ok()
}

// Merges the store.
fn merge(alloc: Global, d: &mut Device, shape: Shape) -> Option<String> {
    let runs = shape.pair(alloc)?.merge(alloc, d, MOST)?;
    format!(in alloc; "merged in {runs} runs").ok()
}

fn done(alloc: Global, d: &mut Device, verb: &str, shape: Shape, times: u64) -> Option<String> {
    match verb {
        "write" => write(alloc, d, shape, true),
        "zeros" => write(alloc, d, shape, false),
        "scan" => scan(alloc, d, shape, times),
        "merge" => merge(alloc, d, shape),
        _ => None,
    }
}

// A store of 600 consecutive blocks, one of each third block, and one of 600 chunks of four blocks.
fn over_memory(rt: &HostRuntime) -> Result<bool, io::Error> {
    for (step, chunk) in [(1, Chunk::One), (3, Chunk::One), (1, Chunk::Four)] {
        let mut d = FilePort::zeroed(rt.alloc(), 1 << 16, rt.stdin(), rt.stdout());
        let shape = Shape {
            count: 600,
            step,
            chunk,
        };
        for verb in ["write", "scan", "merge", "scan"] {
            match done(rt.alloc(), &mut d, verb, shape, 1) {
                Some(line) => println!(rt; "{line}")?,
                None => return Ok(false),
            }
        }
    }
    Ok(true)
}

// The words behind the program's name, or nothing where they can't be had.
fn words_of(rt: &HostRuntime) -> Option<Vec<String>> {
    let mut words = Vec::new(rt.alloc());
    let mut args = env::args(rt).ok()?;
    let _program = args.next();
    for word in args {
        words.push(word).ok()?;
    }
    Some(words)
}

fn number(word: Option<&String>) -> Option<u64> {
    word?.as_str().parse::<u64>().ok()
}

// What the words after the file's name ask for.
fn over_file(rt: &HostRuntime, path: &str, words: &[String]) -> Option<String> {
    let verb = words.first()?;
    let shape = Shape {
        count: number(words.get(1))?,
        step: number(words.get(2))?,
        chunk: Chunk::from_sectors(number(words.get(4)).unwrap_or(8))?,
    };
    let times = number(words.get(3)).unwrap_or(1);
    let mut d = FilePort::open(rt, path, rt.stdin(), rt.stdout()).ok()?;
    done(rt.alloc(), &mut d, verb.as_str(), shape, times)
}

fn main(rt: HostRuntime) -> io::Result<ExitCode> {
    let Some(words) = words_of(&rt) else {
        return Ok(ExitCode::from(8));
    };
    let ok = match words.as_slice() {
        [] => over_memory(&rt)?,
        [path, rest @ ..] => match over_file(&rt, path.as_str(), rest) {
            Some(line) => {
                println!(rt; "{line}")?;
                true
            }
            None => false,
        },
    };
    Ok(ExitCode::from(if ok { 0 } else { 3 }))
}
