//! The bench from C.
ghost use Rattle.std.specs.Prelude.{◌≡◌, cond, ◌≤◌};
ghost use Rattle.machine.specs.Bench.{bench_of};
ghost use Rattle.numbers.specs.Ran.{end_number, flags_number, Benches};

use machine::{End, Flags, MEMORY};

// In the place of an end where there is none.
const NO_END: u8 = 255;

// The number of an end.
fn end_number(end: End) -> u8
    ensures { result ≡ end_number end }
{
    match end {
        End::OnHalt => 0,
        End::OnWord => 1,
        End::OnAccess => 2,
        End::OnLimit => 3,
    }
}

// A value if a flag is set, else 0.
fn bit(set: bool, value: u8) -> u8
    ensures { (result ≡ cond set value 0) × (result ≤ value) }
{
    if set { value } else { 0 }
}

// The flags as the manual's condition code register has them.
fn flags_number(f: Flags) -> u8
    ensures { result ≡ flags_number f }
{
    bit(f.x, 16) + bit(f.n, 8) + bit(f.z, 4) + bit(f.v, 2) + bit(f.c, 1)
}

/// Runs the first `count` words of a list from `start`, with the address registers `a`, for at most `limit` steps: why it ended, the
/// steps made, program counter and flags, data registers and memory; or refuses, and leaves registers and memory as they were.
#[unsafe(no_mangle)]
pub extern "C" fn lagvettu_run(
    addresses: &[u32],
    words: &[u16],
    count: usize,
    a: &[u32; 8],
    start: u32,
    limit: u64,
    d: &mut [u32; 8],
    memory: &mut [u8; MEMORY],
    end: &mut u8,
    steps: &mut u64,
    pc: &mut u32,
    flags: &mut u8,
    place: &mut usize,
) -> u8
    ensures { Benches (bench_of count addresses.now words.now a.now start limit) result end.new steps.new pc.new flags.new place.new d.old memory.old d.new memory.new }
{
    match stepper::bench(addresses, words, count, d, a, memory, start, limit) {
        Ok(ran) => {
            *end = end_number(ran.end);
            *steps = ran.steps;
            *pc = ran.status.pc;
            *flags = flags_number(ran.status.flags);
            *place = 0;
            0
        }
        Err(refusal) => {
            *end = NO_END;
            *steps = 0;
            *pc = 0;
            *flags = 0;
            *place = refusal.place();
            refusal.number()
        }
    }
}
