#![tactic(auto)]

//! The bench: a list is filled into the memory and run, with a limit of steps, or refused before any step.
ghost use Rattle.std.specs.Prelude.{◌≡◌, ◌+◌, ◌≤◌, length, take, replicate, position, None, IfOk, OnOk, OnErr};
ghost use Rattle.std.specs.Bool.{OnFalse};
ghost use Rattle.answer.specs.Refusal.{answer_of};
ghost use Rattle.machine.specs.Machine.{run_of, ran_of};
ghost use Rattle.machine.specs.Bench.{placed, fill_of, status_at, state_at, short_list, misplaced, bench_answer, bench_of, registers_after, memory_after};
ghost use Rattle.step.specs.Step.{state};
ghost use Rattle.stepper.specs.Stepper.{value_of, ran_answer};

use answer::Refusal;
use machine::{End, Flags, Judged, MEMORY, Ran, Status};
use step::Processor;

// The highest address that a list's word may have.
const LAST_PLACE: u32 = 16382;

// ---- A run.

// What a run hands back.
fn ended(end: End, steps: u64, status: Status) -> Ran
    ensures { result ≡ record { end = end; steps = steps; status = status } }
{
    Ran { end, steps, status }
}

/// Steps until one stops or the limit is spent; the next step is judged before the limit.
pub fn run(processor: &mut Processor, mem: &mut [u8; MEMORY], limit: u64) -> Ran
    ensures { ran_of processor.new.d processor.new.a result mem.new ≡ run_of limit (state processor.old mem.old) }
{
    let mut steps = 0;
    // No `for` up to the limit: the step at the limit would be judged at a second place, and what is called at two is not inlined.
    loop {
        match processor.judge(mem) {
            Judged::Runs(form) => {
                let go = steps < limit;
                processor.act(form, mem, go);
                if !go {
                    return ended(End::OnLimit, steps, processor.status);
                }
                steps += 1;
            }
            Judged::Halts => return ended(End::OnHalt, steps, processor.status),
            Judged::Unknown => return ended(End::OnWord, steps, processor.status),
            Judged::Outside => return ended(End::OnAccess, steps, processor.status),
        }
    }
}

// ---- The memory, from a list.

// Puts a word at an address.
fn put_word(mem: &mut [u8; MEMORY], p: usize, w: u16)
    requires { p + 2 ≤ 16384 }
    ensures { mem.new ≡ placed mem.old p w }
{
    let [high, low] = w.to_be_bytes();
    mem[p] = high;
    mem[p + 1] = low;
}

// Clears the memory and puts the first `count` words of a list into it, each at its address.
// By place: `fill_of` takes a pair by its number. `as`: no `From` goes from u32 to `usize`.
// Here and below the slices and `count` stand side by side, as C lends them; refusal 9 is of that count.
#[tactic(auto, using(crate::proofs::Checks::room_at), unfolding(machine::specs::Bench::fill_of))]
fn fill(addresses: &[u32], words: &[u16], count: usize, mem: &mut [u8; MEMORY])
    requires addresses { count ≤ length addresses.now }
    requires words { count ≤ length words.now }
    requires places { position misplaced (take count addresses.now) ≡ None }
    ensures { mem.new ≡ fill_of count addresses.now words.now (replicate 16384 0) }
{
    *mem = [0u8; MEMORY];
    for i in 0..count {
        put_word(mem, addresses[i] as usize, words[i]);
    }
}

// ---- Refusals.

// Whether an address is odd, or too high for a word in memory.
#[tactic(auto, unfolding(machine::specs::Bench::misplaced))]
fn is_misplaced(p: u32) -> bool
    ensures { result ≡ misplaced p }
{
    p % 2 != 0 || LAST_PLACE < p
}

// The first address that is.
fn first_misplaced(addresses: &[u32]) -> Option<usize>
    ensures { result ≡ position misplaced addresses.now }
{
    addresses.iter().position(|&p| is_misplaced(p))
}

// Whether a slice is shorter than `count`.
#[tactic(auto, unfolding(machine::specs::Bench::short_list))]
fn is_short(addresses: &[u32], words: &[u16], count: usize) -> bool
    ensures short { result ≡ short_list addresses.now words.now count }
    ensures addresses { OnFalse result (count ≤ length addresses.now) }
    ensures words { OnFalse result (count ≤ length words.now) }
{
    addresses.len() < count || words.len() < count
}

/// The list's count; or refusal 9, with the count, if a slice is shorter than that, or 19, with its index, for the first address that
/// is odd or above 16,382.
#[tactic(auto, using(crate::proofs::Checks::refuses_9, crate::proofs::Checks::refuses_19, crate::proofs::Checks::accepts))]
pub fn check(addresses: &[u32], words: &[u16], count: usize) -> Result<usize, Refusal>
    ensures answer { answer_of result ≡ bench_answer count addresses.now words.now count }
    ensures count { IfOk result (λ n. n ≡ count) }
    ensures addresses { OnOk result (count ≤ length addresses.now) }
    ensures words { OnOk result (count ≤ length words.now) }
    ensures places { OnOk result (position misplaced (take count addresses.now) ≡ None) }
{
    if is_short(addresses, words, count) {
        return Err(Refusal::ShortList(count));
    }
    if let Some(index) = first_misplaced(&addresses[..count]) {
        return Err(Refusal::Misplaced(index));
    }
    Ok(count)
}

// ---- The call.

// Flags and program counter at the start.
fn at_start(pc: u32) -> Status
    ensures { result ≡ status_at pc }
{
    Status {
        flags: Flags::default(),
        pc,
    }
}

// Runs the first `count` words of a list.
#[tactic(auto, unfolding(machine::specs::Bench::state_at))]
fn fill_and_run(
    addresses: &[u32],
    words: &[u16],
    count: usize,
    d: &mut [u32; 8],
    a: &[u32; 8],
    mem: &mut [u8; MEMORY],
    pc: u32,
    limit: u64,
) -> Ran
    requires addresses { count ≤ length addresses.now }
    requires words { count ≤ length words.now }
    requires places { position misplaced (take count addresses.now) ≡ None }
    ensures ran { result ≡ value_of (run_of limit (state_at count addresses.now words.now a.now pc)) }
    ensures registers { d.new ≡ (run_of limit (state_at count addresses.now words.now a.now pc)).state.d }
    ensures memory { mem.new ≡ (run_of limit (state_at count addresses.now words.now a.now pc)).state.mem }
{
    let mut processor = Processor {
        d: [0u32; 8],
        a: *a,
        status: at_start(pc),
    };
    fill(addresses, words, count, mem);
    let ran = run(&mut processor, mem, limit);
    *d = processor.d;
    ran
}

/// Runs the first `count` words of a list from `pc`, with the address registers `a`, for at most `limit` steps: what the run hands back,
/// and in `d` and `mem` the data registers and the memory that it leaves. Where `check` refuses the list it is refused so, and
/// `d` and `mem` stay.
pub fn bench(
    addresses: &[u32],
    words: &[u16],
    count: usize,
    d: &mut [u32; 8],
    a: &[u32; 8],
    mem: &mut [u8; MEMORY],
    pc: u32,
    limit: u64,
) -> Result<Ran, Refusal>
    ensures answer { answer_of result ≡ ran_answer (bench_of count addresses.now words.now a.now pc limit) }
    ensures registers { d.new ≡ registers_after (bench_of count addresses.now words.now a.now pc limit) d.old }
    ensures memory { mem.new ≡ memory_after (bench_of count addresses.now words.now a.now pc limit) mem.old }
    ensures kept_registers { OnErr result (d.new ≡ d.old) }
    ensures kept_memory { OnErr result (mem.new ≡ mem.old) }
{
    check(addresses, words, count)?;
    Ok(fill_and_run(addresses, words, count, d, a, mem, pc, limit))
}
