#![tactic(auto, unfolding(machine::specs::Machine::act_of, machine::specs::Machine::reaches))]

//! One step of the bench's machine: which it is, and whether it may be made; and what it does. A form's contract is its row of
//! `act_of`, over whatever memory it does not look at.
ghost use Rattle.std.specs.Prelude.{◌≡◌, ℕ, ◌+◌, ◌*◌, ◌/◌, ◌%◌, ◌^◌, ◌<◌, ◌≤◌, true, List, slice_index, set};
ghost use Rattle.machine.specs.Form.{Valid};
ghost use Rattle.machine.specs.Flags.{moved};
ghost use Rattle.machine.specs.Machine.{word_at, long_at, with_long, with_word, act_of, reached, reaches, judge_of};
ghost use Rattle.step.specs.Step.{state, act_if};

// Each `as` narrows what is proved to fit, or goes to or from `usize`, for which there is no `From`.
use arithmetic::{
    HALF_LONG, HALF_WORD, add_flags, branch_target, compare_flags, difference, extended, is_met,
    mark, multiplied, power, scaled, shift_flags, with_low,
};
use decode::decode;
use machine::{Decoded, Flags, Form, Judged, MEMORY, Status};

// ---- The memory.

/// The word at an address.
pub fn read_word(mem: &[u8; MEMORY], p: usize) -> u16
    requires { p + 2 ≤ 16384 }
    ensures { result ≡ word_at mem.now p }
{
    u16::from_be_bytes([mem[p], mem[p + 1]])
}

/// The long at an address.
pub fn read_long(mem: &[u8; MEMORY], p: usize) -> u32
    requires { p + 4 ≤ 16384 }
    ensures { result ≡ long_at mem.now p }
{
    u32::from_be_bytes([mem[p], mem[p + 1], mem[p + 2], mem[p + 3]])
}

/// Puts a long at an address.
pub fn write_long(mem: &mut [u8; MEMORY], p: usize, v: u32)
    requires { p + 4 ≤ 16384 }
    ensures { mem.new ≡ with_long mem.old p v }
{
    mem[p..p + 4].copy_from_slice(&v.to_be_bytes());
}

// ---- The processor.

/// The processor: all of the state but the memory.
#[derive(Clone, Copy, Debug, PartialEq, Eq, Hash)]
pub struct Processor {
    /// D0 to D7.
    pub d: [u32; 8],
    /// A0 to A7.
    pub a: [u32; 8],
    /// Flags and program counter.
    pub status: Status,
}

impl Processor {
    // The flags after a value was moved, multiplied or tested.
    fn moved_flags(&self, half: u64, value: u64) -> Flags
        ensures { result ≡ moved self.now.status.flags half value }
    {
        mark(self.status.flags.x, half, value, false, false)
    }

    // Takes a step's flags, and goes so many bytes further.
    fn go(&mut self, flags: Flags, by: u32)
        ensures { self.new ≡ record { d = self.old.d; a = self.old.a; status = record { flags = flags; pc = (self.old.status.pc + by) % 2 ^ 32 } } }
    {
        self.status.flags = flags;
        self.status.pc = self.status.pc.wrapping_add(by);
    }

    // The long in a data register.
    fn long(&self, n: usize) -> u64
        requires { n < 8 }
        ensures { (result ≡ slice_index self.now.d n) × (result < 2 ^ 32) }
    {
        u64::from(self.d[n])
    }

    // The low word of a data register.
    fn word(&self, n: usize) -> u64
        requires { n < 8 }
        ensures { (result ≡ slice_index self.now.d n % 65536) × (result < 65536) }
    {
        u64::from(self.d[n] % 65536)
    }

    // Puts a low word into a data register.
    fn set_word(&mut self, m: usize, v: u64)
        requires { (m < 8) × (v < 65536) }
        ensures { self.new ≡ record { d = set self.old.d m (slice_index self.old.d m / 65536 * 65536 + v); a = self.old.a; status = self.old.status } }
    {
        self.d[m] = with_low(self.d[m], v as u32);
    }

    // Puts a long that was moved into a data register, by a form of so many bytes.
    fn put(&mut self, m: usize, v: u32, by: u32)
        requires { m < 8 }
        ensures { self.new ≡ record { d = set self.old.d m v; a = self.old.a; status = record { flags = moved self.old.status.flags (2 ^ 31) v; pc = (self.old.status.pc + by) % 2 ^ 32 } } }
    {
        self.d[m] = v;
        self.go(self.moved_flags(HALF_LONG, u64::from(v)), by);
    }

    // NOP.
    fn pass(&mut self)
        ensures { (mem : List ℕ) → state self.new mem ≡ act_of Form.Nop (state self.old mem) }
    {
        self.status.pc = self.status.pc.wrapping_add(2);
    }

    // MOVEQ.
    fn move_quick(&mut self, b: usize, m: usize)
        requires { (b < 256) × (m < 8) }
        ensures { (mem : List ℕ) → state self.new mem ≡ act_of (Form.Moveq b m) (state self.old mem) }
    {
        self.put(m, extended(b), 2);
    }

    // MOVE.W Dn,Dm.
    fn move_word(&mut self, n: usize, m: usize)
        requires { (n < 8) × (m < 8) }
        ensures { (mem : List ℕ) → state self.new mem ≡ act_of (Form.MoveWord n m) (state self.old mem) }
    {
        let x = self.word(n);
        self.set_word(m, x);
        self.go(self.moved_flags(HALF_WORD, x), 2);
    }

    // MOVE.L (An),Dm.
    fn load(&mut self, mem: &[u8; MEMORY], n: usize, m: usize)
        requires { (n < 8) × (m < 8) × (slice_index self.old.a n + 4 ≤ 16384) }
        ensures { state self.new mem.now ≡ act_of (Form.Load n m) (state self.old mem.now) }
    {
        self.put(m, read_long(mem, self.a[n] as usize), 2);
    }

    // MOVE.L Dn,(Am).
    fn store(&mut self, mem: &mut [u8; MEMORY], n: usize, m: usize)
        requires { (n < 8) × (m < 8) × (slice_index self.old.a m + 4 ≤ 16384) }
        ensures { state self.new mem.new ≡ act_of (Form.Store n m) (state self.old mem.old) }
    {
        write_long(mem, self.a[m] as usize, self.d[n]);
        self.go(self.moved_flags(HALF_LONG, self.long(n)), 2);
    }

    // ADD.W Dn,Dm.
    fn add(&mut self, n: usize, m: usize)
        requires { (n < 8) × (m < 8) }
        ensures { (mem : List ℕ) → state self.new mem ≡ act_of (Form.Add n m) (state self.old mem) }
    {
        let x = self.word(n);
        let y = self.word(m);
        self.set_word(m, (y + x) % 65536);
        self.go(add_flags(HALF_WORD, x, y), 2);
    }

    // SUB.W Dn,Dm.
    fn subtract(&mut self, n: usize, m: usize)
        requires { (n < 8) × (m < 8) }
        ensures { (mem : List ℕ) → state self.new mem ≡ act_of (Form.Sub n m) (state self.old mem) }
    {
        let x = self.word(n);
        let y = self.word(m);
        self.set_word(m, difference(65536, y, x));
        self.go(compare_flags(y < x, HALF_WORD, x, y), 2);
    }

    // CMP.W Dn,Dm.
    fn compare(&mut self, n: usize, m: usize)
        requires { (n < 8) × (m < 8) }
        ensures { (mem : List ℕ) → state self.new mem ≡ act_of (Form.Cmp n m) (state self.old mem) }
    {
        let x = self.word(n);
        let y = self.word(m);
        self.go(compare_flags(self.status.flags.x, HALF_WORD, x, y), 2);
    }

    // MULS.W Dn,Dm.
    fn multiply(&mut self, n: usize, m: usize)
        requires { (n < 8) × (m < 8) }
        ensures { (mem : List ℕ) → state self.new mem ≡ act_of (Form.Muls n m) (state self.old mem) }
    {
        self.put(m, multiplied(self.word(n), self.word(m)) as u32, 2);
    }

    // MULS.W with the next word, and Dm.
    fn multiply_by(&mut self, mem: &[u8; MEMORY], m: usize)
        requires { (m < 8) × (self.old.status.pc + 4 ≤ 16384) }
        ensures { state self.new mem.now ≡ act_of (Form.MulsImmediate m) (state self.old mem.now) }
    {
        let x = read_word(mem, self.status.pc as usize + 2);
        self.put(m, multiplied(u64::from(x), self.word(m)) as u32, 4);
    }

    // TST.L Dn.
    fn test(&mut self, n: usize)
        requires { n < 8 }
        ensures { (mem : List ℕ) → state self.new mem ≡ act_of (Form.Tst n) (state self.old mem) }
    {
        self.go(self.moved_flags(HALF_LONG, self.long(n)), 2);
    }

    // SUBQ.L.
    fn subtract_quick(&mut self, k: usize, n: usize)
        requires { (k ≤ 8) × (n < 8) }
        ensures { (mem : List ℕ) → state self.new mem ≡ act_of (Form.Subq k n) (state self.old mem) }
    {
        let x = k as u64;
        let y = self.long(n);
        self.d[n] = difference(4294967296, y, x) as u32;
        self.go(compare_flags(y < x, HALF_LONG, x, y), 2);
    }

    // ASL.L.
    fn shift(&mut self, k: usize, n: usize)
        requires { (k ≤ 8) × (n < 8) }
        ensures { (mem : List ℕ) → state self.new mem ≡ act_of (Form.Asl k n) (state self.old mem) }
    {
        let v = self.long(n);
        self.d[n] = (scaled(v, power(k)) % 4294967296) as u32;
        self.go(shift_flags(k, v), 2);
    }

    // A branch: on to where it leads if its condition is met.
    #[tactic(auto, unfolding(machine::specs::Machine::act_of, rules::specs::Number::modulo))]
    fn branch(&mut self, k: usize, b: usize)
        requires { b < 256 }
        ensures { (mem : List ℕ) → state self.new mem ≡ act_of (Form.Branch k b) (state self.old mem) }
    {
        if is_met(k, self.status.flags) {
            self.status.pc = branch_target(self.status.pc, b);
        } else {
            self.status.pc = self.status.pc.wrapping_add(2);
        }
    }

    // Whether the access that a form makes besides its first word is even and within the memory.
    fn may_reach(&self, form: Form) -> bool
        requires { Valid form × (self.now.status.pc + 2 ≤ 16384) }
        ensures { result ≡ reaches form self.now.a self.now.status.pc }
    {
        match form {
            Form::Load(n, _) => is_reached(self.a[n], 4),
            Form::Store(_, m) => is_reached(self.a[m], 4),
            Form::MulsImmediate(_) => is_reached(self.status.pc + 2, 2),
            _ => true,
        }
    }

    /// The step that is next.
    #[tactic(auto, using(crate::proofs::Judging::in_range), unfolding(machine::specs::Machine::judge_of, machine::specs::Machine::judged_as))]
    pub fn judge(&self, mem: &[u8; MEMORY]) -> Judged
        ensures { result ≡ judge_of self.now.a mem.now self.now.status.pc }
    {
        if !is_reached(self.status.pc, 2) {
            return Judged::Outside;
        }
        match decode(usize::from(read_word(mem, self.status.pc as usize))) {
            Decoded::Is(form) if self.may_reach(form) => Judged::Runs(form),
            Decoded::Is(_) => Judged::Outside,
            Decoded::Halt => Judged::Halts,
            Decoded::Other => Judged::Unknown,
        }
    }

    /// Makes a step that was judged, where `go` says so.
    // The guard stands at each form, and no test before the `match`: so decoding, form and limit are one jump in the compiled
    // code; else a run is 20 in 100 slower.
    #[tactic(auto, unfolding(machine::specs::Machine::reaches))]
    pub fn act(&mut self, form: Form, mem: &mut [u8; MEMORY], go: bool)
        requires { Valid form × (reaches form self.old.a self.old.status.pc ≡ true) }
        ensures { state self.new mem.new ≡ act_if go form (state self.old mem.old) }
    {
        match form {
            Form::Nop if go => self.pass(),
            Form::Moveq(b, m) if go => self.move_quick(b, m),
            Form::MoveWord(n, m) if go => self.move_word(n, m),
            Form::Load(n, m) if go => self.load(mem, n, m),
            Form::Store(n, m) if go => self.store(mem, n, m),
            Form::Add(n, m) if go => self.add(n, m),
            Form::Sub(n, m) if go => self.subtract(n, m),
            Form::Cmp(n, m) if go => self.compare(n, m),
            Form::Muls(n, m) if go => self.multiply(n, m),
            Form::MulsImmediate(m) if go => self.multiply_by(mem, m),
            Form::Tst(n) if go => self.test(n),
            Form::Subq(k, n) if go => self.subtract_quick(k, n),
            Form::Asl(k, n) if go => self.shift(k, n),
            Form::Branch(k, b) if go => self.branch(k, b),
            _ => {}
        }
    }
}

// Whether an access of so many bytes is even and within the memory.
fn is_reached(p: u32, size: u64) -> bool
    requires { size ≤ 4 }
    ensures { result ≡ reached p size }
{
    p % 2 == 0 && u64::from(p) + size <= 16384
}
