#![tactic(auto)]

//! The machine's sums and flags, in unsigned numbers of 64 bits. `h` is half of what an operation's size holds; a signed
//! number is the difference of two that are not, since the prover reads sums of those alone.
ghost use Rattle.std.specs.Prelude.{◌≡◌, not, ◌+◌, ◌*◌, ◌/◌, ◌≤◌, ◌<◌, ◌^◌, pos, ◌+ℤ◌};
ghost use Rattle.std.proofs.Math.IntN.{sub_ℕ};
ghost use Rattle.rules.specs.Number.{modulo};
ghost use Rattle.manual.specs.Manual.{sign_by};
ghost use Rattle.machine.specs.Flags.{fits_in, marks, added, compared, shifted, holds};
ghost use Rattle.machine.specs.Machine.{product};

// Each `as` narrows what is proved to fit, or goes to or from `usize`, for which there is no `From`.
use machine::Flags;

/// Half of what a word holds.
pub const HALF_WORD: u64 = 1 << 15;

/// Half of what a long holds.
pub const HALF_LONG: u64 = 1 << 31;

/// The flags of a result: N and Z by its value, the others as given.
pub fn mark(x: bool, h: u64, value: u64, v: bool, c: bool) -> Flags
    ensures { result ≡ marks x h value v c }
{
    Flags {
        x,
        n: h <= value,
        z: value == 0,
        v,
        c,
    }
}

// What is taken off a number to read it as signed: nothing, or all that the size holds.
fn borrowed(h: u64, n: u64) -> u64
    requires { h ≤ 2147483648 }
    ensures signed { sign_by h n ≡ sub_ℕ n result }
    ensures bound { result ≤ 4294967296 }
{
    if n < h { 0 } else { h + h }
}

// Whether p - q does not fit as signed.
fn overflows(h: u64, p: u64, q: u64) -> bool
    requires { (h ≤ 2147483648) × (p ≤ 2 ^ 42) × (q ≤ 2 ^ 42) }
    ensures { result ≡ not (fits_in h (sub_ℕ p q)) }
{
    if p < q { p + h < q } else { q + h <= p }
}

/// d - s modulo m.
pub fn difference(m: u64, d: u64, s: u64) -> u64
    requires { (d < m) × (s < m) }
    ensures { (result ≡ modulo m (sub_ℕ d s)) × (result < m) }
{
    if d < s { m - (s - d) } else { d - s }
}

// A number moved up by h: as signed it is what this is above h.
fn biased(h: u64, n: u64) -> u64
    requires { (0 < h) × (h ≤ 2147483648) × (n < h + h) }
    ensures { (sign_by h n ≡ sub_ℕ result h) × (result < h + h) }
{
    (n + h) % (h + h)
}

// Whether t - 2 h does not fit as signed.
fn beyond(h: u64, t: u64) -> bool
    requires { h ≤ 2147483648 }
    ensures { result ≡ not (fits_in h (sub_ℕ t (h + h))) }
{
    t < h || h + h + h <= t
}

/// The flags of d + s.
pub fn add_flags(h: u64, s: u64, d: u64) -> Flags
    requires { (0 < h) × (h ≤ 2147483648) × (s < h + h) × (d < h + h) }
    ensures { result ≡ added h s d }
{
    let b = biased(h, d);
    let e = biased(h, s);
    let over = beyond(h, b + e);
    let carry = h + h <= d + s;
    mark(carry, h, (d + s) % (h + h), over, carry)
}

/// The flags of d - s, with X as given.
pub fn compare_flags(x: bool, h: u64, s: u64, d: u64) -> Flags
    requires { (0 < h) × (h ≤ 2147483648) × (s < h + h) × (d < h + h) }
    ensures { result ≡ compared x h s d }
{
    let b = biased(h, d);
    let e = biased(h, s);
    let over = beyond(h, b + (h + h) - e);
    let r = difference(h + h, d, s);
    mark(x, h, r, over, d < s)
}

/// 2 to the power of a count.
pub fn power(k: usize) -> u64
    requires { k ≤ 8 }
    ensures { (result ≡ 2 ^ k) × (result ≤ 256) }
{
    1u64 << k
}

/// A product within 2^40.
// `times` differs in its bounds alone: a product without bounds would have each bound proved again where it is called.
pub fn scaled(a: u64, t: u64) -> u64
    requires { (a ≤ 4294967296) × (t ≤ 256) }
    ensures { (result ≡ a * t) × (result ≤ 1099511627776) }
{
    a * t
}

/// The flags of a long shifted left: the whole product has the bits that go out above bit 31.
pub fn shift_flags(k: usize, v: u64) -> Flags
    requires { (k ≤ 8) × (v < 4294967296) }
    ensures { result ≡ shifted k v }
{
    let t = power(k);
    let b = borrowed(HALF_LONG, v);
    let p = scaled(v, t);
    let q = scaled(b, t);
    let over = overflows(HALF_LONG, p, q);
    let out = p / 4294967296 % 2 == 1;
    mark(out, HALF_LONG, p % 4294967296, over, out)
}

// A product within 2^31.
fn times(a: u64, b: u64) -> u64
    requires { (a ≤ 65536) × (b ≤ 32768) }
    ensures { (result ≡ a * b) × (result ≤ 2147483648) }
{
    a * b
}

/// The product of two words as signed numbers, modulo 2^32.
pub fn multiplied(a: u64, b: u64) -> u64
    requires { (a < 65536) × (b < 65536) }
    ensures { (result ≡ product a b) × (result < 4294967296) }
{
    match (a < 32768, b < 32768) {
        (true, true) => times(a, b),
        (true, false) => (4294967296 - times(a, 65536 - b)) % 4294967296,
        (false, true) => (4294967296 - times(65536 - a, b)) % 4294967296,
        (false, false) => times(65536 - a, 65536 - b),
    }
}

/// A byte as a signed number, modulo 2^32.
pub fn extended(b: usize) -> u32
    requires { b < 256 }
    ensures { result ≡ modulo (2 ^ 32) (sign_by 128 b) }
{
    if b < 128 {
        b as u32
    } else {
        (b + 4294967040) as u32
    }
}

/// Where a branch at pc leads.
pub fn branch_target(pc: u32, b: usize) -> u32
    requires { b < 256 }
    ensures { result ≡ modulo (2 ^ 32) (pos (pc + 2) +ℤ sign_by 128 b) }
{
    let p = u64::from(pc) + 2 + b as u64;
    if b < 128 {
        (p % 4294967296) as u32
    } else {
        ((p + 4294967040) % 4294967296) as u32
    }
}

/// Whether a condition, by its four bits, is met.
#[tactic(auto, unfolding(machine::specs::Flags::holds))]
pub fn is_met(k: usize, f: Flags) -> bool
    ensures { result ≡ holds k f }
{
    match k {
        0 => true,
        2 => !f.c && !f.z,
        3 => f.c || f.z,
        4 => !f.c,
        5 => f.c,
        6 => !f.z,
        7 => f.z,
        8 => !f.v,
        9 => f.v,
        10 => !f.n,
        11 => f.n,
        12 => f.n == f.v,
        13 => f.n != f.v,
        14 => !f.z && f.n == f.v,
        15 => f.z || f.n != f.v,
        _ => false,
    }
}

/// A long word with another low word.
pub fn with_low(old: u32, v: u32) -> u32
    requires { v < 65536 }
    ensures { result ≡ old / 65536 * 65536 + v }
{
    old / 65536 * 65536 + v
}
