// Document 01, "The task set file": the records of cores and variables, read and judged (refusals 3, 4, 5).
#![tactic(auto)]

ghost use Rattle.std.specs.Prelude.{◌≡◌, true, ◌+◌, ◌*◌, ◌-◌, ◌<◌, ◌≤◌, eqb, length};
ghost use Rattle.verdict.specs.Verdict.{first};
ghost use Rattle.verdict.specs.Refusals.{refusal_of};
ghost use Rattle.protocol.specs.Variables.{local, reads_it, writes_it};
ghost use Rattle.code.specs.Profiles.{most_data};
ghost use Rattle.records.specs.File.{variables, record_place, variable_in};
ghost use Rattle.records.specs.Records.{core_ok, core_refusal, bit, has_one_writer, used_by, place_ok, part_ok, parts_ok, variable_ok, variable_refusal, meets, meets_shared, meets_in, overlap, overlap_refusal};
ghost use Rattle.records.specs.Order.{RisingShared, RisingIn, RisingAll};

use code::Profile;
use verdict::Refusal;

// Bytes of a core's record: data size, input size, limit (16 bits each).
pub const CORE_RECORD: usize = 6;

// Bytes of a variable's record: shared place (16 bits), width, attribute byte, four local places (16 bits each).
pub const VARIABLE_RECORD: usize = 12;

// ---- a variable's record at place p, read by plain indices

// Where the record of variable i stands.
pub fn record_place(f: &[u8], i: u8) -> usize
    ensures { (result ≡ record_place f.now i) × (result < 8192) }
{
    5 + CORE_RECORD * memory::byte_at(f, 4) as usize + 1 + VARIABLE_RECORD * i as usize
}

pub fn shared_place(f: &[u8], p: usize) -> u16
    requires { p + 12 ≤ length f.now }
    ensures { result ≡ (variable_in f.now p).place }
{
    code::word(f, p)
}

pub fn width(f: &[u8], p: usize) -> u8
    requires { p + 12 ≤ length f.now }
    ensures { result ≡ (variable_in f.now p).width }
{
    f[p + 2]
}

pub fn local_place(f: &[u8], p: usize, k: usize) -> u16
    requires { (p + 12 ≤ length f.now) × (k < 4) }
    ensures { result ≡ local k (variable_in f.now p) }
{
    code::word(f, p + 4 + 2 * k)
}

// Bit k of an attribute byte.
fn has_bit(a: u8, k: usize) -> bool
    requires { k < 8 }
    ensures { result ≡ eqb (bit a k) 1 }
{
    (a >> k) & 1 == 1
}

// Whether core k reads the variable.
pub fn reads(f: &[u8], p: usize, k: usize) -> bool
    requires { (p + 12 ≤ length f.now) × (k < 4) }
    ensures { result ≡ reads_it k (variable_in f.now p) }
{
    has_bit(f[p + 3], 4 + k)
}

// Whether core k writes the variable.
pub fn writes(f: &[u8], p: usize, k: usize) -> bool
    requires { (p + 12 ≤ length f.now) × (k < 4) }
    ensures { result ≡ writes_it k (variable_in f.now p) }
{
    has_bit(f[p + 3], k)
}

// ---- cores

// The greatest data size of a core.
fn most_data(profile: Profile) -> usize
    ensures { result ≡ most_data profile }
{
    match profile {
        Profile::Full => 4096,
        Profile::Small => 1024,
    }
}

// A core's three numbers.
fn core_ok(profile: Profile, f: &[u8], k: usize) -> bool
    requires { k < 4 }
    ensures { result ≡ core_ok profile f.now k }
{
    let p = 5 + CORE_RECORD * k;
    let size = memory::word_at(f, p);
    if size < 1 {
        return false;
    }
    if most_data(profile) < size {
        return false;
    }
    if size < memory::word_at(f, p + 2) {
        return false;
    }
    1 <= memory::word_at(f, p + 4)
}

fn judge_core(profile: Profile, f: &[u8], k: usize) -> Result<(), Refusal>
    requires { k < 4 }
    ensures { refusal_of result ≡ core_refusal profile f.now k }
{
    if f.len() < 5 + CORE_RECORD * k + CORE_RECORD {
        return Err(Refusal::CutFile);
    }
    if core_ok(profile, f, k) {
        Ok(())
    } else {
        Err(Refusal::BadCore)
    }
}

pub fn judge_cores(profile: Profile, f: &[u8], n: usize) -> Result<(), Refusal>
    requires { n ≤ 4 }
    ensures { refusal_of result ≡ first (core_refusal profile f.now) (n - 0) 0 }
{
    for k in 0..n {
        judge_core(profile, f, k)?;
    }
    Ok(())
}

// ---- one variable

// Exactly one bit of the write half is set.
fn one_writer(a: u8) -> bool
    ensures { result ≡ has_one_writer a }
{
    u8::count_ones(a & 15) == 1
}

// A named core's place in the record at p.
fn place_ok(f: &[u8], p: usize, k: usize) -> bool
    requires { (p + 12 ≤ length f.now) × (k < 4) }
    ensures { result ≡ place_ok f.now (variable_in f.now p) k }
{
    if memory::byte_at(f, 4) as usize <= k {
        return false;
    }
    let q = 5 + CORE_RECORD * k;
    let place = local_place(f, p, k) as usize;
    if place < memory::word_at(f, q + 2) {
        return false;
    }
    place + width(f, p) as usize <= memory::word_at(f, q)
}

fn part_ok(f: &[u8], p: usize, k: usize) -> bool
    requires { (p + 12 ≤ length f.now) × (k < 4) }
    ensures { result ≡ part_ok f.now (variable_in f.now p) k }
{
    if reads(f, p, k) {
        if writes(f, p, k) {
            return false;
        }
        return place_ok(f, p, k);
    }
    if writes(f, p, k) {
        return place_ok(f, p, k);
    }
    local_place(f, p, k) == 0
}

fn parts_ok(f: &[u8], p: usize) -> bool
    requires { p + 12 ≤ length f.now }
    ensures { result ≡ parts_ok f.now (variable_in f.now p) }
{
    if !part_ok(f, p, 0) {
        return false;
    }
    if !part_ok(f, p, 1) {
        return false;
    }
    if !part_ok(f, p, 2) {
        return false;
    }
    part_ok(f, p, 3)
}

fn variable_ok(f: &[u8], p: usize) -> bool
    requires { p + 12 ≤ length f.now }
    ensures { result ≡ variable_ok f.now (variable_in f.now p) }
{
    let w = width(f, p);
    if !code::is_width(w) {
        return false;
    }
    if !one_writer(f[p + 3]) {
        return false;
    }
    if 1024 < shared_place(f, p) as usize + w as usize {
        return false;
    }
    parts_ok(f, p)
}

fn judge_variable(f: &[u8], i: u8) -> Result<(), Refusal>
    ensures { refusal_of result ≡ variable_refusal f.now i }
{
    let p = record_place(f, i);
    if f.len() < p + 12 {
        return Err(Refusal::CutFile);
    }
    if variable_ok(f, p) {
        Ok(())
    } else {
        Err(Refusal::BadVariable)
    }
}

pub fn judge_variables(f: &[u8], m: u8) -> Result<(), Refusal>
    ensures { refusal_of result ≡ first (variable_refusal f.now) (m - 0) 0 }
{
    for i in 0..m {
        judge_variable(f, i)?;
    }
    Ok(())
}

// ---- two variables

// a bytes from x on and b bytes from y on have one in common. Where records stand in the order of their places, the first test decides.
fn meet(x: u16, a: u8, y: u16, b: u8) -> bool
    ensures { result ≡ meets x a y b }
{
    if (y as usize) < x as usize + a as usize {
        return (x as usize) < y as usize + b as usize;
    }
    false
}

fn is_named(f: &[u8], p: usize, k: usize) -> bool
    requires { (p + 12 ≤ length f.now) × (k < 4) }
    ensures { result ≡ used_by k (variable_in f.now p) }
{
    if reads(f, p, k) {
        return true;
    }
    writes(f, p, k)
}

// The places come first: seldom do any two meet.
fn meet_in(f: &[u8], p: usize, q: usize, k: usize) -> bool
    requires { (p + 12 ≤ length f.now) × (q + 12 ≤ length f.now) × (k < 4) }
    ensures { result ≡ meets_in k (variable_in f.now p) (variable_in f.now q) }
{
    if !meet(
        local_place(f, p, k),
        width(f, p),
        local_place(f, q, k),
        width(f, q),
    ) {
        return false;
    }
    if !is_named(f, p, k) {
        return false;
    }
    is_named(f, q, k)
}

fn meet_shared(f: &[u8], p: usize, q: usize) -> bool
    requires { (p + 12 ≤ length f.now) × (q + 12 ≤ length f.now) }
    ensures { result ≡ meets_shared (variable_in f.now p) (variable_in f.now q) }
{
    meet(
        shared_place(f, p),
        width(f, p),
        shared_place(f, q),
        width(f, q),
    )
}

fn overlapping(f: &[u8], p: usize, q: usize) -> bool
    requires { (p + 12 ≤ length f.now) × (q + 12 ≤ length f.now) }
    ensures { result ≡ overlap (variable_in f.now p) (variable_in f.now q) }
{
    if meet_shared(f, p, q) {
        return true;
    }
    if meet_in(f, p, q, 0) {
        return true;
    }
    if meet_in(f, p, q, 1) {
        return true;
    }
    if meet_in(f, p, q, 2) {
        return true;
    }
    meet_in(f, p, q, 3)
}

// Variable i against each of the m after it.
fn judge_overlap(f: &[u8], i: u8, m: u8) -> Result<(), Refusal>
    requires { (i < m) × (m ≡ variables f.now) × (record_place f.now m ≤ length f.now) }
    ensures { refusal_of result ≡ overlap_refusal f.now i }
{
    let p = record_place(f, i);
    for j in i + 1..m {
        if overlapping(f, p, record_place(f, j)) {
            return Err(Refusal::Overlapping);
        }
    }
    Ok(())
}

// Whether each of the m variables stands behind all before it in shared memory.
fn rising_shared(f: &[u8], m: u8) -> bool
    requires { record_place f.now m ≤ length f.now }
    ensures { result ≡ true → RisingShared f.now m }
{
    let mut end: usize = 0;
    for i in 0..m {
        let p = record_place(f, i);
        let place = shared_place(f, p) as usize;
        if place < end {
            return false;
        }
        end = place + width(f, p) as usize;
    }
    true
}

// The same in the data of core k, of the variables that name it.
fn rising_in(f: &[u8], m: u8, k: usize) -> bool
    requires { (record_place f.now m ≤ length f.now) × (k < 4) }
    ensures { result ≡ true → RisingIn f.now k m }
{
    let mut end: usize = 0;
    for i in 0..m {
        let p = record_place(f, i);
        if is_named(f, p, k) {
            let local = local_place(f, p, k) as usize;
            if local < end {
                return false;
            }
            end = local + width(f, p) as usize;
        }
    }
    true
}

// The same in every memory: in most files the records stand in the order of their places, and no two need to be held against each other.
fn rising(f: &[u8], m: u8) -> bool
    requires { record_place f.now m ≤ length f.now }
    ensures { result ≡ true → RisingAll f.now m }
{
    if !rising_shared(f, m) {
        return false;
    }
    if !rising_in(f, m, 0) {
        return false;
    }
    if !rising_in(f, m, 1) {
        return false;
    }
    if !rising_in(f, m, 2) {
        return false;
    }
    rising_in(f, m, 3)
}

// Each of the m variables against each.
pub fn judge_overlaps(f: &[u8], m: u8) -> Result<(), Refusal>
    requires { (m ≡ variables f.now) × (record_place f.now m ≤ length f.now) }
    ensures { refusal_of result ≡ first (overlap_refusal f.now) (m - 0) 0 }
{
    if rising(f, m) {
        return Ok(());
    }
    for i in 0..m {
        judge_overlap(f, i, m)?;
    }
    Ok(())
}
