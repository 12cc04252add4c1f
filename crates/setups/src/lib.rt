// The setup record: mark, kind, n, ℓ or b, a zero byte, Δ, and n start bytes. 8 + n bytes.
#![tactic(auto, using(crate::proofs::SetupLaws::decided), unfolding(crate::specs::Setup::setup_refusal, crate::specs::Setup::setup_write_refusal))]

ghost use Rattle.std.specs.Prelude.{◌≡◌, ◌+◌, ◌≤◌, length};
ghost use Rattle.terms.specs.Limits.{most_processes};
ghost use Rattle.terms.specs.Refusal.{refusal_in, numbered};
ghost use Rattle.setups.specs.Setup.{out_of_limits, bad_size, proposes, no_start, any_bad_start, setup_limits, start_refusal};
ghost use Rattle.setups.specs.Setup.{head_refusal, setup_refusal, places, setup_read, setup_rest, rest_start, setup_write_refusal, WroteSetup};

use kinds::Kind;
use records::Written;
use terms::{Refusal, Trace};

const MARK: [u8; 2] = [0x4F, 0x53];

// The places of the start bytes, one for each process that there may be.
pub const PLACES: usize = Trace::PROCESSES as usize;

// `size` is ℓ in kind 1 and b in the others; `starts` has 0 in the places beyond `processes` (no heap, and C lends as many).
#[derive(Clone, Copy, Debug, PartialEq, Eq)]
pub struct Setup {
    pub kind: Kind,
    pub processes: u8,
    pub size: u8,
    pub delta: u16,
    pub starts: [u8; PLACES],
}

// BY KIND: 5 and 6

// ℓ or b, and the zero byte.
fn is_out_of_limits(size: u32, spare: u32) -> bool
    ensures { result ≡ out_of_limits size spare }
{
    !(1..=Trace::SLOTS).contains(&size) || spare != 0
}

#[tactic(auto, unfolding(crate::specs::Setup::bad_size))]
fn is_bad_size(kind: Kind, n: usize, size: u32, spare: u32) -> bool
    ensures { result ≡ bad_size kind n size spare }
{
    match kind {
        Kind::Lock | Kind::Plain | Kind::Fast => is_out_of_limits(size, spare),
    }
}

fn is_proposing(kind: Kind) -> bool
    ensures { result ≡ proposes kind }
{
    matches!(kind, Kind::Plain | Kind::Fast)
}

fn is_no_start(proposal: bool, size: u8, x: u8) -> bool
    ensures { result ≡ no_start proposal size x }
{
    if proposal {
        return x < 1 || size < x;
    }
    size <= x
}

// Whether some byte of s is no start byte. It stops at none, and asks for the kind only once, so that many are looked at at once.
#[tactic(auto, using(std::proofs::lemmas::List::Folds::list_any_more, crate::proofs::SetupLaws::all_starts))]
fn any_bad_start(kind: Kind, size: u8, spare: u8, s: &[u8]) -> bool
    ensures { result ≡ any_bad_start kind size spare s.now }
{
    let proposal = is_proposing(kind);
    let mut bad = false;
    for &x in s {
        bad |= is_no_start(proposal, size, x);
    }
    bad
}

// 3, 4 and 5: what the reader and the writer ask alike.
fn setup_limits(most: u32, kind: u32, n: usize, size: u32, spare: u32) -> Result<(), Refusal>
    ensures { refusal_in result ≡ setup_limits most kind n size spare }
{
    let kind = Kind::try_from(kind)?;
    if !(1..=most as usize).contains(&n) {
        return Err(Refusal::Processes);
    }
    if is_bad_size(kind, n, size, spare) {
        return Err(Refusal::Size);
    }
    Ok(())
}

// 6.
fn start_refusal(kind: Kind, size: u8, spare: u8, starts: &[u8]) -> Result<(), Refusal>
    ensures { refusal_in result ≡ start_refusal kind size spare starts.now }
{
    if any_bad_start(kind, size, spare, starts) {
        return Err(Refusal::Start);
    }
    Ok(())
}

// READING

// 1 (8 bytes), 2, 3, 4, 5, 1 (8 + n): all that a setup is refused for but its start bytes.
fn head_refusal(most: u32, trace: &[u8]) -> Result<(), Refusal>
    ensures { refusal_in result ≡ head_refusal most trace.now }
{
    if trace.len() < 8 {
        return Err(Refusal::SetupCut);
    }
    if [trace[0], trace[1]] != MARK {
        return Err(Refusal::SetupMark);
    }
    let n = usize::from(trace[3]);
    setup_limits(
        most,
        u32::from(trace[2]),
        n,
        u32::from(trace[4]),
        u32::from(trace[5]),
    )?;
    if trace.len() < 8 + n {
        return Err(Refusal::SetupCut);
    }
    Ok(())
}

// And 6: all that a setup is refused for.
fn setup_refusal(most: u32, trace: &[u8]) -> Result<(), Refusal>
    ensures { refusal_in result ≡ setup_refusal most trace.now }
{
    head_refusal(most, trace)?;
    let kind = kinds::kind_of(u32::from(trace[2]));
    start_refusal(
        kind,
        trace[4],
        trace[5],
        &trace[8..8 + usize::from(trace[3])],
    )
}

// The start bytes in their places, 0 in those beyond them.
fn places(starts: &[u8]) -> [u8; PLACES]
    requires { length starts.now ≤ most_processes }
    ensures { result ≡ places most_processes starts.now }
{
    let mut places = [0; PLACES];
    places[..starts.len()].copy_from_slice(starts);
    places
}

// The setup that a trace begins with.
#[tactic(auto, using(crate::proofs::SetupLaws::unset, crate::proofs::SetupLaws::accepted_small), unfolding(crate::specs::Setup::setup_read))]
pub fn read_setup(trace: &[u8]) -> Result<Setup, Refusal>
    ensures { numbered result ≡ setup_read most_processes trace.now }
{
    setup_refusal(Trace::PROCESSES, trace)?;
    let end = 8 + usize::from(trace[3]);
    Ok(Setup {
        kind: kinds::kind_of(u32::from(trace[2])),
        processes: trace[3],
        size: trace[4],
        delta: terms::u16_of(trace[6], trace[7]),
        starts: places(&trace[8..end]),
    })
}

// The rest of a trace after its setup; on refusal the empty part at the trace's beginning.
#[tactic(auto, using(crate::proofs::SetupLaws::accepted_small), unfolding(crate::specs::Setup::setup_rest, crate::specs::Setup::rest_start))]
pub fn setup_rest(trace: &[u8]) -> &[u8]
    ensures bytes { result.now ≡ setup_rest most_processes trace.now }
    ensures place { result.ref_ptr ≡ (trace.entry.ref_ptr.0, rest_start most_processes trace.now + trace.entry.ref_ptr.1) }
{
    match setup_refusal(Trace::PROCESSES, trace) {
        Ok(()) => &trace[8 + usize::from(trace[3])..],
        Err(_) => &trace[..0],
    }
}

// WRITING

// 3, 4, 5, 6, 19 of a setup that is to be written to a buffer of `room` bytes.
fn setup_write_refusal(
    most: u32,
    kind: u32,
    size: u32,
    starts: &[u8],
    room: usize,
) -> Result<(), Refusal>
    ensures { refusal_in result ≡ setup_write_refusal most kind size starts.now room }
{
    let n = starts.len();
    setup_limits(most, kind, n, size, 0)?;
    start_refusal(kinds::kind_of(kind), size as u8, 0, starts)?;
    if room < 8 + n {
        return Err(Refusal::BufferShort);
    }
    Ok(())
}

// Copies N to 2 N bytes: the first N and the last N, some of which may be the same ones.
fn copy_ends<const N: usize>(from: &[u8], to: &mut [u8])
    requires near { (N ≤ length from.now) × (length from.now ≤ N + N) }
    requires same { length from.now ≡ length to.old }
    ensures { to.new ≡ from.now }
{
    *to.first_chunk_mut::<N>().unwrap() = *from.first_chunk::<N>().unwrap();
    *to.last_chunk_mut::<N>().unwrap() = *from.last_chunk::<N>().unwrap();
}

// Copies few bytes without the call that `copy_from_slice` makes, which took a fifth of the writer's time.
fn copy_few(from: &[u8], to: &mut [u8])
    requires few { length from.now ≤ most_processes }
    requires same { length from.now ≡ length to.old }
    ensures { to.new ≡ from.now }
{
    match from.len() {
        0 => {}
        1 => copy_ends::<1>(from, to),
        2..=3 => copy_ends::<2>(from, to),
        4..=7 => copy_ends::<4>(from, to),
        8..=15 => copy_ends::<8>(from, to),
        _ => copy_ends::<16>(from, to),
    }
}

// Writes a setup of as many processes as start bytes are lent, over the buffer's first bytes. Kind and size are numbers, since a writer is
// given any (3, 5).
#[tactic(auto, using(crate::proofs::SetupLaws::writes_small))]
pub fn write_setup(kind: u32, size: u32, delta: u16, starts: &[u8], buffer: &mut [u8]) -> Written
    ensures { WroteSetup most_processes kind size delta starts.now buffer.old (numbered result) buffer.new }
{
    setup_write_refusal(Trace::PROCESSES, kind, size, starts, buffer.len())?;
    let n = starts.len();
    let [low, high] = terms::u16_bytes(delta);
    *buffer.first_chunk_mut::<8>().unwrap() = [
        MARK[0], MARK[1], kind as u8, n as u8, size as u8, 0, low, high,
    ];
    copy_few(starts, &mut buffer[8..8 + n]);
    Ok(8 + n)
}
