//! The flow of many places at once: each place passes on what it has as soon as all that drains to it has come in. The places
//! are those of bands of rows, one after another. One that drains to a row that isn't among them stays ready.
ghost use Rattle.std.specs.Prelude.{◌≡◌, ◌<◌, ◌≤◌, ◌+◌, ◌*◌, ℕ, pos, ◌+ℤ◌, ◌≤ℤ◌, length, take, sum_by, IfSome, None, Some};
ghost use Rattle.drainage_flow.specs.Nets.{Net};
ghost use Rattle.drainage_flow.specs.Pouring.{down_in, flow_in, wait_in, place_in, number_to, waited, most_load, Places, ArePools, AddsWaits, Passes};
ghost use Rattle.drainage_flow.specs.FlowBands.{all_downs, all_waits, all_flows, counts_of, AreEven, IsSeat};

use crate::flow_band::FlowBand;

/// The number of a place among so many from `first` on, where it is one of them.
fn place_in(first: u32, count: usize, at: u32) -> Option<u32>
    ensures { result ≡ place_in first count at }
{
    if at < first {
        return None;
    }
    let place = at - first;
    if (place as usize) < count {
        Some(place)
    } else {
        None
    }
}

/// The band that has a place of all, and where in it.
pub(crate) fn seat(bands: &[FlowBand], at: u32) -> (usize, usize)
    requires { at < length (all_downs bands.now) }
    ensures seat { IsSeat (counts_of bands.now) at result.0 result.1 }
    ensures band { result.0 < length bands.now }
{
    let mut rest = at as usize;
    for k in 0..bands.len() {
        let count = bands[k].count();
        if rest < count {
            return (k, rest);
        }
        rest -= count;
    }
    unreachable!()
}

/// Passes on what a place has. Gives the place downstream, where that waits for nothing more.
fn pass_on(bands: &mut [FlowBand], first: u32, count: usize, at: u32) -> Option<u32>
    requires even { AreEven bands.old }
    requires count { count ≡ length (all_downs bands.old) }
    requires at { at < count }
    requires low { IfSome (down_in (all_downs bands.old) at) (λ d. IfSome (place_in first count d) (λ k. pos 0 ≤ℤ (flow_in (all_flows bands.old) k +ℤ flow_in (all_flows bands.old) at +ℤ most_load))) }
    requires high { IfSome (down_in (all_downs bands.old) at) (λ d. IfSome (place_in first count d) (λ k. (flow_in (all_flows bands.old) k +ℤ flow_in (all_flows bands.old) at) ≤ℤ most_load)) }
    ensures even { AreEven bands.new }
    ensures counts { counts_of bands.new ≡ counts_of bands.old }
    ensures passes { Passes first (down_in (all_downs bands.old) at) at (all_downs bands.old) (all_waits bands.old) (all_flows bands.old) (all_downs bands.new) (all_waits bands.new) (all_flows bands.new) result }
{
    let (k, i) = seat(bands, at);
    let Some(down) = bands[k].down(i) else {
        return None;
    };
    let Some(next) = place_in(first, count, down) else {
        bands[k].stop(i);
        return None;
    };
    let (m, j) = seat(bands, next);
    let amount = bands[k].leave(i);
    if bands[m].take_in(j, amount) {
        return Some(next);
    }
    None
}

/// Passes on what a place has, and what each place downstream has as long as that waits for nothing more.
fn run_down(bands: &mut [FlowBand], first: u32, count: usize, start: u32)
    requires even { AreEven bands.old }
    requires count { count ≡ length (all_downs bands.old) }
    requires within { start < count }
    requires pools { (g : Net) × (r : Places) × (n : ℕ) × (end : ℕ) × ArePools g r first n end (Some (first + start)) (all_downs bands.old) (all_waits bands.old) (all_flows bands.old) }
    ensures even { AreEven bands.new }
    ensures counts { counts_of bands.new ≡ counts_of bands.old }
    ensures pools { (g : Net) (r : Places) (n end : ℕ) → ArePools g r first n end (Some (first + start)) (all_downs bands.old) (all_waits bands.old) (all_flows bands.old) → ArePools g r first n end None (all_downs bands.new) (all_waits bands.new) (all_flows bands.new) }
{
    let mut at = start;
    while let Some(next) = pass_on(bands, first, count, at) {
        at = next;
    }
}

/// Lets what place `i` of a band has run down, where it is ready. It is place `start` of all.
fn run_from(bands: &mut [FlowBand], first: u32, count: usize, k: usize, i: usize, start: u32)
    requires even { AreEven bands.old }
    requires count { count ≡ length (all_downs bands.old) }
    requires band { k < length bands.old }
    requires seat { IsSeat (counts_of bands.old) start k i }
    requires pools { (g : Net) × (r : Places) × (n : ℕ) × ArePools g r first n start None (all_downs bands.old) (all_waits bands.old) (all_flows bands.old) }
    ensures even { AreEven bands.new }
    ensures counts { counts_of bands.new ≡ counts_of bands.old }
    ensures pools { (g : Net) (r : Places) (n : ℕ) → ArePools g r first n start None (all_downs bands.old) (all_waits bands.old) (all_flows bands.old) → ArePools g r first n (start + 1) None (all_downs bands.new) (all_waits bands.new) (all_flows bands.new) }
{
    if bands[k].start(i) {
        run_down(bands, first, count, start);
    }
}

/// Lets what the places of a band have run down as far as they go. They are those of all from `start` on. Gives where they end.
fn run_band(bands: &mut [FlowBand], first: u32, count: usize, k: usize, start: u32) -> u32
    requires even { AreEven bands.old }
    requires count { count ≡ length (all_downs bands.old) }
    requires few { count < 4294967296 }
    requires band { k < length bands.old }
    requires start { start ≡ sum_by (λ n. n) (take k (counts_of bands.old)) }
    requires pools { (g : Net) × (r : Places) × (n : ℕ) × ArePools g r first n start None (all_downs bands.old) (all_waits bands.old) (all_flows bands.old) }
    ensures even { AreEven bands.new }
    ensures counts { counts_of bands.new ≡ counts_of bands.old }
    ensures end { result ≡ sum_by (λ n. n) (take (k + 1) (counts_of bands.old)) }
    ensures pools { (g : Net) (r : Places) (n : ℕ) → ArePools g r first n start None (all_downs bands.old) (all_waits bands.old) (all_flows bands.old) → ArePools g r first n result None (all_downs bands.new) (all_waits bands.new) (all_flows bands.new) }
{
    let mut at = start;
    for i in 0..bands[k].count() {
        run_from(bands, first, count, k, i, at);
        at += 1;
    }
    at
}

/// Lets what all places have run down as far as they go.
pub(crate) fn run_all(bands: &mut [FlowBand], first: u32, count: usize)
    requires even { AreEven bands.old }
    requires count { count ≡ length (all_downs bands.old) }
    requires few { count < 4294967296 }
    requires pools { (g : Net) × (r : Places) × (n : ℕ) × ArePools g r first n 0 None (all_downs bands.old) (all_waits bands.old) (all_flows bands.old) }
    ensures even { AreEven bands.new }
    ensures counts { counts_of bands.new ≡ counts_of bands.old }
    ensures pools { (g : Net) (r : Places) (n : ℕ) → ArePools g r first n 0 None (all_downs bands.old) (all_waits bands.old) (all_flows bands.old) → ArePools g r first n count None (all_downs bands.new) (all_waits bands.new) (all_flows bands.new) }
{
    let mut at = 0;
    for k in 0..bands.len() {
        at = run_band(bands, first, count, k, at);
    }
}

/// Counts the places of a list for those from `first` on that they drain to.
pub(crate) fn add_waits(waits: &mut [u32], first: u32, downs: &[Option<u32>])
    requires few { (n : ℕ) × ((k : ℕ) → wait_in waits.old k ≤ n) × (n + length downs.now < 4294967296) }
    ensures { AddsWaits downs.now (length downs.now) first waits.old waits.new }
{
    for at in 0..downs.len() {
        let down = downs[at];
        add_wait(waits, first, down);
    }
}

/// One more place drains to this one, which counts where it is one of those from `first` on.
fn add_wait(waits: &mut [u32], first: u32, down: Option<u32>)
    requires few { (k : ℕ) → wait_in waits.old k < 4294967295 }
    ensures { waits.new ≡ waited (number_to first (length waits.old) down) waits.old }
{
    let Some(at) = down else {
        return;
    };
    if let Some(place) = place_in(first, waits.len(), at) {
        waits[place as usize] += 1;
    }
}
