//! The flow within a band of rows.
ghost use Rattle.std.specs.Prelude.{◌≡◌, ◌<◌, pos, ◌+ℤ◌, ◌≤ℤ◌, length, slice_set, None};
ghost use Rattle.drainage_flow.specs.Pouring.{down_in, flow_in, wait_in, most_load, TakesIn, Starts};

/// Some rows of a map while its flow is found: where each place drains to, how many places it waits for, and what it has. Some may have
/// passed on what they have; which, is free.
#[derive(Drop)]
pub struct FlowBand {
    pub(crate) downs: Vec<Option<u32>>,
    pub(crate) waits: Vec<u32>,
    pub(crate) flows: Vec<i128>,
}

impl FlowBand {
    /// How many places it has.
    pub(crate) fn count(&self) -> usize
        ensures { result ≡ length self.now.downs.items }
    {
        self.downs.len()
    }

    /// Where a place drains to, as long as it has not passed on what it has.
    pub(crate) fn down(&self, at: usize) -> Option<u32>
        requires { at < length self.now.downs.items }
        ensures { result ≡ down_in self.now.downs.items at }
    {
        self.downs[at]
    }

    /// What a place has.
    pub(crate) fn flow(&self, at: usize) -> i128
        requires { at < length self.now.flows.items }
        ensures { result ≡ flow_in self.now.flows.items at }
    {
        self.flows[at]
    }

    /// A place passes on what it has.
    pub(crate) fn leave(&mut self, at: usize) -> i128
        requires down { at < length self.old.downs.items }
        requires flow { at < length self.old.flows.items }
        ensures downs { self.new.downs.items ≡ slice_set self.old.downs.items at None }
        ensures waits { self.new.waits.items ≡ self.old.waits.items }
        ensures flows { self.new.flows.items ≡ self.old.flows.items }
        ensures amount { result ≡ flow_in self.old.flows.items at }
    {
        self.downs[at] = None;
        self.flows[at]
    }

    /// An amount comes to a place. Whether it waits for nothing more.
    pub(crate) fn take_in(&mut self, at: usize, amount: i128) -> bool
        requires wait { at < length self.old.waits.items }
        requires flow { at < length self.old.flows.items }
        requires low { pos 0 ≤ℤ (flow_in self.old.flows.items at +ℤ amount +ℤ most_load) }
        requires high { (flow_in self.old.flows.items at +ℤ amount) ≤ℤ most_load }
        ensures downs { self.new.downs.items ≡ self.old.downs.items }
        ensures waits { TakesIn self.old.waits.items at self.new.waits.items result }
        ensures flows { self.new.flows.items ≡ slice_set self.old.flows.items at (flow_in self.old.flows.items at +ℤ amount) }
    {
        self.flows[at] += amount;
        if self.waits[at] > 1 {
            self.waits[at] -= 1;
            return false;
        }
        true
    }

    /// A place stays ready, since it drains to no place that is at hand.
    pub(crate) fn stop(&mut self, at: usize)
        requires { at < length self.old.waits.items }
        ensures downs { self.new.downs.items ≡ self.old.downs.items }
        ensures waits { self.new.waits.items ≡ slice_set self.old.waits.items at 0 }
        ensures flows { self.new.flows.items ≡ self.old.flows.items }
    {
        self.waits[at] = 0;
    }

    /// Whether a place is ready; from then on it is begun.
    pub(crate) fn start(&mut self, at: usize) -> bool
        requires { at < length self.old.waits.items }
        ensures downs { self.new.downs.items ≡ self.old.downs.items }
        ensures waits { Starts self.old.waits.items at self.new.waits.items result }
        ensures flows { self.new.flows.items ≡ self.old.flows.items }
    {
        if self.waits[at] != 0 {
            return false;
        }
        self.waits[at] = 1;
        true
    }
}
