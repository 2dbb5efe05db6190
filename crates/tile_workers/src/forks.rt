//! Calls side by side, each on a thread of its own.
ghost use Rattle.std.specs.Prelude.{◌≡◌, ℕ, ◌+◌, ◌^◌, ◌<◌, length, slice_index_or};
ghost use denote.Param.Send.{IsSync, IsSend};
ghost use Rattle.std.specs.Fork.{AcceptsAt, ChangesAt, AcceptsEach, ChangesEach};
ghost use Rattle.tile_workers.specs.Forks.{AreAccepted, AreChanged};

use std::thread::{Threads, join_mut};

/// Calls f(i, &mut s[i]) at each place, each on a thread of its own where one can be started. Of two calls the caller's thread does
/// the second; else it starts them all and does nothing beside them: a new thread often begins on the processor of the one that starts
/// it, and waits there for milliseconds where that one works on.
pub(crate) fn fork_each<R: Threads + Sync, T: Send, F: Fn(usize, &mut T) + Sync>(
    rt: &R,
    s: &mut [T],
    f: &F,
)
    requires accepts { AcceptsEach F.Fn f.now s.old }
    ensures { ChangesEach F.Fn f.now s.old s.new }
{
    fork_from(rt, f, 0, s);
}

fn at_one<T, F: Fn(usize, &mut T)>(f: &F, i: usize, it: &mut T)
    requires { AcceptsAt F.Fn f.now i it.old }
    ensures { ChangesAt F.Fn f.now i it.old it.new }
{
    f(i, it);
}

// At the one place of a list.
fn at_only<T, F: Fn(usize, &mut T)>(f: &F, i: usize, s: &mut [T])
    requires one { length s.old ≡ 1 }
    requires accepts { AreAccepted (AcceptsAt F.Fn f.now) i s.old }
    ensures { AreChanged (ChangesAt F.Fn f.now) i s.old s.new }
{
    at_one(f, i, &mut s[0]);
}

// Of the places from `base` on. The second of two is done here: one thread costs less than two, and beside one other it doesn't wait.
#[cycle(forks)]
fn fork_from<R: Threads + Sync, T: Send, F: Fn(usize, &mut T) + Sync>(
    rt: &R,
    f: &F,
    base: usize,
    s: &mut [T],
)
    requires { AreAccepted (AcceptsAt F.Fn f.now) base s.old }
    ensures { AreChanged (ChangesAt F.Fn f.now) base s.old s.new }
{
    if s.is_empty() {
        return;
    }
    if base == 1 && s.len() == 1 {
        at_only(f, base, s);
        return;
    }
    let (a, b) = s.split_at_mut(1);
    fork_first(rt, f, base, a, base + 1, b);
}

// A separate function, so that what the closures require is what this function is given.
#[cycle(forks)]
fn fork_first<R: Threads + Sync, T: Send, F: Fn(usize, &mut T) + Sync>(
    rt: &R,
    f: &F,
    base: usize,
    a: &mut [T],
    up: usize,
    b: &mut [T],
)
    requires one { length a.old ≡ 1 }
    requires front { AreAccepted (AcceptsAt F.Fn f.now) base a.old }
    requires back { AreAccepted (AcceptsAt F.Fn f.now) up b.old }
    ensures front { AreChanged (ChangesAt F.Fn f.now) base a.old a.new }
    ensures back { AreChanged (ChangesAt F.Fn f.now) up b.old b.new }
{
    let mut front = ||
        requires { IsSync F.row × IsSend T.row × (length a.now ≡ 1) × AreAccepted (AcceptsAt F.Fn f.now) base a.now }
        ensures { AreChanged (ChangesAt F.Fn f.entry.now) base a.entry.now a.exit.now }
    { at_only(f, base, a) };
    let mut back = ||
        requires { IsSync R.row × IsSync F.row × IsSend T.row × AreAccepted (AcceptsAt F.Fn f.now) up b.now }
        ensures { AreChanged (ChangesAt F.Fn f.entry.now) up b.entry.now b.exit.now }
    { fork_from(rt, f, up, b) };
    join_mut(rt, &mut front, &mut back);
}
