//! The tally whose numbers can be read, forked and absorbed.
ghost use Rattle.std.specs.Prelude.{◌≡◌};

use layer_tiles::Tally;
use map_outside::Counts;

/// A tally as the engine's calls take it.
fn engine_tally<M: Tally + Send>(tally: M) -> M
    ensures { result ≡ tally }
{
    tally
}

#[test]
fn parts_are_absorbed(rt: HostRuntime) {
    let mut whole = engine_tally(Counts::new());
    whole.look();
    let mut part = whole.fork();
    part.look();
    part.pick();
    let apart = [whole.looks(), whole.picks(), part.looks(), part.picks()];
    assert_eq!(rt; apart, [1, 0, 1, 1]);
    whole.pick();
    whole.absorb(part);
    assert_eq!(rt; [whole.looks(), whole.picks()], [2, 2]);
}
