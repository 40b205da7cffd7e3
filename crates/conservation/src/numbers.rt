// Replaying a list with the answer as a number, the refusal's or 0, for callers that hand it on.
ghost use Rattle.std.specs.Prelude.{◌≡◌};
ghost use Rattle.conservation_spec.specs.Replay.{ReplaysNumbered};

pub fn replay(
    operations: &[u32],
    xs: &[u32],
    ys: &[u32],
    counts: &[u32],
    words: &mut [u32],
    first: &mut [u32],
    other: &mut [u32],
) -> u32
    ensures { ReplaysNumbered
        (record { operations = operations.entry.now; xs = xs.now; ys = ys.now; counts = counts.now })
        (record { words = words.entry.now; totals = record { first = first.entry.now; other = other.old } })
        result
        (record { words = words.exit.now; totals = record { first = first.exit.now; other = other.new } }) }
{
    match crate::replay(operations, xs, ys, counts, words, first, other) {
        Ok(()) => 0,
        Err(why) => u32::from(why),
    }
}
